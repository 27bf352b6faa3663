use super::MemorySite;
use crate::bytes::fill;
use sr_site::{Disk, Failed, File};

impl Disk for MemorySite {
    ghost use Rattle.std.specs.Prelude.{◌≡◌, ◌≤◌, ◌∷◌, ◌&&◌, ◌||◌, not, length, take, IsTrue, IfOk, OnOk, OnErr, IsErr, is_ok, is_err};
    ghost use Rattle.sr_site.specs.Happenings.{wrote, cut_to, synced};
    ghost use Rattle.sr_site.specs.Files.{bytes_of, with_bytes, overwritten, OthersStay};
    ghost use Rattle.sr_site.specs.Causes.{DiskStays, Rose};
    ghost use Rattle.sr_site.specs.Reads.{HasRead};
    ghost use Rattle.sr_memsite.specs.Inner.Meaning.{seen_of, folders_of, numbering_of, wanted_of};
    ghost use Rattle.sr_memsite.specs.Inner.Numbering.{fails, counted};

    fn length(&mut self, file: File) -> Result<u64, Failed>
        ensures length { IfOk result (λ n. n ≡ length (bytes_of (seen_of self.old).files file)) }
        ensures fails { is_err result ≡ fails (numbering_of self.old) }
        ensures files { (seen_of self.new).files ≡ (seen_of self.old).files }
        ensures happened { (seen_of self.new).happened ≡ (seen_of self.old).happened }
        ensures stays { DiskStays (seen_of self.old) (seen_of self.new) }
        ensures steady { OnOk result ((seen_of self.new).disk_faults ≡ (seen_of self.old).disk_faults) }
        ensures cause { OnErr result (Rose (seen_of self.old).disk_faults (seen_of self.new).disk_faults) }
        ensures numbering { numbering_of self.new ≡ counted (numbering_of self.old) }
        ensures wanted { wanted_of self.new ≡ wanted_of self.old }
        ensures folders { folders_of self.new ≡ folders_of self.old }
    {
        let fails = self.turns.next_fails();
        self.count_disk(fails);
        if fails {
            return Err(Failed);
        }
        Ok(self.disk.bytes(file).len() as u64)
    }

    fn read_at(&mut self, file: File, at: u64, buffer: &mut [u8]) -> Result<usize, Failed>
        ensures within { IfOk result (λ n. n ≤ length buffer.old) }
        ensures read { IfOk result (λ n. HasRead (bytes_of (seen_of self.old).files file) at (length buffer.old) n buffer.new) }
        ensures fails { is_err result ≡ fails (numbering_of self.old) }
        ensures files { (seen_of self.new).files ≡ (seen_of self.old).files }
        ensures happened { (seen_of self.new).happened ≡ (seen_of self.old).happened }
        ensures stays { DiskStays (seen_of self.old) (seen_of self.new) }
        ensures steady { OnOk result ((seen_of self.new).disk_faults ≡ (seen_of self.old).disk_faults) }
        ensures cause { OnErr result (Rose (seen_of self.old).disk_faults (seen_of self.new).disk_faults) }
        ensures numbering { numbering_of self.new ≡ counted (numbering_of self.old) }
        ensures wanted { wanted_of self.new ≡ wanted_of self.old }
        ensures folders { folders_of self.new ≡ folders_of self.old }
    {
        let fails = self.turns.next_fails();
        self.count_disk(fails);
        if fails {
            return Err(Failed);
        }
        let bytes = self.disk.bytes(file);
        let (_, rest) = bytes.split_at(bytes.len().min(at as usize));
        Ok(fill(buffer, rest))
    }

    /// It fails where it is to fail, and for want of memory, which the site tells.
    fn write_at(&mut self, file: File, at: u64, bytes: &[u8]) -> Result<(), Failed>
        requires { at ≤ length (bytes_of (seen_of self.old).files file) }
        ensures written { OnOk result ((seen_of self.new).files ≡ with_bytes (seen_of self.old).files file (overwritten (bytes_of (seen_of self.old).files file) at bytes.now)) }
        ensures err { OnErr result ((seen_of self.new).files ≡ (seen_of self.old).files) }
        ensures fails { IsTrue (fails (numbering_of self.old)) → IsErr result }
        ensures others { OthersStay file (seen_of self.old).files (seen_of self.new).files }
        ensures happened { (seen_of self.new).happened ≡ wrote file at bytes.now (is_ok result) (bytes_of (seen_of self.new).files file) ∷ (seen_of self.old).happened }
        ensures stays { DiskStays (seen_of self.old) (seen_of self.new) }
        ensures steady { OnOk result ((seen_of self.new).disk_faults ≡ (seen_of self.old).disk_faults) }
        ensures cause { OnErr result (Rose (seen_of self.old).disk_faults (seen_of self.new).disk_faults) }
        ensures numbering { numbering_of self.new ≡ counted (numbering_of self.old) }
        ensures wanted { wanted_of self.new ≡ (wanted_of self.old || (is_err result && not (fails (numbering_of self.old)))) }
        ensures folders { folders_of self.new ≡ folders_of self.old }
    {
        let fails = self.turns.next_fails();
        let answer = self.disk.write(file, at, bytes, fails);
        self.wanted = self.wanted || (answer.is_err() && !fails);
        self.count_disk(answer.is_err());
        answer
    }

    fn cut(&mut self, file: File, to: u64) -> Result<(), Failed>
        requires { to ≤ length (bytes_of (seen_of self.old).files file) }
        ensures cut { OnOk result ((seen_of self.new).files ≡ with_bytes (seen_of self.old).files file (take to (bytes_of (seen_of self.old).files file))) }
        ensures err { OnErr result ((seen_of self.new).files ≡ (seen_of self.old).files) }
        ensures fails { is_err result ≡ fails (numbering_of self.old) }
        ensures others { OthersStay file (seen_of self.old).files (seen_of self.new).files }
        ensures happened { (seen_of self.new).happened ≡ cut_to file to (is_ok result) (bytes_of (seen_of self.new).files file) ∷ (seen_of self.old).happened }
        ensures stays { DiskStays (seen_of self.old) (seen_of self.new) }
        ensures steady { OnOk result ((seen_of self.new).disk_faults ≡ (seen_of self.old).disk_faults) }
        ensures cause { OnErr result (Rose (seen_of self.old).disk_faults (seen_of self.new).disk_faults) }
        ensures numbering { numbering_of self.new ≡ counted (numbering_of self.old) }
        ensures wanted { wanted_of self.new ≡ wanted_of self.old }
        ensures folders { folders_of self.new ≡ folders_of self.old }
    {
        let fails = self.turns.next_fails();
        let answer = self.disk.cut(file, to, fails);
        self.count_disk(fails);
        answer
    }

    fn sync(&mut self, file: File) -> Result<(), Failed>
        ensures files { (seen_of self.new).files ≡ (seen_of self.old).files }
        ensures fails { is_err result ≡ fails (numbering_of self.old) }
        ensures others { OthersStay file (seen_of self.old).files (seen_of self.new).files }
        ensures happened { (seen_of self.new).happened ≡ synced file (is_ok result) (bytes_of (seen_of self.old).files file) ∷ (seen_of self.old).happened }
        ensures stays { DiskStays (seen_of self.old) (seen_of self.new) }
        ensures steady { OnOk result ((seen_of self.new).disk_faults ≡ (seen_of self.old).disk_faults) }
        ensures cause { OnErr result (Rose (seen_of self.old).disk_faults (seen_of self.new).disk_faults) }
        ensures numbering { numbering_of self.new ≡ counted (numbering_of self.old) }
        ensures wanted { wanted_of self.new ≡ wanted_of self.old }
        ensures folders { folders_of self.new ≡ folders_of self.old }
    {
        let fails = self.turns.next_fails();
        let answer = self.disk.sync(file, fails);
        self.count_disk(fails);
        answer
    }
}
