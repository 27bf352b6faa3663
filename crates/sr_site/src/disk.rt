ghost use Rattle.std.specs.Prelude.{◌≡◌, ◌≤◌, ◌∷◌, length, take, IsTrue, IfOk, OnOk, OnErr, is_ok};
ghost use Rattle.sr_site.specs.Happenings.{wrote, cut_to, synced};
ghost use Rattle.sr_site.specs.Files.{bytes_of, with_bytes, overwritten, IsTorn, IsCutInPart, OthersStay};
ghost use Rattle.sr_site.specs.Causes.{DiskStays, Rose};
ghost use Rattle.sr_site.specs.Reads.{HasRead};

use crate::file::File;
use crate::held::{Failed, Held};

/// Five files, each a run of bytes; a file that is not there has none.
///
/// Each call answers `Failed` only where the count of disk faults rose in it, and a call that succeeds leaves the count. A write, a cut and a
/// sync happen, whether they succeed or fail, with that outcome and with the file as a read gives it then; a read is no happening. After
/// `Failed` a write or cut may have happened in part; the other files stand as they were. So do, after a write, the bytes before the place and
/// behind the range that was to be written, and after a cut the bytes that were to stay: the file is then no longer than it was. What a write
/// or cut left is durable once a later `sync` of that file has succeeded.
pub trait Disk: Held {
    /// The file's length in bytes.
    fn length(&mut self, file: File) -> Result<u64, Failed>
        ensures length { IsTrue (Self.seen self.old).observable → IfOk result (λ n. n ≡ length (bytes_of (Self.seen self.old).files file)) }
        ensures files { IsTrue (Self.seen self.old).observable → (Self.seen self.new).files ≡ (Self.seen self.old).files }
        ensures happened { IsTrue (Self.seen self.old).observable → (Self.seen self.new).happened ≡ (Self.seen self.old).happened }
        ensures stays { DiskStays (Self.seen self.old) (Self.seen self.new) }
        ensures steady { OnOk result ((Self.seen self.new).disk_faults ≡ (Self.seen self.old).disk_faults) }
        ensures cause { OnErr result (Rose (Self.seen self.old).disk_faults (Self.seen self.new).disk_faults) };

    /// Fills the front of `buffer` with the file's bytes from the place `at` on, and answers how many: the smaller of the buffer's length and the
    /// file's rest.
    fn read_at(&mut self, file: File, at: u64, buffer: &mut [u8]) -> Result<usize, Failed>
        ensures within { IfOk result (λ n. n ≤ length buffer.old) }
        ensures read { IsTrue (Self.seen self.old).observable → IfOk result (λ n. HasRead (bytes_of (Self.seen self.old).files file) at (length buffer.old) n buffer.new) }
        ensures files { IsTrue (Self.seen self.old).observable → (Self.seen self.new).files ≡ (Self.seen self.old).files }
        ensures happened { IsTrue (Self.seen self.old).observable → (Self.seen self.new).happened ≡ (Self.seen self.old).happened }
        ensures stays { DiskStays (Self.seen self.old) (Self.seen self.new) }
        ensures steady { OnOk result ((Self.seen self.new).disk_faults ≡ (Self.seen self.old).disk_faults) }
        ensures cause { OnErr result (Rose (Self.seen self.old).disk_faults (Self.seen self.new).disk_faults) };

    /// Puts `bytes` at the place `at`, over what is there and past the end.
    fn write_at(&mut self, file: File, at: u64, bytes: &[u8]) -> Result<(), Failed>
        requires { IsTrue (Self.seen self.old).observable → at ≤ length (bytes_of (Self.seen self.old).files file) }
        ensures written { IsTrue (Self.seen self.old).observable → OnOk result ((Self.seen self.new).files ≡ with_bytes (Self.seen self.old).files file (overwritten (bytes_of (Self.seen self.old).files file) at bytes.now)) }
        ensures torn { IsTrue (Self.seen self.old).observable → OnErr result (IsTorn at (length bytes.now) (bytes_of (Self.seen self.old).files file) (bytes_of (Self.seen self.new).files file)) }
        ensures others { IsTrue (Self.seen self.old).observable → OthersStay file (Self.seen self.old).files (Self.seen self.new).files }
        ensures happened { IsTrue (Self.seen self.old).observable → (Self.seen self.new).happened ≡ wrote file at bytes.now (is_ok result) (bytes_of (Self.seen self.new).files file) ∷ (Self.seen self.old).happened }
        ensures stays { DiskStays (Self.seen self.old) (Self.seen self.new) }
        ensures steady { OnOk result ((Self.seen self.new).disk_faults ≡ (Self.seen self.old).disk_faults) }
        ensures cause { OnErr result (Rose (Self.seen self.old).disk_faults (Self.seen self.new).disk_faults) };

    /// Cuts the file to its first `to` bytes.
    fn cut(&mut self, file: File, to: u64) -> Result<(), Failed>
        requires { IsTrue (Self.seen self.old).observable → to ≤ length (bytes_of (Self.seen self.old).files file) }
        ensures cut { IsTrue (Self.seen self.old).observable → OnOk result ((Self.seen self.new).files ≡ with_bytes (Self.seen self.old).files file (take to (bytes_of (Self.seen self.old).files file))) }
        ensures torn { IsTrue (Self.seen self.old).observable → OnErr result (IsCutInPart to (bytes_of (Self.seen self.old).files file) (bytes_of (Self.seen self.new).files file)) }
        ensures others { IsTrue (Self.seen self.old).observable → OthersStay file (Self.seen self.old).files (Self.seen self.new).files }
        ensures happened { IsTrue (Self.seen self.old).observable → (Self.seen self.new).happened ≡ cut_to file to (is_ok result) (bytes_of (Self.seen self.new).files file) ∷ (Self.seen self.old).happened }
        ensures stays { DiskStays (Self.seen self.old) (Self.seen self.new) }
        ensures steady { OnOk result ((Self.seen self.new).disk_faults ≡ (Self.seen self.old).disk_faults) }
        ensures cause { OnErr result (Rose (Self.seen self.old).disk_faults (Self.seen self.new).disk_faults) };

    /// Makes the file's bytes durable: after it a crash leaves what a read gives.
    fn sync(&mut self, file: File) -> Result<(), Failed>
        ensures files { IsTrue (Self.seen self.old).observable → (Self.seen self.new).files ≡ (Self.seen self.old).files }
        ensures happened { IsTrue (Self.seen self.old).observable → (Self.seen self.new).happened ≡ synced file (is_ok result) (bytes_of (Self.seen self.old).files file) ∷ (Self.seen self.old).happened }
        ensures stays { DiskStays (Self.seen self.old) (Self.seen self.new) }
        ensures steady { OnOk result ((Self.seen self.new).disk_faults ≡ (Self.seen self.old).disk_faults) }
        ensures cause { OnErr result (Rose (Self.seen self.old).disk_faults (Self.seen self.new).disk_faults) };
}
