use crate::disk::MemoryDisk;
use crate::turns::Turns;
use sr_base::{NoMemory, Text};
use sr_memsite_mail::SharedMail;
use sr_site::{Held, MailFault, Site};
use std::alloc::Global;

mod disk;
mod mail;
mod way;

/// A site in memory. It tells its files, and each call since they began.
#[derive(Drop)]
pub struct MemorySite {
    disk: MemoryDisk,
    mail: SharedMail,
    turns: Turns,
    disk_faults: u64,
    mail_faults: u64,
    /// A write has failed for want of memory.
    wanted: bool,
}

impl Held for MemorySite {
    ghost use Rattle.sr_memsite_disk.proofs.Standing.{standing_is_image};
    ghost use Rattle.sr_memsite.specs.Inner.Meaning.{seen_of};

    ghost seen = { seen_of };

    ghost read_is_image = { λ site told. standing_is_image site.disk.first site.disk.happened };
}

impl MemorySite {
    ghost use Rattle.std.specs.Prelude.{◌≡◌, ◌≤◌, [], false, IsTrue, IsFalse, OnOk, OnErr};
    ghost use Rattle.sr_site.specs.Causes.{Rose};
    ghost use Rattle.sr_memsite.specs.Meaning.{begun};
    ghost use Rattle.sr_memsite.specs.Inner.Meaning.{seen_of, disk_of, folders_of, numbering_of, parts_of, wanted_of};
    ghost use Rattle.sr_memsite.specs.Disks.{begun_with};
    ghost use Rattle.sr_memsite.specs.Inner.Disks.{HasCrashed};
    ghost use Rattle.sr_memsite.specs.Inner.Numbering.{failing_at};
    ghost use Rattle.sr_memsite_disk.specs.Stores.{no_bytes};

    /// A site with empty files over the folders of `mail`. It takes no memory.
    pub fn new(alloc: Global, mail: SharedMail) -> MemorySite
        ensures seen { seen_of result ≡ begun (begun_with no_bytes) }
        ensures folders { folders_of result ≡ mail }
        ensures numbering { numbering_of result ≡ failing_at [] }
        ensures wanted { wanted_of result ≡ false }
    {
        MemorySite::with(MemoryDisk::new(alloc), mail)
    }

    /// A site with these files over these folders, as they stand, what is not yet synced included. No call fails.
    pub fn with(disk: MemoryDisk, mail: SharedMail) -> MemorySite
        ensures seen { seen_of result ≡ begun disk }
        ensures parts { parts_of result ≡ (disk, mail) }
        ensures numbering { numbering_of result ≡ failing_at [] }
        ensures wanted { wanted_of result ≡ false }
    {
        let turns = Turns::new(disk.alloc());
        MemorySite {
            disk,
            mail,
            turns,
            disk_faults: 0,
            mail_faults: 0,
            wanted: false,
        }
    }

    /// Whether a write has failed for want of memory: no other call but those of the mail, which answer it, asks for any.
    pub fn wanted_memory(&self) -> bool
        ensures wanted { result ≡ wanted_of self.now }
    {
        self.wanted
    }

    /// How many calls of the disk and of `attach` have failed, as far as 2^64 - 1.
    pub fn disk_faults(&self) -> u64
        ensures count { result ≡ (seen_of self.now).disk_faults }
    {
        self.disk_faults
    }

    /// How many calls of the mail have failed, as far as 2^64 - 1.
    pub fn mail_faults(&self) -> u64
        ensures count { result ≡ (seen_of self.now).mail_faults }
    {
        self.mail_faults
    }

    /// The files and the folders as they stand, what is not yet synced included.
    pub fn apart(self) -> (MemoryDisk, SharedMail)
        ensures parts { result ≡ parts_of self }
    {
        (self.disk, self.mail)
    }

    /// Makes the calls with these numbers fail. From now on each call of `Disk`, of `Mail` and of `attach` counts one, the first one is 1.
    /// For want of memory all stays as it was.
    pub fn fail_calls(&mut self, alloc: Global, calls: &[u64]) -> Result<(), NoMemory>
        ensures numbering { OnOk result (numbering_of self.new ≡ failing_at calls.now) }
        ensures err { OnErr result (numbering_of self.new ≡ numbering_of self.old) }
        ensures seen { seen_of self.new ≡ seen_of self.old }
        ensures folders { folders_of self.new ≡ folders_of self.old }
        ensures wanted { wanted_of self.new ≡ wanted_of self.old }
    {
        self.turns = Turns::failing(alloc, calls)?;
        Ok(())
    }

    /// Makes every call fail but the next `calls`: from now on each call counts one, as for `fail_calls`, whose list stands.
    pub fn stop_after(&mut self, calls: u64)
        ensures numbering { numbering_of self.new ≡ record (numbering_of self.old) { made = 0; stop = calls } }
        ensures seen { seen_of self.new ≡ seen_of self.old }
        ensures folders { folders_of self.new ≡ folders_of self.old }
        ensures wanted { wanted_of self.new ≡ wanted_of self.old }
    {
        self.turns.stop_after(calls);
    }

    /// A crash: it puts one of the things in place that it may leave of the files, and all begins anew, the counts of faults aside. At `pick`
    /// 0 each file is as its last sync left it, at 1 as it stood; else the pick's digits say what became of each write and cut since then, as
    /// `MemoryDisk::crash` has it. For want of memory all stays as it was.
    pub fn crash(&mut self, alloc: Global, pick: u64) -> Result<(), NoMemory>
        ensures crashed { OnOk result (HasCrashed pick (disk_of self.old) (disk_of self.new)) }
        ensures err { OnErr result (disk_of self.new ≡ disk_of self.old) }
        ensures told { IsTrue (seen_of self.new).observable }
        ensures counts { ((seen_of self.new).disk_faults ≡ (seen_of self.old).disk_faults) × ((seen_of self.new).mail_faults ≡ (seen_of self.old).mail_faults) }
        ensures numbering { numbering_of self.new ≡ numbering_of self.old }
        ensures folders { folders_of self.new ≡ folders_of self.old }
        ensures wanted { wanted_of self.new ≡ wanted_of self.old }
    {
        self.disk.crash(alloc, pick)
    }

    /// Counts a fault of the disk where its call failed.
    fn count_disk(&mut self, failed: bool)
        ensures turns { self.new.turns ≡ self.old.turns }
        ensures disk { self.new.disk ≡ self.old.disk }
        ensures mail { self.new.mail ≡ self.old.mail }
        ensures later { self.old.disk_faults ≤ self.new.disk_faults }
        ensures rose { IsTrue failed → Rose self.old.disk_faults self.new.disk_faults }
        ensures steady { IsFalse failed → self.new.disk_faults ≡ self.old.disk_faults }
        ensures mail_faults { self.new.mail_faults ≡ self.old.mail_faults }
        ensures wanted { self.new.wanted ≡ self.old.wanted }
    {
        if failed {
            self.disk_faults = self.disk_faults.saturating_add(1);
        }
    }

    /// Counts a fault of the mail where its call failed.
    fn count_mail(&mut self, failed: bool)
        ensures turns { self.new.turns ≡ self.old.turns }
        ensures disk { self.new.disk ≡ self.old.disk }
        ensures mail { self.new.mail ≡ self.old.mail }
        ensures later { self.old.mail_faults ≤ self.new.mail_faults }
        ensures rose { IsTrue failed → Rose self.old.mail_faults self.new.mail_faults }
        ensures steady { IsFalse failed → self.new.mail_faults ≡ self.old.mail_faults }
        ensures disk_faults { self.new.disk_faults ≡ self.old.disk_faults }
        ensures wanted { self.new.wanted ≡ self.old.wanted }
    {
        if failed {
            self.mail_faults = self.mail_faults.saturating_add(1);
        }
    }
}

impl Site for MemorySite {
    ghost use Rattle.std.specs.Prelude.{◌≡◌, ◌∷◌, OnOk, OnErr, IfErr, IsErrOf, is_ok, is_err};
    ghost use Rattle.sr_site.specs.Causes.{DiskStays, Rose};
    ghost use Rattle.sr_site.specs.Happenings.{attached};
    ghost use Rattle.sr_site.specs.declared.mail.MailFault.TheVariants.{Memory as no_memory};
    ghost use Rattle.sr_memsite.specs.Inner.Meaning.{seen_of, folders_of, numbering_of, wanted_of};
    ghost use Rattle.sr_memsite.specs.Inner.Numbering.{fails, counted};

    /// Nothing needs to be opened. It fails only where `fail_calls` named it.
    fn attach(&mut self, _alloc: Global, name: &Text, mail: &Text) -> Result<(), MailFault>
        ensures fails { is_err result ≡ fails (numbering_of self.old) }
        ensures numbering { numbering_of self.new ≡ counted (numbering_of self.old) }
        ensures folders { folders_of self.new ≡ folders_of self.old }
        ensures wanted { wanted_of self.new ≡ wanted_of self.old }
        ensures files { (seen_of self.new).files ≡ (seen_of self.old).files }
        ensures attached { (seen_of self.new).happened ≡ attached name.now mail.now (is_ok result) ∷ (seen_of self.old).happened }
        ensures stays { DiskStays (seen_of self.old) (seen_of self.new) }
        ensures steady { OnOk result ((seen_of self.new).disk_faults ≡ (seen_of self.old).disk_faults) }
        ensures short { IsErrOf result no_memory → (seen_of self.new).disk_faults ≡ (seen_of self.old).disk_faults }
        ensures cause { OnErr result (Rose (seen_of self.old).disk_faults (seen_of self.new).disk_faults) }
        ensures failed { IfErr result (λ fault. fault ≡ MailFault.Failed) }
    {
        let fails = self.turns.next_fails();
        self.disk.note_attach(name, mail, !fails);
        self.count_disk(fails);
        if fails {
            return Err(MailFault::Failed);
        }
        Ok(())
    }
}
