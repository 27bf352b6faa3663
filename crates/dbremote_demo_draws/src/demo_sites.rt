ghost use Rattle.std.specs.Prelude.{◌≡◌};
ghost use Rattle.dbremote_demo_draws.specs.Places.{disk_at, nothing_made, with_disk};

use crate::demo_site::DemoSite;
use sr_memsite::{MemoryDisk, SharedMail};
use std::alloc::Global;
use std::mem::replace;

/// The files of the four databases, and the mail between them.
#[derive(Drop)]
pub struct DemoSites {
    pub cons: MemoryDisk,
    pub r1: MemoryDisk,
    pub r2: MemoryDisk,
    pub r3: MemoryDisk,
    pub mail: SharedMail,
}

impl DemoSites {
    /// No files, and no mail so far. It takes no memory.
    pub fn new(alloc: Global) -> DemoSites
        ensures nothing { result ≡ nothing_made }
    {
        DemoSites {
            cons: MemoryDisk::new(alloc),
            r1: MemoryDisk::new(alloc),
            r2: MemoryDisk::new(alloc),
            r3: MemoryDisk::new(alloc),
            mail: SharedMail::new(alloc),
        }
    }

    /// Puts other files in the place of a database's, and answers those.
    pub fn swap_disk(&mut self, demo_site: DemoSite, disk: MemoryDisk) -> MemoryDisk
        ensures before { result ≡ disk_at demo_site self.old }
        ensures swapped { self.new ≡ with_disk demo_site disk self.old }
    {
        match demo_site {
            DemoSite::Cons => replace(&mut self.cons, disk),
            DemoSite::R1 => replace(&mut self.r1, disk),
            DemoSite::R2 => replace(&mut self.r2, disk),
            DemoSite::R3 => replace(&mut self.r3, disk),
        }
    }

    /// Puts other mail in the place of this one, and answers this one.
    pub fn swap_mail(&mut self, mail: SharedMail) -> SharedMail
        ensures before { result ≡ self.old.mail }
        ensures swapped { self.new ≡ record self.old { mail = mail } }
    {
        replace(&mut self.mail, mail)
    }
}
