//! A site in memory that is handed its folders, and that nobody else changes while it has them.

use crate::disk::MemoryDisk;
use crate::site::MemorySite;
use sr_base::{Name, Text};
use sr_memsite_mail::SharedMail;
use sr_site::{Disk, Failed, File, Held, Listing, Mail, MailFault, Site};
use std::alloc::Global;
use std::marker::Model;

/// A site in memory that says what lies in its folders as it is handed them. So what lies there is what happened to that since, and each fetch gave what
/// lay there.
#[derive(Drop)]
pub struct HandedSite {
    site: MemorySite,
}

impl Model for HandedSite {
    ghost use Rattle.sr_memsite.specs.declared.site.MemorySite.{MemorySite};
    ghost use Rattle.sr_memsite.specs.Inner.HandedSites.{HasHanded};

    ghost Value = { MemorySite };

    ghost view = { λ handed. handed.site };

    ghost invariant = { λ handed. HasHanded handed.site };
}

impl Held for HandedSite {
    ghost use Rattle.sr_memsite_disk.proofs.Standing.{standing_is_image};
    ghost use Rattle.sr_memsite.specs.Inner.Meaning.{seen_of};

    ghost seen = { seen_of };

    ghost read_is_image = { λ site told. standing_is_image site.disk.first site.disk.happened };
}

impl HandedSite {
    ghost use Rattle.std.specs.Prelude.{◌≡◌};
    ghost use Rattle.sr_memsite.specs.Handing.{AreAsHappened, IsTruthful, handed};
    ghost use Rattle.sr_memsite.specs.Inner.Meaning.{seen_of, folders_of, parts_of};
    ghost use Rattle.sr_memsite.specs.Meaning.{begun};

    /// A site with these files over these folders, as they stand, what is not yet synced included. No call fails.
    pub fn with(disk: MemoryDisk, mail: SharedMail) -> HandedSite
        ensures seen { seen_of result ≡ begun (handed disk mail) }
        ensures parts { parts_of result ≡ (handed disk mail, mail) }
    {
        let mut disk = disk;
        disk.note_handed(&mail);
        HandedSite {
            site: MemorySite::with(disk, mail),
        }
    }

    /// Makes every call fail but the next `calls`, as a site in memory does.
    pub fn stop_after(&mut self, calls: u64)
        ensures seen { seen_of self.new ≡ seen_of self.old }
        ensures folders { folders_of self.new ≡ folders_of self.old }
    {
        self.site.stop_after(calls);
    }

    /// The files and the folders as they stand, what is not yet synced included. In the folders lies what happened to them since they were handed
    /// over, and each fetch gave what lay there.
    pub fn apart(self) -> (MemoryDisk, SharedMail)
        ensures parts { result ≡ parts_of self }
        ensures as_happened { AreAsHappened result.0.happened result.1 }
        ensures truthful { IsTruthful result.0.happened }
    {
        let HandedSite { site } = self;
        site.apart()
    }
}

impl Disk for HandedSite {
    fn length(&mut self, file: File) -> Result<u64, Failed> {
        self.site.length(file)
    }

    fn read_at(&mut self, file: File, at: u64, buffer: &mut [u8]) -> Result<usize, Failed> {
        self.site.read_at(file, at, buffer)
    }

    fn write_at(&mut self, file: File, at: u64, bytes: &[u8]) -> Result<(), Failed> {
        self.site.write_at(file, at, bytes)
    }

    fn cut(&mut self, file: File, to: u64) -> Result<(), Failed> {
        self.site.cut(file, to)
    }

    fn sync(&mut self, file: File) -> Result<(), Failed> {
        self.site.sync(file)
    }
}

impl Mail for HandedSite {
    fn list(&mut self, alloc: Global, address: &Name) -> Result<Listing, MailFault> {
        self.site.list(alloc, address)
    }

    fn fetch(
        &mut self,
        alloc: Global,
        address: &Name,
        name: &Text,
        limit: usize,
    ) -> Result<Option<Vec<u8>>, MailFault> {
        self.site.fetch(alloc, address, name, limit)
    }

    fn put(
        &mut self,
        alloc: Global,
        address: &Name,
        name: &Text,
        bytes: &[u8],
    ) -> Result<(), MailFault> {
        self.site.put(alloc, address, name, bytes)
    }

    fn remove(&mut self, alloc: Global, address: &Name, name: &Text) -> Result<(), MailFault> {
        self.site.remove(alloc, address, name)
    }
}

impl Site for HandedSite {
    fn attach(&mut self, alloc: Global, name: &Text, mail: &Text) -> Result<(), MailFault> {
        self.site.attach(alloc, name, mail)
    }
}
