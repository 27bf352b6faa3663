//! A site in memory that keeps what is put and fetched.

use crate::kept::KeptMail;
use sr_base::{Name, Text};
use sr_memsite::{MemoryDisk, MemorySite, SharedMail};
use sr_site::{Disk, Failed, File, Held, Listing, Mail, MailFault, Site};
use std::alloc::Global;
use std::marker::Model;

/// A site in memory that keeps the bytes of the files that it is asked to put and of those that it gives, so that they can be looked at behind a run.
#[derive(Drop)]
pub struct WatchedSite {
    site: MemorySite,
    kept: KeptMail,
}

impl Model for WatchedSite {
    ghost use Rattle.world_lives_kept.specs.Inner.Watched.{Watched, IsWatched};

    ghost Value = { Watched };

    ghost view = { λ w. record { site = w.site; kept = w.kept } };

    ghost invariant = { λ w. IsWatched w.site w.kept };
}

impl Held for WatchedSite {
    ghost use Rattle.sr_memsite_disk.proofs.Standing.{standing_is_image};
    ghost use Rattle.sr_memsite.specs.Inner.Meaning.{seen_of, disk_of};

    ghost seen = { λ watched. seen_of watched.site };

    ghost read_is_image = { λ watched told. standing_is_image (disk_of watched.site).first (disk_of watched.site).happened };
}

impl WatchedSite {
    ghost use Rattle.std.specs.Prelude.{◌≡◌, IsTrue};
    ghost use Rattle.sr_memsite.specs.Inner.Meaning.{seen_of, parts_of};
    ghost use Rattle.sr_memsite.specs.Meaning.{begun};
    ghost use Rattle.world_lives_kept.specs.Inner.Kept.{AreKept};

    /// A site with these files over these folders, as they stand, that goes on with what was kept of what happened to the files. No call fails but those behind
    /// the first `calls`.
    pub fn with(disk: MemoryDisk, mail: SharedMail, kept: KeptMail, calls: u64) -> WatchedSite
        requires kept { IsTrue kept.whole → AreKept kept.put kept.fetched disk.happened }
        ensures seen { seen_of result.site ≡ begun disk }
        ensures kept { result.kept ≡ kept }
    {
        let mut site = MemorySite::with(disk, mail);
        site.stop_after(calls);
        WatchedSite { site, kept }
    }

    /// The files, the folders and what was kept.
    pub fn apart(self) -> (MemoryDisk, SharedMail, KeptMail)
        ensures disk { result.0 ≡ (parts_of self.site).0 }
        ensures kept { result.2 ≡ self.kept }
        ensures are { IsTrue result.2.whole → AreKept result.2.put result.2.fetched result.0.happened }
    {
        let WatchedSite { site, kept } = self;
        let (disk, mail) = site.apart();
        (disk, mail, kept)
    }
}

impl Disk for WatchedSite {
    fn length(&mut self, file: File) -> Result<u64, Failed> {
        self.site.length(file)
    }

    fn read_at(&mut self, file: File, at: u64, buffer: &mut [u8]) -> Result<usize, Failed> {
        self.site.read_at(file, at, buffer)
    }

    fn write_at(&mut self, file: File, at: u64, bytes: &[u8]) -> Result<(), Failed> {
        self.site.write_at(file, at, bytes)
    }

    fn cut(&mut self, file: File, to: u64) -> Result<(), Failed> {
        self.site.cut(file, to)
    }

    fn sync(&mut self, file: File) -> Result<(), Failed> {
        self.site.sync(file)
    }
}

impl Mail for WatchedSite {
    fn list(&mut self, alloc: Global, address: &Name) -> Result<Listing, MailFault> {
        self.site.list(alloc, address)
    }

    fn fetch(
        &mut self,
        alloc: Global,
        address: &Name,
        name: &Text,
        limit: usize,
    ) -> Result<Option<Vec<u8>>, MailFault> {
        let found = self.site.fetch(alloc, address, name, limit);
        self.kept.note_fetched(alloc, &found);
        found
    }

    fn put(
        &mut self,
        alloc: Global,
        address: &Name,
        name: &Text,
        bytes: &[u8],
    ) -> Result<(), MailFault> {
        let done = self.site.put(alloc, address, name, bytes);
        self.kept.note_put(alloc, bytes);
        done
    }

    fn remove(&mut self, alloc: Global, address: &Name, name: &Text) -> Result<(), MailFault> {
        self.site.remove(alloc, address, name)
    }
}

impl Site for WatchedSite {
    fn attach(&mut self, alloc: Global, name: &Text, mail: &Text) -> Result<(), MailFault> {
        self.site.attach(alloc, name, mail)
    }
}
