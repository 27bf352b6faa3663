//! A site over whose folders something is done while a run goes on.

ghost use Rattle.std.specs.Prelude.{◌≡◌};
ghost use Rattle.sr_memsite.specs.Inner.Meaning.{seen_of};

use sr_base::{Name, NoMemory, Text};
use sr_memsite::MemorySite;
use sr_site::{Disk, Failed, File, Held, Listing, Mail, MailFault, Site};
use std::alloc::Global;
use test_rows::{number, word};

/// A change of a folder just before a fetch: a file is lost, or a copy of another one takes its place.
#[derive(Drop)]
pub struct Change {
    /// The number of the fetch, from 1; 0 for no change.
    fetch: u64,
    name: Text,
    /// The other file; empty where the first one is lost.
    other: Text,
}

impl Change {
    /// The change that a kind of row tells: `lost N NAME` or `other N NAME FILE`; none of any other kind.
    pub fn of(alloc: Global, kind: &str) -> Result<Change, NoMemory> {
        Ok(Change {
            fetch: number(kind, 1),
            name: Text::from_str(alloc, word(kind, 2))?,
            other: Text::from_str(alloc, word(kind, 3))?,
        })
    }
}

/// A site in memory, and the change that is to come.
#[derive(Drop)]
pub struct Shifting {
    pub site: MemorySite,
    pub change: Change,
    /// How many fetches were made.
    pub fetches: u64,
}

impl Shifting {
    /// Makes the change, where its moment has come. Where there is no memory for a copy, nothing is changed.
    fn shift(&mut self, alloc: Global, address: &Name)
        ensures seen { seen_of self.new.site ≡ seen_of self.old.site }
    {
        self.fetches = self.fetches.saturating_add(1);
        if self.fetches != self.change.fetch {
            return;
        }
        if self.change.other.bytes().is_empty() {
            self.site.lose(address, &self.change.name);
        } else {
            let _ = self
                .site
                .repeat(alloc, address, &self.change.other, &self.change.name);
        }
    }
}

impl Held for Shifting {
    ghost use Rattle.sr_memsite_disk.proofs.Standing.{standing_is_image};
    ghost use Rattle.sr_memsite.specs.Inner.Meaning.{seen_of, disk_of};

    ghost seen = { λ shifting. seen_of shifting.site };

    ghost read_is_image = { λ shifting told. standing_is_image (disk_of shifting.site).first (disk_of shifting.site).happened };
}

impl Disk for Shifting {
    fn length(&mut self, file: File) -> Result<u64, Failed> {
        self.site.length(file)
    }

    fn read_at(&mut self, file: File, at: u64, buffer: &mut [u8]) -> Result<usize, Failed> {
        self.site.read_at(file, at, buffer)
    }

    fn write_at(&mut self, file: File, at: u64, bytes: &[u8]) -> Result<(), Failed> {
        self.site.write_at(file, at, bytes)
    }

    fn cut(&mut self, file: File, to: u64) -> Result<(), Failed> {
        self.site.cut(file, to)
    }

    fn sync(&mut self, file: File) -> Result<(), Failed> {
        self.site.sync(file)
    }
}

impl Mail for Shifting {
    fn list(&mut self, alloc: Global, address: &Name) -> Result<Listing, MailFault> {
        self.site.list(alloc, address)
    }

    fn fetch(
        &mut self,
        alloc: Global,
        address: &Name,
        name: &Text,
        limit: usize,
    ) -> Result<Option<Vec<u8>>, MailFault> {
        self.shift(alloc, address);
        self.site.fetch(alloc, address, name, limit)
    }

    fn put(
        &mut self,
        alloc: Global,
        address: &Name,
        name: &Text,
        bytes: &[u8],
    ) -> Result<(), MailFault> {
        self.site.put(alloc, address, name, bytes)
    }

    fn remove(&mut self, alloc: Global, address: &Name, name: &Text) -> Result<(), MailFault> {
        self.site.remove(alloc, address, name)
    }
}

impl Site for Shifting {
    fn attach(&mut self, alloc: Global, name: &Text, mail: &Text) -> Result<(), MailFault> {
        self.site.attach(alloc, name, mail)
    }
}
