ghost use Rattle.std.specs.Prelude.{◌≡◌, ◌≤◌, [], length, IfOk, OnOk, OnErr};
ghost use Rattle.sr_memsite_disk.specs.Inner.Store.{after_write, after_cut, settled_on};
ghost use Rattle.sr_memsite_disk.specs.Stores.{no_bytes};
ghost use Rattle.sr_memsite_disk.specs.Inner.Stores.{store_of, with_store, stores_of, outcomes};

use crate::stored::Stored;
use sr_base::NoMemory;
use sr_site::File;
use std::alloc::Global;
use std::marker::Model;

/// The five files of a database.
#[derive(Drop)]
pub struct FiveFiles {
    root: Stored,
    log0: Stored,
    log1: Stored,
    snap0: Stored,
    snap1: Stored,
}

impl Model for FiveFiles {
    ghost use Rattle.sr_memsite_disk.specs.Stores.{Stores};

    ghost Value = { Stores };

    ghost view = { λ f. record { root = f.root; log0 = f.log0; log1 = f.log1; snap0 = f.snap0; snap1 = f.snap1 } };
}

impl FiveFiles {
    /// Five files without a byte. It takes no memory.
    pub fn new(alloc: Global) -> FiveFiles
        ensures empty { result ≡ stores_of no_bytes }
    {
        FiveFiles {
            root: Stored::of(Vec::new(alloc)),
            log0: Stored::of(Vec::new(alloc)),
            log1: Stored::of(Vec::new(alloc)),
            snap0: Stored::of(Vec::new(alloc)),
            snap1: Stored::of(Vec::new(alloc)),
        }
    }

    /// One of them.
    pub fn file(&self, file: File) -> &Stored
        ensures store { result.now ≡ store_of self.now file }
    {
        match file {
            File::Root => &self.root,
            File::Log0 => &self.log0,
            File::Log1 => &self.log1,
            File::Snap0 => &self.snap0,
            File::Snap1 => &self.snap1,
        }
    }

    /// Puts another file in the place of one.
    pub fn set(&mut self, file: File, stored: Stored)
        ensures set { self.new ≡ with_store self.old file stored }
    {
        match file {
            File::Root => self.root = stored,
            File::Log0 => self.log0 = stored,
            File::Log1 => self.log1 = stored,
            File::Snap0 => self.snap0 = stored,
            File::Snap1 => self.snap1 = stored,
        }
    }

    /// Puts `bytes` at the place `at` of a file, over what is there and past its end.
    pub fn write(&mut self, file: File, at: usize, bytes: &[u8]) -> Result<(), NoMemory>
        requires { at ≤ length (store_of self.old file).bytes }
        ensures ok { OnOk result (self.new ≡ with_store self.old file (after_write (store_of self.old file) at bytes.now)) }
        ensures err { OnErr result (self.new ≡ self.old) }
    {
        match file {
            File::Root => self.root.write(at, bytes),
            File::Log0 => self.log0.write(at, bytes),
            File::Log1 => self.log1.write(at, bytes),
            File::Snap0 => self.snap0.write(at, bytes),
            File::Snap1 => self.snap1.write(at, bytes),
        }
    }

    /// Cuts a file to its first `to` bytes.
    pub fn cut(&mut self, file: File, to: usize)
        requires { to ≤ length (store_of self.old file).bytes }
        ensures cut { self.new ≡ with_store self.old file (after_cut (store_of self.old file) to) }
    {
        match file {
            File::Root => self.root.cut(to),
            File::Log0 => self.log0.cut(to),
            File::Log1 => self.log1.cut(to),
            File::Snap0 => self.snap0.cut(to),
            File::Snap1 => self.snap1.cut(to),
        }
    }

    /// Makes the bytes of a file durable as they stand.
    pub fn sync(&mut self, file: File)
        ensures synced { self.new ≡ with_store self.old file (settled_on (store_of self.old file).bytes) }
    {
        match file {
            File::Root => self.root.sync(),
            File::Log0 => self.log0.sync(),
            File::Log1 => self.log1.sync(),
            File::Snap0 => self.snap0.sync(),
            File::Snap1 => self.snap1.sync(),
        }
    }

    /// What a crash makes of them.
    pub fn crashed(&self, alloc: Global, pick: u64) -> Result<FiveFiles, NoMemory>
        ensures outcomes { IfOk result (λ files. files ≡ stores_of (outcomes pick self.now)) }
    {
        let (root, pick) = self.root.crashed(alloc, pick)?;
        let (log0, pick) = self.log0.crashed(alloc, pick)?;
        let (log1, pick) = self.log1.crashed(alloc, pick)?;
        let (snap0, pick) = self.snap0.crashed(alloc, pick)?;
        let (snap1, _) = self.snap1.crashed(alloc, pick)?;
        Ok(FiveFiles {
            root,
            log0,
            log1,
            snap0,
            snap1,
        })
    }
}
