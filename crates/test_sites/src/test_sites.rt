//! The two databases of a row, and the folders that they share.

use sr_base::{Name, NoMemory, Text, name_of};
use sr_memsite::{MemoryDisk, MemorySite, SharedMail};
use sr_site::File;
use std::alloc::Global;
use std::mem::replace;

/// The files of a database.
const FILES: [File; 5] = [File::Root, File::Log0, File::Log1, File::Snap0, File::Snap1];

/// The folders that are written to.
const FOLDERS: [&[u8]; 3] = [b"cons", b"r1", b"r2"];

/// The disks of `cons` and of `r1`, and the mail between them.
#[derive(Drop)]
pub struct TestSites {
    above: MemoryDisk,
    below: MemoryDisk,
    pub mail: SharedMail,
}

impl TestSites {
    /// No database, and no file in any folder. It takes no memory.
    pub fn new(alloc: Global) -> TestSites {
        TestSites {
            above: MemoryDisk::new(alloc),
            below: MemoryDisk::new(alloc),
            mail: SharedMail::new(alloc),
        }
    }

    /// Makes these offices like others, as they stand: all that stands on a disk there is durable here. No file may be held back there.
    pub fn set_like(&mut self, alloc: Global, others: &TestSites) -> Result<(), NoMemory> {
        copy_disk(alloc, &others.above, &mut self.above)?;
        copy_disk(alloc, &others.below, &mut self.below)?;
        for folder in FOLDERS {
            copy_files(alloc, &others.mail, folder, &mut self.mail)?;
        }
        Ok(())
    }

    /// Gives `cons` this log and this snapshot, both whole, and a root that names them.
    pub fn set_above(&mut self, log: Vec<u8>, snapshot: Vec<u8>, root: Vec<u8>) {
        self.above.set(File::Log0, log);
        self.above.set(File::Snap0, snapshot);
        self.above.set(File::Root, root);
    }

    /// The site of an office over the folders, until it is given back.
    pub fn take_site(&mut self, alloc: Global, name: &str) -> MemorySite {
        let mail = replace(&mut self.mail, SharedMail::new(alloc));
        MemorySite::with(self.take_disk(alloc, name), mail)
    }

    fn take_disk(&mut self, alloc: Global, name: &str) -> MemoryDisk {
        let disk = MemoryDisk::new(alloc);
        if name == "cons" {
            replace(&mut self.above, disk)
        } else {
            replace(&mut self.below, disk)
        }
    }

    /// Gives the site of an office back, with what stands on it.
    pub fn give_back(&mut self, name: &str, site: MemorySite) {
        let (disk, mail) = site.apart();
        drop(replace(&mut self.mail, mail));
        if name == "cons" {
            drop(replace(&mut self.above, disk));
        } else {
            drop(replace(&mut self.below, disk));
        }
    }
}

fn copy_disk(alloc: Global, from: &MemoryDisk, to: &mut MemoryDisk) -> Result<(), NoMemory> {
    for file in FILES {
        to.set(file, Vec::from_slice(alloc, from.bytes(file))?);
    }
    Ok(())
}

fn copy_files(
    alloc: Global,
    from: &SharedMail,
    folder: &[u8],
    to: &mut SharedMail,
) -> Result<(), NoMemory> {
    let Ok(address) = name_of(alloc, folder) else {
        return Ok(());
    };
    let copied = copy_folder(alloc, from, &address, to);
    drop(address);
    copied
}

fn copy_folder(
    alloc: Global,
    from: &SharedMail,
    address: &Name,
    to: &mut SharedMail,
) -> Result<(), NoMemory> {
    let listing = from.list(alloc, address)?;
    let copied = copy_named(alloc, from, address, listing.names.as_slice(), to);
    drop(listing);
    copied
}

fn copy_named(
    alloc: Global,
    from: &SharedMail,
    address: &Name,
    names: &[Text],
    to: &mut SharedMail,
) -> Result<(), NoMemory> {
    for name in names {
        if let Some(bytes) = from.file(address, name) {
            to.lay(alloc, address, name, Vec::from_slice(alloc, bytes)?)?;
        }
    }
    Ok(())
}
