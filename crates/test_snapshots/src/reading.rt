//! A snapshot, read from a site in memory.

use sr_base::NoMemory;
use sr_memsite::{MemoryDisk, MemorySite, SharedMail};
use sr_site::File;
use sr_snapshot::{SnapFault, State, write_state};
use sr_snapshot_read::read_state;
use std::alloc::{AllocError, Global};
use test_rows::{say, say_number};

/// Says what stands in a file of these bytes: the offset of a state, or where they break.
pub(crate) fn say_read(alloc: Global, bytes: &[u8], out: &mut Vec<u8>) -> Result<(), NoMemory> {
    let mut disk = MemoryDisk::new(alloc);
    disk.set(File::Snap1, Vec::from_slice(alloc, bytes)?);
    let mut site = MemorySite::with(disk, SharedMail::new(alloc));
    let read = say_state(alloc, &mut site, out);
    let (disk, mail) = site.apart();
    let same = disk.bytes(File::Snap0).is_empty() || disk.bytes(File::Snap0) == bytes;
    drop(disk);
    drop(mail);
    read?;
    if same {
        return Ok(());
    }
    say(out, " but written otherwise")
}

/// Says what state is read, and writes it to another file.
fn say_state(alloc: Global, site: &mut MemorySite, out: &mut Vec<u8>) -> Result<(), NoMemory> {
    match read_state(alloc, site, File::Snap1) {
        Ok(state) => {
            let said = say_written(alloc, site, &state, out);
            drop(state);
            said
        }
        Err(SnapFault::Damaged { at }) => say_number(out, "damaged ", at),
        Err(_) => Err(AllocError),
    }
}

fn say_written(
    alloc: Global,
    site: &mut MemorySite,
    state: &State,
    out: &mut Vec<u8>,
) -> Result<(), NoMemory> {
    say_number(out, "state ", state.offset.0)?;
    match write_state(alloc, site, File::Snap0, state) {
        Ok(()) => Ok(()),
        Err(_) => Err(AllocError),
    }
}
