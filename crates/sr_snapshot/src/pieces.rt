//! Bytes on their way to a file.

ghost use Rattle.std.specs.Prelude.{◌≡◌, [], length, IsTrue, OnOk, IfErr};
ghost use Rattle.sr_site.specs.Files.{bytes_of};
ghost use Rattle.sr_snapshot.specs.Inner.Writing.{HasPut, PutCause};

use crate::fault::SnapFault;
use sr_site::{Disk, File};

/// So many bytes are written at once: 64 KiB, with the rest of the field that passes them.
const PIECE: usize = 65_536;

/// The bytes that wait to be written, and the place in the file where they will stand.
#[derive(Drop)]
pub(crate) struct Out {
    pub(crate) buffer: Vec<u8>,
    pub(crate) place: u64,
}

/// Writes the bytes that wait, where there are enough of them.
#[tactic(auto, using(crate::proofs::Puts::putting))]
pub(crate) fn flush_full<S: Disk>(site: &mut S, file: File, out: &mut Out) -> Result<(), SnapFault>
    requires at { IsTrue (S.seen site.old).observable → out.old.place ≡ length (bytes_of (S.seen site.old).files file) }
    ensures put { OnOk result (HasPut file [] (S.seen site.old) (S.seen site.new) out.old.buffer.items out.new.buffer.items out.new.place) }
    ensures cause { IfErr result (PutCause file (S.seen site.old) (S.seen site.new)) }
{
    if out.buffer.len() < PIECE {
        return Ok(());
    }
    flush(site, file, out)?;
    Ok(())
}

/// Writes the bytes that wait.
pub(crate) fn flush<S: Disk>(site: &mut S, file: File, out: &mut Out) -> Result<(), SnapFault>
    requires at { IsTrue (S.seen site.old).observable → out.old.place ≡ length (bytes_of (S.seen site.old).files file) }
    ensures put { OnOk result (HasPut file [] (S.seen site.old) (S.seen site.new) out.old.buffer.items out.new.buffer.items out.new.place) }
    ensures empty { OnOk result (out.new.buffer.items ≡ []) }
    ensures cause { IfErr result (PutCause file (S.seen site.old) (S.seen site.new)) }
{
    site.write_at(file, out.place, out.buffer.as_slice())?;
    let Some(place) = out.place.checked_add(out.buffer.len() as u64) else {
        return Err(SnapFault::Memory);
    };
    out.place = place;
    out.buffer.clear();
    Ok(())
}
