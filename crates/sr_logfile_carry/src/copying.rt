ghost use Rattle.std.specs.Prelude.{◌≡◌, ◌≢◌, ◌+◌, ◌-◌, ◌^◌, ◌≤◌, ◌<◌, ◌++◌, length, take, drop, IsTrue, OnOk, IfErr};
ghost use Rattle.sr_logfile.specs.Records.{header_size};
ghost use Rattle.sr_logfile_carry.specs.Inner.Carrying.{HasNow, StepCause, bytes_in};
ghost use Rattle.sr_site.specs.Files.{bytes_of};

use crate::fault::CarryFault;
use sr_site::{Disk, File};

/// The bytes before the first gate of a log.
pub(crate) const HEADER: u64 = 16;

/// A part of a file: its bytes from the place `at` up to the place `end`.
#[derive(Clone, Copy)]
pub(crate) struct Part {
    pub(crate) file: File,
    pub(crate) at: u64,
    pub(crate) end: u64,
}

/// Puts a part of a file behind the header of another, piece by piece, each as long as the buffer or the rest.
pub(crate) fn copy<S: Disk>(
    site: &mut S,
    part: Part,
    into: File,
    buffer: &mut [u8],
) -> Result<(), CarryFault>
    requires other { part.file ≢ into }
    requires order { part.at ≤ part.end }
    requires limit { part.end ≤ 2 ^ 63 }
    requires some { 0 < length buffer.old }
    requires source { IsTrue (S.seen site.old).observable → part.end ≤ length (bytes_of (S.seen site.old).files part.file) }
    requires target { IsTrue (S.seen site.old).observable → length (bytes_of (S.seen site.old).files into) ≡ header_size }
    ensures copied { OnOk result (HasNow into (bytes_of (S.seen site.old).files into ++ bytes_in (S.seen site.old).files part) (S.seen site.old) (S.seen site.new)) }
    ensures cause { IfErr result (StepCause into (S.seen site.old) (S.seen site.new)) }
{
    let mut place = part.at;
    'pieces: while place < part.end {
        let wanted = smaller(part.end - place, buffer.len());
        let (piece, _) = buffer.split_at_mut(wanted);
        copy_piece(
            site,
            part.file,
            place,
            into,
            HEADER + (place - part.at),
            piece,
        )?;
        place += wanted as u64;
    }
    Ok(())
}

/// The smaller of the two.
fn smaller(left: u64, room: usize) -> usize
    requires some { (0 < left) × (0 < room) }
    ensures some { 0 < result }
    ensures left { result ≤ left }
    ensures room { result ≤ room }
{
    if left < room as u64 {
        left as usize
    } else {
        room
    }
}

/// Puts as many bytes of a file as the piece has, from the place `at` on, at the end of another, which is the place `to`.
fn copy_piece<S: Disk>(
    site: &mut S,
    from: File,
    at: u64,
    into: File,
    to: u64,
    piece: &mut [u8],
) -> Result<(), CarryFault>
    requires other { from ≢ into }
    requires source { IsTrue (S.seen site.old).observable → at + length piece.old ≤ length (bytes_of (S.seen site.old).files from) }
    requires target { IsTrue (S.seen site.old).observable → to ≡ length (bytes_of (S.seen site.old).files into) }
    ensures copied { OnOk result (HasNow into (bytes_of (S.seen site.old).files into ++ take (length piece.old) (drop at (bytes_of (S.seen site.old).files from))) (S.seen site.old) (S.seen site.new)) }
    ensures cause { IfErr result (StepCause into (S.seen site.old) (S.seen site.new)) }
{
    let count = site.read_at(from, at, piece)?;
    if count < piece.len() {
        return Err(CarryFault::Damaged {
            at: at.saturating_add(count as u64),
        });
    }
    site.write_at(into, to, piece)?;
    Ok(())
}
