//! The fields of a snapshot, read through a window.

ghost use Rattle.std.specs.Prelude.{◌≡◌, ◌+◌, ◌<◌, ◌^◌, min, IsTrue, IfOk, IfErr};
ghost use Rattle.std.specs.Int.{w32, w64, to_be_bytes};
ghost use Rattle.sr_base.specs.Fields.{name_spelling, IsName};
ghost use Rattle.sr_base.specs.Reading.{number_at};
ghost use Rattle.sr_site.specs.Files.{bytes_of};
ghost use Rattle.sr_snapshot_read.specs.Inner.Places.{no_further};
ghost use Rattle.sr_snapshot_read.specs.Places.{name_in};
ghost use Rattle.sr_snapshot_read.specs.Inner.Reading.{BreaksWithin, HasTaken, IsOver, TakeCause};
ghost use Rattle.sr_snapshot_read.specs.Damages.{FieldBreaks};

use crate::window::Window;
use sr_base::{Bad, Field, Name, read_prefix};
use sr_site::{Disk, File};
use sr_snapshot::SnapFault;
use std::alloc::Global;

/// Reads a field, of which so many bytes tell whether it breaks.
pub(crate) fn read_field<T: Field, S: Disk>(
    alloc: Global,
    site: &mut S,
    file: File,
    window: &mut Window,
    need: u64,
) -> Result<T, SnapFault>
    requires over { IsTrue (S.seen site.old).observable → IsOver window.old (bytes_of (S.seen site.old).files file) }
    ensures taken { IfOk result (λ value. HasTaken file (T.spelling value) (S.seen site.old) (S.seen site.new) window.old window.new) }
    ensures fits { IfOk result T.fits }
    ensures cause { IfErr result (TakeCause file (BreaksWithin T.reading need) (S.seen site.old) (S.seen site.new) window.old) }
{
    window.ready(site, file, need)?;
    match read_prefix::<T>(alloc, window.held()) {
        Ok((value, taken)) => {
            window.skip(taken);
            Ok(value)
        }
        Err(Bad::Field { at }) => Err(SnapFault::Damaged {
            at: window.place() + at as u64,
        }),
        Err(Bad::Memory) => Err(SnapFault::Memory),
    }
}

/// Reads the count of a list.
pub(crate) fn read_count<S: Disk>(
    alloc: Global,
    site: &mut S,
    file: File,
    window: &mut Window,
) -> Result<u32, SnapFault>
    requires over { IsTrue (S.seen site.old).observable → IsOver window.old (bytes_of (S.seen site.old).files file) }
    ensures taken { IfOk result (λ n. HasTaken file (to_be_bytes w32 n) (S.seen site.old) (S.seen site.new) window.old window.new) }
    ensures short { IfOk result (λ n. n < 2 ^ 32) }
    ensures cause { IfErr result (TakeCause file (FieldBreaks (number_at w32)) (S.seen site.old) (S.seen site.new) window.old) }
{
    let count = read_field::<u32, S>(alloc, site, file, window, 4)?;
    Ok(count)
}

/// Reads a number of eight bytes.
pub(crate) fn read_number<S: Disk>(
    alloc: Global,
    site: &mut S,
    file: File,
    window: &mut Window,
) -> Result<u64, SnapFault>
    requires over { IsTrue (S.seen site.old).observable → IsOver window.old (bytes_of (S.seen site.old).files file) }
    ensures taken { IfOk result (λ n. HasTaken file (to_be_bytes w64 n) (S.seen site.old) (S.seen site.new) window.old window.new) }
    ensures short { IfOk result (λ n. n < 2 ^ 64) }
    ensures cause { IfErr result (TakeCause file (FieldBreaks (number_at w64)) (S.seen site.old) (S.seen site.new) window.old) }
{
    let number = read_field::<u64, S>(alloc, site, file, window, 8)?;
    Ok(number)
}

/// Reads a name.
pub(crate) fn read_name<S: Disk>(
    alloc: Global,
    site: &mut S,
    file: File,
    window: &mut Window,
) -> Result<Name, SnapFault>
    requires over { IsTrue (S.seen site.old).observable → IsOver window.old (bytes_of (S.seen site.old).files file) }
    ensures taken { IfOk result (λ name. HasTaken file (name_spelling name) (S.seen site.old) (S.seen site.new) window.old window.new) }
    ensures name { IfOk result IsName }
    ensures cause { IfErr result (TakeCause file (FieldBreaks name_in) (S.seen site.old) (S.seen site.new) window.old) }
{
    let place = window.place();
    match read_field::<Name, S>(alloc, site, file, window, 65) {
        Ok(name) => Ok(name),
        Err(fault) => Err(within(fault, place, 0)),
    }
}

/// The fault of a field that stands at this place: where it breaks, that is so many bytes behind its first one at most.
pub(crate) fn within(fault: SnapFault, place: u64, skip: u64) -> SnapFault
    ensures { result ≡ no_further (place + skip) fault }
{
    match fault {
        SnapFault::Disk => SnapFault::Disk,
        SnapFault::Long { length, limit } => SnapFault::Long { length, limit },
        SnapFault::Damaged { at } => SnapFault::Damaged {
            at: lesser(at, place, skip),
        },
        SnapFault::Memory => SnapFault::Memory,
    }
}

/// The first of two places, of which the other stands so many bytes behind this one.
fn lesser(at: u64, place: u64, skip: u64) -> u64
    ensures { result ≡ min at (place + skip) }
{
    let past = at.saturating_sub(place);
    if past <= skip {
        return at;
    }
    place + skip
}
