//! The magic, the offset, and the counts and names that have to be these, read through a window.

ghost use Rattle.std.specs.Prelude.{◌≡◌, ◌≤◌, ◌^◌, ◌<◌, length, take, IsTrue, IfOk, OnOk, IfErr};
ghost use Rattle.std.specs.Int.{w32, w64, to_be_bytes};
ghost use Rattle.sr_base.specs.Fields.{name_spelling, IsName};
ghost use Rattle.sr_site.specs.Files.{bytes_of};
ghost use Rattle.sr_snapshot.specs.Parts.{magic};
ghost use Rattle.sr_snapshot.specs.declared.fault.SnapFault.TheVariants.{Damaged as broken_at};
ghost use Rattle.sr_snapshot_read.specs.Damages.{CountBreaks, LacksMagic, NameBreaks, OffsetBreaks};
ghost use Rattle.sr_snapshot_read.specs.Inner.Reading.{HasTaken, IsOver, TakeCause};

use crate::fields::{read_count, read_name, read_number};
use crate::window::Window;
use sr_base::{Name, Offset};
use sr_site::{Disk, File};
use sr_snapshot::{MAGIC, SnapFault};
use std::alloc::Global;

/// The last stream position: 2^62.
const LAST_OFFSET: u64 = 4_611_686_018_427_387_904;

/// Reads the magic.
pub(crate) fn read_magic<S: Disk>(
    site: &mut S,
    file: File,
    window: &mut Window,
) -> Result<(), SnapFault>
    requires over { IsTrue (S.seen site.old).observable → IsOver window.old (bytes_of (S.seen site.old).files file) }
    ensures taken { OnOk result (HasTaken file magic (S.seen site.old) (S.seen site.new) window.old window.new) }
    ensures cause { IfErr result (TakeCause file LacksMagic (S.seen site.old) (S.seen site.new) window.old) }
{
    window.ready(site, file, 8)?;
    magic_in(window.held(), window.place())?;
    window.skip(8);
    Ok(())
}

/// Whether the bytes begin with the magic; they stand at this place.
#[tactic(auto, using(crate::proofs::Heres::short_magic))]
fn magic_in(held: &[u8], place: u64) -> Result<(), SnapFault>
    ensures there { OnOk result (take 8 held.now ≡ magic) }
    ensures long { OnOk result (8 ≤ length held.now) }
    ensures place { IfErr result (λ fault. fault ≡ broken_at place) }
    ensures none { IfErr result (λ fault. take 8 held.now ≡ magic → ⊥) }
{
    if held.len() < 8 {
        return Err(SnapFault::Damaged { at: place });
    }
    let (front, _) = held.split_at(8);
    if front == MAGIC.as_slice() {
        return Ok(());
    }
    Err(SnapFault::Damaged { at: place })
}

/// Reads an offset, which is at most 2^62.
pub(crate) fn read_offset<S: Disk>(
    alloc: Global,
    site: &mut S,
    file: File,
    window: &mut Window,
) -> Result<Offset, SnapFault>
    requires over { IsTrue (S.seen site.old).observable → IsOver window.old (bytes_of (S.seen site.old).files file) }
    ensures taken { IfOk result (λ offset. HasTaken file (to_be_bytes w64 offset.0) (S.seen site.old) (S.seen site.new) window.old window.new) }
    ensures near { IfOk result (λ offset. offset.0 ≤ 2 ^ 62) }
    ensures cause { IfErr result (TakeCause file OffsetBreaks (S.seen site.old) (S.seen site.new) window.old) }
{
    let place = window.place();
    let number = read_number(alloc, site, file, window)?;
    let offset = near(number, place)?;
    Ok(offset)
}

/// The offset of this number, which stands at this place.
fn near(number: u64, place: u64) -> Result<Offset, SnapFault>
    ensures offset { IfOk result (λ offset. offset.0 ≡ number) }
    ensures near { IfOk result (λ offset. offset.0 ≤ 2 ^ 62) }
    ensures place { IfErr result (λ fault. fault ≡ broken_at place) }
    ensures far { IfErr result (λ fault. 2 ^ 62 < number) }
{
    if number > LAST_OFFSET {
        return Err(SnapFault::Damaged { at: place });
    }
    Ok(Offset(number))
}

/// Reads the count of a list that has to have so many items.
pub(crate) fn read_this_count<S: Disk>(
    alloc: Global,
    site: &mut S,
    file: File,
    window: &mut Window,
    items: usize,
) -> Result<(), SnapFault>
    requires over { IsTrue (S.seen site.old).observable → IsOver window.old (bytes_of (S.seen site.old).files file) }
    ensures taken { OnOk result (HasTaken file (to_be_bytes w32 items) (S.seen site.old) (S.seen site.new) window.old window.new) }
    ensures cause { IfErr result (TakeCause file (CountBreaks items) (S.seen site.old) (S.seen site.new) window.old) }
{
    let place = window.place();
    let count = read_count(alloc, site, file, window)?;
    as_many(count, items, place)?;
    Ok(())
}

/// Whether this count, which stands at this place, is that of so many items.
fn as_many(count: u32, items: usize, place: u64) -> Result<(), SnapFault>
    ensures same { OnOk result (count ≡ items) }
    ensures place { IfErr result (λ fault. fault ≡ broken_at place) }
    ensures other { IfErr result (λ fault. count ≡ items → ⊥) }
{
    if count as usize == items {
        return Ok(());
    }
    Err(SnapFault::Damaged { at: place })
}

/// Reads a name that has to be this one.
pub(crate) fn read_this_name<S: Disk>(
    alloc: Global,
    site: &mut S,
    file: File,
    window: &mut Window,
    name: &Name,
) -> Result<Name, SnapFault>
    requires over { IsTrue (S.seen site.old).observable → IsOver window.old (bytes_of (S.seen site.old).files file) }
    ensures taken { OnOk result (HasTaken file (name_spelling name.now) (S.seen site.old) (S.seen site.new) window.old window.new) }
    ensures name { IfOk result (λ found. found ≡ name.now) }
    ensures is { OnOk result (IsName name.now) }
    ensures cause { IfErr result (TakeCause file (NameBreaks name.now) (S.seen site.old) (S.seen site.new) window.old) }
{
    let place = window.place();
    let found = read_name(alloc, site, file, window)?;
    as_named(&found, name, place)?;
    Ok(found)
}

/// Whether this name, which stands at this place, is that one.
fn as_named(found: &Name, name: &Name, place: u64) -> Result<(), SnapFault>
    ensures same { OnOk result (found.now ≡ name.now) }
    ensures place { IfErr result (λ fault. fault ≡ broken_at place) }
    ensures other { IfErr result (λ fault. found.now ≡ name.now → ⊥) }
{
    if found.bytes() == name.bytes() {
        return Ok(());
    }
    Err(SnapFault::Damaged { at: place })
}
