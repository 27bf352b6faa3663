//! Texts, values and rows of a snapshot, read through a window.

ghost use Rattle.std.specs.Prelude.{◌≡◌, ◌≤◌, ◌+◌, ◌++◌, ℕ, List, [], ◌∷◌, length, take, IsTrue, IfOk, IfErr, OnOk};
ghost use Rattle.std.specs.Int.{w32, from_be_bytes};
ghost use Rattle.sr_base.specs.Fields.{bytes_spelling, IsText};
ghost use Rattle.sr_base.specs.Reading.{items_at, list_at};
ghost use Rattle.sr_base.specs.Values.{value_spelling, IsValue};
ghost use Rattle.sr_base.specs.declared.value.Value.{Value as Cell};
ghost use Rattle.sr_site.specs.Files.{bytes_of};
ghost use Rattle.sr_snapshot_read.specs.Places.{text_in, value_in};
ghost use Rattle.sr_snapshot_read.specs.Inner.Reading.{HasTaken, IsOver, TakeCause};
ghost use Rattle.sr_snapshot_read.specs.Damages.{FieldBreaks};
ghost use Rattle.sr_snapshot_read.specs.Inner.RowsRead.{HasTakenRow, HasTakenValues};

use crate::fields::{read_count, read_field, within};
use crate::window::Window;
use sr_base::{NoMemory, Row, Seq, Text, Value};
use sr_site::{Disk, File};
use sr_snapshot::SnapFault;
use std::alloc::Global;

/// Reads a text.
pub(crate) fn read_text<S: Disk>(
    alloc: Global,
    site: &mut S,
    file: File,
    window: &mut Window,
) -> Result<Text, SnapFault>
    requires over { IsTrue (S.seen site.old).observable → IsOver window.old (bytes_of (S.seen site.old).files file) }
    ensures taken { IfOk result (λ text. HasTaken file (bytes_spelling text) (S.seen site.old) (S.seen site.new) window.old window.new) }
    ensures text { IfOk result IsText }
    ensures cause { IfErr result (TakeCause file (FieldBreaks text_in) (S.seen site.old) (S.seen site.new) window.old) }
{
    window.ready(site, file, 4)?;
    let place = window.place();
    let need = text_need(window.held(), window.left());
    match read_field::<Text, S>(alloc, site, file, window, need) {
        Ok(text) => Ok(text),
        Err(fault) => Err(within(fault, place, 0)),
    }
}

/// How many bytes tell whether a text breaks, where so many are left: all of it where it has room, else its length.
fn text_need(held: &[u8], left: u64) -> u64
    ensures all { 4 ≤ length held.now → 4 + from_be_bytes w32 (take 4 held.now) ≤ left → 4 + from_be_bytes w32 (take 4 held.now) ≤ result }
    ensures least { 4 ≤ result }
    ensures most { result ≤ 4294967299 }
{
    let [a, b, c, d, ..] = held else {
        return 4;
    };
    let need = 4 + u64::from(u32::from_be_bytes([*a, *b, *c, *d]));
    if need > left {
        return 4;
    }
    need
}

/// Reads a value.
pub(crate) fn read_value<S: Disk>(
    alloc: Global,
    site: &mut S,
    file: File,
    window: &mut Window,
) -> Result<Value, SnapFault>
    requires over { IsTrue (S.seen site.old).observable → IsOver window.old (bytes_of (S.seen site.old).files file) }
    ensures taken { IfOk result (λ value. HasTaken file (value_spelling value) (S.seen site.old) (S.seen site.new) window.old window.new) }
    ensures value { IfOk result IsValue }
    ensures cause { IfErr result (TakeCause file (FieldBreaks value_in) (S.seen site.old) (S.seen site.new) window.old) }
{
    window.ready(site, file, 9)?;
    let place = window.place();
    let need = value_need(window.held(), window.left());
    match read_field::<Value, S>(alloc, site, file, window, need) {
        Ok(value) => Ok(value),
        Err(fault) => Err(within(fault, place, 1)),
    }
}

/// How many bytes tell whether a value breaks, where so many are left: nine, but all of a text that has room.
fn value_need(held: &[u8], left: u64) -> u64
    ensures all { (rest : List ℕ) → held.now ≡ 3 ∷ rest → 4 ≤ length rest → 5 + from_be_bytes w32 (take 4 rest) ≤ left → 5 + from_be_bytes w32 (take 4 rest) ≤ result }
    ensures least { 9 ≤ result }
{
    let [3, text @ ..] = held else {
        return 9;
    };
    let need = 1 + text_need(text, left.saturating_sub(1));
    need.max(9)
}

/// Reads a row, and answers it where it has so many values. The values of another one are read too, for it may break in one of them, and no more of
/// them are kept.
pub(crate) fn read_row<S: Disk>(
    alloc: Global,
    site: &mut S,
    file: File,
    window: &mut Window,
    width: usize,
) -> Result<Option<Row>, SnapFault>
    requires over { IsTrue (S.seen site.old).observable → IsOver window.old (bytes_of (S.seen site.old).files file) }
    ensures taken { IfOk result (HasTakenRow file width (S.seen site.old) (S.seen site.new) window.old window.new) }
    ensures cause { IfErr result (TakeCause file (FieldBreaks (list_at value_in)) (S.seen site.old) (S.seen site.new) window.old) }
{
    let count = read_count(alloc, site, file, window)?;
    let values = read_values(alloc, site, file, window, count, width)?;
    if count as usize != width {
        return Ok(None);
    }
    let row = Row::new(alloc, Seq::from_vec(values))?;
    Ok(Some(row))
}

/// Reads so many values, and answers the first ones, so many of them at most.
fn read_values<S: Disk>(
    alloc: Global,
    site: &mut S,
    file: File,
    window: &mut Window,
    count: u32,
    width: usize,
) -> Result<Vec<Value>, SnapFault>
    requires over { IsTrue (S.seen site.old).observable → IsOver window.old (bytes_of (S.seen site.old).files file) }
    ensures taken { IfOk result (λ kept. HasTakenValues file count width (S.seen site.old) (S.seen site.new) window.old window.new kept.items) }
    ensures cause { IfErr result (TakeCause file (FieldBreaks (items_at value_in count)) (S.seen site.old) (S.seen site.new) window.old) }
{
    let mut values = Vec::new(alloc);
    let mut left = count;
    'values: while left > 0 {
        let value = read_value(alloc, site, file, window)?;
        keep(&mut values, value, width)?;
        left -= 1;
    }
    Ok(values)
}

/// Adds a value, where fewer than so many are there.
fn keep(values: &mut Vec<Value>, value: Value, width: usize) -> Result<(), NoMemory>
    ensures kept { (all : List Cell) → values.old.items ≡ take width all → OnOk result (values.new.items ≡ take width (all ++ value ∷ [])) }
{
    if values.len() < width {
        values.push(value)?;
    }
    Ok(())
}
