//! The rows of tables, read through a window.

ghost use Rattle.std.specs.Prelude.{◌≡◌, ◌↔◌, [], ◌∷◌, List, Some, None, map, IsTrue, IfOk, IfErr, OnOk};
ghost use Rattle.std.specs.FinMap.{insert};
ghost use Rattle.std.specs.List.{flat_map, AllByRecursion};
ghost use Rattle.sr_base.specs.declared.value.Value.{Value as Cell};
ghost use Rattle.sr_catalog_schema.specs.Members.{table_name};
ghost use Rattle.sr_exec_where.specs.Keys.{key_of};
ghost use Rattle.sr_logform.specs.Entries.{table_spelling};
ghost use Rattle.sr_logform.specs.Rules.{AreDistinct};
ghost use Rattle.sr_rows.specs.Walks.{IsPast};
ghost use Rattle.sr_rows.specs.Inner.Steps.{at_mark};
ghost use Rattle.sr_site.specs.Files.{bytes_of};
ghost use Rattle.sr_snapshot.specs.Snapshots.{rows_in};
ghost use Rattle.sr_snapshot.specs.declared.fault.SnapFault.TheVariants.{Memory as no_memory};
ghost use Rattle.sr_snapshot_read.specs.Inner.Damages.{NeverBreaks};
ghost use Rattle.sr_snapshot_read.specs.Damages.{IsPlaced, RowsBreak, TablesBreak};
ghost use Rattle.sr_snapshot_read.specs.Inner.Reading.{HasTaken, IsOver, TakeCause};
ghost use Rattle.sr_snapshot_read.specs.Inner.TablesRead.{AreHeldIn, HasTakenPlaced, HasTakenRows, HasTakenTable, IsReadTable, RefusesRow, RowBreaks};

use crate::fields::read_count;
use crate::heads::read_this_name;
use crate::values::read_row;
use crate::window::Window;
use sr_base::{Copied, Key, Row};
use sr_catalog::Table;
use sr_exec_fits::is_row;
use sr_exec_where::key_of;
use sr_rows::Rows;
use sr_site::{Disk, File};
use sr_snapshot::SnapFault;
use std::alloc::Global;

/// Reads the rows of each of these tables.
pub(crate) fn read_tables<S: Disk>(
    alloc: Global,
    site: &mut S,
    file: File,
    window: &mut Window,
    tables: &[Table],
) -> Result<Rows, SnapFault>
    requires over { IsTrue (S.seen site.old).observable → IsOver window.old (bytes_of (S.seen site.old).files file) }
    requires distinct { AreDistinct (map table_name tables.now) }
    ensures taken { IfOk result (λ rows. HasTaken file (flat_map table_spelling (map (rows_in rows.rows) tables.now)) (S.seen site.old) (S.seen site.new) window.old window.new) }
    ensures each { IfOk result (λ rows. AllByRecursion (IsReadTable rows.rows) tables.now) }
    ensures held { IfOk result (λ rows. AreHeldIn tables.now rows.rows) }
    ensures marked { IfOk result (λ rows. rows ≡ at_mark rows.rows) }
    ensures cause { IfErr result (TakeCause file (TablesBreak tables.now NeverBreaks) (S.seen site.old) (S.seen site.new) window.old) }
{
    let mut rows = Rows::new(alloc);
    let mut left = tables;
    'tables: while let Some((table, rest)) = left.split_first() {
        read_table(alloc, site, file, window, table, &mut rows)?;
        left = rest;
    }
    Ok(rows)
}

/// Reads a table: its name, and its rows.
fn read_table<S: Disk>(
    alloc: Global,
    site: &mut S,
    file: File,
    window: &mut Window,
    table: &Table,
    rows: &mut Rows,
) -> Result<(), SnapFault>
    requires over { IsTrue (S.seen site.old).observable → IsOver window.old (bytes_of (S.seen site.old).files file) }
    requires marked { rows.old ≡ at_mark rows.old.rows }
    ensures taken { OnOk result (HasTakenTable file table.now (S.seen site.old) (S.seen site.new) window.old window.new rows.old rows.new) }
    ensures cause { IfErr result (TakeCause file (TablesBreak (table.now ∷ []) NeverBreaks) (S.seen site.old) (S.seen site.new) window.old) }
{
    let name = read_this_name(alloc, site, file, window, &table.name)?;
    drop(name);
    let count = read_count(alloc, site, file, window)?;
    read_rows(alloc, site, file, window, table, count, rows)?;
    Ok(())
}

/// Reads so many rows of a table, whose keys have to rise, and puts them at the mark. A key past all others finds its place in constant time.
fn read_rows<S: Disk>(
    alloc: Global,
    site: &mut S,
    file: File,
    window: &mut Window,
    table: &Table,
    count: u32,
    rows: &mut Rows,
) -> Result<(), SnapFault>
    requires over { IsTrue (S.seen site.old).observable → IsOver window.old (bytes_of (S.seen site.old).files file) }
    requires marked { rows.old ≡ at_mark rows.old.rows }
    ensures taken { OnOk result (HasTakenRows file table.now count (S.seen site.old) (S.seen site.new) window.old window.new rows.old rows.new) }
    ensures cause { IfErr result (TakeCause file (RowsBreak table.now None count) (S.seen site.old) (S.seen site.new) window.old) }
{
    let mut after = None;
    let mut left = count;
    'rows: while left > 0 {
        read_placed(alloc, site, file, window, table, &mut after, rows)?;
        left -= 1;
    }
    Ok(())
}

/// Reads the row behind a key, which is none at the first row, and puts it under its own.
fn read_placed<S: Disk>(
    alloc: Global,
    site: &mut S,
    file: File,
    window: &mut Window,
    table: &Table,
    after: &mut Option<Key>,
    rows: &mut Rows,
) -> Result<(), SnapFault>
    requires over { IsTrue (S.seen site.old).observable → IsOver window.old (bytes_of (S.seen site.old).files file) }
    requires marked { rows.old ≡ at_mark rows.old.rows }
    ensures taken { OnOk result (HasTakenPlaced file table.now (S.seen site.old) (S.seen site.new) window.old window.new after.old after.new rows.old rows.new) }
    ensures cause { IfErr result (TakeCause file (RowBreaks table.now after.old) (S.seen site.old) (S.seen site.new) window.old) }
{
    let place = window.place();
    let width = table.columns.as_slice().len();
    let found = read_row(alloc, site, file, window, width)?;
    let (key, row) = placed(alloc, table, after, found, place)?;
    put(alloc, table, key, row, after, rows)?;
    Ok(())
}

/// Puts a row under its key, which is the last one then.
fn put(
    alloc: Global,
    table: &Table,
    key: Key,
    row: Row,
    after: &mut Option<Key>,
    rows: &mut Rows,
) -> Result<(), SnapFault>
    requires marked { rows.old ≡ at_mark rows.old.rows }
    ensures last { OnOk result (after.new ≡ Some key) }
    ensures put { OnOk result (rows.new ≡ at_mark (insert rows.old.rows (table.now.name, key) row)) }
    ensures cause { IfErr result (λ fault. fault ≡ no_memory) }
{
    let copy = key.copy(alloc)?;
    rows.put_at_mark(alloc, &table.name, copy, row)?;
    *after = Some(key);
    Ok(())
}

/// The row that was found, and its key, which has to come after another one.
fn placed(
    alloc: Global,
    table: &Table,
    after: &Option<Key>,
    found: Option<Row>,
    place: u64,
) -> Result<(Key, Row), SnapFault>
    ensures row { IfOk result (λ both. found ≡ Some both.1) }
    ensures placed { IfOk result (λ both. IsPlaced table.now after.now both.1) }
    ensures key { IfOk result (λ both. both.0 ≡ key_of table.now.key both.1) }
    ensures cause { IfErr result (RefusesRow table.now after.now found place) }
{
    let Some(row) = found else {
        return Err(SnapFault::Damaged { at: place });
    };
    if !is_row(table.columns.as_slice(), row.values()) {
        return Err(SnapFault::Damaged { at: place });
    }
    let key = key_of(alloc, table.key.as_slice(), row.values())?;
    if !is_past(after, &key) {
        return Err(SnapFault::Damaged { at: place });
    }
    Ok((key, row))
}

/// Whether a key comes after another one.
#[tactic(auto, using(crate::proofs::TablesRead::is_less))]
fn is_past(after: &Option<Key>, key: &Key) -> bool
    ensures past { IsTrue result ↔ IsPast after.now key.now }
{
    match after {
        None => true,
        Some(last) => last.cmp(key).is_lt(),
    }
}
