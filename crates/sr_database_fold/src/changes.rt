//! Whether changes fit the rows, and the rows with them made. The mark goes along, so no way back is kept.
//!
//! Changes of one table that follow one another take one look-up of the table; each takes a key and one change of the rows, and where a
//! row was before also a look-up of it.

ghost use Rattle.std.specs.Prelude.{◌≡◌, ◌↔◌, Some, IfOk, IsTrue};
ghost use Rattle.std.specs.Option.{option_copied};
ghost use Rattle.std.specs.List.{AllByRecursion};
ghost use Rattle.sr_exec_dml.specs.Applying.{with_row, without_row};
ghost use Rattle.sr_exec_dml.specs.Fitting.{RowsFit};
ghost use Rattle.sr_exec_where.specs.Keys.{key_of as key_at};
ghost use Rattle.sr_exec_dml.specs.Statements.{table_named};
ghost use Rattle.sr_rows.specs.Inner.Steps.{at_mark};
ghost use Rattle.sr_catalog_schema.specs.Catalogs.{Lists};
ghost use Rattle.sr_database_fold.specs.Inner.Answers.{Tells};
ghost use Rattle.sr_database_fold.specs.Inner.Movements.{Differs, IsHeld, change_of, MayCome, IsThere, MayBecome, KeyWhere};
ghost use Rattle.sr_database_fold.specs.Inner.Told.{ChangeTold, ChangesTold};

use crate::keys::key_of;
use sr_base::{Copied, Key, Name, NoMemory, Row};
use sr_catalog::{Catalog, Table};
use sr_exec_fits::is_row;
use sr_logform::Change;
use sr_rows::Rows;
use std::alloc::Global;

/// Whether the changes fit, one after the other, and if so the rows with them.
#[tactic(auto, using(crate::proofs::Changing::changes_begin, crate::proofs::Changing::changes_end))]
pub(crate) fn go_on_changes(
    alloc: Global,
    catalog: &Catalog,
    rows: &mut Rows,
    changes: &[Change],
) -> Result<bool, NoMemory>
    requires rows { RowsFit catalog.now rows.old.rows }
    requires fresh { rows.old ≡ at_mark rows.old.rows }
    requires differ { AllByRecursion Differs changes.now }
    ensures told { IfOk result (λ told. ChangesTold catalog.now rows.old.rows changes.now rows.new.rows told) }
    ensures fresh { rows.new ≡ at_mark rows.new.rows }
{
    let mut left = changes;
    let mut last = None;
    'changes: while let Some((change, rest)) = left.split_first() {
        let Some(table) = table_of(catalog, last, &change.table) else {
            return Ok(false);
        };
        if !go_on_change(alloc, table, rows, change)? {
            return Ok(false);
        }
        last = Some(table);
        left = rest;
    }
    Ok(true)
}

/// The table of a name. The last one is tried first, so changes of one table that follow one another take one look-up.
fn table_of<'a>(catalog: &'a Catalog, last: Option<&'a Table>, name: &Name) -> Option<&'a Table>
    requires last { IsHeld catalog.now (option_copied last) }
    ensures table { option_copied result ≡ table_named catalog.now name.now }
{
    match last {
        Some(table) if table.name.bytes() == name.bytes() => Some(table),
        _ => catalog.table(name),
    }
}

/// Whether one change of a table fits, and if so the rows with it.
fn go_on_change(
    alloc: Global,
    table: &Table,
    rows: &mut Rows,
    change: &Change,
) -> Result<bool, NoMemory>
    requires fresh { rows.old ≡ at_mark rows.old.rows }
    requires differ { Differs change.now }
    ensures told { IfOk result (λ told. (catalog : Lists) → RowsFit catalog rows.old.rows → table_named catalog change.now.table ≡ Some table.now → ChangeTold catalog rows.old.rows change.now rows.new.rows told) }
    ensures fresh { rows.new ≡ at_mark rows.new.rows }
{
    match (&change.before, &change.after) {
        (None, None) => Ok(false),
        (None, Some(after)) => insert(alloc, table, rows, after),
        (Some(before), None) => remove(alloc, table, rows, before),
        (Some(before), Some(after)) => replace(alloc, table, rows, before, after),
    }
}

/// Whether the row of a table may become another one, and if so it does: it is there, and both have one key.
#[tactic(auto, using(crate::proofs::Changing::replace_told, crate::proofs::Changing::no_table_told))]
pub(crate) fn go_on_row(
    alloc: Global,
    catalog: &Catalog,
    rows: &mut Rows,
    name: &Name,
    before: &Row,
    after: &Row,
) -> Result<bool, NoMemory>
    requires rows { RowsFit catalog.now rows.old.rows }
    requires fresh { rows.old ≡ at_mark rows.old.rows }
    ensures told { IfOk result (λ told. ChangeTold catalog.now rows.old.rows (change_of name.now before.now after.now) rows.new.rows told) }
    ensures fresh { rows.new ≡ at_mark rows.new.rows }
{
    match catalog.table(name) {
        None => Ok(false),
        Some(table) => replace(alloc, table, rows, before, after),
    }
}

/// A row comes, where it may.
fn insert(alloc: Global, table: &Table, rows: &mut Rows, after: &Row) -> Result<bool, NoMemory>
    requires fresh { rows.old ≡ at_mark rows.old.rows }
    ensures told { IfOk result (λ told. Tells (MayCome table.now after.now rows.old.rows)
        (rows.new.rows ≡ with_row table.now (Some after.now) rows.old.rows) told) }
    ensures fresh { rows.new ≡ at_mark rows.new.rows }
{
    if !is_row(table.columns.as_slice(), after.values()) {
        return Ok(false);
    }
    let key = key_of(alloc, table, after)?;
    rows.put_new_at_mark(alloc, &table.name, key, after.copy(alloc)?)
}

/// A row goes, where it is there.
fn remove(alloc: Global, table: &Table, rows: &mut Rows, before: &Row) -> Result<bool, NoMemory>
    requires fresh { rows.old ≡ at_mark rows.old.rows }
    ensures told { IfOk result (λ told. Tells (IsThere table.now before.now rows.old.rows)
        (rows.new.rows ≡ without_row table.now (Some before.now) rows.old.rows) told) }
    ensures fresh { rows.new ≡ at_mark rows.new.rows }
{
    let Some(key) = held_key(alloc, table, rows, before)? else {
        return Ok(false);
    };
    rows.take_at_mark(alloc, &table.name, &key);
    Ok(true)
}

/// A row becomes another one, where it may.
fn replace(
    alloc: Global,
    table: &Table,
    rows: &mut Rows,
    before: &Row,
    after: &Row,
) -> Result<bool, NoMemory>
    requires fresh { rows.old ≡ at_mark rows.old.rows }
    ensures told { IfOk result (λ told. Tells (MayBecome table.now before.now after.now rows.old.rows)
        (rows.new.rows ≡ with_row table.now (Some after.now) (without_row table.now (Some before.now) rows.old.rows)) told) }
    ensures fresh { rows.new ≡ at_mark rows.new.rows }
{
    let Some(key) = kept_key(alloc, table, rows, before, after)? else {
        return Ok(false);
    };
    rows.put_at_mark(alloc, &table.name, key, after.copy(alloc)?)?;
    Ok(true)
}

/// The key of a row that is there.
fn held_key(
    alloc: Global,
    table: &Table,
    rows: &Rows,
    before: &Row,
) -> Result<Option<Key>, NoMemory>
    ensures key { IfOk result (KeyWhere (IsThere table.now before.now rows.now.rows) (key_at table.now.key before.now)) }
{
    let key = key_of(alloc, table, before)?;
    if !is_held(rows.get(&table.name, &key), before) {
        return Ok(None);
    }
    Ok(Some(key))
}

/// The key of a row that may become another one: it is there, and the other one fits and has the same key.
fn kept_key(
    alloc: Global,
    table: &Table,
    rows: &Rows,
    before: &Row,
    after: &Row,
) -> Result<Option<Key>, NoMemory>
    ensures key { IfOk result (KeyWhere (MayBecome table.now before.now after.now rows.now.rows) (key_at table.now.key after.now)) }
{
    if !is_row(table.columns.as_slice(), after.values()) {
        return Ok(None);
    }
    let Some(key) = held_key(alloc, table, rows, before)? else {
        return Ok(None);
    };
    let new_key = key_of(alloc, table, after)?;
    let same = key == new_key;
    if !same {
        return Ok(None);
    }
    Ok(Some(new_key))
}

fn is_held(held: Option<&Row>, row: &Row) -> bool
    ensures held { IsTrue result ↔ (option_copied held.entry ≡ Some row.now) }
{
    match held {
        None => false,
        Some(held) => *held == *row,
    }
}
