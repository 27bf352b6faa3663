ghost use Rattle.std.specs.Prelude.{◌≡◌, ◌≤◌, cond, length, IfOk, OnOk, IfSome, IsTrue, Some};
ghost use Rattle.std.specs.Option.{option_copied};
ghost use Rattle.sr_rows.specs.Inner.Steps.{GoesOn};
ghost use Rattle.sr_exec_dml.specs.Applying.{without_row, with_row, applied_in, applied};
ghost use Rattle.sr_exec_where.specs.Keys.{key_of};
ghost use Rattle.sr_exec_dml.specs.Statements.{table_named};
ghost use Rattle.sr_catalog_schema.specs.Catalogs.{Lists};

use sr_base::{Copied, Name, NoMemory, Row, Value};
use sr_catalog_schema::Table;
use sr_exec_where::key_of;
use sr_logform::Change;
use sr_rows::{AtHand, Rows};
use std::alloc::Global;
use std::mem;

/// Applies the changes at the front that are of one table, which is looked up once, and answers those that are left. Rows that are replaced
/// one after another are replaced with their table at hand.
pub fn apply_same<'a>(
    alloc: Global,
    table: Option<&Table>,
    name: &Name,
    rows: &mut Rows,
    changes: &'a [Change],
) -> Result<&'a [Change], NoMemory>
    ensures rows { IfOk result (λ left. (catalog : Lists) → table_named catalog name.now ≡ option_copied table.entry → applied catalog left.now rows.new.rows ≡ applied catalog changes.now rows.old.rows) }
    ensures shorter { IfOk result (λ left. length left.now ≤ length changes.now) }
    ensures on { GoesOn rows.old rows.new }
{
    let mut left = changes;
    'changes: while let Some((change, rest)) = left.split_first() {
        if change.table.bytes() != name.bytes() {
            return Ok(left);
        }
        apply_in(alloc, table, rows, change)?;
        left = replace_run(alloc, table, name, rows, rest)?;
    }
    Ok(left)
}

/// Applies the changes at the front of which each replaces a row of one table, and answers those that are left. The table is at hand
/// meanwhile, where there is memory for its name.
fn replace_run<'a>(
    alloc: Global,
    table: Option<&Table>,
    name: &Name,
    rows: &mut Rows,
    changes: &'a [Change],
) -> Result<&'a [Change], NoMemory>
    ensures rows { IfOk result (λ left. (catalog : Lists) → table_named catalog name.now ≡ option_copied table.entry → applied catalog left.now rows.new.rows ≡ applied catalog changes.now rows.old.rows) }
    ensures shorter { IfOk result (λ left. length left.now ≤ length changes.now) }
    ensures on { GoesOn rows.old rows.new }
{
    let Some(table) = table else {
        return Ok(changes);
    };
    if !replaces_first(table, name, changes) {
        return Ok(changes);
    }
    let held = mem::replace(rows, Rows::new(alloc));
    match AtHand::take(alloc, held, &table.name) {
        Ok(mut hand) => {
            let left = replace_each(alloc, table, name, &mut hand, changes);
            drop(mem::replace(rows, hand.give_back()));
            left
        }
        Err(held) => {
            drop(mem::replace(rows, held));
            Ok(changes)
        }
    }
}

/// Whether the first change replaces a row of a table. Only the time depends on it.
fn replaces_first(table: &Table, name: &Name, changes: &[Change]) -> bool {
    match changes.first() {
        Some(change) => {
            change.table.bytes() == name.bytes()
                && replacement(table.key.as_slice(), change).is_some()
        }
        None => false,
    }
}

/// Replaces rows of the table at hand, up to the first change that does not, or whose row has no place.
fn replace_each<'a>(
    alloc: Global,
    table: &Table,
    name: &Name,
    hand: &mut AtHand,
    changes: &'a [Change],
) -> Result<&'a [Change], NoMemory>
    requires hand { hand.old.table ≡ table.now.name }
    ensures rows { IfOk result (λ left. (catalog : Lists) → table_named catalog name.now ≡ Some table.now → applied catalog left.now hand.new.rows.rows ≡ applied catalog changes.now hand.old.rows.rows) }
    ensures shorter { IfOk result (λ left. length left.now ≤ length changes.now) }
    ensures on { GoesOn hand.old.rows hand.new.rows }
{
    let mut left = changes;
    'changes: while let Some((change, rest)) = left.split_first() {
        if change.table.bytes() != name.bytes() {
            return Ok(left);
        }
        if !replace_in(alloc, table, hand, change)? {
            return Ok(left);
        }
        left = rest;
    }
    Ok(left)
}

/// Replaces a row of the table at hand, and answers whether it did; else nothing changes.
#[inline(always)]
fn replace_in(
    alloc: Global,
    table: &Table,
    hand: &mut AtHand,
    change: &Change,
) -> Result<bool, NoMemory>
    requires hand { hand.old.table ≡ table.now.name }
    ensures replaced { IfOk result (λ done. hand.new.rows.rows ≡ cond done (applied_in (Some table.now) change.now hand.old.rows.rows) hand.old.rows.rows) }
    ensures table { hand.new.table ≡ hand.old.table }
    ensures on { GoesOn hand.old.rows hand.new.rows }
{
    let places = table.key.as_slice();
    let Some(after) = replacement(places, change) else {
        return Ok(false);
    };
    let key = key_of(alloc, places, after.values())?;
    hand.replace(key, after.copy(alloc)?)
}

/// The row after a change, where it comes in place of one with its key.
#[inline(always)]
fn replacement<'c>(places: &[usize], change: &'c Change) -> Option<&'c Row>
    ensures over { IfSome result (λ after. (change.now.after ≡ Some after.now) × IfSome change.now.before (λ row. key_of places.now row ≡ key_of places.now after.now)) }
{
    let Some(before) = &change.before else {
        return None;
    };
    let Some(after) = &change.after else {
        return None;
    };
    if is_same_key(places, before.values(), after.values()) {
        return Some(after);
    }
    None
}

/// Applies a change of a table. Nothing changes in a table that is not there.
#[inline(always)]
pub fn apply_in(
    alloc: Global,
    table: Option<&Table>,
    rows: &mut Rows,
    change: &Change,
) -> Result<(), NoMemory>
    ensures rows { OnOk result (rows.new.rows ≡ applied_in (option_copied table.entry) change.now rows.old.rows) }
    ensures on { GoesOn rows.old rows.new }
{
    let Some(table) = table else {
        return Ok(());
    };
    match &change.after {
        None => take_row(alloc, table, rows, &change.before),
        Some(after) => put_row(alloc, table, rows, &change.before, after),
    }
}

/// Takes a row away, if there is one.
fn take_row(
    alloc: Global,
    table: &Table,
    rows: &mut Rows,
    row: &Option<Row>,
) -> Result<(), NoMemory>
    ensures rows { OnOk result (rows.new.rows ≡ without_row table.now row.now rows.old.rows) }
    ensures on { GoesOn rows.old rows.new }
{
    let Some(row) = row else {
        return Ok(());
    };
    let key = key_of(alloc, table.key.as_slice(), row.values())?;
    rows.unset(alloc, &table.name, key)
}

/// Puts a row in place of another one. Where both have one key, it is looked up once.
#[tactic(auto, using(crate::proofs::Over::set_over))]
#[inline(always)]
fn put_row(
    alloc: Global,
    table: &Table,
    rows: &mut Rows,
    before: &Option<Row>,
    after: &Row,
) -> Result<(), NoMemory>
    ensures rows { OnOk result (rows.new.rows ≡ with_row table.now (Some after.now) (without_row table.now before.now rows.old.rows)) }
    ensures on { GoesOn rows.old rows.new }
{
    if has_key_of(table.key.as_slice(), before, after.values()) {
        return set_row(alloc, table, rows, before.is_some(), after);
    }
    take_row(alloc, table, rows, before)?;
    set_row(alloc, table, rows, false, after)
}

/// Puts a row under its key, where one is awaited or not.
#[inline(always)]
fn set_row(
    alloc: Global,
    table: &Table,
    rows: &mut Rows,
    is_held: bool,
    row: &Row,
) -> Result<(), NoMemory>
    ensures rows { OnOk result (rows.new.rows ≡ with_row table.now (Some row.now) rows.old.rows) }
    ensures on { GoesOn rows.old rows.new }
{
    let key = key_of(alloc, table.key.as_slice(), row.values())?;
    let row = row.copy(alloc)?;
    if is_held {
        return rows.replace(alloc, &table.name, key, row);
    }
    rows.set(alloc, &table.name, key, row)
}

/// Whether a row is none, or has the same key as another one.
fn has_key_of(places: &[usize], before: &Option<Row>, after: &[Value]) -> bool
    ensures same { IsTrue result → IfSome before.now (λ row. key_of places.now row ≡ key_of places.now after.now) }
{
    match before {
        None => true,
        Some(before) => is_same_key(places, before.values(), after),
    }
}

/// Whether two rows have one key: their values at each of its places.
#[inline(always)]
pub(crate) fn is_same_key(places: &[usize], row: &[Value], other: &[Value]) -> bool
    ensures same { IsTrue result → key_of places.now row.now ≡ key_of places.now other.now }
{
    let mut left = places;
    'places: while let Some((place, rest)) = left.split_first() {
        if !is_same_value(row.get(*place), other.get(*place)) {
            return false;
        }
        left = rest;
    }
    true
}

/// Whether two values are there and equal.
#[inline(always)]
fn is_same_value(value: Option<&Value>, other: Option<&Value>) -> bool
    ensures same { IsTrue result → option_copied value.entry ≡ option_copied other.entry }
{
    match (value, other) {
        (Some(value), Some(other)) => value.cmp(other).is_eq(),
        _ => false,
    }
}
