//! Keys, as ops name them.

ghost use Rattle.std.specs.Prelude.{◌≡◌, ◌&&◌, List, ℕ, Some, zip, map, IfOk, slice_get};
ghost use Rattle.std.specs.Ordering.{eq_by_cmp};
ghost use Rattle.sr_base.specs.Order.{key_cmp};
ghost use Rattle.sr_base_dates.specs.Fitting.{fitted};
ghost use Rattle.sr_exec_where.specs.Keys.{key_of};
ghost use Rattle.sr_database_history.specs.Fitting.{fitted_in};
ghost use Rattle.sr_scan.specs.Inner.Images.{key_meant, all_of, stands_under, are_rows_of};
ghost use Rattle.sr_scan.specs.Ops.{key_columns};

use crate::columns::add_copies;
use sr_base::{Copied, Key, Name, NoMemory, Row, Seq, Value};
use sr_base_dates::fit;
use sr_catalog_schema::{Column, Table, item_at, key_names};
use sr_exec_fits::is_row;
use sr_publish::values_at;
use std::alloc::Global;

/// The key of a table by its columns, in key order.
pub(crate) fn key_columns(
    alloc: Global,
    table: &Table,
    key: &[Value],
) -> Result<Seq<(Name, Value)>, NoMemory>
    ensures columns { IfOk result (λ columns. columns ≡ key_columns table.now key.now) }
{
    let names = key_names(alloc, table)?;
    let columns = named_values(alloc, names.as_slice(), key);
    drop(names);
    columns
}

/// Values by their names.
fn named_values(
    alloc: Global,
    names: &[Name],
    values: &[Value],
) -> Result<Seq<(Name, Value)>, NoMemory>
    ensures columns { IfOk result (λ columns. columns ≡ zip names.now values.now) }
{
    let mut columns = Vec::new(alloc);
    let mut names_left = names;
    let mut values_left = values;
    'names: while let Some((name, names_after)) = names_left.split_first() {
        let Some((value, values_after)) = values_left.split_first() else {
            return Ok(Seq::from_vec(columns));
        };
        add_copies(alloc, name, value, &mut columns)?;
        names_left = names_after;
        values_left = values_after;
    }
    Ok(Seq::from_vec(columns))
}

/// The columns of the key of a row.
pub(crate) fn key_of_row(
    alloc: Global,
    table: &Table,
    row: &Row,
) -> Result<Seq<(Name, Value)>, NoMemory>
    ensures columns { IfOk result (λ columns. columns ≡ key_columns table.now (key_of table.now.key row.now)) }
{
    let key = values_at(alloc, table.key.as_slice(), row.values())?;
    key_columns(alloc, table, key.as_slice())
}

/// Whether two rows fit a table and stand under the key that columns name, their values fitted.
pub(crate) fn are_rows_of(
    alloc: Global,
    table: &Table,
    columns: &[(Name, Value)],
    before: &Row,
    after: &Row,
) -> Result<bool, NoMemory>
    ensures rows { IfOk result (λ told. told ≡ are_rows_of table.now columns.now before.now after.now) }
{
    let all = table.columns.as_slice();
    if !is_row(all, before.values()) || !is_row(all, after.values()) {
        return Ok(false);
    }
    let key = key_meant(alloc, table, columns)?;
    let told = both_stand_under(alloc, table, &key, before, after);
    drop(key);
    told
}

/// Whether two rows stand under a key.
fn both_stand_under(
    alloc: Global,
    table: &Table,
    key: &Option<Key>,
    before: &Row,
    after: &Row,
) -> Result<bool, NoMemory>
    ensures stand { IfOk result (λ told. told ≡ (stands_under table.now key.now before.now && stands_under table.now key.now after.now)) }
{
    Ok(stands_under(alloc, table, key, before)? && stands_under(alloc, table, key, after)?)
}

/// Whether a row stands under a key.
fn stands_under(
    alloc: Global,
    table: &Table,
    key: &Option<Key>,
    row: &Row,
) -> Result<bool, NoMemory>
    ensures stands { IfOk result (λ told. told ≡ stands_under table.now key.now row.now) }
{
    let Some(key) = key else {
        return Ok(false);
    };
    let own = Key::new(alloc, values_at(alloc, table.key.as_slice(), row.values())?)?;
    let told = key.cmp(&own).is_eq();
    drop(own);
    Ok(told)
}

/// The key that columns name, with their values fitted.
fn key_meant(
    alloc: Global,
    table: &Table,
    columns: &[(Name, Value)],
) -> Result<Option<Key>, NoMemory>
    ensures key { IfOk result (λ key. key ≡ key_meant table.now columns.now) }
{
    if columns.len() != table.key.as_slice().len() {
        return Ok(None);
    }
    let mut values = Vec::new(alloc);
    let mut left = table.key.as_slice();
    'places: while let Some((place, rest)) = left.split_first() {
        let Some(value) = fitted_at(alloc, table, columns, *place)? else {
            return Ok(None);
        };
        values.push(value)?;
        left = rest;
    }
    Ok(Some(Key::new(alloc, Seq::from_vec(values))?))
}

/// The value that is named for the column at a place, fitted to it.
#[tactic(auto, using(crate::proofs::Prefixes::named_nowhere, crate::proofs::Prefixes::named_at))]
fn fitted_at(
    alloc: Global,
    table: &Table,
    columns: &[(Name, Value)],
    place: usize,
) -> Result<Option<Value>, NoMemory>
    ensures value { IfOk result (λ value. value ≡ fitted_in columns.now (slice_get table.now.columns place)) }
{
    match item_at(table.columns.as_slice(), place) {
        None => Ok(None),
        Some(column) => { fitted_to(alloc, columns, column) }
    }
}

/// The value that is named for a column, fitted to it.
fn fitted_to(
    alloc: Global,
    columns: &[(Name, Value)],
    column: &Column,
) -> Result<Option<Value>, NoMemory>
    ensures value { IfOk result (λ value. value ≡ fitted_in columns.now (Some column.now)) }
{
    let mut left = columns;
    'columns: while let Some((named, rest)) = left.split_first() {
        if named.0.bytes() == column.name.bytes() {
            return fitted_value(alloc, &named.1, column);
        }
        left = rest;
    }
    Ok(None)
}

/// A value, fitted to a column.
#[tactic(auto, using(crate::proofs::Prefixes::fit_is))]
fn fitted_value(alloc: Global, value: &Value, column: &Column) -> Result<Option<Value>, NoMemory>
    ensures value { IfOk result (λ found. found ≡ fitted value.now column.now.kind) }
{
    Ok(fit(value.copy(alloc)?, column.kind).ok())
}
