//! The columns and values that an op names: its key, and the row that an Insert makes.

ghost use Rattle.std.specs.Prelude.{◌≡◌, bytes_eq, not, slice_get, Some, IfOk};
ghost use Rattle.std.specs.List.{list_all, list_any};
ghost use Rattle.std.specs.Option.{option_copied};
ghost use Rattle.sr_eval.specs.Comparisons.{is_null};
ghost use Rattle.sr_database_history.specs.Fitting.{fitted_in};
ghost use Rattle.sr_resolve.specs.Named.{is_named, names_key, fitted_key, names_other, filled, filled_row, has_null};
ghost use Rattle.sr_catalog_schema.specs.Members.{has_column};
ghost use Rattle.sr_catalog_schema.specs.Names.{named};

use sr_base::{Copied, Key, Name, NoMemory, Row, Seq, Value};
use sr_base_dates::fitted;
use sr_catalog::{Column, Table};
use sr_catalog_schema::{is_taken, item_at};
use sr_eval::is_null;
use std::alloc::Global;

/// Whether the named columns are, as a set, the table's key, where none is named twice: there are as many, and each column of the key is
/// named. Each looks through the names.
#[tactic(auto, unfolding(crate::specs::Named::names_key))]
pub(crate) fn names_key(table: &Table, values: &[(Name, Value)]) -> bool
    ensures { result ≡ names_key table.now values.now }
{
    values.len() == table.key.as_slice().len() && names_each(table, values)
}

/// Whether each column of the table's key is named.
fn names_each(table: &Table, values: &[(Name, Value)]) -> bool
    ensures { result ≡ list_all (λ place. is_named values.now (slice_get table.now.columns place)) table.now.key }
{
    table
        .key
        .as_slice()
        .iter()
        .all(|place| is_place_named(table, values, *place))
}

/// Whether the column at a place is named.
fn is_place_named(table: &Table, values: &[(Name, Value)], place: usize) -> bool
    ensures { result ≡ is_named values.now (slice_get table.now.columns place) }
{
    is_named(values, item_at(table.columns.as_slice(), place))
}

/// Whether a column is named.
fn is_named(values: &[(Name, Value)], column: Option<&Column>) -> bool
    ensures { result ≡ is_named values.now (option_copied column.entry) }
{
    match column {
        None => false,
        Some(column) => is_among(values, &column.name),
    }
}

/// Whether a name is among those that are named.
fn is_among(values: &[(Name, Value)], name: &Name) -> bool
    ensures { result ≡ list_any (λ v. bytes_eq v.0 name.now) values.now }
{
    values.iter().any(|value| value.0.bytes() == name.bytes())
}

/// The key that is named, its values fitted. None where one does not fit.
pub(crate) fn fitted_key(
    alloc: Global,
    table: &Table,
    values: &[(Name, Value)],
) -> Result<Option<Key>, NoMemory>
    ensures key { IfOk result (λ key. key ≡ fitted_key table.now values.now) }
{
    let mut key = Vec::new(alloc);
    let mut left = table.key.as_slice();
    'places: while let Some((place, rest)) = left.split_first() {
        let Some(value) = fitted_at(alloc, values, table.columns.as_slice(), *place)? else {
            return Ok(None);
        };
        key.push(value)?;
        left = rest;
    }
    Ok(Some(Key::new(alloc, Seq::from_vec(key))?))
}

/// The value that is named for the column at a place, fitted to it.
#[tactic(auto, using(crate::proofs::Keys::nothing_fits))]
fn fitted_at(
    alloc: Global,
    values: &[(Name, Value)],
    columns: &[Column],
    place: usize,
) -> Result<Option<Value>, NoMemory>
    ensures value { IfOk result (λ v. v ≡ fitted_in values.now (slice_get columns.now place)) }
{
    match item_at(columns, place) {
        None => Ok(None),
        Some(column) => fitted_in(alloc, values, column),
    }
}

/// The value that is named for a column, fitted to it. It looks at each name up to the column's.
fn fitted_in(
    alloc: Global,
    values: &[(Name, Value)],
    column: &Column,
) -> Result<Option<Value>, NoMemory>
    ensures value { IfOk result (λ v. v ≡ fitted_in values.now (Some column.now)) }
{
    let mut left = values;
    'values: while let Some((value, rest)) = left.split_first() {
        if value.0.bytes() == column.name.bytes() {
            return Ok(fitted(value.1.copy(alloc)?, column.kind));
        }
        left = rest;
    }
    Ok(None)
}

/// Whether one of the values is NULL.
pub(crate) fn has_any_null(values: &[Value]) -> bool
    ensures { result ≡ list_any is_null values.now }
{
    values.iter().any(|value| is_null(value))
}

/// Whether a column is named that is not in the table. Each name looks through the columns.
pub(crate) fn names_other(table: &Table, values: &[(Name, Value)]) -> bool
    ensures { result ≡ names_other table.now values.now }
{
    values.iter().any(|value| is_other(table, &value.0))
}

/// Whether a name is that of no column.
fn is_other(table: &Table, name: &Name) -> bool
    ensures { result ≡ not (has_column table.now name.now) }
{
    !is_taken(name, table.columns.as_slice())
}

/// The row of the named values, fitted, where columns that are not named hold NULL. None where a value does not fit. Each column looks
/// through the names.
pub(crate) fn filled_row(
    alloc: Global,
    values: &[(Name, Value)],
    columns: &[Column],
) -> Result<Option<Row>, NoMemory>
    ensures row { IfOk result (λ row. row ≡ filled_row values.now columns.now) }
{
    let mut row = Vec::new(alloc);
    let mut left = columns;
    'columns: while let Some((column, rest)) = left.split_first() {
        let Some(value) = filled(alloc, column, value_named(values, &column.name))? else {
            return Ok(None);
        };
        row.push(value)?;
        left = rest;
    }
    Ok(Some(Row::new(alloc, Seq::from_vec(row))?))
}

/// The value that is named for a column, with the name.
fn value_named<'a>(values: &'a [(Name, Value)], name: &Name) -> Option<&'a (Name, Value)>
    ensures { option_copied result ≡ named (λ v. v.0) name.now values.now }
{
    let mut left = values;
    'values: while let Some((value, rest)) = left.split_first() {
        if name.bytes() == value.0.bytes() {
            return Some(value);
        }
        left = rest;
    }
    None
}

/// What a column holds for a named value, or NULL.
fn filled(
    alloc: Global,
    column: &Column,
    value: Option<&(Name, Value)>,
) -> Result<Option<Value>, NoMemory>
    ensures value { IfOk result (λ v. v ≡ filled column.now (option_copied value.entry)) }
{
    match value {
        None => Ok(Some(Value::Null)),
        Some(value) => Ok(fitted(value.1.copy(alloc)?, column.kind)),
    }
}

/// Whether a row has NULL in a column that is NOT NULL.
pub(crate) fn has_null(columns: &[Column], row: &[Value]) -> bool
    ensures { result ≡ has_null columns.now row.now }
{
    let mut columns_left = columns;
    let mut left = row;
    'columns: while let Some((column, columns_rest)) = columns_left.split_first() {
        let Some((value, rest)) = left.split_first() else {
            return false;
        };
        if column.not_null && is_null(value) {
            return true;
        }
        columns_left = columns_rest;
        left = rest;
    }
    false
}
