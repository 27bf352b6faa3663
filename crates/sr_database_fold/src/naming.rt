//! The key that the columns of a Set name.

ghost use Rattle.std.specs.Prelude.{◌≡◌, IfOk, OnOk, List, ℕ, Some, cond, map, slice_get};
ghost use Rattle.std.specs.BTreeMap as tree;
ghost use Rattle.std.specs.BTreeMap.{is_at};
ghost use Rattle.std.specs.Option.{option_copied};
ghost use Rattle.sr_base.specs.Order.{name_cmp};
ghost use Rattle.sr_base_dates.specs.Fitting.{fitted as fitted_value};
ghost use Rattle.sr_database_history.specs.Fitting.{all_there, IsNamedKey};
ghost use Rattle.sr_database_fold.specs.Inner.Parts.{IsOneOrNone, value_named, fitted_by, fitted_where};

use sr_base::{Copied, Key, Name, NoMemory, Seq, Value};
use sr_base_dates::fit;
use sr_catalog::{Column, Table};
use std::alloc::{AllocError, Global};
use std::collections::BTreeMap;

/// The key that columns name with their values, each fitted to its column. There is none where the columns are not those of the table's key, or
/// where a value does not fit.
///
/// The names stand in a tree, so that each column of the key takes logarithmic time.
#[tactic(auto, using(crate::proofs::Named::not_counted))]
pub(crate) fn named_key(
    alloc: Global,
    table: &Table,
    columns: &[(Name, Value)],
) -> Result<Option<Key>, NoMemory>
    ensures key { IfOk result (λ found. IsOneOrNone (IsNamedKey table.now columns.now) found) }
{
    if columns.len() != table.key.as_slice().len() {
        return Ok(None);
    }
    let named = by_name(alloc, columns)?;
    let found = named_values(
        alloc,
        table.columns.as_slice(),
        table.key.as_slice(),
        &named,
    )?;
    Ok(found)
}

/// The named values in a tree; of two under one name the first.
#[tactic(auto, using(crate::proofs::Named::named_from_the_end, crate::proofs::Named::one_more_named, crate::proofs::Named::all_named))]
fn by_name(alloc: Global, named: &[(Name, Value)]) -> Result<BTreeMap<Name, Value>, NoMemory>
    ensures first { IfOk result (λ by_name. (name : List ℕ) → tree.get name_cmp by_name name ≡ value_named named.now name) }
{
    let mut values = BTreeMap::new(alloc);
    let mut left = named;
    'named: while let Some((last, rest)) = left.split_last() {
        put(&mut values, last.0.copy(alloc)?, last.1.copy(alloc)?)?;
        left = rest;
    }
    Ok(values)
}

/// Puts a value under a name, in place of the one there.
fn put(values: &mut BTreeMap<Name, Value>, name: Name, value: Value) -> Result<(), NoMemory>
    ensures put { OnOk result ((q : List ℕ) → tree.get name_cmp values.new q ≡ cond (is_at (name_cmp name) q) (Some value) (tree.get name_cmp values.old q)) }
{
    match values.insert(name, value) {
        Ok(_) => Ok(()),
        Err(_) => Err(AllocError),
    }
}

/// The values that are named for the columns at some places, each fitted to its column, where each is there.
#[tactic(auto, using(crate::proofs::Named::none_collected, crate::proofs::Named::one_lacks))]
fn named_values(
    alloc: Global,
    columns: &[Column],
    places: &[usize],
    named: &BTreeMap<Name, Value>,
) -> Result<Option<Key>, NoMemory>
    ensures key { IfOk result (λ found. IsOneOrNone (all_there (map (λ place. fitted_by (tree.get name_cmp named.now) (slice_get columns.now place)) places.now)) found) }
{
    let mut values = Vec::new(alloc);
    let mut left = places;
    'places: while let Some((place, rest)) = left.split_first() {
        let Some(value) = value_at(alloc, columns, *place, named)? else {
            return Ok(None);
        };
        values.push(value)?;
        left = rest;
    }
    Ok(Some(Key::new(alloc, Seq::from_vec(values))?))
}

/// The value that is named for the column at a place, fitted to it.
fn value_at(
    alloc: Global,
    columns: &[Column],
    place: usize,
    named: &BTreeMap<Name, Value>,
) -> Result<Option<Value>, NoMemory>
    ensures value { IfOk result (λ value. value ≡ fitted_by (tree.get name_cmp named.now) (slice_get columns.now place)) }
{
    match columns.get(place) {
        Some(column) => named_value(alloc, named, column),
        None => Ok(None),
    }
}

/// The value that is named for a column, fitted to it.
fn named_value(
    alloc: Global,
    named: &BTreeMap<Name, Value>,
    column: &Column,
) -> Result<Option<Value>, NoMemory>
    ensures value { IfOk result (λ value. value ≡ fitted_by (tree.get name_cmp named.now) (Some column.now)) }
{
    fitted(alloc, named.get(&column.name), column)
}

/// A value, if there is one, fitted to a column.
fn fitted(alloc: Global, value: Option<&Value>, column: &Column) -> Result<Option<Value>, NoMemory>
    ensures value { IfOk result (λ fitted. fitted ≡ fitted_where (option_copied value.entry) column.now.kind) }
{
    match value {
        Some(value) => fit_copy(alloc, value, column),
        None => Ok(None),
    }
}

fn fit_copy(alloc: Global, value: &Value, column: &Column) -> Result<Option<Value>, NoMemory>
    ensures value { IfOk result (λ fitted. fitted ≡ fitted_value value.now column.now.kind) }
{
    match fit(value.copy(alloc)?, column.kind) {
        Ok(held) => Ok(Some(held)),
        Err(_) => Ok(None),
    }
}
