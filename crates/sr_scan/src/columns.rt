//! Columns of rows, as ops list them.

ghost use Rattle.std.specs.Prelude.{◌≡◌, ◌++◌, ◌∷◌, [], IfOk, OnOk, map, zip, filter, slice_get, unwrap_or};
ghost use Rattle.std.specs.Ordering.{eq_by_cmp};
ghost use Rattle.sr_base.specs.Order.{value_cmp};
ghost use Rattle.sr_base.specs.declared.value.Value.TheVariants.{Null};
ghost use Rattle.sr_exec_where.specs.Keys.{key_of};
ghost use Rattle.sr_logform.specs.Rules.{is_present};
ghost use Rattle.sr_catalog_schema.specs.Firsts.{has};
ghost use Rattle.sr_scan.specs.Ops.{present_columns, differing, outside_key};

use sr_base::{Copied, Name, NoMemory, Seq, Value};
use sr_catalog_schema::Column;
use sr_eval::is_null;
use sr_publish::{is_same, value_or_null};
use std::alloc::{AllocError, Global};

/// Whether a value is there, and is not NULL.
fn is_present(value: &Value) -> bool
    ensures { result ≡ is_present value.now }
{
    !is_null(value)
}

/// The columns of a row of a view that are not NULL.
pub(crate) fn present_columns(
    alloc: Global,
    columns: &[Column],
    row: &[Value],
) -> Result<Seq<(Name, Value)>, NoMemory>
    ensures present { IfOk result (λ found. found ≡ present_columns columns.now row.now) }
{
    let mut found = Vec::new(alloc);
    let mut columns_left = columns;
    let mut values_left = row;
    'columns: while let Some((column, columns_after)) = columns_left.split_first() {
        let Some((value, values_after)) = values_left.split_first() else {
            return Ok(Seq::from_vec(found));
        };
        if is_present(value) {
            add_copies(alloc, &column.name, value, &mut found)?;
        }
        columns_left = columns_after;
        values_left = values_after;
    }
    Ok(Seq::from_vec(found))
}

/// The columns at places of a row that are not NULL.
pub(crate) fn present_at(
    alloc: Global,
    columns: &[Column],
    places: &[usize],
    row: &[Value],
) -> Result<Seq<(Name, Value)>, NoMemory>
    ensures present { IfOk result (λ found. found ≡ present_columns columns.now (key_of places.now row.now)) }
{
    let mut found = Vec::with_capacity(alloc, columns.len())?;
    let mut columns_left = columns;
    let mut places_left = places;
    'columns: while let Some((column, columns_after)) = columns_left.split_first() {
        let Some((place, places_after)) = places_left.split_first() else {
            return Ok(Seq::from_vec(found));
        };
        if is_present_at(row, *place) {
            add_at(alloc, column, *place, row, &mut found)?;
        }
        columns_left = columns_after;
        places_left = places_after;
    }
    Ok(Seq::from_vec(found))
}

/// Whether a row has a value at a place that is not NULL.
fn is_present_at(row: &[Value], place: usize) -> bool
    ensures { result ≡ is_present (unwrap_or (slice_get row.now place) Null) }
{
    match row.get(place) {
        Some(value) => is_present(value),
        None => false,
    }
}

/// Adds a column with its value.
fn add_at(
    alloc: Global,
    column: &Column,
    place: usize,
    row: &[Value],
    found: &mut Vec<(Name, Value)>,
) -> Result<(), NoMemory>
    ensures added { OnOk result (found.new.items ≡ found.old.items ++ (column.now.name, unwrap_or (slice_get row.now place) Null) ∷ []) }
{
    let value = value_or_null(alloc, row, place)?;
    add_named(alloc, &column.name, value, found)
}

/// The columns at places in which two rows differ, each with both values.
pub(crate) fn differing_at(
    alloc: Global,
    columns: &[Column],
    places: &[usize],
    before: &[Value],
    after: &[Value],
) -> Result<Vec<(Name, Value, Value)>, NoMemory>
    ensures differing { IfOk result (λ found. found.items ≡ differing columns.now (key_of places.now before.now) (key_of places.now after.now)) }
{
    let mut found = Vec::new(alloc);
    let mut columns_left = columns;
    let mut places_left = places;
    'columns: while let Some((column, columns_after)) = columns_left.split_first() {
        let Some((place, places_after)) = places_left.split_first() else {
            return Ok(found);
        };
        if !is_same_at(before, after, *place) {
            add_both(alloc, column, *place, before, after, &mut found)?;
        }
        columns_left = columns_after;
        places_left = places_after;
    }
    Ok(found)
}

/// Whether two rows have one value at a place, NULL where a row ends before it.
fn is_same_at(before: &[Value], after: &[Value], place: usize) -> bool
    ensures { result ≡ eq_by_cmp value_cmp (unwrap_or (slice_get before.now place) Null) (unwrap_or (slice_get after.now place) Null) }
{
    match (before.get(place), after.get(place)) {
        (Some(old), Some(new)) => is_same(old, new),
        (Some(old), None) => is_same(old, &Value::Null),
        (None, Some(new)) => is_same(&Value::Null, new),
        (None, None) => true,
    }
}

/// Adds a column with its value before and after.
fn add_both(
    alloc: Global,
    column: &Column,
    place: usize,
    before: &[Value],
    after: &[Value],
    found: &mut Vec<(Name, Value, Value)>,
) -> Result<(), NoMemory>
    ensures added { OnOk result (found.new.items ≡ found.old.items
        ++ (column.now.name, unwrap_or (slice_get before.now place) Null, unwrap_or (slice_get after.now place) Null) ∷ []) }
{
    let name = column.name.copy(alloc)?;
    let old = value_or_null(alloc, before, place)?;
    let new = value_or_null(alloc, after, place)?;
    found.push((name, old, new))?;
    Ok(())
}

/// Adds a copy of a value under a copy of a name.
pub(crate) fn add_copies(
    alloc: Global,
    name: &Name,
    value: &Value,
    found: &mut Vec<(Name, Value)>,
) -> Result<(), NoMemory>
    ensures added { OnOk result (found.new.items ≡ found.old.items ++ (name.now, value.now) ∷ []) }
{
    add_named(alloc, name, value.copy(alloc)?, found)
}

/// Adds a value under a copy of a name.
fn add_named(
    alloc: Global,
    name: &Name,
    value: Value,
    found: &mut Vec<(Name, Value)>,
) -> Result<(), NoMemory>
    ensures added { OnOk result (found.new.items ≡ found.old.items ++ (name.now, value) ∷ []) }
{
    match name.copy(alloc) {
        Ok(name) => push_pair(name, value, found),
        Err(lack) => {
            drop(value);
            Err(lack)
        }
    }
}

fn push_pair(name: Name, value: Value, found: &mut Vec<(Name, Value)>) -> Result<(), NoMemory>
    ensures added { OnOk result (found.new.items ≡ found.old.items ++ (name, value) ∷ []) }
{
    match found.push((name, value)) {
        Ok(()) => Ok(()),
        Err(refused) => {
            drop(refused);
            Err(AllocError)
        }
    }
}

/// The columns at places that are outside a key, each with both values.
pub(crate) fn outside_key_at(
    alloc: Global,
    key: &[Name],
    columns: &[Column],
    places: &[usize],
    before: &[Value],
    after: &[Value],
) -> Result<Vec<(Name, Value, Value)>, NoMemory>
    ensures outside { IfOk result (λ found. found.items ≡ outside_key key.now columns.now (key_of places.now before.now) (key_of places.now after.now)) }
{
    let mut found = Vec::new(alloc);
    let mut columns_left = columns;
    let mut places_left = places;
    'columns: while let Some((column, columns_after)) = columns_left.split_first() {
        let Some((place, places_after)) = places_left.split_first() else {
            return Ok(found);
        };
        if !has(key, &column.name) {
            add_both(alloc, column, *place, before, after, &mut found)?;
        }
        columns_left = columns_after;
        places_left = places_after;
    }
    Ok(found)
}

/// Whether a name is among names.
pub(crate) fn has(names: &[Name], name: &Name) -> bool
    ensures { result ≡ has names.now name.now }
{
    names.iter().any(|other| name.bytes() == other.bytes())
}
