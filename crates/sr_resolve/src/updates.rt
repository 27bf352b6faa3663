//! What a Set makes of a row, and where the row differs from the one that it took for the stored one.

ghost use Rattle.std.specs.Prelude.{◌≡◌, ◌++◌, ◌∷◌, cond, unwrap_or, ℕ, List, IfOk, OnOk};
ghost use Rattle.std.specs.List.{list_any};
ghost use Rattle.std.specs.Option.{option_copied};
ghost use Rattle.sr_base.specs.declared.value.Value.{Value as Cell};
ghost use Rattle.sr_resolve.specs.Named.{is_no_target, update_of, is_column_set, new_value, new_values, is_new_null, sets_null};
ghost use Rattle.sr_resolve.specs.Named.{with_news, is_value, differs, differing, old_value, old_row};

use sr_base::{Copied, Name, NoMemory, Row, Seq, Value};
use sr_base_dates::fitted;
use sr_catalog::{Column, Table};
use sr_catalog_schema::is_taken;
use sr_eval::is_null;
use sr_resolve_triggers::is_of_key;
use std::alloc::Global;

/// Whether one of the updates may not be made: its column is not in the table, or is one of its key.
pub(crate) fn has_no_target(table: &Table, updates: &[(Name, Value, Value)]) -> bool
    ensures { result ≡ list_any (is_no_target table.now) updates.now }
{
    updates.iter().any(|update| is_no_target(table, update))
}

fn is_no_target(table: &Table, update: &(Name, Value, Value)) -> bool
    ensures { result ≡ is_no_target table.now update.now }
{
    !is_taken(&update.0, table.columns.as_slice()) || is_of_key(table, &update.0)
}

/// The update of a column. It looks at each up to that one.
fn update_of<'a>(
    updates: &'a [(Name, Value, Value)],
    column: &Column,
) -> Option<&'a (Name, Value, Value)>
    ensures { option_copied result ≡ update_of updates.now column.now }
{
    let mut left = updates;
    'updates: while let Some((update, rest)) = left.split_first() {
        if column.name.bytes() == update.0.bytes() {
            return Some(update);
        }
        left = rest;
    }
    None
}

/// The new value of each column, fitted, where one is named and set. None where one does not fit. Each column looks through the updates.
pub(crate) fn new_values(
    alloc: Global,
    above: bool,
    updates: &[(Name, Value, Value)],
    columns: &[Column],
) -> Result<Option<Seq<Option<Value>>>, NoMemory>
    ensures news { IfOk result (λ news. news ≡ new_values above updates.now columns.now) }
{
    let mut news = Vec::new(alloc);
    let mut left = columns;
    'columns: while let Some((column, rest)) = left.split_first() {
        let Some(new) = new_value(alloc, above, column, update_of(updates, column))? else {
            return Ok(None);
        };
        news.push(new)?;
        left = rest;
    }
    Ok(Some(Seq::from_vec(news)))
}

/// The new value of a column, fitted, if it is named and set. None where it does not fit.
fn new_value(
    alloc: Global,
    above: bool,
    column: &Column,
    update: Option<&(Name, Value, Value)>,
) -> Result<Option<Option<Value>>, NoMemory>
    ensures new { IfOk result (λ v. v ≡ new_value above column.now (option_copied update.entry)) }
{
    let Some(update) = update else {
        return Ok(Some(None));
    };
    if !is_column_set(above, update) {
        return Ok(Some(None));
    }
    match fitted(update.2.copy(alloc)?, column.kind) {
        None => Ok(None),
        Some(held) => Ok(Some(Some(held))),
    }
}

/// Whether the update of a column sets it: it came from above, or its old value and its new one differ.
fn is_column_set(above: bool, update: &(Name, Value, Value)) -> bool
    ensures { result ≡ is_column_set above update.now }
{
    above || !update.1.cmp(&update.2).is_eq()
}

/// Whether a column that is NOT NULL gets NULL.
pub(crate) fn sets_null(columns: &[Column], news: &[Option<Value>]) -> bool
    ensures { result ≡ sets_null columns.now news.now }
{
    let mut columns_left = columns;
    let mut left = news;
    'columns: while let Some((column, columns_rest)) = columns_left.split_first() {
        let Some((new, rest)) = left.split_first() else {
            return false;
        };
        if column.not_null && is_new_null(new) {
            return true;
        }
        columns_left = columns_rest;
        left = rest;
    }
    false
}

fn is_new_null(new: &Option<Value>) -> bool
    ensures { result ≡ is_new_null new.now }
{
    match new {
        None => false,
        Some(value) => is_null(value),
    }
}

/// A row with new values.
pub(crate) fn with_news(
    alloc: Global,
    news: &[Option<Value>],
    row: &[Value],
) -> Result<Vec<Value>, NoMemory>
    ensures row { IfOk result (λ values. values.items ≡ with_news news.now row.now) }
{
    let mut values = Vec::new(alloc);
    let mut news_left = news;
    let mut left = row;
    'values: while let Some((value, rest)) = left.split_first() {
        let (held, news_rest) = renewed(alloc, news_left, value)?;
        values.push(held)?;
        news_left = news_rest;
        left = rest;
    }
    Ok(values)
}

/// A value with the first of the new ones, if there is one, and those behind it.
fn renewed<'a>(
    alloc: Global,
    news: &'a [Option<Value>],
    value: &Value,
) -> Result<(Value, &'a [Option<Value>]), NoMemory>
    ensures renewed { IfOk result (λ x. (row : List Cell) → with_news news.now (value.now ∷ row) ≡ x.0 ∷ with_news x.1.now row) }
{
    match news.split_first() {
        None => Ok((value.copy(alloc)?, news)),
        Some((new, rest)) => Ok((new_or(alloc, new, value)?, rest)),
    }
}

/// The new value, or the one that stands.
fn new_or(alloc: Global, new: &Option<Value>, value: &Value) -> Result<Value, NoMemory>
    ensures value { IfOk result (λ v. v ≡ unwrap_or new.now value.now) }
{
    match new {
        None => value.copy(alloc),
        Some(new) => new.copy(alloc),
    }
}

/// The columns of the update whose stored values differ from its old ones, in table order.
pub(crate) fn differing(
    alloc: Global,
    updates: &[(Name, Value, Value)],
    columns: &[Column],
    row: &[Value],
) -> Result<Vec<Name>, NoMemory>
    ensures names { IfOk result (λ names. names.items ≡ differing updates.now columns.now row.now) }
{
    let mut names = Vec::new(alloc);
    let mut columns_left = columns;
    let mut left = row;
    'columns: while let Some((column, columns_rest)) = columns_left.split_first() {
        let Some((value, rest)) = left.split_first() else {
            return Ok(names);
        };
        let differs = differs(alloc, column, update_of(updates, column), value)?;
        note(alloc, &mut names, &column.name, differs)?;
        columns_left = columns_rest;
        left = rest;
    }
    Ok(names)
}

/// Notes a column where its value differs.
fn note(alloc: Global, names: &mut Vec<Name>, name: &Name, differs: bool) -> Result<(), NoMemory>
    ensures noted { OnOk result ((rest : List (List ℕ)) → names.old.items ++ cond differs (name.now ∷ rest) rest ≡ names.new.items ++ rest) }
{
    if differs {
        names.push(name.copy(alloc)?)?;
    }
    Ok(())
}

/// Whether a stored value differs from the old value of an update. An old value that does not fit the column differs.
fn differs(
    alloc: Global,
    column: &Column,
    update: Option<&(Name, Value, Value)>,
    stored: &Value,
) -> Result<bool, NoMemory>
    ensures differs { IfOk result (λ d. d ≡ differs column.now (option_copied update.entry) stored.now) }
{
    let Some(update) = update else {
        return Ok(false);
    };
    Ok(!is_value(stored, fitted(update.1.copy(alloc)?, column.kind)))
}

fn is_value(stored: &Value, old: Option<Value>) -> bool
    ensures { result ≡ is_value stored.now old }
{
    match old {
        None => false,
        Some(old) => stored.cmp(&old).is_eq(),
    }
}

/// The row of the old values, fitted: NULL where there is none, and where it does not fit.
pub(crate) fn old_row(
    alloc: Global,
    updates: &[(Name, Value, Value)],
    columns: &[Column],
) -> Result<Row, NoMemory>
    ensures row { IfOk result (λ row. row ≡ old_row updates.now columns.now) }
{
    let mut values = Vec::new(alloc);
    let mut left = columns;
    'columns: while let Some((column, rest)) = left.split_first() {
        values.push(old_value(alloc, column, update_of(updates, column))?)?;
        left = rest;
    }
    Ok(Row::new(alloc, Seq::from_vec(values))?)
}

fn old_value(
    alloc: Global,
    column: &Column,
    update: Option<&(Name, Value, Value)>,
) -> Result<Value, NoMemory>
    ensures value { IfOk result (λ v. v ≡ old_value column.now (option_copied update.entry)) }
{
    let Some(update) = update else {
        return Ok(Value::Null);
    };
    match fitted(update.1.copy(alloc)?, column.kind) {
        None => Ok(Value::Null),
        Some(held) => Ok(held),
    }
}
