//! Insert.

ghost use Rattle.std.specs.Prelude.{◌≡◌, is_some, IfOk};
ghost use Rattle.sr_exec_where.specs.Keys.{key_of};
ghost use Rattle.sr_exec_dml.specs.Statements.{table_named};
ghost use Rattle.sr_logform.specs.declared.outcome.Clash.TheVariants as why;
ghost use Rattle.sr_resolve.specs.Judging.{clash_unless, filled_in, judged_insert, put_in};
ghost use Rattle.sr_rows.specs.Marks.{rows_of_table};

use crate::named::{filled_row, has_null, names_other};
use crate::outcomes::inserted;
use sr_base::{Name, NoMemory, Row, Value};
use sr_catalog::{Catalog, Table};
use sr_exec_where::key_of;
use sr_logform::{Clash, Outcome};
use sr_rows::Rows;
use std::alloc::Global;

/// The outcome of an Insert into the table of a name.
pub(crate) fn judge_insert(
    alloc: Global,
    catalog: &Catalog,
    rows: &Rows,
    table: &Name,
    values: &[(Name, Value)],
) -> Result<Outcome, NoMemory>
    ensures judged { IfOk result (λ o. o ≡ clash_unless (table_named catalog.now table.now) why.NoTable (judged_insert rows.now.rows values.now)) }
{
    match catalog.table(table) {
        None => Ok(Outcome::Clash(Clash::NoTable)),
        Some(table) => insert(alloc, rows, table, values),
    }
}

/// An Insert into a table: the row is put, where each column that is named is there, each value fits, no NOT NULL column is without a
/// value, and the key is not held. It takes the columns times the names, and logarithmic time.
#[tactic(auto, unfolding(crate::specs::Judging::judged_insert))]
fn insert(
    alloc: Global,
    rows: &Rows,
    table: &Table,
    values: &[(Name, Value)],
) -> Result<Outcome, NoMemory>
    ensures judged { IfOk result (λ o. o ≡ judged_insert rows.now.rows values.now table.now) }
{
    if names_other(table, values) {
        return Ok(Outcome::Clash(Clash::NoColumn));
    }
    match filled_row(alloc, values, table.columns.as_slice())? {
        None => Ok(Outcome::Clash(Clash::BadValue)),
        Some(row) => put_filled(alloc, rows, table, row),
    }
}

/// Puts a row, unless a NOT NULL column is without a value or the key is held.
fn put_filled(alloc: Global, rows: &Rows, table: &Table, row: Row) -> Result<Outcome, NoMemory>
    ensures put { IfOk result (λ o. o ≡ filled_in rows.now.rows table.now row) }
{
    if has_null(table.columns.as_slice(), row.values()) {
        drop(row);
        return Ok(Outcome::Clash(Clash::Null));
    }
    put(alloc, rows, table, row)
}

/// Puts a row, unless its key is held.
fn put(alloc: Global, rows: &Rows, table: &Table, row: Row) -> Result<Outcome, NoMemory>
    ensures put { IfOk result (λ o. o ≡ put_in rows.now.rows table.now row) }
{
    if is_held(alloc, rows, table, row.values())? {
        drop(row);
        return Ok(Outcome::Clash(Clash::Duplicate));
    }
    inserted(alloc, table, row)
}

/// Whether the key of a row is held. It takes logarithmic time.
fn is_held(alloc: Global, rows: &Rows, table: &Table, row: &[Value]) -> Result<bool, NoMemory>
    ensures held { IfOk result (λ held. held ≡ is_some (rows_of_table rows.now.rows table.now.name (key_of table.now.key row.now))) }
{
    let key = key_of(alloc, table.key.as_slice(), row)?;
    Ok(rows.get(&table.name, &key).is_some())
}
