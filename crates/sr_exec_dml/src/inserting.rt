ghost use Rattle.std.specs.Prelude.{◌≡◌, ◌++◌, ◌∷◌, [], map, slice_get, MatchResult};
ghost use Rattle.std.specs.Option.{option_and_then, option_copied};
ghost use Rattle.sr_exec_dml.specs.Inner.Conditions.{Answers, AnswersBy};
ghost use Rattle.sr_exec_dml.specs.Holding.{held};
ghost use Rattle.sr_exec_dml.specs.Inner.Making.{given_row, given_value};
ghost use Rattle.sr_exec_dml.specs.Sequences.{each};
ghost use Rattle.sr_exec_dml.specs.Statements.{inserted, entry_of};
ghost use Rattle.sr_exec_dml.specs.Storing.{inserted_row};
ghost use Rattle.sr_rows.specs.Walks.{table_rows};

use crate::changes::Changes;
use crate::edits::edits_of_rows;
use crate::settling::{put_row, settle};
use crate::storing::{fitting, stored};
use sr_ast::{Expr, Insert};
use sr_base::{Name, Row, Seq, Value};
use sr_catalog_schema::{Column, DmlFault, Table};
use sr_exec_where::{bad_in_insert, names_of, places_in, push, unknown_in_insert};
use sr_logform::Change;
use sr_rows::Rows;
use std::alloc::Global;

/// INSERT. Each column looks through the columns that are named, once. Each row takes its columns, and logarithmic time for its key.
/// The change of a single row stands in the memory of `spare`, a list that is not needed any more: its items are dropped.
pub fn insert(
    alloc: Global,
    table: &Table,
    rows: &Rows,
    insert: &Insert,
    spare: Vec<Change>,
) -> Result<Changes, DmlFault>
    ensures answer { Answers result (inserted table.now insert.now (table_rows rows.now.rows table.now.name)) }
{
    let constants = Seq::empty(alloc);
    if let Some(name) = unknown_in_insert(alloc, table, insert, &constants)? {
        return Err(DmlFault::NoColumn { name });
    }
    let names = names_of(alloc, table.columns.as_slice(), &insert.columns)?;
    if let Some(name) = bad_in_insert(alloc, table, insert, names.as_slice(), &constants)? {
        return Err(DmlFault::BadValue { name });
    }
    let added = inserted_rows(alloc, table, names.as_slice(), insert.rows.as_slice())?;
    let count = added.len() as u64;
    let list = put_rows(alloc, table, rows, added, spare)?;
    Ok(Changes { list, count })
}

/// The changes where rows are put. One row, as most inserts have, is put with nothing built for it.
fn put_rows(
    alloc: Global,
    table: &Table,
    rows: &Rows,
    added: Vec<Row>,
    spare: Vec<Change>,
) -> Result<Seq<Change>, DmlFault>
    ensures answer { Answers result (held table.now.name (table_rows rows.now.rows table.now.name) (table_rows rows.now.rows table.now.name ++ map (entry_of table.now) added.items)) }
{
    match only(added) {
        Ok(row) => put_row(alloc, table, rows, row, spare),
        Err(added) => {
            let edits = edits_of_rows(alloc, table, added)?;
            settle(alloc, &table.name, rows, edits)
        }
    }
}

/// The only row of some, or all of them.
fn only(rows: Vec<Row>) -> Result<Row, Vec<Row>>
    ensures rows { MatchResult result (λ row. rows.items ≡ row ∷ []) (λ all. all.items ≡ rows.items) }
{
    let mut left = rows;
    if left.len() != 1 {
        return Err(left);
    }
    match left.pop() {
        Some(row) => Ok(row),
        None => Err(left),
    }
}

/// The rows as written. Each column looks through the names once, and each row is made once.
fn inserted_rows(
    alloc: Global,
    table: &Table,
    names: &[Name],
    rows: &[Seq<Expr>],
) -> Result<Vec<Row>, DmlFault>
    ensures answer { AnswersBy result (λ added. added.items) (each (λ es. inserted_row names.now es table.now.columns) rows.now) }
{
    let columns = table.columns.as_slice();
    let places = places_in(alloc, names, columns)?;
    given_rows(alloc, columns, places.as_slice(), rows)
}

/// The rows by the places of their values.
fn given_rows(
    alloc: Global,
    columns: &[Column],
    places: &[Option<usize>],
    rows: &[Seq<Expr>],
) -> Result<Vec<Row>, DmlFault>
    ensures answer { AnswersBy result (λ added. added.items) (each (λ es. given_row es columns.now places.now) rows.now) }
{
    let mut added = Vec::with_capacity(alloc, rows.len())?;
    let mut left = rows;
    'rows: while let Some((row, rest)) = left.split_first() {
        let row = given_row(alloc, row.as_slice(), columns, places)?;
        push(&mut added, row)?;
        left = rest;
    }
    Ok(added)
}

/// One row. A row of two values takes one block of memory.
fn given_row(
    alloc: Global,
    exprs: &[Expr],
    columns: &[Column],
    places: &[Option<usize>],
) -> Result<Row, DmlFault>
    ensures answer { Answers result (given_row exprs.now columns.now places.now) }
{
    match (columns, places) {
        ([column, next], [place, next_place]) => {
            let value = given_value(alloc, exprs, column, *place)?;
            let next_value = given_value(alloc, exprs, next, *next_place)?;
            Ok(Row::two(alloc, [value, next_value])?)
        }
        _ => given_row_of_several(alloc, exprs, columns, places),
    }
}

/// The same for more columns than two, or for one.
fn given_row_of_several(
    alloc: Global,
    exprs: &[Expr],
    columns: &[Column],
    places: &[Option<usize>],
) -> Result<Row, DmlFault>
    ensures answer { Answers result (given_row exprs.now columns.now places.now) }
{
    let mut values = Vec::with_capacity(alloc, columns.len())?;
    let mut left = columns;
    let mut places_left = places;
    'columns: while let Some((column, rest)) = left.split_first() {
        let Some((place, places_rest)) = places_left.split_first() else {
            return Ok(Row::new(alloc, Seq::from_vec(values))?);
        };
        let value = given_value(alloc, exprs, column, *place)?;
        push(&mut values, value)?;
        left = rest;
        places_left = places_rest;
    }
    Ok(Row::new(alloc, Seq::from_vec(values))?)
}

/// What a column takes of a constant, or of NULL where no value is given.
fn given_value(
    alloc: Global,
    exprs: &[Expr],
    column: &Column,
    place: Option<usize>,
) -> Result<Value, DmlFault>
    ensures answer { Answers result (given_value exprs.now column.now place) }
{
    match expr_at(exprs, place) {
        None => fitting(alloc, column, Value::Null),
        Some(expr) => stored(alloc, column, expr),
    }
}

/// The expression at a place, if there is one.
fn expr_at(exprs: &[Expr], place: Option<usize>) -> Option<&Expr>
    ensures { option_copied result ≡ option_and_then (slice_get exprs.now) place }
{
    match place {
        None => None,
        Some(place) => exprs.get(place),
    }
}
