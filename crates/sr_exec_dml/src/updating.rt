ghost use Rattle.std.specs.Prelude.{map, None};
ghost use Rattle.sr_exec_where.specs.Checks.{unknown_in_update, bad_in_update};
ghost use Rattle.sr_exec_dml.specs.Inner.Conditions.{Answers};
ghost use Rattle.sr_exec_dml.specs.Fitting.{TableFits};
ghost use Rattle.sr_exec_dml.specs.Statements.{updated};
ghost use Rattle.sr_exec_dml.specs.Inner.Making.{new_row, new_value};
ghost use Rattle.sr_exec_where.specs.Inner.Preparing.{resolution_in};
ghost use Rattle.sr_rows.specs.Walks.{table_rows};

use crate::changes::Changes;
use crate::moving::moved;
use crate::storing::stored_at;
use sr_ast::Update;
use sr_base::{Copied, Row, Seq, Value};
use sr_catalog_schema::{Column, DmlFault, Table};
use sr_eval::Resolved;
use sr_exec_where::{bad_in_update, push, unknown_in_update};
use sr_logform::Change;
use sr_rows::Rows;
use std::alloc::Global;

/// UPDATE. It goes over the rows of the table; each that is selected takes its columns times the assignments, and logarithmic time
/// for its keys. Where no row gets another key the changes stand in the memory of `spare`, a list that is not needed any more: its
/// items are dropped.
pub fn update(
    alloc: Global,
    table: &Table,
    rows: &Rows,
    update: &Update,
    spare: Vec<Change>,
) -> Result<Changes, DmlFault>
    requires rows { TableFits table.now rows.now.rows }
    ensures answer { Answers result (updated table.now update.now (table_rows rows.now.rows table.now.name)) }
{
    if let Some(name) = unknown_in_update(alloc, table, update)? {
        return Err(DmlFault::NoColumn { name });
    }
    if let Some(name) = bad_in_update(alloc, table, update)? {
        return Err(DmlFault::BadValue { name });
    }
    moved(
        alloc,
        table,
        rows,
        Some(update.sets.as_slice()),
        &update.condition,
        spare,
    )
}

/// The row that an UPDATE makes of a row, by what each column takes. A row of two values takes one block of memory.
#[inline(always)]
pub(crate) fn updated_row(
    alloc: Global,
    row: &[Value],
    sets: &[Option<Resolved>],
    columns: &[Column],
) -> Result<Row, DmlFault>
    ensures answer { Answers result (new_row row.now columns.now row.now (map resolution_in sets.now)) }
{
    match (columns, row, sets) {
        ([column, next], [old, next_old], [set, next_set]) => {
            let value = new_value(alloc, row, column, old, set)?;
            let next_value = new_value(alloc, row, next, next_old, next_set)?;
            Ok(Row::two(alloc, [value, next_value])?)
        }
        _ => updated_row_of_several(alloc, row, sets, columns),
    }
}

/// The same for more columns than two, or for one.
fn updated_row_of_several(
    alloc: Global,
    row: &[Value],
    sets: &[Option<Resolved>],
    columns: &[Column],
) -> Result<Row, DmlFault>
    ensures answer { Answers result (new_row row.now columns.now row.now (map resolution_in sets.now)) }
{
    let mut values = Vec::with_capacity(alloc, columns.len())?;
    let mut left = columns;
    let mut olds = row;
    let mut sets_left = sets;
    'columns: while let Some((column, rest)) = left.split_first() {
        let Some((old, olds_rest)) = olds.split_first() else {
            return Ok(Row::new(alloc, Seq::from_vec(values))?);
        };
        let Some((set, sets_rest)) = sets_left.split_first() else {
            return Ok(Row::new(alloc, Seq::from_vec(values))?);
        };
        let value = new_value(alloc, row, column, old, set)?;
        push(&mut values, value)?;
        left = rest;
        olds = olds_rest;
        sets_left = sets_rest;
    }
    Ok(Row::new(alloc, Seq::from_vec(values))?)
}

/// What a column takes in an UPDATE: an expression's value over the old row, or the value that it has.
#[inline(always)]
pub(crate) fn new_value(
    alloc: Global,
    row: &[Value],
    column: &Column,
    old: &Value,
    set: &Option<Resolved>,
) -> Result<Value, DmlFault>
    ensures answer { Answers result (new_value row.now column.now old.now (resolution_in set.now)) }
{
    match set {
        None => Ok(old.copy(alloc)?),
        Some(resolved) => stored_at(alloc, column, row, resolved),
    }
}
