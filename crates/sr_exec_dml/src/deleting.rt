ghost use Rattle.sr_exec_dml.specs.Inner.Conditions.{Answers};
ghost use Rattle.sr_exec_dml.specs.Fitting.{TableFits};
ghost use Rattle.sr_exec_dml.specs.Statements.{deleted};
ghost use Rattle.sr_rows.specs.Walks.{table_rows};

use crate::changes::Changes;
use crate::moving::moved;
use sr_ast::Delete;
use sr_catalog_schema::{DmlFault, Table};
use sr_exec_where::{bad_condition, unknown_condition};
use sr_logform::Change;
use sr_rows::Rows;
use std::alloc::Global;

/// DELETE. It goes over the rows of the table; each that is selected takes logarithmic time for its key. The changes stand in the
/// memory of `spare`, a list that is not needed any more: its items are dropped.
pub fn delete(
    alloc: Global,
    table: &Table,
    rows: &Rows,
    delete: &Delete,
    spare: Vec<Change>,
) -> Result<Changes, DmlFault>
    requires rows { TableFits table.now rows.now.rows }
    ensures answer { Answers result (deleted table.now delete.now (table_rows rows.now.rows table.now.name)) }
{
    if let Some(name) = unknown_condition(alloc, table, &delete.condition)? {
        return Err(DmlFault::NoColumn { name });
    }
    if let Some(name) = bad_condition(alloc, table, &delete.condition)? {
        return Err(DmlFault::BadValue { name });
    }
    moved(alloc, table, rows, None, &delete.condition, spare)
}
