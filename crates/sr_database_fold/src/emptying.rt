//! A table without its rows, step by step.

ghost use Rattle.std.specs.Prelude.{◌≡◌, IfOk, OnOk};
ghost use Rattle.sr_exec_dml.specs.Fitting.{RowsFit};
ghost use Rattle.sr_rows.specs.Steps.{without_table};
ghost use Rattle.sr_rows.specs.Inner.Steps.{GoesOn};
ghost use Rattle.sr_database_fold.specs.Inner.Reached.{IsExecuted, deletion_of};

use sr_ast::{Delete, Dml};
use sr_base::{Copied, Name, NoMemory};
use sr_catalog::Catalog;
use sr_exec::{apply, exec};
use sr_rows::Rows;
use std::alloc::{AllocError, Global};

/// Takes all rows of a table away, as a DELETE does, so that the way back leads through the rows before. It takes logarithmic time for each row.
#[tactic(auto, using(crate::proofs::Emptied::emptied_here))]
pub(crate) fn empty(
    alloc: Global,
    catalog: &Catalog,
    rows: &mut Rows,
    table: &Name,
) -> Result<(), NoMemory>
    requires rows { RowsFit catalog.now rows.old.rows }
    ensures rows { OnOk result (rows.new.rows ≡ without_table rows.old.rows table.now) }
    ensures on { GoesOn rows.old rows.new }
{
    let statement = delete_all(alloc, table)?;
    let done = execute(alloc, catalog, rows, &statement);
    drop(statement);
    done?;
    Ok(())
}

/// The DELETE of all rows of a table.
fn delete_all(alloc: Global, table: &Name) -> Result<Dml, NoMemory>
    ensures all { IfOk result (λ statement. statement ≡ deletion_of table.now) }
{
    Ok(Dml::Delete(Delete {
        table: table.copy(alloc)?,
        condition: None,
    }))
}

/// Executes a statement by steps. A refusal is answered as want of memory is.
#[tactic(auto, using(crate::proofs::Emptied::executed))]
fn execute(
    alloc: Global,
    catalog: &Catalog,
    rows: &mut Rows,
    statement: &Dml,
) -> Result<(), NoMemory>
    requires rows { RowsFit catalog.now rows.old.rows }
    ensures executed { OnOk result (IsExecuted catalog.now rows.old.rows statement.now rows.new.rows) }
    ensures on { GoesOn rows.old rows.new }
{
    let Ok(changes) = exec(alloc, catalog, rows, statement) else {
        return Err(AllocError);
    };
    let done = apply(alloc, catalog, rows, changes.list.as_slice());
    drop(changes);
    done?;
    Ok(())
}
