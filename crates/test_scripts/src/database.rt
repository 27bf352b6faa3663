//! A database in memory: a catalog, and rows of which each fits its table, at the mark too.

ghost use Rattle.std.specs.Prelude.{◌≡◌, None, Ok, OnOk};
ghost use Rattle.sr_ast.specs.NormalForms.{IsNormal};
ghost use Rattle.sr_catalog_change.specs.Changes.{refusal as refusal_of};
ghost use Rattle.sr_exec_dml.specs.Fitting.{RowsFit};
ghost use Rattle.sr_exec_dml.specs.Statements.{done};
ghost use Rattle.sr_database_history.specs.Folds.{rows_left};
ghost use Rattle.sr_rows.specs.Inner.Steps.{at_mark};

use sr_ast::{Dml, Stmt};
use sr_base::{NoMemory, name_of};
use sr_catalog::Catalog;
use sr_exec::apply;
use sr_exec_dml::{Changes, rows_stay_fitting};
use sr_rows::Rows;
use std::alloc::{AllocError, Global};

/// The catalog of a new database.
pub fn new_catalog(alloc: Global) -> Result<Catalog, NoMemory> {
    match name_of(alloc, b"cons") {
        Ok(publisher) => Ok(Catalog::new(alloc, publisher)),
        Err(_) => Err(AllocError),
    }
}

/// No rows, which fit any catalog.
#[tactic(auto, using(crate::proofs::Fitting::fit_none))]
pub fn no_rows(alloc: Global, _catalog: &Catalog) -> Rows
    ensures rows { RowsFit _catalog.now result.rows }
    ensures marked { RowsFit _catalog.now result.marked }
{
    rows_stay_fitting();
    Rows::new(alloc)
}

/// Sets the mark here: what was done is kept.
#[tactic(auto, using(crate::proofs::Fitting::fit_same))]
pub fn keep(_catalog: &Catalog, rows: &mut Rows)
    requires rows { RowsFit _catalog.now rows.old.rows }
    ensures rows { RowsFit _catalog.now rows.new.rows }
    ensures marked { RowsFit _catalog.now rows.new.marked }
{
    rows.mark();
}

/// Goes back to the rows at the mark.
#[tactic(auto, using(crate::proofs::Fitting::fit_same))]
pub fn go_back(_catalog: &Catalog, rows: &mut Rows)
    requires marked { RowsFit _catalog.now rows.old.marked }
    ensures rows { RowsFit _catalog.now rows.new.rows }
    ensures marked { RowsFit _catalog.now rows.new.marked }
{
    rows.undo();
}

/// Does what a statement on rows changes.
#[tactic(auto, using(crate::proofs::Fitting::fit_same, crate::proofs::Fitting::fit_changed))]
pub fn change(
    alloc: Global,
    catalog: &Catalog,
    rows: &mut Rows,
    _statement: &Dml,
    changes: &Changes,
) -> Result<(), NoMemory>
    requires rows { RowsFit catalog.now rows.old.rows }
    requires marked { RowsFit catalog.now rows.old.marked }
    requires answer { done catalog.now rows.old.rows _statement.now ≡ Ok changes.now }
    ensures rows { OnOk result (RowsFit catalog.now rows.new.rows) }
    ensures marked { RowsFit catalog.now rows.new.marked }
{
    rows_stay_fitting();
    apply(alloc, catalog, rows, changes.list.as_slice())?;
    Ok(())
}

/// Does what a statement does to the catalog, which does not refuse it. What was done before is kept, and a table that is dropped leaves no row.
#[tactic(auto, using(crate::proofs::Fitting::at_mark_again, crate::proofs::Fitting::fit_behind, crate::proofs::Fitting::marked_behind))]
pub fn accept(
    alloc: Global,
    catalog: &mut Catalog,
    rows: &mut Rows,
    statement: &Stmt,
) -> Result<(), NoMemory>
    requires normal { IsNormal statement.now }
    requires accepted { refusal_of catalog.old statement.now ≡ None }
    requires rows { RowsFit catalog.old rows.old.rows }
    ensures rows { OnOk result (RowsFit catalog.new rows.new.rows) }
    ensures marked { OnOk result (RowsFit catalog.new rows.new.marked) }
{
    catalog.apply(alloc, statement)?;
    rows.mark();
    drop_rows(rows, statement);
    Ok(())
}

/// Takes away the rows of a table that a statement drops.
fn drop_rows(rows: &mut Rows, statement: &Stmt)
    requires fresh { rows.old ≡ at_mark rows.old.rows }
    ensures rows { rows.new ≡ at_mark (rows_left statement.now rows.old.rows) }
{
    match statement {
        Stmt::DropTable(name) => rows.clear(name),
        _ => {}
    }
}
