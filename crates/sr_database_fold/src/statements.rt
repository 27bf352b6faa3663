//! The statement of a text, whether it is accepted, and what it does.

ghost use Rattle.std.specs.Prelude.{◌≡◌, ◌≢◌, ◌↔◌, IfOk, IfSome, IsTrue, OnOk, OnErr, None};
ghost use Rattle.sr_ast.specs.NormalForms.{IsNormal};
ghost use Rattle.sr_ast.specs.Statements.{is_ddl as is_ddl_stmt, is_carried as is_carried_stmt};
ghost use Rattle.sr_catalog_change.specs.Changes.{refusal};
ghost use Rattle.sr_exec_dml.specs.Fitting.{RowsFit};
ghost use Rattle.sr_exec_dml.specs.Statements.{done};
ghost use Rattle.sr_database_history.specs.Fitting.{HasChanges, IsAccepted, RowsAllow};
ghost use Rattle.sr_database_history.specs.Folds.{with_statement, rows_left};
ghost use Rattle.sr_rows.specs.Inner.Steps.{at_mark};
ghost use Rattle.sr_database_fold.specs.Inner.Readings.{state_in};
ghost use Rattle.sr_database_fold.specs.Inner.Parts.{IsTextOf, IsOneOrNone};

use sr_ast::{Dml, Stmt, is_carried, is_ddl};
use sr_base::{NoMemory, Text};
use sr_catalog::{Catalog, DmlFault};
use sr_exec::exec;
use sr_parse::printed_statement;
use sr_rows::Rows;
use std::alloc::{AllocError, Global};

/// The statement in normal form that changes the catalog and prints this text, where one does.
#[tactic(auto, using(crate::proofs::Told::no_text))]
pub(crate) fn ddl_statement(alloc: Global, text: &Text) -> Result<Option<Stmt>, NoMemory>
    ensures found { IfOk result (λ found. IsOneOrNone (IsTextOf is_ddl_stmt text.now) found) }
    ensures normal { IfOk result (λ found. IfSome found (λ stmt. IsNormal stmt)) }
{
    match printed_statement(alloc, text)? {
        Some(stmt) => {
            if is_ddl(&stmt) {
                return Ok(Some(stmt));
            }
            drop(stmt);
            Ok(None)
        }
        None => Ok(None),
    }
}

/// The statement in normal form that passthrough carries and that prints this text, where one does.
#[tactic(auto, using(crate::proofs::Told::no_text))]
pub(crate) fn carried_statement(alloc: Global, text: &Text) -> Result<Option<Stmt>, NoMemory>
    ensures found { IfOk result (λ found. IsOneOrNone (IsTextOf is_carried_stmt text.now) found) }
    ensures normal { IfOk result (λ found. IfSome found (λ stmt. IsNormal stmt)) }
{
    match printed_statement(alloc, text)? {
        Some(stmt) => {
            if is_carried(&stmt) {
                return Ok(Some(stmt));
            }
            drop(stmt);
            Ok(None)
        }
        None => Ok(None),
    }
}

/// Whether a statement is accepted: the catalog does not refuse it, nor do the rows that it meets. Nothing changes.
///
/// An INSERT, UPDATE or DELETE is executed for its refusal alone, in the time that this takes.
#[tactic(auto, using(crate::proofs::Accepting::refused_told, crate::proofs::Accepting::allowed_told))]
pub(crate) fn accepts(
    alloc: Global,
    catalog: &Catalog,
    rows: &Rows,
    stmt: &Stmt,
) -> Result<bool, NoMemory>
    requires rows { RowsFit catalog.now rows.now.rows }
    ensures accepted { IfOk result (λ accepted. IsTrue accepted ↔ IsAccepted (state_in catalog.now rows.now) stmt.now) }
{
    if !is_allowed(alloc, catalog, stmt)? {
        return Ok(false);
    }
    is_possible(alloc, catalog, rows, stmt)
}

/// Whether the catalog does not refuse a statement.
fn is_allowed(alloc: Global, catalog: &Catalog, stmt: &Stmt) -> Result<bool, NoMemory>
    ensures allowed { IfOk result (λ allowed. IsTrue allowed ↔ (refusal catalog.now stmt.now ≡ None)) }
{
    let fault = catalog.refusal(alloc, stmt)?;
    Ok(fault.is_none())
}

/// Whether the rows do not refuse a statement. They refuse an INSERT, UPDATE or DELETE alone.
fn is_possible(alloc: Global, catalog: &Catalog, rows: &Rows, stmt: &Stmt) -> Result<bool, NoMemory>
    requires rows { RowsFit catalog.now rows.now.rows }
    ensures possible { IfOk result (λ possible. IsTrue possible ↔ RowsAllow (state_in catalog.now rows.now) stmt.now) }
{
    match stmt {
        Stmt::Dml(dml) => has_changes(alloc, catalog, rows, dml),
        _ => Ok(true),
    }
}

/// Whether the rows do not refuse an INSERT, UPDATE or DELETE. It is not done.
#[tactic(auto, using(crate::proofs::Accepting::done_here, crate::proofs::Accepting::refused_here))]
fn has_changes(alloc: Global, catalog: &Catalog, rows: &Rows, dml: &Dml) -> Result<bool, NoMemory>
    requires rows { RowsFit catalog.now rows.now.rows }
    ensures found { IfOk result (λ found. IsTrue found ↔ HasChanges (done catalog.now rows.now.rows dml.now)) }
{
    match exec(alloc, catalog, rows, dml) {
        Ok(changes) => {
            drop(changes);
            Ok(true)
        }
        Err(fault) => {
            let refused = refuses(&fault);
            drop(fault);
            refused?;
            Ok(false)
        }
    }
}

/// A fault refuses, unless it is want of memory.
fn refuses(fault: &DmlFault) -> Result<(), NoMemory>
    ensures fault { OnOk result (fault.now ≢ DmlFault.Memory) }
{
    match fault {
        DmlFault::Memory => Err(AllocError),
        DmlFault::NoTable { .. } => Ok(()),
        DmlFault::NoColumn { .. } => Ok(()),
        DmlFault::BadValue { .. } => Ok(()),
        DmlFault::Null { .. } => Ok(()),
        DmlFault::Duplicate { .. } => Ok(()),
        DmlFault::Overflow => Ok(()),
    }
}

/// Does what an accepted statement does to the catalog and, where it drops a table, to the rows, at the mark too. Want of memory leaves both as they
/// were.
#[tactic(auto, unfolding(sr_database_history::specs::Folds::with_statement))]
pub(crate) fn do_statement(
    alloc: Global,
    catalog: &mut Catalog,
    rows: &mut Rows,
    stmt: &Stmt,
) -> Result<(), NoMemory>
    requires fresh { rows.old ≡ at_mark rows.old.rows }
    requires normal { IsNormal stmt.now }
    requires accepted { refusal catalog.old stmt.now ≡ None }
    ensures ok { OnOk result (state_in catalog.new rows.new ≡ with_statement stmt.now (state_in catalog.old rows.old)) }
    ensures fresh { rows.new ≡ at_mark rows.new.rows }
    ensures catalog { OnErr result (catalog.new ≡ catalog.old) }
    ensures rows { OnErr result (rows.new ≡ rows.old) }
{
    catalog.apply(alloc, stmt)?;
    drop_rows(rows, stmt);
    Ok(())
}

/// Takes away the rows of a table that a statement drops.
pub(crate) fn drop_rows(rows: &mut Rows, stmt: &Stmt)
    requires fresh { rows.old ≡ at_mark rows.old.rows }
    ensures rows { rows.new ≡ at_mark (rows_left stmt.now rows.old.rows) }
{
    match stmt {
        Stmt::DropTable(name) => rows.clear(name),
        _ => {}
    }
}
