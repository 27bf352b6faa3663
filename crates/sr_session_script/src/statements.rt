//! What one statement comes to on a catalog and rows, or what refuses it.

ghost use Rattle.std.specs.Prelude.{◌≡◌, IfOk, MatchResult};
ghost use Rattle.sr_exec_dml.specs.Fitting.{RowsFit};
ghost use Rattle.sr_session_script.specs.Inner.Answers.{IsStop};
ghost use Rattle.sr_session_script.specs.Meaning.{accepted, changes_by, rows_by, is_done_already};

use crate::refusal::Stop;
use sr_ast::{Dml, Select, Stmt};
use sr_base::{NoMemory, Row};
use sr_catalog::Catalog;
use sr_exec::exec_reusing;
use sr_exec_dml::Changes;
use sr_logform::Change;
use sr_query::select;
use sr_rows::Rows;
use std::alloc::Global;

/// Whether the catalog accepts a statement, or what refuses it.
pub fn accept(alloc: Global, catalog: &Catalog, stmt: &Stmt) -> Result<(), Stop>
    ensures meant { MatchResult result (λ done. accepted catalog.now stmt.now ≡ Ok done) (IsStop (accepted catalog.now stmt.now)) }
{
    match catalog.refusal(alloc, stmt)? {
        None => Ok(()),
        Some(fault) => Err(Stop::from(fault)),
    }
}

/// What an INSERT, UPDATE or DELETE changes in rows of which each fits its table, or what refuses it. The changes may stand in the memory of a
/// list that is not needed any more.
pub fn execute(
    alloc: Global,
    catalog: &Catalog,
    rows: &Rows,
    stmt: &Dml,
    spare: Vec<Change>,
) -> Result<Changes, Stop>
    requires rows { RowsFit catalog.now rows.now.rows }
    ensures meant { let meant = changes_by (record { catalog = catalog.now; rows = rows.now.rows }) stmt.now in MatchResult result (λ changes. meant ≡ Ok changes) (IsStop meant) }
{
    match exec_reusing(alloc, catalog, rows, stmt, spare) {
        Ok(changes) => Ok(changes),
        Err(fault) => Err(Stop::from(fault)),
    }
}

/// The rows of a SELECT over rows of which each fits its table, by their ranks, or what refuses it.
#[tactic(auto, using(crate::proofs::Ranks::answers))]
pub fn answer(
    alloc: Global,
    catalog: &Catalog,
    rows: &Rows,
    stmt: &Select,
) -> Result<Vec<Row>, Stop>
    requires rows { RowsFit catalog.now rows.now.rows }
    ensures meant { let meant = rows_by (record { catalog = catalog.now; rows = rows.now.rows }) stmt.now in MatchResult result (λ found. meant ≡ Ok found.items) (IsStop meant) }
{
    match select(alloc, catalog, rows, stmt) {
        Ok(found) => Ok(found),
        Err(fault) => Err(Stop::from(fault)),
    }
}

/// Whether a statement is a START of a subscription that is started. It takes constant time.
pub fn is_done_already(alloc: Global, catalog: &Catalog, stmt: &Stmt) -> Result<bool, NoMemory>
    ensures { IfOk result (λ done. done ≡ is_done_already catalog.now stmt.now) }
{
    match stmt {
        Stmt::StartSubscription(rule) => catalog.has_started(alloc, rule),
        _ => Ok(false),
    }
}
