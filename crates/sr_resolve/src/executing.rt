//! Exec: the statements of passthrough.

ghost use Rattle.std.specs.Prelude.{◌≡◌, IfOk};
ghost use Rattle.sr_catalog_change.specs.Changes.{refusal};
ghost use Rattle.sr_exec_dml.specs.Fitting.{RowsFit};
ghost use Rattle.sr_exec_dml.specs.Statements.{done};
ghost use Rattle.sr_logform.specs.declared.outcome.Clash.TheVariants.{Statement};
ghost use Rattle.sr_logform.specs.declared.outcome.Outcome.TheVariants.{Plain};
ghost use Rattle.sr_resolve.specs.Judging.{clash_if, is_too_long, ran_dml, ran_ddl, ran_stmt, executed, judged_exec};

use crate::measuring::is_too_long;
use sr_ast::{Dml, Stmt, is_carried};
use sr_base::{NoMemory, Seq};
use sr_catalog::{Catalog, DmlFault};
use sr_exec::exec;
use sr_logform::{Change, Clash, Outcome};
use sr_rows::Rows;
use std::alloc::{AllocError, Global};

/// The outcome of an Exec whose text prints this statement, or none: it runs where it came from above, passthrough carries it, it is not
/// refused, and its changes spell at most 4 MiB.
#[tactic(auto, unfolding(crate::specs::Judging::judged_exec))]
pub(crate) fn execute(
    alloc: Global,
    catalog: &Catalog,
    rows: &Rows,
    above: bool,
    stmt: &Option<Stmt>,
) -> Result<Outcome, NoMemory>
    requires rows { RowsFit catalog.now rows.now.rows }
    ensures judged { IfOk result (λ o. o ≡ judged_exec catalog.now rows.now.rows above stmt.now) }
{
    if !above {
        return Ok(Outcome::Clash(Clash::Statement));
    }
    match stmt {
        None => Ok(Outcome::Clash(Clash::Statement)),
        Some(stmt) => run(alloc, catalog, rows, stmt),
    }
}

/// Runs a statement, if passthrough carries it.
fn run(alloc: Global, catalog: &Catalog, rows: &Rows, stmt: &Stmt) -> Result<Outcome, NoMemory>
    requires rows { RowsFit catalog.now rows.now.rows }
    ensures ran { IfOk result (λ o. o ≡ executed catalog.now rows.now.rows stmt.now) }
{
    if !is_carried(stmt) {
        return Ok(Outcome::Clash(Clash::Statement));
    }
    run_stmt(alloc, catalog, rows, stmt)
}

/// Runs a statement on rows, or one on the catalog.
fn run_stmt(alloc: Global, catalog: &Catalog, rows: &Rows, stmt: &Stmt) -> Result<Outcome, NoMemory>
    requires rows { RowsFit catalog.now rows.now.rows }
    ensures ran { IfOk result (λ o. o ≡ ran_stmt catalog.now rows.now.rows stmt.now) }
{
    match stmt {
        Stmt::Dml(dml) => run_dml(alloc, catalog, rows, dml),
        _ => run_ddl(alloc, catalog, stmt),
    }
}

/// Runs a statement on rows.
fn run_dml(alloc: Global, catalog: &Catalog, rows: &Rows, dml: &Dml) -> Result<Outcome, NoMemory>
    requires rows { RowsFit catalog.now rows.now.rows }
    ensures ran { IfOk result (λ o. o ≡ ran_dml (done catalog.now rows.now.rows dml.now)) }
{
    match exec(alloc, catalog, rows, dml) {
        Ok(changes) => Ok(unless_too_long(changes.list)),
        Err(DmlFault::Memory) => Err(AllocError),
        Err(_) => Ok(Outcome::Clash(Clash::Statement)),
    }
}

/// Plain, with changes that spell no more than 4 MiB.
fn unless_too_long(changes: Seq<Change>) -> Outcome
    ensures { result ≡ clash_if (is_too_long changes) Statement (Plain changes) }
{
    if is_too_long(changes.as_slice()) {
        drop(changes);
        return Outcome::Clash(Clash::Statement);
    }
    Outcome::Plain(changes)
}

/// Runs a statement on the catalog, which changes no row.
fn run_ddl(alloc: Global, catalog: &Catalog, stmt: &Stmt) -> Result<Outcome, NoMemory>
    ensures ran { IfOk result (λ o. o ≡ ran_ddl (refusal catalog.now stmt.now)) }
{
    match catalog.refusal(alloc, stmt)? {
        None => Ok(Outcome::Plain(Seq::empty(alloc))),
        Some(fault) => {
            drop(fault);
            Ok(Outcome::Clash(Clash::Statement))
        }
    }
}
