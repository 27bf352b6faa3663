//! Whether ops that were taken fit with their outcomes, one after the other, and the state that they leave.

ghost use Rattle.std.specs.Prelude.{◌≡◌, ◌↔◌, ℕ, false, IfOk, IsTrue, List};
ghost use Rattle.std.specs.List.{AllByRecursion};
ghost use Rattle.sr_ast.specs.NormalForms.{IsNormal};
ghost use Rattle.sr_ast.specs.Statements.{is_carried};
ghost use Rattle.sr_exec_dml.specs.Fitting.{RowsFit};
ghost use Rattle.sr_database_history.specs.Fitting.{MayHaveChanges};
ghost use Rattle.sr_logform.specs.declared.outcome.Outcome.{Outcome as AnOutcome};
ghost use Rattle.sr_rows.specs.Inner.Steps.{at_mark};
ghost use Rattle.sr_database_fold.specs.Inner.Movements.{Differs, OutcomeDiffers};
ghost use Rattle.sr_database_fold.specs.Inner.Parts.{IsTextOf};
ghost use Rattle.sr_database_fold.specs.Inner.Readings.{state_in};
ghost use Rattle.sr_database_fold.specs.Inner.Told.{RunTold, PassRunTold, PassedTold, OpTold, OpsTold};

use crate::changes::go_on_changes;
use crate::conflicts::go_on_conflict;
use crate::statements::{accepts, carried_statement, do_statement};
use sr_ast::{Stmt, is_ddl};
use sr_base::{NoMemory, Row, Text};
use sr_catalog::Catalog;
use sr_logform::{Change, Op, Outcome};
use sr_rows::Rows;
use std::alloc::Global;

/// Whether the ops of a transaction fit with their outcomes, each in the state that those before it left, and if so the state behind them.
#[tactic(auto, using(crate::proofs::Taking::ops_begin, crate::proofs::Taking::ops_on, crate::proofs::Taking::ops_end, crate::proofs::Taking::op_keeps))]
pub(crate) fn go_on_ops(
    alloc: Global,
    catalog: &mut Catalog,
    rows: &mut Rows,
    ops: &[(Op, Outcome)],
) -> Result<bool, NoMemory>
    requires rows { RowsFit catalog.old rows.old.rows }
    requires fresh { rows.old ≡ at_mark rows.old.rows }
    requires differ { AllByRecursion (λ p. OutcomeDiffers p.1) ops.now }
    ensures told { IfOk result (λ told. OpsTold (state_in catalog.old rows.old) ops.now (state_in catalog.new rows.new) told) }
    ensures fresh { rows.new ≡ at_mark rows.new.rows }
{
    let mut left = ops;
    'ops: while let Some(((op, outcome), rest)) = left.split_first() {
        if !go_on_op(alloc, catalog, rows, op, outcome)? {
            return Ok(false);
        }
        left = rest;
    }
    Ok(true)
}

/// Whether an op fits with its outcome, by the kind of the outcome. One that was skipped always does.
#[tactic(auto, using(crate::proofs::Told::clash_ok))]
fn go_on_op(
    alloc: Global,
    catalog: &mut Catalog,
    rows: &mut Rows,
    op: &Op,
    outcome: &Outcome,
) -> Result<bool, NoMemory>
    requires rows { RowsFit catalog.old rows.old.rows }
    requires fresh { rows.old ≡ at_mark rows.old.rows }
    requires differ { OutcomeDiffers outcome.now }
    ensures told { IfOk result (λ told. OpTold (state_in catalog.old rows.old) op.now outcome.now (state_in catalog.new rows.new) told) }
    ensures fresh { rows.new ≡ at_mark rows.new.rows }
{
    match outcome {
        Outcome::Plain(changes) => go_on_plain(alloc, catalog, rows, op, changes.as_slice()),
        Outcome::Conflict {
            inserts,
            before,
            after,
        } => go_on_met(alloc, catalog, rows, op, inserts.as_slice(), before, after),
        Outcome::Clash(_) => Ok(true),
    }
}

/// An op that was done: an Exec runs its statement, any other has its changes alone.
#[tactic(auto, using(crate::proofs::Told::plain_ok, crate::proofs::Told::run_ok))]
fn go_on_plain(
    alloc: Global,
    catalog: &mut Catalog,
    rows: &mut Rows,
    op: &Op,
    changes: &[Change],
) -> Result<bool, NoMemory>
    requires rows { RowsFit catalog.old rows.old.rows }
    requires fresh { rows.old ≡ at_mark rows.old.rows }
    requires differ { AllByRecursion Differs changes.now }
    ensures told { IfOk result (λ told. OpTold (state_in catalog.old rows.old) op.now (AnOutcome.Plain changes.now) (state_in catalog.new rows.new) told) }
    ensures fresh { rows.new ≡ at_mark rows.new.rows }
{
    match op {
        Op::Insert { .. } => go_on_changes(alloc, catalog, rows, changes),
        Op::Remove { .. } => go_on_changes(alloc, catalog, rows, changes),
        Op::Set { .. } => go_on_changes(alloc, catalog, rows, changes),
        Op::Clear { .. } => go_on_changes(alloc, catalog, rows, changes),
        Op::Exec { text } => go_on_run(alloc, catalog, rows, text, changes),
    }
}

/// An op that met another value: only a Set does.
#[tactic(auto, using(crate::proofs::Told::met_ok, crate::proofs::Told::met_by_no_set))]
fn go_on_met(
    alloc: Global,
    catalog: &mut Catalog,
    rows: &mut Rows,
    op: &Op,
    inserts: &[Change],
    before: &Row,
    after: &Row,
) -> Result<bool, NoMemory>
    requires rows { RowsFit catalog.old rows.old.rows }
    requires fresh { rows.old ≡ at_mark rows.old.rows }
    requires differ { AllByRecursion Differs inserts.now }
    ensures told { IfOk result (λ told. OpTold (state_in catalog.old rows.old) op.now (AnOutcome.Conflict inserts.now before.now after.now)
        (state_in catalog.new rows.new) told) }
    ensures fresh { rows.new ≡ at_mark rows.new.rows }
{
    match op {
        Op::Set { table, key, .. } => go_on_conflict(
            alloc,
            catalog,
            rows,
            table,
            key.as_slice(),
            inserts,
            before,
            after,
        ),
        Op::Insert { .. } => Ok(false),
        Op::Remove { .. } => Ok(false),
        Op::Clear { .. } => Ok(false),
        Op::Exec { .. } => Ok(false),
    }
}

/// Whether a carried statement and its changes fit, and if so the state behind both.
#[tactic(auto, using(crate::proofs::Told::text_wrong))]
pub(crate) fn go_on_run(
    alloc: Global,
    catalog: &mut Catalog,
    rows: &mut Rows,
    text: &Text,
    changes: &[Change],
) -> Result<bool, NoMemory>
    requires rows { RowsFit catalog.old rows.old.rows }
    requires fresh { rows.old ≡ at_mark rows.old.rows }
    requires differ { AllByRecursion Differs changes.now }
    ensures told { IfOk result (λ told. RunTold (state_in catalog.old rows.old) text.now changes.now (state_in catalog.new rows.new) told) }
    ensures fresh { rows.new ≡ at_mark rows.new.rows }
{
    let Some(stmt) = carried_statement(alloc, text)? else {
        return Ok(false);
    };
    let told = go_on_both(alloc, catalog, rows, &stmt, changes);
    drop(stmt);
    told
}

/// Whether a statement is accepted and changes fit, and if so the state behind both.
fn go_on_both(
    alloc: Global,
    catalog: &mut Catalog,
    rows: &mut Rows,
    stmt: &Stmt,
    changes: &[Change],
) -> Result<bool, NoMemory>
    requires rows { RowsFit catalog.old rows.old.rows }
    requires fresh { rows.old ≡ at_mark rows.old.rows }
    requires differ { AllByRecursion Differs changes.now }
    requires normal { IsNormal stmt.now }
    ensures told { (text : List ℕ) → IsTextOf is_carried text stmt.now
        → IfOk result (λ told. RunTold (state_in catalog.old rows.old) text changes.now (state_in catalog.new rows.new) told) }
    ensures fresh { rows.new ≡ at_mark rows.new.rows }
{
    if !accepts(alloc, catalog, rows, stmt)? {
        return Ok(false);
    }
    if !go_on_changes(alloc, catalog, rows, changes)? {
        return Ok(false);
    }
    do_statement(alloc, catalog, rows, stmt)?;
    Ok(true)
}

/// Whether a statement that is passed on and runs here is accepted, and its changes fit and may stand beside it, and if so the state behind both.
#[tactic(auto, using(crate::proofs::Told::passed_wrong))]
pub(crate) fn go_on_passed(
    alloc: Global,
    catalog: &mut Catalog,
    rows: &mut Rows,
    text: &Text,
    changes: &[Change],
) -> Result<bool, NoMemory>
    requires rows { RowsFit catalog.old rows.old.rows }
    requires fresh { rows.old ≡ at_mark rows.old.rows }
    requires differ { AllByRecursion Differs changes.now }
    ensures told { IfOk result (λ told. PassRunTold (state_in catalog.old rows.old) text.now changes.now (state_in catalog.new rows.new) told) }
    ensures fresh { rows.new ≡ at_mark rows.new.rows }
{
    let Some(stmt) = carried_statement(alloc, text)? else {
        return Ok(false);
    };
    let told = go_on_beside(alloc, catalog, rows, &stmt, changes);
    drop(stmt);
    told
}

/// Whether changes may stand beside a statement that is passed on, and both fit, and if so the state behind both.
#[tactic(auto, using(crate::proofs::Told::beside_ok))]
fn go_on_beside(
    alloc: Global,
    catalog: &mut Catalog,
    rows: &mut Rows,
    stmt: &Stmt,
    changes: &[Change],
) -> Result<bool, NoMemory>
    requires rows { RowsFit catalog.old rows.old.rows }
    requires fresh { rows.old ≡ at_mark rows.old.rows }
    requires differ { AllByRecursion Differs changes.now }
    requires normal { IsNormal stmt.now }
    ensures told { (text : List ℕ) → IsTextOf is_carried text stmt.now
        → IfOk result (λ told. PassRunTold (state_in catalog.old rows.old) text changes.now (state_in catalog.new rows.new) told) }
    ensures fresh { rows.new ≡ at_mark rows.new.rows }
{
    if !may_have_changes(stmt, changes) {
        return Ok(false);
    }
    go_on_both(alloc, catalog, rows, stmt, changes)
}

/// Whether changes may stand beside a statement that is passed on and runs here: none do beside one on the catalog.
#[tactic(auto, using(crate::proofs::Told::none_beside, crate::proofs::Told::some_beside))]
fn may_have_changes(stmt: &Stmt, changes: &[Change]) -> bool
    ensures may { IsTrue result ↔ MayHaveChanges false stmt.now changes.now }
{
    if changes.is_empty() {
        return true;
    }
    !is_ddl(stmt)
}

/// Whether a text is that of a statement which passthrough carries, and has no changes: what is for others only makes none here.
#[tactic(auto, using(crate::proofs::Told::changes_beside, crate::proofs::Told::text_of_none))]
pub(crate) fn is_passed_on(alloc: Global, text: &Text, changes: &[Change]) -> Result<bool, NoMemory>
    ensures told { IfOk result (λ told. PassedTold text.now changes.now told) }
{
    if !changes.is_empty() {
        return Ok(false);
    }
    let Some(stmt) = carried_statement(alloc, text)? else {
        return Ok(false);
    };
    drop(stmt);
    Ok(true)
}
