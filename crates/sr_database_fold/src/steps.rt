//! Ops that are known to fit, by steps that lead back: what is done of a transaction before it is known that there is memory for all of it.

ghost use Rattle.std.specs.Prelude.{◌≡◌, ◌↔◌, ◌∷◌, ◌++◌, [], false, None, IfSome, IsTrue, OnOk, OnErr};
ghost use Rattle.sr_ast.specs.NormalForms.{IsNormal};
ghost use Rattle.sr_catalog_change.specs.Changes.{refusal};
ghost use Rattle.sr_exec_dml.specs.Applying.{applied, applied_in};
ghost use Rattle.sr_exec_dml.specs.Fitting.{RowsFit};
ghost use Rattle.sr_exec_dml.specs.FittingChanges.{ChangesFit};
ghost use Rattle.sr_exec_dml.specs.Statements.{table_named};
ghost use Rattle.sr_database_history.specs.Folds.{rows_left};
ghost use Rattle.sr_database_history.specs.Recorded.{IsNoExec};
ghost use Rattle.sr_logform.specs.declared.op.Op.{Op as AnOp};
ghost use Rattle.sr_logform.specs.declared.outcome.Outcome.{Outcome as AnOutcome};
ghost use Rattle.sr_rows.specs.Inner.Steps.{GoesOn};
ghost use Rattle.sr_database_fold.specs.Inner.Movements.{change_of};
ghost use Rattle.sr_database_fold.specs.Inner.Parts.{after_run};
ghost use Rattle.sr_database_fold.specs.Inner.Reached.{OpFits, OpReaches, OpsFit, OpsReach, NoneRuns};
ghost use Rattle.sr_database_fold.specs.Inner.Readings.{state_in};

use crate::emptying::empty;
use crate::statements::carried_statement;
use sr_ast::Stmt;
use sr_base::{Copied, Name, NoMemory, Row, Text};
use sr_catalog::Catalog;
use sr_exec::apply;
use sr_logform::{Change, Op, Outcome};
use sr_rows::Rows;
use std::alloc::Global;
use std::mem::replace;
use std::slice;

/// Ops by steps, of which a single one needs no copy of the catalog to lead back to.
#[tactic(auto, using(crate::proofs::Behind::single_fits, crate::proofs::Behind::single_reached))]
pub(crate) fn do_ops(
    alloc: Global,
    catalog: &mut Catalog,
    rows: &mut Rows,
    ops: &[(Op, Outcome)],
) -> Result<(), NoMemory>
    requires rows { RowsFit catalog.old rows.old.rows }
    requires fits { OpsFit (state_in catalog.old rows.old) ops.now }
    ensures effect { OnOk result (OpsReach (state_in catalog.old rows.old) ops.now (state_in catalog.new rows.new)) }
    ensures on { GoesOn rows.old rows.new }
    ensures catalog { OnErr result (catalog.new ≡ catalog.old) }
{
    match single(ops) {
        Some((op, outcome)) => do_op(alloc, catalog, rows, op, outcome),
        None => do_many(alloc, catalog, rows, ops),
    }
}

/// The only one of some ops, where there is one alone.
fn single(ops: &[(Op, Outcome)]) -> Option<(&Op, &Outcome)>
    ensures only { IfSome result (λ taken. ops.now ≡ (taken.0.now, taken.1.now) ∷ []) }
{
    let Some(((op, outcome), rest)) = ops.split_first() else {
        return None;
    };
    if !rest.is_empty() {
        return None;
    }
    Some((op, outcome))
}

/// Ops by steps, with a copy of the catalog to lead back to where one runs a statement.
fn do_many(
    alloc: Global,
    catalog: &mut Catalog,
    rows: &mut Rows,
    ops: &[(Op, Outcome)],
) -> Result<(), NoMemory>
    requires rows { RowsFit catalog.old rows.old.rows }
    requires fits { OpsFit (state_in catalog.old rows.old) ops.now }
    ensures effect { OnOk result (OpsReach (state_in catalog.old rows.old) ops.now (state_in catalog.new rows.new)) }
    ensures on { GoesOn rows.old rows.new }
    ensures catalog { OnErr result (catalog.new ≡ catalog.old) }
{
    if none_runs(ops) {
        return do_each(alloc, catalog, rows, ops);
    }
    let before = catalog.copy(alloc)?;
    match do_each(alloc, catalog, rows, ops) {
        Ok(()) => {
            drop(before);
            Ok(())
        }
        Err(refused) => {
            put_back(catalog, before);
            Err(refused)
        }
    }
}

/// Puts a catalog back in the place of what became of it.
fn put_back(catalog: &mut Catalog, before: Catalog)
    ensures back { catalog.new ≡ before }
{
    drop(replace(catalog, before));
}

/// Whether no op runs a statement.
#[tactic(auto, using(crate::proofs::Behind::no_more_run, crate::proofs::Behind::none_left_runs, crate::proofs::Behind::one_runs))]
fn none_runs(ops: &[(Op, Outcome)]) -> bool
    ensures { IsTrue result ↔ NoneRuns ops.now }
{
    let mut left = ops;
    'ops: while let Some(((op, _), rest)) = left.split_first() {
        if is_exec(op) {
            return false;
        }
        left = rest;
    }
    true
}

fn is_exec(op: &Op) -> bool
    ensures { (result ≡ false) ↔ IsNoExec op.now }
{
    match op {
        Op::Insert { .. } => false,
        Op::Remove { .. } => false,
        Op::Set { .. } => false,
        Op::Clear { .. } => false,
        Op::Exec { .. } => true,
    }
}

/// Ops by steps. Want of memory may leave the catalog anywhere on the way, but where no op runs a statement.
#[tactic(auto, using(crate::proofs::Behind::reach_begin, crate::proofs::Behind::reach_end))]
fn do_each(
    alloc: Global,
    catalog: &mut Catalog,
    rows: &mut Rows,
    ops: &[(Op, Outcome)],
) -> Result<(), NoMemory>
    requires rows { RowsFit catalog.old rows.old.rows }
    requires fits { OpsFit (state_in catalog.old rows.old) ops.now }
    ensures effect { OnOk result (OpsReach (state_in catalog.old rows.old) ops.now (state_in catalog.new rows.new)) }
    ensures on { GoesOn rows.old rows.new }
    ensures quiet { NoneRuns ops.now → catalog.new ≡ catalog.old }
{
    let mut left = ops;
    'ops: while let Some(((op, outcome), rest)) = left.split_first() {
        do_op(alloc, catalog, rows, op, outcome)?;
        left = rest;
    }
    Ok(())
}

/// An op by steps, by the kind of its outcome.
#[tactic(auto, using(crate::proofs::Behind::clash_reached))]
fn do_op(
    alloc: Global,
    catalog: &mut Catalog,
    rows: &mut Rows,
    op: &Op,
    outcome: &Outcome,
) -> Result<(), NoMemory>
    requires rows { RowsFit catalog.old rows.old.rows }
    requires fits { OpFits (state_in catalog.old rows.old) op.now outcome.now }
    ensures effect { OnOk result (OpReaches (state_in catalog.old rows.old) op.now outcome.now (state_in catalog.new rows.new)) }
    ensures on { GoesOn rows.old rows.new }
    ensures quiet { IsNoExec op.now → catalog.new ≡ catalog.old }
    ensures err { OnErr result (catalog.new ≡ catalog.old) }
{
    match outcome {
        Outcome::Plain(changes) => do_plain(alloc, catalog, rows, op, changes.as_slice()),
        Outcome::Conflict {
            inserts,
            before,
            after,
        } => do_met(alloc, catalog, rows, op, inserts.as_slice(), before, after),
        Outcome::Clash(_) => Ok(()),
    }
}

/// An op that was done: an Exec has its changes and its statement, any other its changes alone.
#[tactic(auto, using(crate::proofs::Behind::plain_reached))]
fn do_plain(
    alloc: Global,
    catalog: &mut Catalog,
    rows: &mut Rows,
    op: &Op,
    changes: &[Change],
) -> Result<(), NoMemory>
    requires rows { RowsFit catalog.old rows.old.rows }
    requires fits { OpFits (state_in catalog.old rows.old) op.now (AnOutcome.Plain changes.now) }
    ensures effect { OnOk result (OpReaches (state_in catalog.old rows.old) op.now (AnOutcome.Plain changes.now) (state_in catalog.new rows.new)) }
    ensures on { GoesOn rows.old rows.new }
    ensures quiet { IsNoExec op.now → catalog.new ≡ catalog.old }
    ensures err { OnErr result (catalog.new ≡ catalog.old) }
{
    match op {
        Op::Insert { .. } => apply(alloc, catalog, rows, changes),
        Op::Remove { .. } => apply(alloc, catalog, rows, changes),
        Op::Set { .. } => apply(alloc, catalog, rows, changes),
        Op::Clear { .. } => apply(alloc, catalog, rows, changes),
        Op::Exec { text } => do_run(alloc, catalog, rows, text, changes),
    }
}

/// Changes by steps, and then the statement of a text.
#[tactic(auto, using(crate::proofs::Behind::run_never, crate::proofs::Behind::run_changes))]
fn do_run(
    alloc: Global,
    catalog: &mut Catalog,
    rows: &mut Rows,
    text: &Text,
    changes: &[Change],
) -> Result<(), NoMemory>
    requires rows { RowsFit catalog.old rows.old.rows }
    requires fits { OpFits (state_in catalog.old rows.old) (AnOp.Exec text.now) (AnOutcome.Plain changes.now) }
    ensures effect { OnOk result (OpReaches (state_in catalog.old rows.old) (AnOp.Exec text.now) (AnOutcome.Plain changes.now)
        (state_in catalog.new rows.new)) }
    ensures on { GoesOn rows.old rows.new }
    ensures err { OnErr result (catalog.new ≡ catalog.old) }
{
    let Some(stmt) = carried_statement(alloc, text)? else {
        return Ok(());
    };
    let done = do_both(alloc, catalog, rows, &stmt, changes);
    drop(stmt);
    done
}

/// Changes by steps, and then a statement, which the catalog does last.
#[tactic(auto, using(crate::proofs::Behind::made_keeps))]
fn do_both(
    alloc: Global,
    catalog: &mut Catalog,
    rows: &mut Rows,
    stmt: &Stmt,
    changes: &[Change],
) -> Result<(), NoMemory>
    requires rows { RowsFit catalog.old rows.old.rows }
    requires fits { ChangesFit catalog.old rows.old.rows changes.now }
    requires normal { IsNormal stmt.now }
    requires accepted { refusal catalog.old stmt.now ≡ None }
    ensures effect { OnOk result (state_in catalog.new rows.new ≡ after_run (state_in catalog.old rows.old) changes.now stmt.now) }
    ensures on { GoesOn rows.old rows.new }
    ensures err { OnErr result (catalog.new ≡ catalog.old) }
{
    apply(alloc, catalog, rows, changes)?;
    empty_dropped(alloc, catalog, rows, stmt)?;
    catalog.apply(alloc, stmt)?;
    Ok(())
}

/// Takes the rows of a table that a statement drops away by steps.
fn empty_dropped(
    alloc: Global,
    catalog: &Catalog,
    rows: &mut Rows,
    stmt: &Stmt,
) -> Result<(), NoMemory>
    requires rows { RowsFit catalog.now rows.old.rows }
    ensures ok { OnOk result (rows.new.rows ≡ rows_left stmt.now rows.old.rows) }
    ensures on { GoesOn rows.old rows.new }
{
    match stmt {
        Stmt::DropTable(name) => empty(alloc, catalog, rows, name),
        _ => Ok(()),
    }
}

/// A Set that met another value: the triggers' inserts, and then its row. No other op does.
#[tactic(auto, using(crate::proofs::Behind::met_reached, crate::proofs::Behind::met_by_no_set))]
fn do_met(
    alloc: Global,
    catalog: &Catalog,
    rows: &mut Rows,
    op: &Op,
    inserts: &[Change],
    before: &Row,
    after: &Row,
) -> Result<(), NoMemory>
    ensures effect { OnOk result (OpReaches (state_in catalog.now rows.old) op.now (AnOutcome.Conflict inserts.now before.now after.now)
        (state_in catalog.now rows.new)) }
    ensures on { GoesOn rows.old rows.new }
{
    match op {
        Op::Set { table, .. } => do_conflict(alloc, catalog, rows, table, inserts, before, after),
        Op::Insert { .. } => Ok(()),
        Op::Remove { .. } => Ok(()),
        Op::Clear { .. } => Ok(()),
        Op::Exec { .. } => Ok(()),
    }
}

#[tactic(auto, using(crate::proofs::Changing::applied_append))]
fn do_conflict(
    alloc: Global,
    catalog: &Catalog,
    rows: &mut Rows,
    table: &Name,
    inserts: &[Change],
    before: &Row,
    after: &Row,
) -> Result<(), NoMemory>
    ensures ok { OnOk result (rows.new.rows ≡ applied catalog.now (inserts.now ++ change_of table.now before.now after.now ∷ []) rows.old.rows) }
    ensures on { GoesOn rows.old rows.new }
{
    apply(alloc, catalog, rows, inserts)?;
    do_row(alloc, catalog, rows, table, before, after)
}

/// The row of a Set.
fn do_row(
    alloc: Global,
    catalog: &Catalog,
    rows: &mut Rows,
    table: &Name,
    before: &Row,
    after: &Row,
) -> Result<(), NoMemory>
    ensures ok { OnOk result (rows.new.rows ≡ applied_in (table_named catalog.now table.now) (change_of table.now before.now after.now) rows.old.rows) }
    ensures on { GoesOn rows.old rows.new }
{
    let change = Change {
        table: table.copy(alloc)?,
        before: Some(before.copy(alloc)?),
        after: Some(after.copy(alloc)?),
    };
    apply(alloc, catalog, rows, slice::from_ref(&change))
}
