//! The outcomes of a transaction's ops, each judged on the state that those before it leave.

ghost use Rattle.std.specs.Prelude.{◌≡◌, ◌↔◌, ◌≤◌, ◌⊎◌, ◌∷◌, ◌++◌, [], List, true, false, length, is_ok, IfOk, IsSome, OnOk};
ghost use Rattle.std.specs.List.{AllByRecursion};
ghost use Rattle.sr_database.specs.Advances.{Advances};
ghost use Rattle.sr_database.specs.Inner.Sound.{IsSound};
ghost use Rattle.sr_database.specs.Views.{committed};
ghost use Rattle.sr_database.specs.Inner.Views.{present};
ghost use Rattle.sr_exec_dml.specs.Applying.{applied};
ghost use Rattle.sr_exec_dml.specs.Fitting.{RowsFit};
ghost use Rattle.sr_exec_dml.specs.FittingChanges.{ChangesFit};
ghost use Rattle.sr_database_history.specs.Folds.{State};
ghost use Rattle.sr_logform.specs.Ops.{IsShortOp};
ghost use Rattle.sr_logform.specs.Inner.Ops.{IsShortTransaction};
ghost use Rattle.sr_logform.specs.Outcomes.{IsShortChange, IsShortOutcome};
ghost use Rattle.sr_logform.specs.declared.entry.Entry.TheVariants.{From};
ghost use Rattle.sr_resolve.specs.Judging.{IsJudged};
ghost use Rattle.sr_catalog_ddl.specs.Users.{stands_above};
ghost use Rattle.sr_resolve.specs.Taking.{is_above};
ghost use Rattle.sr_catalog_schema.specs.Members.{user_name};
ghost use Rattle.sr_catalog_schema.specs.Names.{named};
ghost use Rattle.sr_receive_judged.specs.Judged.{AreJudgedAs, IsEntryOf};
ghost use Rattle.sr_receive_judged.specs.Inner.Judged.{IsAlike, is_exec, pending_of, state_in};
ghost use Rattle.sr_receive_judged.specs.Inner.OneOp.{IsPairOf, PendingMore};

use crate::changing::{changes_of, is_short};
use crate::scratch::judge_apart;
use sr_base::{Copied, Name, NoMemory, Offset, Seq};
use sr_catalog::Catalog;
use sr_database::Database;
use sr_logform::{Entry, Op, Outcome, Transaction};
use sr_resolve::judge;
use sr_rows::Rows;
use std::alloc::{AllocError, Global};

/// Whether what a user sends comes from above.
pub(crate) fn is_above(catalog: &Catalog, user: &Name) -> bool
    ensures above { result ≡ stands_above (named user_name user.now catalog.now.users) }
{
    match catalog.user(user) {
        Some(partner) => partner.above,
        None => false,
    }
}

/// The entry of a transaction of a user: each op with its outcome. The database is left as it was.
pub fn entry_of(
    alloc: Global,
    db: &mut Database,
    user: &Name,
    transaction: &Transaction,
) -> Result<Entry, NoMemory>
    requires usable { db.old.log.usable ≡ true }
    requires pending { db.old.pending ≡ [] }
    requires sound { IsSound db.old }
    requires known { IsSome (named user_name user.now db.old.catalog.users) }
    requires short { IsShortTransaction transaction.now }
    ensures entry { IfOk result (IsEntryOf (committed db.old) user.now transaction.now) }
    ensures alike { IsAlike db.old db.new }
{
    let ops = judge_all(alloc, db, user, transaction.ops.as_slice())?;
    entry_with(alloc, user, transaction.at, ops)
}

/// The entry with these ops.
pub(crate) fn entry_with(
    alloc: Global,
    user: &Name,
    at: Offset,
    ops: Vec<(Op, Outcome)>,
) -> Result<Entry, NoMemory>
    ensures entry { IfOk result (λ entry. entry ≡ From user.now at ops.items) }
{
    match user.copy(alloc) {
        Ok(user) => Ok(Entry::From {
            user,
            at,
            ops: Seq::from_vec(ops),
        }),
        Err(refused) => {
            drop(ops);
            Err(refused)
        }
    }
}

/// The ops with their outcomes. Where a statement stands beside other ops they are judged apart, since a statement may change the catalog.
fn judge_all(
    alloc: Global,
    db: &mut Database,
    user: &Name,
    ops: &[Op],
) -> Result<Vec<(Op, Outcome)>, NoMemory>
    requires usable { db.old.log.usable ≡ true }
    requires pending { db.old.pending ≡ [] }
    requires sound { IsSound db.old }
    requires known { IsSome (named user_name user.now db.old.catalog.users) }
    requires short { AllByRecursion IsShortOp ops.now }
    ensures judged { IfOk result (λ judged. (after : State) × AreJudgedAs (committed db.old) after (is_above (committed db.old) user.now) ops.now judged.items) }
    ensures alike { IsAlike db.old db.new }
{
    let above = is_above(db.catalog(), user);
    if is_mixed(ops) {
        return judge_beside(alloc, db, user, above, ops);
    }
    judge_here(alloc, db, above, ops)
}

/// Whether a statement stands beside other ops.
fn is_mixed(ops: &[Op]) -> bool
    ensures plain { (result ≡ false) ↔ ((length ops.now ≤ 1) ⊎ AllByRecursion (λ op. is_exec op ≡ false) ops.now) }
{
    if ops.len() <= 1 {
        return false;
    }
    has_exec(ops)
}

/// Whether a statement stands among ops.
fn has_exec(ops: &[Op]) -> bool
    ensures none { (result ≡ false) ↔ AllByRecursion (λ op. is_exec op ≡ false) ops.now }
{
    let mut left = ops;
    'ops: while let Some((op, rest)) = left.split_first() {
        if is_exec(op) {
            return true;
        }
        left = rest;
    }
    false
}

fn is_exec(op: &Op) -> bool
    ensures { result ≡ is_exec op.now }
{
    match op {
        Op::Exec { .. } => true,
        Op::Insert { .. } | Op::Remove { .. } | Op::Set { .. } | Op::Clear { .. } => false,
    }
}

/// The ops with their outcomes, judged on copies of the catalog and the rows.
fn judge_beside(
    alloc: Global,
    db: &Database,
    user: &Name,
    above: bool,
    ops: &[Op],
) -> Result<Vec<(Op, Outcome)>, NoMemory>
    requires usable { db.now.log.usable ≡ true }
    requires pending { db.now.pending ≡ [] }
    requires sound { IsSound db.now }
    requires known { IsSome (named user_name user.now db.now.catalog.users) }
    requires short { AllByRecursion IsShortOp ops.now }
    ensures judged { IfOk result (λ judged. (after : State) × AreJudgedAs (committed db.now) after above ops.now judged.items) }
{
    judge_apart(alloc, db.catalog(), db.rows(), user, above, ops)
}

/// The ops with their outcomes, of which the changes are pending in between.
fn judge_here(
    alloc: Global,
    db: &mut Database,
    above: bool,
    ops: &[Op],
) -> Result<Vec<(Op, Outcome)>, NoMemory>
    requires usable { db.old.log.usable ≡ true }
    requires pending { db.old.pending ≡ [] }
    requires sound { IsSound db.old }
    requires short { AllByRecursion IsShortOp ops.now }
    requires plain { (length ops.now ≤ 1) ⊎ AllByRecursion (λ op. is_exec op ≡ false) ops.now }
    ensures judged { IfOk result (λ judged. (after : State) × AreJudgedAs (committed db.old) after above ops.now judged.items) }
    ensures alike { IsAlike db.old db.new }
{
    let judged = judge_pending(alloc, db, above, ops);
    db.rollback();
    judged
}

/// The ops with their outcomes, of which the changes are pending then.
fn judge_pending(
    alloc: Global,
    db: &mut Database,
    above: bool,
    ops: &[Op],
) -> Result<Vec<(Op, Outcome)>, NoMemory>
    requires usable { db.old.log.usable ≡ true }
    requires pending { db.old.pending ≡ [] }
    requires sound { IsSound db.old }
    requires short { AllByRecursion IsShortOp ops.now }
    requires plain { (length ops.now ≤ 1) ⊎ AllByRecursion (λ op. is_exec op ≡ false) ops.now }
    ensures judged { IfOk result (λ judged. (after : State) × AreJudgedAs (committed db.old) after above ops.now judged.items) }
    ensures catalog { db.new.catalog ≡ db.old.catalog }
    ensures log { db.new.log ≡ db.old.log }
    ensures value { Advances db.old db.new [] }
{
    let mut judged = Vec::new(alloc);
    let mut left = ops;
    'ops: while let Some((op, rest)) = left.split_first() {
        judge_next(alloc, db, above, op, &mut judged)?;
        left = rest;
    }
    Ok(judged)
}

/// Judges an op, puts it behind others with its outcome, and keeps its changes as pending ones.
fn judge_next(
    alloc: Global,
    db: &mut Database,
    above: bool,
    op: &Op,
    judged: &mut Vec<(Op, Outcome)>,
) -> Result<(), NoMemory>
    requires usable { db.old.log.usable ≡ true }
    ensures more { OnOk result (PendingMore db.old db.new above op.now judged.old.items judged.new.items) }
    ensures catalog { db.new.catalog ≡ db.old.catalog }
    ensures log { db.new.log ≡ db.old.log }
    ensures value { Advances db.old db.new [] }
{
    let pair = judge_present(alloc, db, above, op)?;
    let kept = keep_pending(alloc, db, &pair);
    push_where(judged, pair, kept)
}

/// Puts an op with its outcome behind others, where it was kept.
pub(crate) fn push_where(
    judged: &mut Vec<(Op, Outcome)>,
    pair: (Op, Outcome),
    kept: Result<(), NoMemory>,
) -> Result<(), NoMemory>
    ensures pushed { OnOk result (judged.new.items ≡ judged.old.items ++ pair ∷ []) }
    ensures kept { is_ok result ≡ true → is_ok kept ≡ true }
{
    match kept {
        Ok(()) => {
            judged.push(pair)?;
            Ok(())
        }
        Err(refused) => {
            drop(pair);
            Err(refused)
        }
    }
}

/// An op with its outcome in the present state.
fn judge_present(
    alloc: Global,
    db: &Database,
    above: bool,
    op: &Op,
) -> Result<(Op, Outcome), NoMemory>
    requires usable { db.now.log.usable ≡ true }
    ensures pair { IfOk result (IsPairOf (present db.now) above op.now) }
    ensures rows { RowsFit db.now.catalog db.now.rows.rows }
{
    judge_pair(alloc, db.catalog(), db.rows(), above, op)
}

/// An op with its outcome.
pub(crate) fn judge_pair(
    alloc: Global,
    catalog: &Catalog,
    rows: &Rows,
    above: bool,
    op: &Op,
) -> Result<(Op, Outcome), NoMemory>
    requires rows { RowsFit catalog.now rows.now.rows }
    ensures pair { IfOk result (IsPairOf (state_in catalog.now rows.now.rows) above op.now) }
{
    let copy = op.copy(alloc)?;
    match judge_one(alloc, catalog, rows, above, op) {
        Ok(outcome) => Ok((copy, outcome)),
        Err(refused) => {
            drop(copy);
            Err(refused)
        }
    }
}

/// The outcome of an op, where it can be written.
fn judge_one(
    alloc: Global,
    catalog: &Catalog,
    rows: &Rows,
    above: bool,
    op: &Op,
) -> Result<Outcome, NoMemory>
    requires rows { RowsFit catalog.now rows.now.rows }
    ensures judged { IfOk result (IsJudged catalog.now rows.now.rows above op.now) }
    ensures short { IfOk result IsShortOutcome }
{
    let outcome = judge(alloc, catalog, rows, above, op)?;
    short_alone(outcome)
}

/// The outcome, where it can be written.
fn short_alone(outcome: Outcome) -> Result<Outcome, NoMemory>
    ensures same { IfOk result (λ kept. kept ≡ outcome) }
    ensures short { IfOk result IsShortOutcome }
{
    if is_short(&outcome) {
        return Ok(outcome);
    }
    drop(outcome);
    Err(AllocError)
}

/// Puts the changes of an op into the rows, as pending ones.
fn keep_pending(alloc: Global, db: &mut Database, pair: &(Op, Outcome)) -> Result<(), NoMemory>
    requires usable { db.old.log.usable ≡ true }
    requires short { AllByRecursion IsShortChange (pending_of pair.now.0 pair.now.1) }
    requires fit { ChangesFit db.old.catalog db.old.rows.rows (pending_of pair.now.0 pair.now.1) }
    ensures rows { OnOk result (db.new.rows.rows ≡ applied db.old.catalog (pending_of pair.now.0 pair.now.1) db.old.rows.rows) }
    ensures catalog { db.new.catalog ≡ db.old.catalog }
    ensures log { db.new.log ≡ db.old.log }
    ensures value { Advances db.old db.new [] }
{
    let changes = changes_of(alloc, &pair.0, &pair.1)?;
    db.take_in(alloc, changes)
}
