//! What becomes of the ops of a transaction that is taken: each is judged on the state that those before it leave.

ghost use Rattle.std.specs.Prelude.{◌≡◌, ◌∷◌, ◌++◌, [], true, is_ok, IfOk, IsSome, OnOk};
ghost use Rattle.sr_base.specs.Values.{offset_from};
ghost use Rattle.sr_catalog_ddl.specs.Users.{stands_above};
ghost use Rattle.sr_catalog_schema.specs.Members.{user_name};
ghost use Rattle.sr_catalog_schema.specs.Names.{named};
ghost use Rattle.sr_database_fold.specs.Inner.Readings.{state_in};
ghost use Rattle.sr_database_history.specs.Fitting.{DoneFits};
ghost use Rattle.sr_database_history.specs.Folds.{after_done};
ghost use Rattle.sr_database_history.specs.Recorded.{Done, done_of, IsLawfulDone};
ghost use Rattle.sr_exec_dml.specs.Fitting.{RowsFit};
ghost use Rattle.sr_logform.specs.declared.entry.Entry.TheVariants.{From};
ghost use Rattle.sr_resolve.specs.Taking.{is_above};
ghost use Rattle.sr_rows.specs.Inner.Steps.{at_mark};
ghost use Rattle.sr_world_entries.specs.Inner.Judging.{AreJudgedAs, IsOneMore, IsPairOf};

use sr_base::{Copied, Name, NoMemory, Offset, Seq};
use sr_catalog::Catalog;
use sr_database_fold::takes_effect;
use sr_logform::{Entry, Op, Outcome};
use sr_resolve::judge;
use sr_rows::Rows;
use std::alloc::Global;

/// The ops of a user with their outcomes, each judged on the catalog and rows that those before it leave, which are then those behind all of them.
pub(crate) fn judge_ops(
    alloc: Global,
    catalog: &mut Catalog,
    rows: &mut Rows,
    user: &Name,
    ops: &[Op],
) -> Result<Vec<(Op, Outcome)>, NoMemory>
    requires rows { RowsFit catalog.old rows.old.rows }
    requires fresh { rows.old ≡ at_mark rows.old.rows }
    requires known { IsSome (named user_name user.now catalog.old.users) }
    ensures judged { IfOk result (λ judged. AreJudgedAs (state_in catalog.old rows.old) (state_in catalog.new rows.new) (is_above (state_in catalog.old rows.old) user.now) ops.now judged.items) }
{
    let above = is_above(catalog, user);
    judge_all(alloc, catalog, rows, user, above, ops)
}

/// Whether what a user sends comes from above.
fn is_above(catalog: &Catalog, user: &Name) -> bool
    ensures above { result ≡ stands_above (named user_name user.now catalog.now.users) }
{
    match catalog.user(user) {
        Some(partner) => partner.above,
        None => false,
    }
}

/// The same of ops that came from above or from below.
fn judge_all(
    alloc: Global,
    catalog: &mut Catalog,
    rows: &mut Rows,
    user: &Name,
    above: bool,
    ops: &[Op],
) -> Result<Vec<(Op, Outcome)>, NoMemory>
    requires rows { RowsFit catalog.old rows.old.rows }
    requires fresh { rows.old ≡ at_mark rows.old.rows }
    requires known { IsSome (named user_name user.now catalog.old.users) }
    ensures judged { IfOk result (λ judged. AreJudgedAs (state_in catalog.old rows.old) (state_in catalog.new rows.new) above ops.now judged.items) }
{
    let mut judged = Vec::new(alloc);
    let mut left = ops;
    'ops: while let Some((op, rest)) = left.split_first() {
        judge_next(alloc, catalog, rows, user, above, op, &mut judged)?;
        left = rest;
    }
    Ok(judged)
}

/// Judges an op, puts it behind others with its outcome, and goes on to the state behind it.
fn judge_next(
    alloc: Global,
    catalog: &mut Catalog,
    rows: &mut Rows,
    user: &Name,
    above: bool,
    op: &Op,
    judged: &mut Vec<(Op, Outcome)>,
) -> Result<(), NoMemory>
    requires rows { RowsFit catalog.old rows.old.rows }
    requires fresh { rows.old ≡ at_mark rows.old.rows }
    requires known { IsSome (named user_name user.now catalog.old.users) }
    ensures more { OnOk result (IsOneMore (state_in catalog.old rows.old) (state_in catalog.new rows.new) above op.now judged.old.items judged.new.items) }
    ensures fresh { rows.new ≡ at_mark rows.new.rows }
{
    let pair = judge_one(alloc, catalog, rows, above, op)?;
    let taken = take_on(alloc, catalog, rows, user, &pair);
    push_where(judged, pair, taken)
}

/// An op with its outcome.
fn judge_one(
    alloc: Global,
    catalog: &Catalog,
    rows: &Rows,
    above: bool,
    op: &Op,
) -> Result<(Op, Outcome), NoMemory>
    requires rows { RowsFit catalog.now rows.now.rows }
    ensures pair { IfOk result (IsPairOf (state_in catalog.now rows.now) above op.now) }
{
    let copy = op.copy(alloc)?;
    match judge(alloc, catalog, rows, above, op) {
        Ok(outcome) => Ok((copy, outcome)),
        Err(refused) => {
            drop(copy);
            Err(refused)
        }
    }
}

/// The state behind an op with its outcome.
fn take_on(
    alloc: Global,
    catalog: &mut Catalog,
    rows: &mut Rows,
    user: &Name,
    pair: &(Op, Outcome),
) -> Result<(), NoMemory>
    requires rows { RowsFit catalog.old rows.old.rows }
    requires fresh { rows.old ≡ at_mark rows.old.rows }
    requires known { IsSome (named user_name user.now catalog.old.users) }
    requires fits { (d : Done) × (done_of d ≡ pair.now) × IsLawfulDone d × DoneFits (state_in catalog.old rows.old) d }
    ensures after { (d : Done) → done_of d ≡ pair.now → IsLawfulDone d → DoneFits (state_in catalog.old rows.old) d
        → OnOk result (state_in catalog.new rows.new ≡ after_done d (state_in catalog.old rows.old)) }
    ensures fresh { rows.new ≡ at_mark rows.new.rows }
{
    let entry = entry_of(alloc, user, pair)?;
    let outcome = takes_effect(alloc, catalog, rows, &entry);
    drop(entry);
    outcome
}

/// The entry of one op with its outcome.
fn entry_of(alloc: Global, user: &Name, pair: &(Op, Outcome)) -> Result<Entry, NoMemory>
    ensures entry { IfOk result (λ entry. entry ≡ From user.now (offset_from 0) (pair.now ∷ [])) }
{
    let mut ops = Vec::new(alloc);
    ops.push(pair.copy(alloc)?)?;
    entry_with(alloc, user, Offset(0), ops)
}

/// The entry of a user's transaction with these ops.
pub(crate) fn entry_with(
    alloc: Global,
    user: &Name,
    at: Offset,
    ops: Vec<(Op, Outcome)>,
) -> Result<Entry, NoMemory>
    ensures entry { IfOk result (λ entry. entry ≡ From user.now at ops.items) }
{
    match user.copy(alloc) {
        Ok(user) => Ok(Entry::From {
            user,
            at,
            ops: Seq::from_vec(ops),
        }),
        Err(refused) => {
            drop(ops);
            Err(refused)
        }
    }
}

/// Puts an op with its outcome behind others, where it was taken.
fn push_where(
    judged: &mut Vec<(Op, Outcome)>,
    pair: (Op, Outcome),
    taken: Result<(), NoMemory>,
) -> Result<(), NoMemory>
    ensures pushed { OnOk result (judged.new.items ≡ judged.old.items ++ pair ∷ []) }
    ensures taken { is_ok result ≡ true → is_ok taken ≡ true }
{
    match taken {
        Ok(()) => {
            judged.push(pair)?;
            Ok(())
        }
        Err(refused) => {
            drop(pair);
            Err(refused)
        }
    }
}
