//! Entries that a partner was sent are passed over: what they give him is not made.

ghost use Rattle.std.specs.Prelude.{◌≡◌, None, false, map, IsTrue, OnOk, OnErr};
ghost use Rattle.std.specs.List.{AllByRecursion};
ghost use Rattle.sr_logform.specs.declared.outcome.Outcome.{Outcome as AnOutcome};
ghost use Rattle.sr_scan.specs.Inner.Meanings.{text_done};
ghost use Rattle.sr_send.specs.Inner.Passing.{RunsNothing, IsPassed};

use sr_base::{NoMemory, Offset};
use sr_logform::{Entry, Op, Outcome};
use sr_scan::Scanner;
use std::alloc::Global;

/// Lets a scanner go on after an entry, whatever that gives. One of which no statement ran costs a look at its ops.
#[tactic(auto, using(crate::proofs::Still::passed_still, crate::proofs::Still::passed_fed))]
pub(crate) fn pass_over(alloc: Global, scanner: &mut Scanner, entry: &Entry) -> Result<(), NoMemory>
    ensures passed { OnOk result (IsPassed scanner.old entry.now scanner.new) }
    ensures err { OnErr result (scanner.new ≡ scanner.old) }
{
    if runs_nothing(entry) {
        return Ok(());
    }
    let found = scanner.feed(alloc, Offset(0), entry)?;
    drop(found);
    Ok(())
}

/// Whether no statement of an entry ran here: then the catalog after it is the one before it.
#[tactic(auto, using(crate::proofs::Still::pass_runs_nothing))]
pub fn runs_nothing(entry: &Entry) -> bool
    ensures nothing { IsTrue result → RunsNothing entry.now }
{
    match entry {
        Entry::Own(_) | Entry::Sync { .. } | Entry::Note { .. } => true,
        Entry::From { ops, .. } => ran_nothing(ops.as_slice()),
        Entry::Ddl(_) => false,
        Entry::Pass { only, .. } => *only,
    }
}

/// Whether no statement ran in ops that were taken.
fn ran_nothing(taken: &[(Op, Outcome)]) -> bool
    ensures nothing { IsTrue result → AllByRecursion (λ text. text ≡ None) (map (λ p. text_done p.0 p.1) taken.now) }
{
    let mut left = taken;
    'taken: while let Some((done, rest)) = left.split_first() {
        if is_statement(&done.0) {
            return false;
        }
        left = rest;
    }
    true
}

/// Whether an op is a statement.
fn is_statement(op: &Op) -> bool
    ensures none { result ≡ false → (outcome : AnOutcome) → text_done op.now outcome ≡ None }
{
    matches!(op, Op::Exec { .. })
}
