//! What became of what was taken.

ghost use Rattle.std.specs.Prelude.{◌≡◌, IfOk, OnOk};
ghost use Rattle.dbremote_demo_draws.specs.Counts.{no_outcomes, outcomes_of, with_entry, with_ops, with_outcome};

use crate::sums::sum;
use sr_base::NoMemory;
use sr_logform::{Entry, Op, Outcome};

/// How many ops met another value, and how many were skipped.
#[derive(Clone, Copy)]
pub struct Outcomes {
    pub conflicts: u64,
    pub clashes: u64,
}

/// Those of all that was taken, of the entries of a log.
pub fn outcomes_of(entries: &[Entry]) -> Result<Outcomes, NoMemory>
    ensures outcomes { IfOk result (λ outcomes. outcomes ≡ outcomes_of entries.now no_outcomes) }
{
    let mut outcomes = Outcomes {
        conflicts: 0,
        clashes: 0,
    };
    let mut left = entries;
    'entries: while let Some((entry, rest)) = left.split_first() {
        outcomes = with_entry(entry, outcomes)?;
        left = rest;
    }
    Ok(outcomes)
}

fn with_entry(entry: &Entry, outcomes: Outcomes) -> Result<Outcomes, NoMemory>
    ensures { IfOk result (λ more. more ≡ with_entry entry.now outcomes) }
{
    match entry {
        Entry::From { ops, .. } => with_ops(ops.as_slice(), outcomes),
        Entry::Own(_)
        | Entry::Ddl(_)
        | Entry::Sync { .. }
        | Entry::Pass { .. }
        | Entry::Note { .. } => Ok(outcomes),
    }
}

fn with_ops(ops: &[(Op, Outcome)], outcomes: Outcomes) -> Result<Outcomes, NoMemory>
    ensures { IfOk result (λ more. more ≡ with_ops ops.now outcomes) }
{
    let mut counted = outcomes;
    let mut left = ops;
    'ops: while let Some((op, rest)) = left.split_first() {
        counted = with_outcome(&op.1, counted)?;
        left = rest;
    }
    Ok(counted)
}

fn with_outcome(outcome: &Outcome, outcomes: Outcomes) -> Result<Outcomes, NoMemory>
    ensures { IfOk result (λ more. more ≡ with_outcome outcome.now outcomes) }
{
    match outcome {
        Outcome::Plain(_) => Ok(outcomes),
        Outcome::Conflict { .. } => Ok(Outcomes {
            conflicts: sum(outcomes.conflicts, 1)?,
            clashes: outcomes.clashes,
        }),
        Outcome::Clash(_) => Ok(Outcomes {
            conflicts: outcomes.conflicts,
            clashes: sum(outcomes.clashes, 1)?,
        }),
    }
}
