//! The articles of the tables that an entry changes are had at hand.

ghost use Rattle.std.specs.Prelude.{◌≡◌};

use crate::chart::Chart;
use sr_base::NoMemory;
use sr_logform::{Change, Entry, Op, Outcome};
use std::alloc::Global;

/// Has at hand the articles of the tables whose rows an entry changes here.
pub(crate) fn take_up(alloc: Global, catalog: &mut Chart, entry: &Entry) -> Result<(), NoMemory>
    ensures same { catalog.new ≡ catalog.old }
{
    match entry {
        Entry::Own(changes) => take_up_changes(alloc, catalog, changes.as_slice()),
        Entry::Pass { changes, .. } => take_up_changes(alloc, catalog, changes.as_slice()),
        Entry::From { ops, .. } => take_up_ops(alloc, catalog, ops.as_slice()),
        Entry::Ddl(_) | Entry::Sync { .. } | Entry::Note { .. } => Ok(()),
    }
}

/// It takes one pass over the changes, and the time of `Chart::take_up` for each.
fn take_up_changes(alloc: Global, catalog: &mut Chart, changes: &[Change]) -> Result<(), NoMemory>
    ensures same { catalog.new ≡ catalog.old }
{
    let mut left = changes;
    'changes: while let Some((change, rest)) = left.split_first() {
        catalog.take_up(alloc, &change.table)?;
        left = rest;
    }
    Ok(())
}

/// It takes one pass over the ops, and over the changes of each.
fn take_up_ops(alloc: Global, catalog: &mut Chart, ops: &[(Op, Outcome)]) -> Result<(), NoMemory>
    ensures same { catalog.new ≡ catalog.old }
{
    let mut left = ops;
    'ops: while let Some((op, rest)) = left.split_first() {
        take_up_op(alloc, catalog, &op.0, &op.1)?;
        left = rest;
    }
    Ok(())
}

fn take_up_op(
    alloc: Global,
    catalog: &mut Chart,
    op: &Op,
    outcome: &Outcome,
) -> Result<(), NoMemory>
    ensures same { catalog.new ≡ catalog.old }
{
    match outcome {
        Outcome::Plain(changes) => take_up_changes(alloc, catalog, changes.as_slice()),
        Outcome::Conflict { inserts, .. } => {
            take_up_changes(alloc, catalog, inserts.as_slice())?;
            take_up_set(alloc, catalog, op)
        }
        Outcome::Clash(_) => Ok(()),
    }
}

fn take_up_set(alloc: Global, catalog: &mut Chart, op: &Op) -> Result<(), NoMemory>
    ensures same { catalog.new ≡ catalog.old }
{
    match op {
        Op::Set { table, .. } => catalog.take_up(alloc, table),
        _ => Ok(()),
    }
}
