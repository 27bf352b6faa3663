//! The changes of an op that was judged, and whether they can be written.

ghost use Rattle.std.specs.Prelude.{◌≡◌, ◌↔◌, ◌++◌, Some, IsTrue, IfOk, OnOk};
ghost use Rattle.std.specs.List.{AllByRecursion};
ghost use Rattle.std.specs.Option.{option_copied};
ghost use Rattle.sr_base.specs.Fields.{IsListOf};
ghost use Rattle.sr_base.specs.Values.{IsShort};
ghost use Rattle.sr_logform.specs.Outcomes.{IsShortOutcome};
ghost use Rattle.sr_receive_judged.specs.Inner.Judged.{pending_of, row_changes, table_of, with_row};

use sr_base::{Copied, Name, NoMemory, Row, Seq, Value};
use sr_exec_dml::Changes;
use sr_logform::{Change, Op, Outcome};
use sr_session_script::{are_few, are_short};
use std::alloc::Global;

/// Whether an outcome can be written: no list of it has 2^32 items, and no text 2^32 bytes. That of judging always can.
#[tactic(auto, unfolding(sr_logform::specs::Outcomes::OutcomeHas))]
pub(crate) fn is_short(outcome: &Outcome) -> bool
    ensures { IsTrue result ↔ IsShortOutcome outcome.now }
{
    match outcome {
        Outcome::Plain(changes) => are_short(changes.as_slice()),
        Outcome::Conflict {
            inserts,
            before,
            after,
        } => are_short(inserts.as_slice()) && is_short_row(before) && is_short_row(after),
        Outcome::Clash(_) => true,
    }
}

fn is_short_row(row: &Row) -> bool
    ensures { IsTrue result ↔ IsListOf IsShort row.now }
{
    are_few(row.values()) && are_short_values(row.values())
}

fn are_short_values(values: &[Value]) -> bool
    ensures { IsTrue result ↔ AllByRecursion IsShort values.now }
{
    let mut left = values;
    'values: while let Some((value, rest)) = left.split_first() {
        if !is_short_value(value) {
            return false;
        }
        left = rest;
    }
    true
}

fn is_short_value(value: &Value) -> bool
    ensures { IsTrue result ↔ IsShort value.now }
{
    match value {
        Value::Str(text) => are_few(text.bytes()),
        Value::Null | Value::Int(_) | Value::Big(_) | Value::Date(_) => true,
    }
}

/// The changes of an op with its outcome, but for one that leaves its row as it was.
pub(crate) fn changes_of(alloc: Global, op: &Op, outcome: &Outcome) -> Result<Changes, NoMemory>
    ensures changes { IfOk result (λ changes. changes.list ≡ pending_of op.now outcome.now) }
{
    let list = match outcome {
        Outcome::Plain(changes) => changes.copy(alloc)?,
        Outcome::Conflict {
            inserts,
            before,
            after,
        } => with_row(alloc, op, inserts.as_slice(), before, after)?,
        Outcome::Clash(_) => Seq::empty(alloc),
    };
    Ok(Changes { list, count: 0 })
}

/// What triggers inserted, and then the change of the op's row.
fn with_row(
    alloc: Global,
    op: &Op,
    inserts: &[Change],
    before: &Row,
    after: &Row,
) -> Result<Seq<Change>, NoMemory>
    ensures changes { IfOk result (λ changes. changes ≡ with_row op.now inserts.now before.now after.now) }
{
    let mut changes = Vec::new(alloc);
    let mut left = inserts;
    'inserts: while let Some((change, rest)) = left.split_first() {
        changes.push(change.copy(alloc)?)?;
        left = rest;
    }
    push_row(alloc, &mut changes, op, before, after)?;
    Ok(Seq::from_vec(changes))
}

/// The change of an op's row comes, where the row before differs from the row after.
fn push_row(
    alloc: Global,
    changes: &mut Vec<Change>,
    op: &Op,
    before: &Row,
    after: &Row,
) -> Result<(), NoMemory>
    ensures pushed { OnOk result (changes.new.items ≡ changes.old.items ++ row_changes (table_of op.now) before.now after.now) }
{
    let Some(table) = table_of(op) else {
        return Ok(());
    };
    if before.values().cmp(after.values()).is_ne() {
        changes.push(row_change(alloc, table, before, after)?)?;
    }
    Ok(())
}

/// The table of an op, where it names one.
fn table_of(op: &Op) -> Option<&Name>
    ensures table { option_copied result ≡ table_of op.now }
{
    match op {
        Op::Insert { table, .. }
        | Op::Remove { table, .. }
        | Op::Set { table, .. }
        | Op::Clear { table } => Some(table),
        Op::Exec { .. } => None,
    }
}

/// The change of a row.
fn row_change(alloc: Global, table: &Name, before: &Row, after: &Row) -> Result<Change, NoMemory>
    ensures change { IfOk result (λ change. change ≡ record { table = table.now; before = Some before.now; after = Some after.now }) }
{
    Ok(Change {
        table: table.copy(alloc)?,
        before: Some(before.copy(alloc)?),
        after: Some(after.copy(alloc)?),
    })
}
