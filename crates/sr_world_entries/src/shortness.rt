//! Whether changes, the tables of a Sync and outcomes can be spelled in an entry.

ghost use Rattle.std.specs.Prelude.{◌≡◌, ◌↔◌, ◌<◌, ◌^◌, length, IsTrue, IfSome};
ghost use Rattle.std.specs.List.{AllByRecursion};
ghost use Rattle.sr_base.specs.Fields.{IsListOf};
ghost use Rattle.sr_base.specs.Values.{IsShort};
ghost use Rattle.sr_logform.specs.Outcomes.{IsShortChange, IsShortOutcome};
ghost use Rattle.sr_world_entries.specs.Inner.Ends.{IsShortTable};

use crate::alike::is_same_image;
use sr_base::{Name, Row, Seq, Value};
use sr_logform::{Change, Op, Outcome};

/// Whether changes can be spelled: fewer than 2^32 of them, each with two rows that differ, of fewer than 2^32 values of fewer than 2^32 bytes.
pub(crate) fn are_short(changes: &[Change]) -> bool
    ensures short { IsTrue result ↔ IsListOf IsShortChange changes.now }
{
    let mut left = changes;
    'changes: while let Some((change, rest)) = left.split_first() {
        if !is_short_change(change) {
            return false;
        }
        left = rest;
    }
    are_few(changes)
}

/// Whether the tables of a Sync can be spelled: fewer than 2^32, each with fewer than 2^32 rows of fewer than 2^32 values of fewer than 2^32 bytes.
pub(crate) fn are_short_tables(tables: &[(Name, Seq<Row>)]) -> bool
    ensures short { IsTrue result ↔ IsListOf IsShortTable tables.now }
{
    let mut left = tables;
    'tables: while let Some(((_, rows), rest)) = left.split_first() {
        if !are_short_rows(rows.as_slice()) {
            return false;
        }
        left = rest;
    }
    are_few(tables)
}

/// Whether the outcomes of ops can be spelled: no list of them has 2^32 items, and no text 2^32 bytes.
pub(crate) fn are_short_outcomes(ops: &[(Op, Outcome)]) -> bool
    ensures short { IsTrue result ↔ AllByRecursion (λ p. IsShortOutcome p.1) ops.now }
{
    let mut left = ops;
    'ops: while let Some(((_, outcome), rest)) = left.split_first() {
        if !is_short_outcome(outcome) {
            return false;
        }
        left = rest;
    }
    true
}

#[tactic(auto, unfolding(sr_logform::specs::Outcomes::OutcomeHas))]
fn is_short_outcome(outcome: &Outcome) -> bool
    ensures short { IsTrue result ↔ IsShortOutcome outcome.now }
{
    match outcome {
        Outcome::Plain(changes) => are_short(changes.as_slice()),
        Outcome::Conflict {
            inserts,
            before,
            after,
        } => {
            are_short(inserts.as_slice())
                && is_short_row(before.values())
                && is_short_row(after.values())
        }
        Outcome::Clash(_) => true,
    }
}

fn are_short_rows(rows: &[Row]) -> bool
    ensures short { IsTrue result ↔ IsListOf (IsListOf IsShort) rows.now }
{
    let mut left = rows;
    'rows: while let Some((row, rest)) = left.split_first() {
        if !is_short_row(row.values()) {
            return false;
        }
        left = rest;
    }
    are_few(rows)
}

/// Whether there are fewer than 2^32.
pub(crate) fn are_few<T>(items: &[T]) -> bool
    ensures few { IsTrue result ↔ (length items.now < 2 ^ 32) }
{
    items.len() < 4294967296
}

fn is_short_change(change: &Change) -> bool
    ensures short { IsTrue result ↔ IsShortChange change.now }
{
    is_short_image(&change.before)
        && is_short_image(&change.after)
        && !is_same_image(&change.before, &change.after)
}

/// Whether a row, if there is one, can be spelled.
fn is_short_image(row: &Option<Row>) -> bool
    ensures short { IsTrue result ↔ IfSome row.now (IsListOf IsShort) }
{
    match row {
        None => true,
        Some(row) => is_short_row(row.values()),
    }
}

fn is_short_row(values: &[Value]) -> bool
    ensures short { IsTrue result ↔ IsListOf IsShort values.now }
{
    let mut left = values;
    'values: while let Some((value, rest)) = left.split_first() {
        if !is_short_value(value) {
            return false;
        }
        left = rest;
    }
    are_few(values)
}

fn is_short_value(value: &Value) -> bool
    ensures short { IsTrue result ↔ IsShort value.now }
{
    match value {
        Value::Str(text) => are_few(text.bytes()),
        Value::Null | Value::Int(_) | Value::Big(_) | Value::Date(_) => true,
    }
}
