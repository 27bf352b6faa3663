//! How long changes are as bytes.

ghost use Rattle.std.specs.Prelude.{◌≡◌, ◌+◌, ◌<◌, length, MatchOption};
ghost use Rattle.sr_base.specs.Fields.{option_spelling};
ghost use Rattle.sr_base.specs.Values.{row_spelling, value_spelling};
ghost use Rattle.sr_logform.specs.Outcomes.{change_spelling};
ghost use Rattle.sr_resolve.specs.Judging.{is_too_long};

use sr_base::{Row, Value};
use sr_logform::Change;

/// 4 MiB, without the count that a list begins with.
const ROOM: usize = 4_194_300;

/// Whether a list of changes spells more than 4 MiB. It looks at each value up to there, and writes nothing.
#[tactic(auto, using(crate::proofs::Measured::measures))]
pub(crate) fn is_too_long(changes: &[Change]) -> bool
    ensures { result ≡ is_too_long changes.now }
{
    let mut room = ROOM;
    let mut left = changes;
    'changes: while let Some((change, rest)) = left.split_first() {
        let Some(after) = after_change(room, change) else {
            return true;
        };
        room = after;
        left = rest;
    }
    false
}

/// The room that is left behind bytes, if they have room.
fn behind(room: usize, bytes: usize) -> Option<usize>
    ensures room { MatchOption result (room < bytes) (λ left. left + bytes ≡ room) }
{
    if room < bytes {
        return None;
    }
    Some(room - bytes)
}

/// Behind a change: its table's name, the row before and the row after.
#[tactic(auto, using(crate::proofs::Measured::measures))]
fn after_change(room: usize, change: &Change) -> Option<usize>
    ensures room { MatchOption result (room < length (change_spelling change.now)) (λ left. left + length (change_spelling change.now) ≡ room) }
{
    let room = behind(room, 1)?;
    let room = behind(room, change.table.bytes().len())?;
    let room = after_row(room, &change.before)?;
    after_row(room, &change.after)
}

/// Behind a row that may not be there: a byte, and the row.
#[tactic(auto, using(crate::proofs::Measured::measures))]
fn after_row(room: usize, row: &Option<Row>) -> Option<usize>
    ensures room { MatchOption result (room < length (option_spelling row_spelling row.now)) (λ left. left + length
        (option_spelling row_spelling row.now) ≡ room) }
{
    let room = behind(room, 1)?;
    match row {
        None => Some(room),
        Some(row) => after_values(room, row.values()),
    }
}

/// Behind the values of a row: their count, and each.
#[tactic(auto, using(crate::proofs::Measured::measures))]
fn after_values(room: usize, values: &[Value]) -> Option<usize>
    ensures room { MatchOption result (room < length (row_spelling values.now)) (λ left. left + length (row_spelling values.now) ≡ room) }
{
    let mut room = behind(room, 4)?;
    let mut left = values;
    'values: while let Some((value, rest)) = left.split_first() {
        room = after_value(room, value)?;
        left = rest;
    }
    Some(room)
}

/// Behind a value: its tag, and what stands behind it.
#[tactic(auto, using(crate::proofs::Measured::measures))]
fn after_value(room: usize, value: &Value) -> Option<usize>
    ensures room { MatchOption result (room < length (value_spelling value.now)) (λ left. left + length (value_spelling value.now) ≡ room) }
{
    match value {
        Value::Null => behind(room, 1),
        Value::Int(_) => behind(room, 5),
        Value::Big(_) => behind(room, 9),
        Value::Str(text) => {
            let room = behind(room, 5)?;
            behind(room, text.bytes().len())
        }
        Value::Date(_) => behind(room, 5),
    }
}
