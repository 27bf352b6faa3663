//! Whether rows and changes are the same.

ghost use Rattle.std.specs.Prelude.{◌≡◌, ◌↔◌, IsTrue};

use crate::names::is_same;
use sr_base::{Row, Value};
use sr_logform::Change;

/// Whether two lists of rows are one.
pub(crate) fn are_same_rows(rows: &[Row], others: &[Row]) -> bool
    ensures same { IsTrue result ↔ (rows.now ≡ others.now) }
{
    let mut left = rows;
    let mut right = others;
    'rows: while let Some((row, rest)) = left.split_first() {
        let Some((other, behind)) = right.split_first() else {
            return false;
        };
        if !is_same_row(row.values(), other.values()) {
            return false;
        }
        left = rest;
        right = behind;
    }
    right.is_empty()
}

/// Whether two lists of changes are one.
pub(crate) fn are_same_changes(changes: &[Change], others: &[Change]) -> bool
    ensures same { IsTrue result ↔ (changes.now ≡ others.now) }
{
    let mut left = changes;
    let mut right = others;
    'changes: while let Some((change, rest)) = left.split_first() {
        let Some((other, behind)) = right.split_first() else {
            return false;
        };
        if !is_same_change(change, other) {
            return false;
        }
        left = rest;
        right = behind;
    }
    right.is_empty()
}

fn is_same_change(change: &Change, other: &Change) -> bool
    ensures same { IsTrue result ↔ (change.now ≡ other.now) }
{
    is_same(&change.table, &other.table)
        && is_same_image(&change.before, &other.before)
        && is_same_image(&change.after, &other.after)
}

/// Whether two rows are one, or neither is there.
pub(crate) fn is_same_image(row: &Option<Row>, other: &Option<Row>) -> bool
    ensures same { IsTrue result ↔ (row.now ≡ other.now) }
{
    match (row, other) {
        (None, None) => true,
        (Some(row), Some(other)) => is_same_row(row.values(), other.values()),
        _ => false,
    }
}

fn is_same_row(row: &[Value], other: &[Value]) -> bool
    ensures same { IsTrue result ↔ (row.now ≡ other.now) }
{
    row.cmp(other).is_eq()
}
