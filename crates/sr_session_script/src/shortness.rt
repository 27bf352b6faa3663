//! Whether changes and views can be spelled in an entry.

ghost use Rattle.std.specs.Prelude.{◌≡◌, ◌↔◌, ◌<◌, ◌^◌, length, IsTrue, IfSome};
ghost use Rattle.sr_base.specs.Fields.{IsListOf};
ghost use Rattle.sr_base.specs.Values.{IsShort};
ghost use Rattle.sr_logform.specs.Outcomes.{IsShortChange};
ghost use Rattle.sr_session_script.specs.Inner.Synced.{IsShortView};

use sr_base::{Name, Row, Seq, Value};
use sr_logform::Change;

/// Whether changes can be spelled in an entry: fewer than 2^32 of them, each with two rows that differ, of fewer than 2^32 values of
/// fewer than 2^32 bytes. Those of a statement always can; the test spares carrying that through every layer.
pub fn are_short(changes: &[Change]) -> bool
    ensures short { IsTrue result ↔ IsListOf IsShortChange changes.now }
{
    let mut left = changes;
    'changes: while let Some((change, rest)) = left.split_first() {
        if !is_short_change(change) {
            return false;
        }
        left = rest;
    }
    are_few(changes)
}

/// Whether views can be spelled in an entry: fewer than 2^32 tables, each with fewer than 2^32 rows of fewer than 2^32 values of fewer than
/// 2^32 bytes. Those of SYNCHRONIZE always can; the test spares carrying that through every layer.
pub fn are_short_views(views: &[(Name, Seq<Row>)]) -> bool
    ensures short { IsTrue result ↔ IsListOf IsShortView views.now }
{
    let mut left = views;
    'views: while let Some(((_, rows), rest)) = left.split_first() {
        if !are_short_rows(rows.as_slice()) {
            return false;
        }
        left = rest;
    }
    are_few(views)
}

fn are_short_rows(rows: &[Row]) -> bool
    ensures short { IsTrue result ↔ IsListOf (IsListOf IsShort) rows.now }
{
    let mut left = rows;
    'rows: while let Some((row, rest)) = left.split_first() {
        if !is_short_row(row.values()) {
            return false;
        }
        left = rest;
    }
    are_few(rows)
}

/// Whether there are fewer than 2^32.
pub fn are_few<T>(items: &[T]) -> bool
    ensures few { IsTrue result ↔ (length items.now < 2 ^ 32) }
{
    items.len() < 4294967296
}

fn is_short_change(change: &Change) -> bool
    ensures short { IsTrue result ↔ IsShortChange change.now }
{
    is_short_image(&change.before)
        && is_short_image(&change.after)
        && !is_same(&change.before, &change.after)
}

/// Whether a row, if there is one, can be spelled.
fn is_short_image(row: &Option<Row>) -> bool
    ensures short { IsTrue result ↔ IfSome row.now (IsListOf IsShort) }
{
    match row {
        None => true,
        Some(row) => is_short_row(row.values()),
    }
}

fn is_short_row(values: &[Value]) -> bool
    ensures short { IsTrue result ↔ IsListOf IsShort values.now }
{
    let mut left = values;
    'values: while let Some((value, rest)) = left.split_first() {
        if !is_short_value(value) {
            return false;
        }
        left = rest;
    }
    are_few(values)
}

fn is_short_value(value: &Value) -> bool
    ensures short { IsTrue result ↔ IsShort value.now }
{
    match value {
        Value::Str(text) => are_few(text.bytes()),
        Value::Null | Value::Int(_) | Value::Big(_) | Value::Date(_) => true,
    }
}

/// Whether two rows are one, or neither is there.
fn is_same(before: &Option<Row>, after: &Option<Row>) -> bool
    ensures same { IsTrue result ↔ (before.now ≡ after.now) }
{
    match (before, after) {
        (None, None) => true,
        (Some(before), Some(after)) => *before == *after,
        _ => false,
    }
}
