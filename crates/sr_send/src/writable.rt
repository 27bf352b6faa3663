//! Whether a transaction keeps the rules that its writing asks for. What a history gives always does.

ghost use Rattle.std.specs.Prelude.{◌≡◌, ◌↔◌, ◌<◌, ◌^◌, ⊤, false, length, map, IsTrue};
ghost use Rattle.std.specs.List.{AllByRecursion};
ghost use Rattle.sr_base.specs.Values.{IsShort};
ghost use Rattle.sr_base.specs.declared.value.Value.TheVariants.{Null};
ghost use Rattle.sr_logform.specs.Ops.{AreKeyColumns, AreUpdates, AreValues, IsShortOp};
ghost use Rattle.sr_logform.specs.Inner.Ops.{IsShortTransaction};
ghost use Rattle.sr_logform.specs.Rules.{AreDistinct};
ghost use Rattle.sr_send.specs.Inner.Writable.{IsCount};

use sr_base::{Name, Value};
use sr_logform::{Op, Transaction};

/// Whether a transaction can be written: no list of it is empty, or has 2^32 items; no text has 2^32 bytes; no op names a column twice or inserts NULL.
pub(crate) fn can_write(transaction: &Transaction) -> bool
    ensures { IsTrue result ↔ IsShortTransaction transaction.now }
{
    let ops = transaction.ops.as_slice();
    is_count(ops) && can_write_all(ops)
}

/// Whether a list is not empty and has fewer than 2^32 items.
fn is_count<T>(items: &[T]) -> bool
    ensures { IsTrue result ↔ IsCount items.now }
{
    !items.is_empty() && u32::try_from(items.len()).is_ok()
}

fn can_write_all(ops: &[Op]) -> bool
    ensures { IsTrue result ↔ AllByRecursion IsShortOp ops.now }
{
    let mut left = ops;
    'ops: while let Some((op, rest)) = left.split_first() {
        if !can_write_op(op) {
            return false;
        }
        left = rest;
    }
    true
}

#[tactic(auto, unfolding(sr_logform::specs::Ops::OpHas))]
fn can_write_op(op: &Op) -> bool
    ensures { IsTrue result ↔ IsShortOp op.now }
{
    match op {
        Op::Insert { values, .. } => are_values(values.as_slice()),
        Op::Remove { key, .. } => are_key(key.as_slice()),
        Op::Set { key, columns, .. } => are_key(key.as_slice()) && are_updates(columns.as_slice()),
        Op::Clear { .. } => true,
        Op::Exec { text } => is_short_text(text.bytes()),
    }
}

fn is_short_text(bytes: &[u8]) -> bool
    ensures { IsTrue result ↔ (length bytes.now < 2 ^ 32) }
{
    u32::try_from(bytes.len()).is_ok()
}

fn is_short(value: &Value) -> bool
    ensures { IsTrue result ↔ IsShort value.now }
{
    match value {
        Value::Str(text) => is_short_text(text.bytes()),
        Value::Null | Value::Int(_) | Value::Big(_) | Value::Date(_) => true,
    }
}

fn is_null(value: &Value) -> bool
    ensures { (result ≡ false) ↔ ¬ (value.now ≡ Null) }
{
    match value {
        Value::Null => true,
        Value::Int(_) | Value::Big(_) | Value::Str(_) | Value::Date(_) => false,
    }
}

/// The columns of an Insert.
fn are_values(columns: &[(Name, Value)]) -> bool
    ensures { IsTrue result ↔ AreValues (λ name. ⊤) IsShort columns.now }
{
    is_count(columns) && are_distinct(columns) && are_present(columns)
}

fn are_present(columns: &[(Name, Value)]) -> bool
    ensures { IsTrue result ↔ AllByRecursion (λ c. ⊤ × (IsShort c.1 × ¬ (c.1 ≡ Null))) columns.now }
{
    let mut left = columns;
    'columns: while let Some((column, rest)) = left.split_first() {
        if is_null(&column.1) || !is_short(&column.1) {
            return false;
        }
        left = rest;
    }
    true
}

/// The columns of a key.
fn are_key(columns: &[(Name, Value)]) -> bool
    ensures { IsTrue result ↔ AreKeyColumns (λ name. ⊤) IsShort columns.now }
{
    is_count(columns) && are_distinct(columns) && are_short(columns)
}

fn are_short(columns: &[(Name, Value)]) -> bool
    ensures { IsTrue result ↔ AllByRecursion (λ c. ⊤ × IsShort c.1) columns.now }
{
    let mut left = columns;
    'columns: while let Some((column, rest)) = left.split_first() {
        if !is_short(&column.1) {
            return false;
        }
        left = rest;
    }
    true
}

/// The columns of a Set: each with its old value and its new one.
fn are_updates(columns: &[(Name, Value, Value)]) -> bool
    ensures { IsTrue result ↔ AreUpdates (λ name. ⊤) IsShort columns.now }
{
    is_count(columns) && are_distinct(columns) && are_both_short(columns)
}

fn are_both_short(columns: &[(Name, Value, Value)]) -> bool
    ensures { IsTrue result ↔ AllByRecursion (λ c. ⊤ × IsShort c.1 × IsShort c.2) columns.now }
{
    let mut left = columns;
    'columns: while let Some((column, rest)) = left.split_first() {
        if !is_short(&column.1) || !is_short(&column.2) {
            return false;
        }
        left = rest;
    }
    true
}

/// What has a name.
trait Named {
    ghost use Rattle.std.specs.Prelude.{ℕ, List};

    ghost name_of: { Self → List ℕ };

    fn name(&self) -> &Name
        ensures { result.now ≡ name_of self.now };
}

impl<T> Named for (Name, T) {
    ghost name_of = { λ pair. pair.0 };

    fn name(&self) -> &Name {
        &self.0
    }
}

impl<T, U> Named for (Name, T, U) {
    ghost name_of = { λ triple. triple.0 };

    fn name(&self) -> &Name {
        &self.0
    }
}

/// Whether no name stands twice. Each is compared with those after it, which are as many as a table's columns at most.
fn are_distinct<T: Named>(items: &[T]) -> bool
    ensures { IsTrue result ↔ AreDistinct (map T.name_of items.now) }
{
    let mut left = items;
    'items: while let Some((item, rest)) = left.split_first() {
        if !is_absent(item.name(), rest) {
            return false;
        }
        left = rest;
    }
    true
}

/// Whether a name is not among others.
fn is_absent<T: Named>(name: &Name, others: &[T]) -> bool
    ensures { IsTrue result ↔ AllByRecursion (λ other. ¬ (name.now ≡ other)) (map T.name_of others.now) }
{
    let mut left = others;
    'others: while let Some((other, rest)) = left.split_first() {
        if name.bytes() == other.name().bytes() {
            return false;
        }
        left = rest;
    }
    true
}
