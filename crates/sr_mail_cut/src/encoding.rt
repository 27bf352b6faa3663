//! The encoding of a transaction, written part by part.
//!
//! The bytes are those that the transaction is spelled with (docs/FORMATS.md, "The body of a window"). It is not written whole and then taken
//! apart, since then it would stand twice beside the messages; and a text goes from the value to its fragments at once.

ghost use Rattle.std.specs.Prelude.{◌≡◌, ℕ, ◌<◌, ◌^◌, ◌++◌, ◌∷◌, List, length, IfOk, OnOk};
ghost use Rattle.sr_base.specs.declared.value.Value.{Value as Cell};
ghost use Rattle.sr_base.specs.Fields.{bytes_spelling, name_spelling, list_spelling, IsListOf};
ghost use Rattle.sr_base.specs.Values.{value_spelling, IsShort};
ghost use Rattle.sr_logform.specs.Ops.{column_spelling, update_spelling, op_spelling, IsShortOp, transaction_spelling};
ghost use Rattle.sr_logform.specs.Inner.Ops.{IsShortTransaction};

use crate::encoded::Encoded;
use sr_base::{Name, NoMemory, Text, Value};
use sr_logform::{Op, Transaction};
use std::alloc::Global;

/// The encoding of a transaction in fragments of `room` bytes. It takes a time linear in it. Beside the fragments no more is held
/// than a name or a number.
pub(crate) fn encoded_of(
    alloc: Global,
    transaction: &Transaction,
    room: u32,
) -> Result<Encoded, NoMemory>
    requires short { IsShortTransaction transaction.now }
    requires some { 0 < room }
    ensures room { IfOk result (λ encoded. encoded.room ≡ room) }
    ensures bytes { IfOk result (λ encoded. encoded.bytes ≡ transaction_spelling transaction.now) }
{
    let mut encoded = Encoded::new(alloc, room)?;
    encoded.add(alloc, &transaction.at)?;
    add_ops(alloc, &mut encoded, transaction.ops.as_slice())?;
    Ok(encoded)
}

fn add_ops(alloc: Global, encoded: &mut Encoded, ops: &[Op]) -> Result<(), NoMemory>
    requires { IsListOf IsShortOp ops.now }
    ensures room { OnOk result (encoded.new.room ≡ encoded.old.room) }
    ensures bytes { OnOk result (encoded.new.bytes ≡ encoded.old.bytes ++ list_spelling op_spelling ops.now) }
{
    encoded.add(alloc, &(ops.len() as u32))?;
    for op in ops {
        add_op(alloc, encoded, op)?;
    }
    Ok(())
}

#[tactic(auto, unfolding(sr_logform::specs::Ops::op_spelling, sr_logform::specs::Ops::OpHas))]
fn add_op(alloc: Global, encoded: &mut Encoded, op: &Op) -> Result<(), NoMemory>
    requires { IsShortOp op.now }
    ensures room { OnOk result (encoded.new.room ≡ encoded.old.room) }
    ensures bytes { OnOk result (encoded.new.bytes ≡ encoded.old.bytes ++ op_spelling op.now) }
{
    match op {
        Op::Insert { table, values } => {
            add_head(alloc, encoded, 1, table)?;
            add_columns(alloc, encoded, values.as_slice())?;
        }
        Op::Remove { table, key } => {
            add_head(alloc, encoded, 2, table)?;
            add_columns(alloc, encoded, key.as_slice())?;
        }
        Op::Set {
            table,
            key,
            columns,
        } => {
            add_head(alloc, encoded, 3, table)?;
            add_columns(alloc, encoded, key.as_slice())?;
            add_updates(alloc, encoded, columns.as_slice())?;
        }
        Op::Clear { table } => {
            add_head(alloc, encoded, 4, table)?;
        }
        Op::Exec { text } => {
            encoded.add(alloc, &5u8)?;
            add_text(alloc, encoded, text)?;
        }
    }
    Ok(())
}

/// The tag of an op, and the name of its table.
fn add_head(alloc: Global, encoded: &mut Encoded, tag: u8, table: &Name) -> Result<(), NoMemory>
    ensures room { OnOk result (encoded.new.room ≡ encoded.old.room) }
    ensures bytes { OnOk result (encoded.new.bytes ≡ encoded.old.bytes ++ tag ∷ name_spelling table.now) }
{
    encoded.add(alloc, &tag)?;
    encoded.add(alloc, table)?;
    Ok(())
}

fn add_columns(
    alloc: Global,
    encoded: &mut Encoded,
    columns: &[(Name, Value)],
) -> Result<(), NoMemory>
    requires { IsListOf (λ (column : List ℕ × Cell). IsShort column.1) columns.now }
    ensures room { OnOk result (encoded.new.room ≡ encoded.old.room) }
    ensures bytes { OnOk result (encoded.new.bytes ≡ encoded.old.bytes ++ list_spelling column_spelling columns.now) }
{
    encoded.add(alloc, &(columns.len() as u32))?;
    for column in columns {
        add_column(alloc, encoded, column)?;
    }
    Ok(())
}

fn add_column(alloc: Global, encoded: &mut Encoded, column: &(Name, Value)) -> Result<(), NoMemory>
    requires { IsShort column.now.1 }
    ensures room { OnOk result (encoded.new.room ≡ encoded.old.room) }
    ensures bytes { OnOk result (encoded.new.bytes ≡ encoded.old.bytes ++ column_spelling column.now) }
{
    encoded.add(alloc, &column.0)?;
    add_value(alloc, encoded, &column.1)?;
    Ok(())
}

fn add_updates(
    alloc: Global,
    encoded: &mut Encoded,
    updates: &[(Name, Value, Value)],
) -> Result<(), NoMemory>
    requires { IsListOf (λ (update : List ℕ × Cell × Cell). IsShort update.1 × IsShort update.2) updates.now }
    ensures room { OnOk result (encoded.new.room ≡ encoded.old.room) }
    ensures bytes { OnOk result (encoded.new.bytes ≡ encoded.old.bytes ++ list_spelling update_spelling updates.now) }
{
    encoded.add(alloc, &(updates.len() as u32))?;
    for update in updates {
        add_update(alloc, encoded, update)?;
    }
    Ok(())
}

fn add_update(
    alloc: Global,
    encoded: &mut Encoded,
    update: &(Name, Value, Value),
) -> Result<(), NoMemory>
    requires { IsShort update.now.1 × IsShort update.now.2 }
    ensures room { OnOk result (encoded.new.room ≡ encoded.old.room) }
    ensures bytes { OnOk result (encoded.new.bytes ≡ encoded.old.bytes ++ update_spelling update.now) }
{
    encoded.add(alloc, &update.0)?;
    add_value(alloc, encoded, &update.1)?;
    add_value(alloc, encoded, &update.2)?;
    Ok(())
}

#[tactic(auto, unfolding(sr_base::specs::Values::value_spelling))]
fn add_value(alloc: Global, encoded: &mut Encoded, value: &Value) -> Result<(), NoMemory>
    requires { IsShort value.now }
    ensures room { OnOk result (encoded.new.room ≡ encoded.old.room) }
    ensures bytes { OnOk result (encoded.new.bytes ≡ encoded.old.bytes ++ value_spelling value.now) }
{
    match value {
        Value::Str(text) => {
            encoded.add(alloc, &3u8)?;
            add_text(alloc, encoded, text)?;
        }
        _ => {
            encoded.add(alloc, value)?;
        }
    }
    Ok(())
}

fn add_text(alloc: Global, encoded: &mut Encoded, text: &Text) -> Result<(), NoMemory>
    requires { length text.now < 2 ^ 32 }
    ensures room { OnOk result (encoded.new.room ≡ encoded.old.room) }
    ensures bytes { OnOk result (encoded.new.bytes ≡ encoded.old.bytes ++ bytes_spelling text.now) }
{
    let bytes = text.bytes();
    encoded.add(alloc, &(bytes.len() as u32))?;
    encoded.add_bytes(alloc, bytes)?;
    Ok(())
}
