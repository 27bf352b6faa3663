//! The bytes under which subscriptions are found.

ghost use Rattle.std.specs.Prelude.{◌≡◌, ◌∷◌, ◌++◌, Some, IfSome, IfOk, OnOk};
ghost use Rattle.sr_catalog_schema.specs.Inner.Keys.{pair_key, value_tail, rule_key, HasRange};

use sr_base::{Name, NoMemory, Text, Value, write_pair};
use std::alloc::Global;

/// The key of a user and a publication.
#[tactic(auto, unfolding(crate::specs::Inner::Keys::pair_key))]
pub(crate) fn pair_key(alloc: Global, user: &Name, publication: &Name) -> Result<Vec<u8>, NoMemory>
    ensures { IfOk result (λ key. key.items ≡ pair_key user.now publication.now) }
{
    let mut key = Vec::with_capacity(alloc, 32)?;
    write_pair(user, publication, &mut key)?;
    Ok(key)
}

/// The key of a user, a publication and a value.
pub(crate) fn rule_key(
    alloc: Global,
    user: &Name,
    publication: &Name,
    value: &Option<Value>,
) -> Result<Vec<u8>, NoMemory>
    ensures key { IfOk result (λ key. key.items ≡ rule_key user.now publication.now value.now) }
    ensures range { OnOk result (IfSome value.now HasRange) }
{
    let mut key = pair_key(alloc, user, publication)?;
    add_tail(value, &mut key)?;
    Ok(key)
}

#[tactic(auto, unfolding(crate::specs::Inner::Keys::value_tail))]
fn add_tail(value: &Option<Value>, out: &mut Vec<u8>) -> Result<(), NoMemory>
    ensures tail { OnOk result (out.new.items ≡ out.old.items ++ value_tail value.now) }
    ensures range { OnOk result (IfSome value.now HasRange) }
{
    match value {
        None => Ok(()),
        Some(value) => add_value(value, out),
    }
}

#[tactic(auto, unfolding(crate::specs::Inner::Keys::value_tail, crate::specs::Inner::Keys::HasRange))]
fn add_value(value: &Value, out: &mut Vec<u8>) -> Result<(), NoMemory>
    ensures tail { OnOk result (out.new.items ≡ out.old.items ++ value_tail (Some value.now)) }
    ensures range { OnOk result (HasRange value.now) }
{
    match value {
        Value::Null => {
            out.push(0)?;
            Ok(())
        }
        Value::Int(number) => write_pair(&1u8, number, out),
        Value::Big(number) => write_pair(&2u8, number, out),
        Value::Str(text) => add_text(text, out),
        Value::Date(day) => write_pair(&4u8, day, out),
    }
}

fn add_text(text: &Text, out: &mut Vec<u8>) -> Result<(), NoMemory>
    ensures { OnOk result (out.new.items ≡ out.old.items ++ 3 ∷ text.now) }
{
    out.push(3)?;
    out.extend_from_slice(text.bytes())?;
    Ok(())
}
