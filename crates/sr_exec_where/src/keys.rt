ghost use Rattle.std.specs.Prelude.{◌≡◌, IfOk, slice_get, unwrap_or};
ghost use Rattle.sr_base.specs.declared.value.Value.TheVariants.{Null};
ghost use Rattle.sr_exec_where.specs.Keys.{key_of};

use crate::lists::push;
use sr_base::{Copied, Key, NoMemory, Seq, Value};
use std::alloc::Global;

/// The key of a row: its values at the places of the key, each found at once. A key of one column takes no memory but that of a text.
#[inline(always)]
pub fn key_of(alloc: Global, places: &[usize], row: &[Value]) -> Result<Key, NoMemory>
    ensures key { IfOk result (λ key. key ≡ key_of places.now row.now) }
{
    match places {
        [place] => Ok(Key::one(value_at(alloc, row, *place)?)),
        _ => key_of_several(alloc, places, row),
    }
}

/// The key of several columns.
fn key_of_several(alloc: Global, places: &[usize], row: &[Value]) -> Result<Key, NoMemory>
    ensures key { IfOk result (λ key. key ≡ key_of places.now row.now) }
{
    let mut values = Vec::with_capacity(alloc, places.len())?;
    let mut left = places;
    'places: while let Some((place, rest)) = left.split_first() {
        push(&mut values, value_at(alloc, row, *place)?)?;
        left = rest;
    }
    Key::new(alloc, Seq::from_vec(values))
}

fn value_at(alloc: Global, row: &[Value], place: usize) -> Result<Value, NoMemory>
    ensures value { IfOk result (λ value. value ≡ unwrap_or (slice_get row.now place) Null) }
{
    match row.get(place) {
        Some(value) => value.copy(alloc),
        None => Ok(Value::Null),
    }
}
