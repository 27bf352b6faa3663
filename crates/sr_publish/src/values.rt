//! Values of a row.

ghost use Rattle.std.specs.Prelude.{◌≡◌, IfOk, slice_get, unwrap_or};
ghost use Rattle.std.specs.Ordering.{eq_by_cmp};
ghost use Rattle.sr_base.specs.Order.{value_cmp};
ghost use Rattle.sr_base.specs.declared.value.Value.TheVariants.{Null};
ghost use Rattle.sr_exec_where.specs.Keys.{key_of};

use sr_base::{Copied, NoMemory, Seq, Value};
use std::alloc::{AllocError, Global};

/// Whether two values are one: NULL is NULL, and an INTEGER is no BIGINT.
pub fn is_same(value: &Value, other: &Value) -> bool
    ensures same { result ≡ eq_by_cmp value_cmp value.now other.now }
{
    value.cmp(other).is_eq()
}

/// The value at a place of a row; NULL where the row ends before.
pub fn value_or_null(alloc: Global, row: &[Value], place: usize) -> Result<Value, NoMemory>
    ensures value { IfOk result (λ value. value ≡ unwrap_or (slice_get row.now place) Null) }
{
    match row.get(place) {
        Some(value) => value.copy(alloc),
        None => Ok(Value::Null),
    }
}

/// The values at places of a row, as those of a key: each is found at once.
pub fn values_at(alloc: Global, places: &[usize], row: &[Value]) -> Result<Seq<Value>, NoMemory>
    ensures values { IfOk result (λ values. values ≡ key_of places.now row.now) }
{
    let mut values = Vec::new(alloc);
    let mut left = places;
    'places: while let Some((place, rest)) = left.split_first() {
        let value = value_or_null(alloc, row, *place)?;
        if values.push(value).is_err() {
            return Err(AllocError);
        }
        left = rest;
    }
    Ok(Seq::from_vec(values))
}
