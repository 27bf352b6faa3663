ghost use Rattle.std.specs.Prelude.{◌≡◌, ◌∷◌, [], IfOk};
ghost use Rattle.sr_base.specs.Inner.Held.{values_of};

use crate::copied::{Copied, NoMemory};
use crate::row::Row;
use crate::seq::Seq;
use crate::value::Value;
use std::alloc::Global;
use std::marker::Model;
use std::slice;

/// The values of a key, in key order.
#[derive(Drop)]
pub struct Key {
    pub(crate) held: Held,
}

/// A key of one value, which is the usual one, lies where the key lies. Others have their values as a row has them.
#[derive(Drop)]
pub(crate) enum Held {
    One(Value),
    Many(Row),
}

impl Model for Key {
    ghost use Rattle.std.specs.Prelude.{List};
    ghost use Rattle.sr_base.specs.declared.value.Value.{Value as Cell};
    ghost use Rattle.sr_base.specs.Inner.Held.{values_of};

    ghost Value = { List Cell };

    ghost view = { λ k. values_of k.held };
}

impl Key {
    /// The key of these values. One value takes no memory.
    pub fn new(alloc: Global, values: Seq<Value>) -> Result<Key, NoMemory>
        ensures values { IfOk result (λ k. k ≡ values) }
    {
        Ok(Key {
            held: hold(alloc, values)?,
        })
    }

    /// The key of one value. It takes no memory.
    #[inline(always)]
    pub fn one(value: Value) -> Key
        ensures values { result ≡ value ∷ [] }
    {
        Key {
            held: Held::One(value),
        }
    }

    /// The values, in key order.
    #[inline(always)]
    pub fn values(&self) -> &[Value]
        ensures values { result.now ≡ self.now }
    {
        match &self.held {
            Held::One(value) => slice::from_ref(value),
            Held::Many(row) => row.values(),
        }
    }
}

/// The values of a list, the only one without the list.
fn hold(alloc: Global, values: Seq<Value>) -> Result<Held, NoMemory>
    ensures values { IfOk result (λ held. values_of held ≡ values) }
{
    let mut items = values.into_vec();
    if items.len() != 1 {
        return Ok(Held::Many(Row::new(alloc, Seq::from_vec(items))?));
    }
    match items.pop() {
        Some(value) => Ok(Held::One(value)),
        None => Ok(Held::Many(Row::new(alloc, Seq::from_vec(items))?)),
    }
}

impl Copied for Held {
    #[inline(always)]
    fn copy(&self, alloc: Global) -> Result<Held, NoMemory> {
        match self {
            Held::One(value) => Ok(Held::One(value.copy(alloc)?)),
            Held::Many(row) => Ok(Held::Many(row.copy(alloc)?)),
        }
    }
}

impl Copied for Key {
    #[inline(always)]
    fn copy(&self, alloc: Global) -> Result<Key, NoMemory> {
        Ok(Key {
            held: self.held.copy(alloc)?,
        })
    }
}
