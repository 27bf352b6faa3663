//! The columns of an Insert as a field: none of their values is NULL.

ghost use Rattle.std.specs.Prelude.{◌≡◌, ⊤, List};
ghost use Rattle.sr_base.specs.declared.value.Value.TheVariants.{Null};
ghost use Rattle.sr_base.specs.Fields.{IsName, list_spelling, name_at};
ghost use Rattle.sr_base.specs.Inner.Fields.{pair_at};
ghost use Rattle.sr_base.specs.Reading.{items_at, list_at};
ghost use Rattle.sr_base.specs.Inner.Reading.{Gives};
ghost use Rattle.sr_base.specs.Values.{value_spelling, IsValue, IsShort};
ghost use Rattle.sr_logform.specs.Inner.OpLaws.{present_format, values_format};
ghost use Rattle.sr_logform.specs.Ops.{column_spelling, AreValues};
ghost use Rattle.sr_logform.specs.Inner.Ops.{present_at, values_at};
ghost use Rattle.sr_logform.specs.Rules.{is_present};

use crate::names::are_distinct;
use sr_base::{Broken, Field, Name, NoMemory, Seq, Value};
use std::alloc::Global;
use std::marker::Model;

/// A value that is not NULL. NULL breaks at its tag.
#[derive(Drop)]
struct Present {
    value: Value,
}

impl Model for Present {
    ghost use Rattle.sr_base.specs.declared.value.Value.{Value as Cell};

    ghost Value = { Cell };

    ghost view = { λ p. p.value };
}

impl Present {
    fn into_value(self) -> Value
        ensures { result ≡ self }
    {
        self.value
    }
}

fn is_present(value: &Value) -> bool
    ensures { result ≡ is_present value.now }
{
    match value {
        Value::Null => false,
        Value::Int(_) => true,
        Value::Big(_) => true,
        Value::Str(_) => true,
        Value::Date(_) => true,
    }
}

impl Field for Present {
    ghost can_write = { λ value. IsShort value × ¬ (value ≡ Null) };

    ghost fits = { λ value. IsValue value × ¬ (value ≡ Null) };

    ghost spelling = { value_spelling };

    ghost reading = { present_at };

    ghost format = { present_format };

    #[tactic(auto, unfolding(crate::specs::Inner::Ops::present_at, crate::specs::Inner::Rules::checked_at))]
    fn read(alloc: Global, bytes: &[u8]) -> Result<(Present, &[u8]), Broken> {
        let (value, rest) = Value::read(alloc, bytes)?;
        if !is_present(&value) {
            return Err(Broken::Left(bytes.len()));
        }
        Ok((Present { value }, rest))
    }

    fn write(&self, out: &mut Vec<u8>) -> Result<(), NoMemory> {
        self.value.write(out)
    }
}

/// Columns of which none is NULL: a list that is not empty, and names none of them twice.
#[derive(Drop)]
pub(crate) struct Values {
    items: Seq<(Name, Value)>,
}

impl Model for Values {
    ghost use Rattle.std.specs.Prelude.{ℕ, List};
    ghost use Rattle.sr_base.specs.declared.value.Value.{Value as Cell};

    ghost Value = { List (List ℕ × Cell) };

    ghost view = { λ v. v.items };
}

impl Values {
    /// The columns in order.
    pub(crate) fn into_seq(self) -> Seq<(Name, Value)>
        ensures { result ≡ self }
    {
        self.items
    }
}

/// So many columns of which none is NULL.
fn present_items(
    alloc: Global,
    count: u32,
    bytes: &[u8],
) -> Result<(Vec<(Name, Value)>, &[u8]), Broken>
    ensures { Gives (λ x. (x.0.items, x.1.now)) result (items_at (pair_at name_at present_at) count bytes.now) }
{
    let mut items = Vec::new(alloc);
    let mut rest = bytes;
    for _ in 0..count {
        let ((name, value), after) = <(Name, Present)>::read(alloc, rest)?;
        items.push((name, value.into_value()))?;
        rest = after;
    }
    Ok((items, rest))
}

/// A list of columns of which none is NULL.
#[tactic(auto, unfolding(sr_base::specs::Reading::list_at))]
fn present_list(alloc: Global, bytes: &[u8]) -> Result<(Seq<(Name, Value)>, &[u8]), Broken>
    ensures { Gives (λ x. (x.0, x.1.now)) result (list_at (pair_at name_at present_at) bytes.now) }
{
    let (count, rest) = u32::read(alloc, bytes)?;
    let (items, rest) = present_items(alloc, count, rest)?;
    Ok((Seq::from_vec(items), rest))
}

impl Field for Values {
    ghost can_write = { AreValues (λ name. ⊤) IsShort };

    ghost fits = { AreValues IsName IsValue };

    ghost spelling = { list_spelling column_spelling };

    ghost reading = { values_at };

    ghost format = { values_format };

    #[tactic(auto, unfolding(crate::specs::Inner::Ops::values_at, crate::specs::Inner::Rules::columns_at, crate::specs::Inner::Rules::checked_at))]
    fn read(alloc: Global, bytes: &[u8]) -> Result<(Values, &[u8]), Broken> {
        let (items, rest) = present_list(alloc, bytes)?;
        if items.as_slice().is_empty() {
            return Err(Broken::Left(bytes.len()));
        }
        if !are_distinct(alloc, items.as_slice())? {
            return Err(Broken::Left(bytes.len()));
        }
        Ok((Values { items }, rest))
    }

    fn write(&self, out: &mut Vec<u8>) -> Result<(), NoMemory> {
        self.items.write(out)
    }
}
