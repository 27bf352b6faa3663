//! Days, offsets, values, rows and keys as fields.

ghost use Rattle.std.specs.Prelude.{⊤};
ghost use Rattle.std.specs.Int.{w32};
ghost use Rattle.sr_base.specs.Days.{IsDay};
ghost use Rattle.sr_base.specs.Fields.{signed_spelling, IsListOf};
ghost use Rattle.sr_base.specs.Inner.ListLaws.{list_format};
ghost use Rattle.sr_base.specs.Inner.ValueLaws.{day_format, offset_format, value_format};
ghost use Rattle.sr_base.specs.Values.{offset_spelling, IsOffset, value_spelling, IsValue, IsShort, row_spelling};
ghost use Rattle.sr_base.specs.Inner.Values.{offset_at, row_at, IsRow};
ghost use Rattle.sr_base.specs.Reading.{day_at, value_at};

use crate::broken::Broken;
use crate::copied::NoMemory;
use crate::day::Day;
use crate::field::Field;
use crate::field_lists::{items_of, write_items};
use crate::field_parts::write_pair;
use crate::key::Key;
use crate::offset::Offset;
use crate::row::Row;
use crate::seq::Seq;
use crate::text::Text;
use crate::value::Value;
use std::alloc::Global;

impl Field for Day {
    ghost can_write = { λ _. ⊤ };

    ghost fits = { IsDay };

    ghost spelling = { signed_spelling w32 };

    ghost reading = { day_at };

    ghost format = { day_format };

    #[tactic(auto, unfolding(crate::specs::Reading::day_at))]
    fn read(alloc: Global, bytes: &[u8]) -> Result<(Day, &[u8]), Broken> {
        let (days, rest) = i32::read(alloc, bytes)?;
        match Day::new(days) {
            Some(day) => Ok((day, rest)),
            None => Err(Broken::Left(bytes.len())),
        }
    }

    fn write(&self, out: &mut Vec<u8>) -> Result<(), NoMemory> {
        self.days().write(out)
    }
}

impl Field for Offset {
    ghost can_write = { λ _. ⊤ };

    ghost fits = { IsOffset };

    ghost spelling = { offset_spelling };

    ghost reading = { offset_at };

    ghost format = { offset_format };

    fn read(alloc: Global, bytes: &[u8]) -> Result<(Offset, &[u8]), Broken> {
        let (position, rest) = u64::read(alloc, bytes)?;
        Ok((Offset(position), rest))
    }

    fn write(&self, out: &mut Vec<u8>) -> Result<(), NoMemory> {
        self.0.write(out)
    }
}

impl Field for Value {
    ghost can_write = { IsShort };

    ghost fits = { IsValue };

    ghost spelling = { value_spelling };

    ghost reading = { value_at };

    ghost format = { value_format };

    #[tactic(auto, unfolding(crate::specs::Reading::value_at))]
    fn read(alloc: Global, bytes: &[u8]) -> Result<(Value, &[u8]), Broken> {
        match bytes {
            [] => Err(Broken::Left(0)),
            [0, rest @ ..] => Ok((Value::Null, rest)),
            [1, rest @ ..] => {
                let (number, rest) = i32::read(alloc, rest)?;
                Ok((Value::Int(number), rest))
            }
            [2, rest @ ..] => {
                let (number, rest) = i64::read(alloc, rest)?;
                Ok((Value::Big(number), rest))
            }
            [3, rest @ ..] => {
                let (text, rest) = Text::read(alloc, rest)?;
                Ok((Value::Str(text), rest))
            }
            [4, rest @ ..] => match Day::read(alloc, rest) {
                Ok((day, rest)) => Ok((Value::Date(day), rest)),
                Err(fault) => Err(fault),
            },
            [_, ..] => Err(Broken::Left(bytes.len())),
        }
    }

    #[tactic(auto, unfolding(crate::specs::Values::value_spelling, crate::specs::Values::IsValue))]
    fn write(&self, out: &mut Vec<u8>) -> Result<(), NoMemory> {
        match self {
            Value::Null => 0u8.write(out),
            Value::Int(number) => write_pair(&1u8, number, out),
            Value::Big(number) => write_pair(&2u8, number, out),
            Value::Str(text) => write_pair(&3u8, text, out),
            Value::Date(day) => write_pair(&4u8, day, out),
        }
    }
}

impl Field for Row {
    ghost can_write = { IsListOf IsShort };

    ghost fits = { IsRow };

    ghost spelling = { row_spelling };

    ghost reading = { row_at };

    ghost format = { list_format value_format };

    #[tactic(auto, unfolding(crate::specs::Reading::list_at, crate::specs::Reading::items_at))]
    fn read(alloc: Global, bytes: &[u8]) -> Result<(Row, &[u8]), Broken> {
        let (count, rest) = u32::read(alloc, bytes)?;
        if count == 2 {
            let (first, rest) = Value::read(alloc, rest)?;
            let (second, rest) = Value::read(alloc, rest)?;
            return Ok((Row::two(alloc, [first, second])?, rest));
        }
        let (values, rest) = items_of::<Value>(alloc, count, rest)?;
        Ok((Row::new(alloc, Seq::from_vec(values))?, rest))
    }

    fn write(&self, out: &mut Vec<u8>) -> Result<(), NoMemory> {
        write_items(self.values(), out)
    }
}

impl Field for Key {
    ghost can_write = { IsListOf IsShort };

    ghost fits = { IsRow };

    ghost spelling = { row_spelling };

    ghost reading = { row_at };

    ghost format = { list_format value_format };

    fn read(alloc: Global, bytes: &[u8]) -> Result<(Key, &[u8]), Broken> {
        let (values, rest) = Seq::<Value>::read(alloc, bytes)?;
        Ok((Key::new(alloc, values)?, rest))
    }

    fn write(&self, out: &mut Vec<u8>) -> Result<(), NoMemory> {
        write_items(self.values(), out)
    }
}
