use crate::copied::{Copied, NoMemory};
use crate::day::Day;
use crate::text::Text;
use std::alloc::Global;

/// A value of a row, a key or a literal.
#[derive(Drop)]
pub enum Value {
    Null,
    Int(i32),
    Big(i64),
    Str(Text),
    Date(Day),
}

/// The type of a column. A `Varchar` holds texts of up to so many bytes, from 1 to 32767.
#[derive(Clone, Copy, PartialEq, Eq)]
pub enum Kind {
    Int,
    Big,
    Varchar(u16),
    Date,
}

impl Copied for Value {
    #[inline(always)]
    fn copy(&self, alloc: Global) -> Result<Value, NoMemory> {
        match self {
            Value::Null => Ok(Value::Null),
            Value::Int(number) => Ok(Value::Int(*number)),
            Value::Big(number) => Ok(Value::Big(*number)),
            Value::Str(text) => Ok(Value::Str(text.copy(alloc)?)),
            Value::Date(day) => Ok(Value::Date(*day)),
        }
    }
}

impl Copied for Kind {
    fn copy(&self, _alloc: Global) -> Result<Kind, NoMemory> {
        Ok(*self)
    }
}
