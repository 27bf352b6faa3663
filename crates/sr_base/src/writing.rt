//! Adding the one spelling of a value at the end of bytes.

ghost use Rattle.std.specs.Prelude.{◌≡◌, ◌++◌, ◌<◌, ◌^◌, length, OnOk, OnErr};
ghost use Rattle.std.specs.Int.{w32, w64, to_be_bytes};
ghost use Rattle.sr_base.specs.Fields.{name_spelling, IsName, bytes_spelling, IsText, IsListOf};
ghost use Rattle.sr_base.specs.Values.{value_spelling, IsValue, IsShort, row_spelling};
ghost use Rattle.sr_base.specs.Inner.Values.{IsRow};

use crate::copied::NoMemory;
use crate::field::Field;
use crate::name::Name;
use crate::row::Row;
use crate::text::Text;
use crate::value::Value;
use std::alloc::Global;

/// Adds the spelling of a value. For want of memory `out` stays as it was.
pub fn write_value(_alloc: Global, value: &Value, out: &mut Vec<u8>) -> Result<(), NoMemory>
    requires { IsShort value.now }
    ensures ok { OnOk result (out.new.items ≡ out.old.items ++ value_spelling value.now) }
    ensures err { OnErr result (out.new.items ≡ out.old.items) }
    ensures kept { OnOk result (IsValue value.now) }
{
    value.write(out)
}

/// Adds the four bytes of a number, big-endian. For want of memory `out` stays as it was.
pub fn write_u32(_alloc: Global, number: u32, out: &mut Vec<u8>) -> Result<(), NoMemory>
    ensures ok { OnOk result (out.new.items ≡ out.old.items ++ to_be_bytes w32 number) }
    ensures err { OnErr result (out.new.items ≡ out.old.items) }
{
    number.write(out)
}

/// Adds the eight bytes of a number, big-endian. For want of memory `out` stays as it was.
pub fn write_u64(_alloc: Global, number: u64, out: &mut Vec<u8>) -> Result<(), NoMemory>
    ensures ok { OnOk result (out.new.items ≡ out.old.items ++ to_be_bytes w64 number) }
    ensures err { OnErr result (out.new.items ≡ out.old.items) }
{
    number.write(out)
}

/// Adds the spelling of a name. For want of memory `out` stays as it was.
pub fn write_name(_alloc: Global, name: &Name, out: &mut Vec<u8>) -> Result<(), NoMemory>
    ensures ok { OnOk result (out.new.items ≡ out.old.items ++ name_spelling name.now) }
    ensures err { OnErr result (out.new.items ≡ out.old.items) }
    ensures kept { OnOk result (IsName name.now) }
{
    name.write(out)
}

/// Adds the spelling of a text. For want of memory `out` stays as it was.
pub fn write_text(_alloc: Global, text: &Text, out: &mut Vec<u8>) -> Result<(), NoMemory>
    requires { length text.now < 2 ^ 32 }
    ensures ok { OnOk result (out.new.items ≡ out.old.items ++ bytes_spelling text.now) }
    ensures err { OnErr result (out.new.items ≡ out.old.items) }
    ensures kept { OnOk result (IsText text.now) }
{
    text.write(out)
}

/// Adds the spelling of a row. For want of memory `out` stays as it was.
pub fn write_row(_alloc: Global, row: &Row, out: &mut Vec<u8>) -> Result<(), NoMemory>
    requires { IsListOf IsShort row.now }
    ensures ok { OnOk result (out.new.items ≡ out.old.items ++ row_spelling row.now) }
    ensures err { OnErr result (out.new.items ≡ out.old.items) }
    ensures kept { OnOk result (IsRow row.now) }
{
    row.write(out)
}
