//! Reading the value at the front of bytes.

ghost use Rattle.std.specs.Prelude.{◌≡◌, ◌++◌, ◌<◌, ◌≤◌, ◌^◌, List, ℕ, length, drop, IfOk, IfErr, IfSome, IfNone};
ghost use Rattle.std.specs.Int.{w32, w64, to_be_bytes};
ghost use Rattle.sr_base.specs.declared.value.Value.{Value as Cell};
ghost use Rattle.sr_base.specs.Fields.{name_at, name_spelling, IsName, bytes_spelling, IsText};
ghost use Rattle.sr_base.specs.Reading.{text_at, value_at};
ghost use Rattle.sr_base.specs.Inner.Reading.{BeginsWith, IsReadAs, IsBad};
ghost use Rattle.sr_base.specs.Values.{value_spelling, IsValue, row_spelling};
ghost use Rattle.sr_base.specs.Inner.Values.{row_at, IsRow};

use crate::broken::{Bad, Broken};
use crate::field::Field;
use crate::name::Name;
use crate::row::Row;
use crate::text::Text;
use crate::value::Value;
use std::alloc::Global;

/// The value at the front of the bytes, and how many bytes it takes.
pub fn read_prefix<T: Field>(alloc: Global, bytes: &[u8]) -> Result<(T, usize), Bad>
    // What is read is spelled so.
    ensures found { IfOk result (λ x. T.fits x.0 × BeginsWith bytes.now (T.spelling x.0) x.1) }
    // What is spelled so is read, unless there is no memory.
    ensures only { (value : T) (rest : List ℕ) → T.fits value → bytes.now ≡ T.spelling value ++ rest → IsReadAs result value (length (T.spelling value)) }
    // Where it breaks.
    ensures place { IfErr result (IsBad (T.reading bytes.now) (length bytes.now)) }
{
    match T::read(alloc, bytes) {
        Ok((value, rest)) => Ok((value, bytes.len() - rest.len())),
        Err(Broken::Left(left)) => Err(Bad::Field {
            at: bytes.len() - left,
        }),
        Err(Broken::Memory) => Err(Bad::Memory),
    }
}

/// Reads the value at the front of `bytes`, with the number of bytes that it takes.
///
/// A value is a tag byte and what stands behind it: 0 for NULL, 1 and an i32, 2 and an i64, 3 and a text, 4 and a date as an
/// i32 of days since 1970-01-01, all numbers big-endian. `Bad::Field { at }` comes exactly where no spelling of a value stands
/// at the front; `at` is the first byte of the innermost field that breaks.
pub fn read_value(alloc: Global, bytes: &[u8]) -> Result<(Value, usize), Bad>
    ensures found { IfOk result (λ x. IsValue x.0 × BeginsWith bytes.now (value_spelling x.0) x.1) }
    ensures only { (value : Cell) (rest : List ℕ) → IsValue value → bytes.now ≡ value_spelling value ++ rest → IsReadAs result value (length (value_spelling value)) }
    ensures place { IfErr result (IsBad (value_at bytes.now) (length bytes.now)) }
{
    read_prefix(alloc, bytes)
}

/// Reads the name at the front of `bytes`, with the number of bytes that it takes.
///
/// A name is a byte from 1 to 64 for its length, and so many bytes of a name in lower case.
pub fn read_name(alloc: Global, bytes: &[u8]) -> Result<(Name, usize), Bad>
    ensures found { IfOk result (λ x. IsName x.0 × BeginsWith bytes.now (name_spelling x.0) x.1) }
    ensures only { (name rest : List ℕ) → IsName name → bytes.now ≡ name_spelling name ++ rest → IsReadAs result name (length (name_spelling name)) }
    ensures place { IfErr result (IsBad (name_at bytes.now) (length bytes.now)) }
{
    read_prefix(alloc, bytes)
}

/// Reads the text at the front of `bytes`, with the number of bytes that it takes.
///
/// A text is a u32 for its length in bytes, and so many bytes of UTF-8.
pub fn read_text(alloc: Global, bytes: &[u8]) -> Result<(Text, usize), Bad>
    ensures found { IfOk result (λ x. IsText x.0 × BeginsWith bytes.now (bytes_spelling x.0) x.1) }
    ensures only { (text rest : List ℕ) → IsText text → bytes.now ≡ bytes_spelling text ++ rest → IsReadAs result text (length (bytes_spelling text)) }
    ensures place { IfErr result (IsBad (text_at bytes.now) (length bytes.now)) }
{
    read_prefix(alloc, bytes)
}

/// Reads the row at the front of `bytes`, with the number of bytes that it takes.
///
/// A row is a u32 for the count of its values, and these values.
pub fn read_row(alloc: Global, bytes: &[u8]) -> Result<(Row, usize), Bad>
    ensures found { IfOk result (λ x. IsRow x.0 × BeginsWith bytes.now (row_spelling x.0) x.1) }
    ensures only { (row : List Cell) (rest : List ℕ) → IsRow row → bytes.now ≡ row_spelling row ++ rest → IsReadAs result row (length (row_spelling row)) }
    ensures place { IfErr result (IsBad (row_at bytes.now) (length bytes.now)) }
{
    read_prefix(alloc, bytes)
}

/// The number in the first four bytes, big-endian. `None` where there are fewer.
pub fn read_u32(bytes: &[u8]) -> Option<u32>
    ensures number { IfSome result (λ n. bytes.now ≡ to_be_bytes w32 n ++ drop 4 bytes.now) }
    ensures short { IfNone result (length bytes.now < 4) }
    ensures long { IfSome result (λ _. 4 ≤ length bytes.now) }
{
    match bytes {
        [a, b, c, d, ..] => Some(u32::from_be_bytes([*a, *b, *c, *d])),
        _ => None,
    }
}

/// The number in the first eight bytes, big-endian. `None` where there are fewer.
pub fn read_u64(bytes: &[u8]) -> Option<u64>
    ensures number { IfSome result (λ n. bytes.now ≡ to_be_bytes w64 n ++ drop 8 bytes.now) }
    ensures short { IfNone result (length bytes.now < 8) }
    ensures long { IfSome result (λ _. 8 ≤ length bytes.now) }
{
    match bytes {
        [a, b, c, d, e, f, g, h, ..] => Some(u64::from_be_bytes([*a, *b, *c, *d, *e, *f, *g, *h])),
        _ => None,
    }
}
