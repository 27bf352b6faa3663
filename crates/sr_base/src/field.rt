//! What has one spelling in bytes.
//!
//! All numbers are big-endian. A field breaks at the first byte of the innermost part that is not as in this table.
//!
//! | Field | Bytes | Breaks |
//! |---|---|---|
//! | u8, u32, u64, offset | the number (an offset is a u64) | at its first byte, where fewer bytes are left than it has |
//! | i32, i64 | the number in two's complement | likewise |
//! | name | u8 length from 1 to 64, then the bytes of a name in lower case | at the length, where it is missing, 0, past 64 or more than the bytes that are left; at the byte behind it, where the bytes are no such name |
//! | text | u32 length, then so many bytes of UTF-8 | at the length, where it is cut off or more than the bytes that are left; at the byte behind it, where the bytes are no UTF-8 |
//! | date | i32: days since 1970-01-01, from -719162 to 2932896 | at its first byte |
//! | value | u8 tag 0 for NULL; 1 and an i32; 2 and an i64; 3 and a text; 4 and a date | at the tag, where it is missing or another byte; behind it as there |
//! | list of X, row, key | u32 count, then the items | at the count, where it is cut off; at an item as there |
//! | option of X | u8 0, or u8 1 and X | at the byte, where it is missing or another one; behind it as there |
//! | pair, triple | one part after the other | at a part as there |

ghost use Rattle.std.specs.Prelude.{◌≡◌, ℕ, List, ◌++◌, OnOk, OnErr};
ghost use Rattle.sr_base.specs.Reading.{Read};
ghost use Rattle.sr_base.specs.Inner.Reading.{Gives, IsFormat};

use crate::broken::Broken;
use crate::copied::NoMemory;
use std::alloc::Global;

/// What has one spelling in bytes, and is read from the front of them.
///
/// Each format is built from fields: its `spelling` says which bytes a value has, its `reading` answers the value at the front
/// of bytes with the bytes after it, or where a field breaks. The law `format` ties them together: what is read is spelled so, and
/// what is spelled so is read, whatever follows it.
pub trait Field: Drop {
    /// What a value must keep to be written, beside what its type keeps.
    ghost can_write: { Self → Type 0 };

    /// Which values have a spelling.
    ghost fits: { Self → Type 0 };

    ghost spelling: { Self → List ℕ };

    ghost reading: { List ℕ → Read Self };

    /// The value at the front of the bytes, and the bytes after it.
    fn read(alloc: Global, bytes: &[u8]) -> Result<(Self, &[u8]), Broken>
        ensures exact { Gives (λ x. (x.0, x.1.now)) result (reading bytes.now) };

    /// Adds the spelling at the end. For want of memory `out` stays as it was.
    fn write(&self, out: &mut Vec<u8>) -> Result<(), NoMemory>
        requires { can_write self.now }
        ensures ok { OnOk result (out.new.items ≡ out.old.items ++ spelling self.now) }
        ensures err { OnErr result (out.new.items ≡ out.old.items) }
        ensures kept { OnOk result (fits self.now) };

    /// What is read is spelled so, and what is spelled so is read, whatever follows it.
    ghost format: { IsFormat reading spelling fits };
}
