//! Which bytes are a name.

ghost use Rattle.std.specs.Prelude.{◌≡◌, IfOk};
ghost use Rattle.std.specs.List.{list_all};
ghost use Rattle.sr_base.specs.Fields.{is_name_size as fits_name};
ghost use Rattle.sr_base.specs.Names.{is_lower_letter, is_digit, is_first, is_later, is_lower_name, is_letter, is_any_first, is_any_later, is_name, lowered};

use crate::copied::NoMemory;
use arrayvec::ArrayVec;
use std::alloc::AllocError;

const LONGEST: usize = 64;

/// The bytes of a name, in their place.
pub(crate) type Letters = ArrayVec<u8, 64>;

fn is_first(byte: u8) -> bool
    ensures { result ≡ is_first byte }
{
    b'a' <= byte && byte <= b'z' || byte == b'_'
}

fn is_later(byte: u8) -> bool
    ensures { result ≡ is_later byte }
{
    is_first(byte) || b'0' <= byte && byte <= b'9'
}

fn is_any_first(byte: u8) -> bool
    ensures { result ≡ is_any_first byte }
{
    b'a' <= byte && byte <= b'z' || b'A' <= byte && byte <= b'Z' || byte == b'_'
}

fn is_any_later(byte: u8) -> bool
    ensures { result ≡ is_any_later byte }
{
    is_any_first(byte) || b'0' <= byte && byte <= b'9'
}

/// Whether a length of a name may stand before so many bytes.
pub(crate) fn is_name_size(size: usize, behind: usize) -> bool
    ensures { result ≡ fits_name size behind }
{
    1 <= size && size <= LONGEST && size <= behind
}

fn are_later(bytes: &[u8]) -> bool
    ensures { result ≡ list_all is_later bytes.now }
{
    bytes.iter().all(|byte| is_later(*byte))
}

fn are_any_later(bytes: &[u8]) -> bool
    ensures { result ≡ list_all is_any_later bytes.now }
{
    bytes.iter().all(|byte| is_any_later(*byte))
}

/// Whether the bytes are a name as it is kept.
pub(crate) fn is_lower_name(bytes: &[u8]) -> bool
    ensures { result ≡ is_lower_name bytes.now }
{
    let Some((first, later)) = bytes.split_first() else {
        return false;
    };
    is_first(*first) && are_later(later) && later.len() <= LONGEST - 1
}

/// Whether the bytes are a name in any case.
pub(crate) fn is_name(bytes: &[u8]) -> bool
    ensures { result ≡ is_name bytes.now }
{
    let Some((first, later)) = bytes.split_first() else {
        return false;
    };
    is_any_first(*first) && are_any_later(later) && later.len() <= LONGEST - 1
}

/// The bytes with their letters in lower case. More than 64 count as want of memory.
pub(crate) fn lowered(bytes: &[u8]) -> Result<Letters, NoMemory>
    ensures { IfOk result (λ lower. lower.items ≡ lowered bytes.now) }
{
    let mut lower = Letters::new();
    for byte in bytes {
        if lower.try_push(byte.to_ascii_lowercase()).is_err() {
            return Err(AllocError);
        }
    }
    Ok(lower)
}
