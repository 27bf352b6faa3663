//! Damages of a snapshot.

use crate::reading::say_read;
use sr_base::NoMemory;
use std::alloc::Global;
use test_rows::{number, number_of, push_hex, say, word};

/// Of so many first bytes.
pub(crate) fn say_cut(
    alloc: Global,
    bytes: &[u8],
    count: &str,
    out: &mut Vec<u8>,
) -> Result<(), NoMemory> {
    match bytes.get(..number_of(count) as usize) {
        Some(front) => say_read(alloc, front, out),
        None => say(out, "no byte"),
    }
}

/// With bytes behind them.
pub(crate) fn say_more(
    alloc: Global,
    bytes: &[u8],
    hex: &str,
    out: &mut Vec<u8>,
) -> Result<(), NoMemory> {
    let mut damaged = Vec::from_slice(alloc, bytes)?;
    push_hex(&mut damaged, hex)?;
    say_read(alloc, damaged.as_slice(), out)
}

/// With another byte at a place.
pub(crate) fn say_byte(
    alloc: Global,
    bytes: &[u8],
    given: &str,
    out: &mut Vec<u8>,
) -> Result<(), NoMemory> {
    let mut other = Vec::new(alloc);
    push_hex(&mut other, word(given, 1))?;
    let mut damaged = Vec::from_slice(alloc, bytes)?;
    match (
        damaged.get_mut(number(given, 0) as usize),
        other.as_slice().first(),
    ) {
        (Some(byte), Some(value)) => *byte = *value,
        _ => return say(out, "no byte"),
    }
    say_read(alloc, damaged.as_slice(), out)
}
