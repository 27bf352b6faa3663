//! Damages of an entry: each is to break at the same place, or each to be read.

use crate::entries::say_entry;
use sr_base::NoMemory;
use std::alloc::Global;
use test_rows::{number_of, push_hex, say, say_bytes};

/// Reads damaged bytes and says what of them, `reads` or where they break; behind the first of a row only where it is something else.
fn say_damaged(alloc: Global, bytes: &[u8], out: &mut Vec<u8>) -> Result<(), NoMemory> {
    let mut found = Vec::new(alloc);
    let read = say_entry(alloc, bytes, &mut found);
    let added = if found.starts_with(b"bad ") {
        say_once(out, found.as_slice())
    } else {
        say_once(out, b"reads")
    };
    drop(found);
    read?;
    added
}

/// Says an answer where none stands, or another one.
fn say_once(out: &mut Vec<u8>, answer: &[u8]) -> Result<(), NoMemory> {
    if out.as_slice() == answer {
        return Ok(());
    }
    if !out.is_empty() {
        say(out, ", ")?;
    }
    say_bytes(out, "", answer)
}

/// Of the first bytes, so many or any number up to so many.
pub fn say_cut(
    alloc: Global,
    entry: &[u8],
    range: &str,
    out: &mut Vec<u8>,
) -> Result<(), NoMemory> {
    let Some((from, to)) = range.split_once("-") else {
        return say(out, "no range");
    };
    for size in number_of(from)..number_of(to).saturating_add(1) {
        match entry.get(..size as usize) {
            Some(prefix) => say_damaged(alloc, prefix, out)?,
            None => say(out, "no byte")?,
        }
    }
    Ok(())
}

/// With each of the bytes set, one at a time.
pub fn say_set(
    alloc: Global,
    entry: &[u8],
    damaged: &mut Vec<u8>,
    places: &str,
    out: &mut Vec<u8>,
) -> Result<(), NoMemory> {
    for damage in places.split(" ") {
        let Some((place, value)) = damage.split_once(":") else {
            return say(out, "no place");
        };
        damaged.clear();
        push_hex(damaged, value)?;
        let value = damaged.as_slice().first().copied();
        damaged.clear();
        damaged.extend_from_slice(entry)?;
        match (damaged.get_mut(number_of(place) as usize), value) {
            (Some(byte), Some(value)) => *byte = value,
            _ => return say(out, "no byte"),
        }
        say_damaged(alloc, damaged.as_slice(), out)?;
    }
    Ok(())
}

/// With bytes behind them.
pub fn say_more(
    alloc: Global,
    entry: &[u8],
    damaged: &mut Vec<u8>,
    hex: &str,
    out: &mut Vec<u8>,
) -> Result<(), NoMemory> {
    damaged.clear();
    damaged.extend_from_slice(entry)?;
    push_hex(damaged, hex)?;
    say_damaged(alloc, damaged.as_slice(), out)
}
