//! The greatest of what message files say.

ghost use Rattle.std.specs.Prelude.{◌≡◌, max};
ghost use Rattle.sr_receive_gather.specs.Greatest.{confirm_in, count_in, upto_in, least_ask, lesser, with_ask};

use crate::bag::Filed;

/// The greater of two numbers.
fn greater(number: u64, other: u64) -> u64
    ensures { result ≡ max number other }
{
    if number < other { other } else { number }
}

/// The greatest offset of this log that message files confirm, 0 where there is none.
pub(crate) fn greatest_confirm(files: &[Filed]) -> u64
    ensures { result ≡ confirm_in files.now }
{
    let mut greatest = 0;
    let mut left = files;
    'files: while let Some((file, before)) = left.split_last() {
        greatest = greater(file.confirm.0, greatest);
        left = before;
    }
    greatest
}

/// The greatest count of their asks, 0 where there is none.
pub(crate) fn greatest_count(files: &[Filed]) -> u64
    ensures { result ≡ count_in files.now }
{
    let mut greatest = 0;
    let mut left = files;
    'files: while let Some((file, before)) = left.split_last() {
        greatest = greater(file.ask_count, greatest);
        left = before;
    }
    greatest
}

/// The greatest end of a window of theirs, 0 where there is none.
pub fn greatest_upto(files: &[Filed]) -> u64
    ensures { result ≡ upto_in files.now }
{
    let mut greatest = 0;
    let mut left = files;
    'files: while let Some((file, before)) = left.split_last() {
        greatest = greater(file.upto.0, greatest);
        left = before;
    }
    greatest
}

/// The lesser of an offset and another one, where there is one.
fn lesser(place: u64, other: Option<u64>) -> u64
    ensures { result ≡ lesser place other }
{
    match other {
        None => place,
        Some(other) => { if place < other { place } else { other } }
    }
}

/// With the ask of a message file, where it has this count.
fn with_ask(file: &Filed, count: u64, least: Option<u64>) -> Option<u64>
    ensures { result ≡ with_ask count file.now least }
{
    if file.ask_count == count {
        return Some(lesser(file.ask_offset.0, least));
    }
    least
}

/// The least offset that asks of this count name.
pub(crate) fn least_ask(files: &[Filed], count: u64) -> Option<u64>
    ensures { result ≡ least_ask count files.now }
{
    let mut least = None;
    let mut left = files;
    'files: while let Some((file, before)) = left.split_last() {
        least = with_ask(file, count, least);
        left = before;
    }
    least
}
