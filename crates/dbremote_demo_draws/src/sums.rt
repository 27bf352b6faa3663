//! Sums of counts.

ghost use Rattle.std.specs.Prelude.{◌≡◌, ◌+◌, IfOk};

use sr_base::NoMemory;
use std::alloc::AllocError;

/// A sum; no memory holds more than 2^64 - 1 of anything.
pub fn sum(one: u64, other: u64) -> Result<u64, NoMemory>
    ensures sum { IfOk result (λ both. both ≡ one + other) }
{
    match one.checked_add(other) {
        Some(both) => Ok(both),
        None => Err(AllocError),
    }
}

/// A sum of four.
pub fn sum_of_four(first: u64, second: u64, third: u64, fourth: u64) -> Result<u64, NoMemory>
    ensures sum { IfOk result (λ all. all ≡ first + second + third + fourth) }
{
    let two = sum(first, second)?;
    let three = sum(two, third)?;
    sum(three, fourth)
}
