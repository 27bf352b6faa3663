ghost use Rattle.std.specs.Prelude.{◌≡◌, IfOk};

use sr_base::{Copied, NoMemory};
use std::alloc::Global;

/// Copies of two values.
pub fn copy_two<A: Copied, B: Copied>(
    first: &A,
    second: &B,
    alloc: Global,
) -> Result<(A, B), NoMemory>
    ensures equal { IfOk result (λ copy. copy ≡ (first.now, second.now)) }
{
    let first = first.copy(alloc)?;
    Ok((first, second.copy(alloc)?))
}

/// Copies of three values.
pub fn copy_three<A: Copied, B: Copied, C: Copied>(
    first: &A,
    second: &B,
    third: &C,
    alloc: Global,
) -> Result<(A, B, C), NoMemory>
    ensures equal { IfOk result (λ copy. copy ≡ (first.now, second.now, third.now)) }
{
    let first = first.copy(alloc)?;
    let second = second.copy(alloc)?;
    Ok((first, second, third.copy(alloc)?))
}
