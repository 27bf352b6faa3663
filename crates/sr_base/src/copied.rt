ghost use Rattle.std.specs.Prelude.{◌≡◌, IfOk};

use std::alloc::{AllocError, Global};

/// The refusal of a call that found no memory.
pub type NoMemory = AllocError;

/// What can be copied where there is memory for it.
pub trait Copied: Drop {
    /// An equal value.
    fn copy(&self, alloc: Global) -> Result<Self, NoMemory>
        ensures equal { IfOk result (λ copy. copy ≡ self.now) };
}

impl Copied for u8 {
    fn copy(&self, _alloc: Global) -> Result<u8, NoMemory> {
        Ok(*self)
    }
}

impl Copied for usize {
    fn copy(&self, _alloc: Global) -> Result<usize, NoMemory> {
        Ok(*self)
    }
}

impl<A: Copied, B: Copied> Copied for (A, B) {
    fn copy(&self, alloc: Global) -> Result<(A, B), NoMemory> {
        Ok((self.0.copy(alloc)?, self.1.copy(alloc)?))
    }
}

impl<A: Copied, B: Copied, C: Copied> Copied for (A, B, C) {
    fn copy(&self, alloc: Global) -> Result<(A, B, C), NoMemory> {
        Ok((
            self.0.copy(alloc)?,
            self.1.copy(alloc)?,
            self.2.copy(alloc)?,
        ))
    }
}

impl<T: Copied> Copied for Option<T> {
    fn copy(&self, alloc: Global) -> Result<Option<T>, NoMemory> {
        match self {
            None => Ok(None),
            Some(value) => Ok(Some(value.copy(alloc)?)),
        }
    }
}
