use crate::copied::{Copied, NoMemory};
use std::alloc::Global;

/// A stream offset in bytes: the position after a record of a log. 0 is before everything.
#[derive(Clone, Copy)]
pub struct Offset(pub u64);

/// The farthest offset that a log may reach: 2^62.
pub const FARTHEST_OFFSET: u64 = 4_611_686_018_427_387_904;

impl Copied for Offset {
    fn copy(&self, _alloc: Global) -> Result<Offset, NoMemory> {
        Ok(*self)
    }
}
