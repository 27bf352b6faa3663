//! Names that a question has.

use sr_base::{Name, NoMemory, name_of};
use std::alloc::{AllocError, Global};

/// The name that these letters spell. Letters that spell none count as want of memory.
pub fn named(alloc: Global, letters: &str) -> Result<Name, NoMemory> {
    match name_of(alloc, letters.as_bytes()) {
        Ok(name) => Ok(name),
        Err(_) => Err(AllocError),
    }
}
