//! Why bytes are no field.

ghost use Rattle.std.specs.Prelude.{◌≡◌};
ghost use Rattle.sr_base.specs.declared.broken.Broken.TheVariants.{Memory};

use std::alloc::{AllocError, AllocFailed};

/// Why the front of a slice is no value. `Field { at }` is the place of the first byte of the innermost field that breaks the
/// layout: a tag, a count, a length, a number or a text's bytes.
#[derive(Debug, Drop)]
pub enum Bad {
    Field { at: usize },
    Memory,
}

/// The same fault inside a reader, which does not know how many bytes stand before its own: how many bytes are left from the
/// first byte of that field to the end of the slice.
#[derive(Debug, Drop)]
pub enum Broken {
    Left(usize),
    Memory,
}

impl From<AllocError> for Broken {
    ghost from_gives = { λ _ e. e ≡ Memory };

    fn from(_refused: AllocError) -> Broken {
        Broken::Memory
    }
}

impl<T: Drop> From<AllocFailed<T>> for Broken {
    ghost from_gives = { λ _ e. e ≡ Memory };

    fn from(_refused: AllocFailed<T>) -> Broken {
        Broken::Memory
    }
}
