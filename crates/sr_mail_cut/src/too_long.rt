//! Why nothing is cut.

ghost use Rattle.std.specs.Prelude.{◌≡◌};
ghost use Rattle.sr_mail_cut.specs.declared.too_long.TooLong.TheVariants.{Memory};

use std::alloc::{AllocError, AllocFailed};

/// Why transactions are not cut: `Transaction { need }` where the encoding of one is longer than 64 MiB, with its number of bytes.
#[derive(Debug, Drop)]
pub enum TooLong {
    Transaction { need: u64 },
    Memory,
}

impl From<AllocError> for TooLong {
    ghost from_gives = { λ _ e. e ≡ Memory };

    fn from(_refused: AllocError) -> TooLong {
        TooLong::Memory
    }
}

impl<T: Drop> From<AllocFailed<T>> for TooLong {
    ghost from_gives = { λ _ e. e ≡ Memory };

    fn from(_refused: AllocFailed<T>) -> TooLong {
        TooLong::Memory
    }
}
