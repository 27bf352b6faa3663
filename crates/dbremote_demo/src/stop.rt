use sr_base::NoMemory;
use std::alloc::{AllocError, AllocFailed};

/// Why the demonstration ended before its end.
#[derive(Drop)]
pub enum Stop {
    /// There was no memory, for it or for a run inside it.
    Memory,
    /// A run inside it ended with this status, and wrote this line last.
    Run { status: u8, line: Vec<u8> },
}

impl From<AllocError> for Stop {
    ghost use Rattle.std.specs.Prelude.{◌≡◌};
    ghost use Rattle.dbremote_demo.specs.declared.stop.Stop.TheVariants.{Memory};

    ghost from_gives = { λ _ e. e ≡ Memory };

    fn from(_refused: NoMemory) -> Stop {
        Stop::Memory
    }
}

impl<T: Drop> From<AllocFailed<T>> for Stop {
    ghost use Rattle.std.specs.Prelude.{◌≡◌};
    ghost use Rattle.dbremote_demo.specs.declared.stop.Stop.TheVariants.{Memory};

    ghost from_gives = { λ _ e. e ≡ Memory };

    fn from(_refused: AllocFailed<T>) -> Stop {
        Stop::Memory
    }
}
