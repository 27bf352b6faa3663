ghost use Rattle.std.specs.Prelude.{◌≡◌};
ghost use Rattle.sr_logfile_carry.specs.declared.fault.CarryFault.TheVariants.{Disk, Memory};

use sr_base::NoMemory;
use sr_site::Failed;
use std::alloc::AllocFailed;

/// Why the records of a log were not carried over.
#[derive(Clone, Copy, Debug, PartialEq, Eq)]
pub enum CarryFault {
    /// The disk refused: its count of faults rose in this call.
    Disk,
    /// There is no memory for a piece. No device was called.
    Memory,
    /// The log has no byte at the place `at` of its file, where its records are to stand.
    Damaged { at: u64 },
}

impl From<Failed> for CarryFault {
    ghost from_gives = { λ _ e. e ≡ Disk };

    fn from(_failed: Failed) -> CarryFault {
        CarryFault::Disk
    }
}

impl From<NoMemory> for CarryFault {
    ghost from_gives = { λ _ e. e ≡ Memory };

    fn from(_refused: NoMemory) -> CarryFault {
        CarryFault::Memory
    }
}

impl<T: Drop> From<AllocFailed<T>> for CarryFault {
    ghost from_gives = { λ _ e. e ≡ Memory };

    fn from(_refused: AllocFailed<T>) -> CarryFault {
        CarryFault::Memory
    }
}
