ghost use Rattle.std.specs.Prelude.{◌≡◌};
ghost use Rattle.sr_snapshot.specs.declared.fault.SnapFault.TheVariants.{Disk, Memory};

use sr_base::NoMemory;
use sr_site::Failed;
use std::alloc::AllocFailed;

/// Why a snapshot was not written, or not read.
#[derive(Clone, Copy, Debug, PartialEq, Eq)]
pub enum SnapFault {
    /// The disk refused: its count of faults rose in this call.
    Disk,
    /// The state has `length` bytes, more than a snapshot may have.
    Long { length: u64, limit: u64 },
    /// The bytes are those of no state. The first field that breaks stands at the place `at` of the file.
    Damaged { at: u64 },
    /// There is no memory.
    Memory,
}

impl From<Failed> for SnapFault {
    ghost from_gives = { λ _ e. e ≡ Disk };

    fn from(_failed: Failed) -> SnapFault {
        SnapFault::Disk
    }
}

impl From<NoMemory> for SnapFault {
    ghost from_gives = { λ _ e. e ≡ Memory };

    fn from(_refused: NoMemory) -> SnapFault {
        SnapFault::Memory
    }
}

impl<T: Drop> From<AllocFailed<T>> for SnapFault {
    ghost from_gives = { λ _ e. e ≡ Memory };

    fn from(_refused: AllocFailed<T>) -> SnapFault {
        SnapFault::Memory
    }
}
