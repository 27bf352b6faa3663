ghost use Rattle.std.specs.Prelude.{◌≡◌, ◌≤◌, ℕ};
ghost use Rattle.sr_database_restart.specs.Inner.Restarting.{RestartCause};
ghost use Rattle.sr_logfile_carry.specs.Inner.Carrying.{CarryCause};
ghost use Rattle.sr_site.specs.Seen.{Seen};
ghost use Rattle.sr_snapshot.specs.Parts.{longest};
ghost use Rattle.sr_snapshot.specs.Inner.Writing.{WriteCause};
ghost use Rattle.sr_database_restart.specs.declared.fault.RestartFault.TheVariants.{Disk};

use sr_logfile_carry::CarryFault;
use sr_site::{Failed, File};
use sr_snapshot::SnapFault;

/// Why the files of a database were not begun anew.
#[derive(Clone, Copy, Debug, PartialEq, Eq)]
pub enum RestartFault {
    /// The disk refused: its count of faults rose in this call.
    Disk,
    /// There is no memory.
    Memory,
    /// The state has `length` bytes, more than a snapshot may have. No device was called.
    Long { length: u64, limit: u64 },
    /// The log in force has no byte at the place `at` of its file, where its records are to stand.
    Damaged { file: File, at: u64 },
}

impl From<Failed> for RestartFault {
    ghost from_gives = { λ _ e. e ≡ Disk };

    fn from(_failed: Failed) -> RestartFault {
        RestartFault::Disk
    }
}

/// What the refusal of a snapshot says of a restart.
pub(crate) fn snapshot_fault(file: File, fault: SnapFault) -> RestartFault
    ensures cause { (size : ℕ) (log : File) (before now : Seen) → WriteCause size before now fault → RestartCause size log before now result }
{
    match fault {
        SnapFault::Disk => RestartFault::Disk,
        SnapFault::Memory => RestartFault::Memory,
        SnapFault::Long { length, limit } => RestartFault::Long { length, limit },
        SnapFault::Damaged { at } => RestartFault::Damaged { file, at },
    }
}

/// What the refusal of a log, in this file, says of a restart.
pub(crate) fn log_fault(file: File, fault: CarryFault) -> RestartFault
    ensures cause { (size : ℕ) (before now : Seen) → size ≤ longest → CarryCause before now fault → RestartCause size file before now result }
{
    match fault {
        CarryFault::Disk => RestartFault::Disk,
        CarryFault::Memory => RestartFault::Memory,
        CarryFault::Damaged { at } => RestartFault::Damaged { file, at },
    }
}
