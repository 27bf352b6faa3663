ghost use Rattle.std.specs.Prelude.{◌≡◌};
ghost use Rattle.sr_database_files.specs.declared.fault.DatabaseFault.TheVariants.{Disk, Memory};

use sr_base::NoMemory;
use sr_site::{Failed, File};
use thiserror::Error;

/// Why a call of a database gave nothing.
#[derive(Clone, Copy, Debug, PartialEq, Eq, Error)]
pub enum DatabaseFault {
    /// There is no database: the root has no byte.
    #[error("database missing")]
    Missing,
    /// There is a database already: the root has a byte.
    #[error("database exists")]
    Exists,
    /// The files stand for no history: this one breaks at the place `at`. Of a log's record it is the place of its gate.
    #[error("database damaged at {at}")]
    Damaged { file: File, at: u64 },
    /// The disk refused: its count of faults rose in this call.
    #[error("disk fault")]
    Disk,
    /// The record has no room. `end` is the place in the log file past its first closed gate, `need` the record's number of bytes with the
    /// gate behind it.
    #[error("log full: {need} bytes at {end}")]
    Full { end: u64, need: u64 },
    /// The record's body has `length` bytes, more than its kind may have; or so many has the snapshot that a log would be begun anew behind.
    #[error("too long: {length} bytes, limit {limit}")]
    Long { length: u64, limit: u64 },
    /// There is no memory.
    #[error("out of memory")]
    Memory,
}

impl From<Failed> for DatabaseFault {
    ghost from_gives = { λ _ e. e ≡ Disk };

    fn from(_failed: Failed) -> DatabaseFault {
        DatabaseFault::Disk
    }
}

impl From<NoMemory> for DatabaseFault {
    ghost from_gives = { λ _ e. e ≡ Memory };

    fn from(_refused: NoMemory) -> DatabaseFault {
        DatabaseFault::Memory
    }
}
