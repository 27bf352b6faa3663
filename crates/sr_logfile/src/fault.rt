ghost use Rattle.std.specs.Prelude.{◌≡◌};
ghost use Rattle.sr_logfile.specs.declared.fault.LogFault.TheVariants.{Disk};
ghost use Rattle.sr_logfile.specs.declared.fault.RecordFault.TheVariants.{Log, Memory};

use sr_base::NoMemory;
use sr_site::Failed;

/// Why a call of the log gave nothing.
#[derive(Clone, Copy, Debug, PartialEq, Eq)]
pub enum LogFault {
    /// The disk refused: its count of faults rose in this call.
    Disk,
    /// The record has no room. `end` is the place in the file past its first closed gate, `need` the framed record's number of bytes.
    Full { end: u64, need: u64 },
    /// The header, or the open record whose gate stands at the place `at` of the file, is not as written; 0 for the header.
    Damaged { at: u64 },
}

impl From<Failed> for LogFault {
    ghost from_gives = { λ _ e. e ≡ Disk };

    fn from(_failed: Failed) -> LogFault {
        LogFault::Disk
    }
}

/// Why a record was not read.
#[derive(Clone, Copy, Debug, PartialEq, Eq)]
pub enum RecordFault {
    /// The log refused: the disk failed, or the file is not as the calls of the log left it.
    Log(LogFault),
    /// There is no memory for the record.
    Memory,
}

impl From<LogFault> for RecordFault {
    ghost from_gives = { λ fault e. e ≡ Log fault };

    fn from(fault: LogFault) -> RecordFault {
        RecordFault::Log(fault)
    }
}

impl From<NoMemory> for RecordFault {
    ghost from_gives = { λ _ e. e ≡ Memory };

    fn from(_refused: NoMemory) -> RecordFault {
        RecordFault::Memory
    }
}
