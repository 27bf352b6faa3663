ghost use Rattle.sr_send_needs.specs.Inner.Reading.{IsReadRefusal, IsToldAs};

use sr_database::DatabaseFault;
use sr_site::File;

/// Why it is not known what partners need.
#[derive(Clone, Copy, Debug, PartialEq, Eq)]
pub enum NeedFault {
    /// The disk refused: its count of faults rose in this call.
    Disk,
    /// The record at the place `at` of the log's file reads as damaged. `open` accepted it, so that only a disk that does not give what was written to it has
    /// one, or a log behind a snapshot that no history leads to.
    Damaged { file: File, at: u64 },
    /// There is no memory.
    Memory,
}

/// What the refusal of a read says.
pub(crate) fn need_fault(fault: DatabaseFault) -> NeedFault
    requires refusal { IsReadRefusal fault }
    ensures told { IsToldAs fault result }
{
    match fault {
        DatabaseFault::Disk => NeedFault::Disk,
        DatabaseFault::Damaged { file, at } => NeedFault::Damaged { file, at },
        DatabaseFault::Memory => NeedFault::Memory,
        DatabaseFault::Missing
        | DatabaseFault::Exists
        | DatabaseFault::Full { .. }
        | DatabaseFault::Long { .. } => unreachable!(),
    }
}
