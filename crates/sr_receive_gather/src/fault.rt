ghost use Rattle.std.specs.Prelude.{◌≡◌};
ghost use Rattle.sr_receive_gather.specs.Inner.Faults.{fault_of_store};
ghost use Rattle.sr_receive_gather.specs.declared.fault.ReceiveFault.TheVariants.{Memory as memory};

use sr_database::DatabaseFault;
use sr_site::MailFault;
use std::alloc::{AllocError, AllocFailed};

/// Why a pass ended before its end. What was committed before stands.
#[derive(Clone, Copy, Debug, PartialEq, Eq)]
pub enum ReceiveFault {
    /// The disk refused: its count of faults rose in this call.
    Disk,
    /// The mail refused: its count of faults rose in this call.
    Mail,
    /// An entry has no room in the log. `end` is the place in the log file past its first closed gate, `need` the record's number of bytes with
    /// the gate after it.
    Full { end: u64, need: u64 },
    /// The record of a transaction has `length` bytes, more than the `limit` of 64 MiB.
    Long { length: u64, limit: u64 },
    /// There is no memory.
    Memory,
}

impl From<AllocError> for ReceiveFault {
    ghost from_gives = { λ _ e. e ≡ memory };

    fn from(_refused: AllocError) -> ReceiveFault {
        ReceiveFault::Memory
    }
}

impl<T: Drop> From<AllocFailed<T>> for ReceiveFault {
    ghost from_gives = { λ _ e. e ≡ memory };

    fn from(_refused: AllocFailed<T>) -> ReceiveFault {
        ReceiveFault::Memory
    }
}

impl From<MailFault> for ReceiveFault {
    ghost use Rattle.sr_receive_gather.specs.Inner.Faults.{fault_of_mail};

    ghost from_gives = { λ fault e. e ≡ fault_of_mail fault };

    fn from(fault: MailFault) -> ReceiveFault {
        match fault {
            MailFault::Failed => ReceiveFault::Mail,
            MailFault::Memory => ReceiveFault::Memory,
        }
    }
}

/// The fault of a pass whose database refuses. An open one is not missing, there or damaged.
pub fn store_fault(fault: DatabaseFault) -> ReceiveFault
    ensures fault { result ≡ fault_of_store fault }
{
    match fault {
        DatabaseFault::Disk => ReceiveFault::Disk,
        DatabaseFault::Full { end, need } => ReceiveFault::Full { end, need },
        DatabaseFault::Long { length, limit } => ReceiveFault::Long { length, limit },
        DatabaseFault::Missing
        | DatabaseFault::Exists
        | DatabaseFault::Damaged { .. }
        | DatabaseFault::Memory => ReceiveFault::Memory,
    }
}
