ghost use Rattle.std.specs.Prelude.{◌≡◌, IfErr};
ghost use Rattle.sr_send.specs.Inner.Faults.{IsReadRefusal, IsFoundOrEnd};
ghost use Rattle.sr_send.specs.declared.fault.SendFault.TheVariants.{Memory as memory};

use sr_database::DatabaseFault;
use sr_logform::LONGEST_TRANSACTION;
use sr_mail_cut::TooLong;
use sr_site::MailFault;
use std::alloc::AllocError;

/// Why a pass ended before its end. What was put before stays.
#[derive(Clone, Copy, Debug, PartialEq, Eq)]
pub enum SendFault {
    /// The disk refused: its count of faults rose in this call.
    Disk,
    /// The mail refused: its count of faults rose in this call.
    Mail,
    /// The note of the messages has no room in the log. `end` is the place in the log file past its first closed gate, `need` the record's number of
    /// bytes with the gate after it.
    Full { end: u64, need: u64 },
    /// The encoding of a transaction has `length` bytes, more than the `limit` of 64 MiB.
    Long { length: u64, limit: u64 },
    /// There is no memory.
    Memory,
}

impl From<AllocError> for SendFault {
    ghost from_gives = { λ _ e. e ≡ memory };

    fn from(_refused: AllocError) -> SendFault {
        SendFault::Memory
    }
}

impl From<MailFault> for SendFault {
    ghost use Rattle.sr_send.specs.Inner.Faults.{fault_of_mail};

    ghost from_gives = { λ fault e. e ≡ fault_of_mail fault };

    fn from(fault: MailFault) -> SendFault {
        match fault {
            MailFault::Failed => SendFault::Mail,
            MailFault::Memory => SendFault::Memory,
        }
    }
}

impl From<TooLong> for SendFault {
    ghost use Rattle.sr_send.specs.Inner.Faults.{fault_of_cut};

    ghost from_gives = { λ fault e. e ≡ fault_of_cut fault };

    fn from(fault: TooLong) -> SendFault {
        match fault {
            TooLong::Transaction { need } => SendFault::Long {
                length: need,
                limit: LONGEST_TRANSACTION,
            },
            TooLong::Memory => SendFault::Memory,
        }
    }
}

/// What was read after an offset of an open log, as a pass takes it: a record that reads as damaged is the end of the log. `open` accepted it, so that
/// only a disk that does not give what was written to it has one.
pub(crate) fn found_or_end<T>(
    outcome: Result<Option<T>, DatabaseFault>,
) -> Result<Option<T>, SendFault>
    requires refusal { IfErr outcome IsReadRefusal }
    ensures found { IsFoundOrEnd outcome result }
{
    match outcome {
        Ok(found) => Ok(found),
        Err(DatabaseFault::Damaged { .. }) => Ok(None),
        Err(DatabaseFault::Disk) => Err(SendFault::Disk),
        Err(DatabaseFault::Memory) => Err(SendFault::Memory),
        Err(
            DatabaseFault::Missing
            | DatabaseFault::Exists
            | DatabaseFault::Full { .. }
            | DatabaseFault::Long { .. },
        ) => unreachable!(),
    }
}
