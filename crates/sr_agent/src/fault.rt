ghost use Rattle.std.specs.Prelude.{◌≡◌};
ghost use Rattle.sr_agent.specs.declared.fault.AgentFault.TheVariants.{Memory as memory, Sink as sink_fault};

use sr_receive_gather::ReceiveFault;
use sr_send::SendFault;
use sr_site::Failed;
use std::alloc::{AllocError, AllocFailed};
use thiserror::Error;

/// Why a run ended before its end. What was done before stands.
#[derive(Clone, Copy, Debug, PartialEq, Eq, Error)]
pub enum AgentFault {
    /// The disk refused: its count of faults rose in this run, and no other did.
    #[error("disk fault")]
    Disk,
    /// The mail refused: its count of faults rose in this run, and no other did.
    #[error("mail fault")]
    Mail,
    /// The sink refused: its count of faults rose in this run.
    #[error("sink fault")]
    Sink,
    /// An entry has no room in the log. `end` is the place in the log file past its first closed gate, `need` the record's number of bytes with
    /// the gate after it.
    #[error("log full: {need} bytes at {end}")]
    Full { end: u64, need: u64 },
    /// The record of a transaction that was taken, the encoding of one that was to be sent, or the snapshot of a log that was to begin anew has `length`
    /// bytes, more than the `limit`.
    #[error("too long: {length} bytes, limit {limit}")]
    Long { length: u64, limit: u64 },
    /// There is no memory. The lines of what was done are written all the same.
    #[error("out of memory")]
    Memory,
}

impl From<AllocError> for AgentFault {
    ghost from_gives = { λ _ e. e ≡ memory };

    fn from(_refused: AllocError) -> AgentFault {
        AgentFault::Memory
    }
}

impl<T: Drop> From<AllocFailed<T>> for AgentFault {
    ghost from_gives = { λ _ e. e ≡ memory };

    fn from(_refused: AllocFailed<T>) -> AgentFault {
        AgentFault::Memory
    }
}

impl From<Failed> for AgentFault {
    ghost from_gives = { λ _ e. e ≡ sink_fault };

    /// Of a call of the sink.
    fn from(_refused: Failed) -> AgentFault {
        AgentFault::Sink
    }
}

impl From<ReceiveFault> for AgentFault {
    ghost use Rattle.sr_agent.specs.Faults.{fault_of_receive};

    ghost from_gives = { λ fault e. e ≡ fault_of_receive fault };

    fn from(fault: ReceiveFault) -> AgentFault {
        match fault {
            ReceiveFault::Disk => AgentFault::Disk,
            ReceiveFault::Mail => AgentFault::Mail,
            ReceiveFault::Full { end, need } => AgentFault::Full { end, need },
            ReceiveFault::Long { length, limit } => AgentFault::Long { length, limit },
            ReceiveFault::Memory => AgentFault::Memory,
        }
    }
}

impl From<SendFault> for AgentFault {
    ghost use Rattle.sr_agent.specs.Faults.{fault_of_send};

    ghost from_gives = { λ fault e. e ≡ fault_of_send fault };

    fn from(fault: SendFault) -> AgentFault {
        match fault {
            SendFault::Disk => AgentFault::Disk,
            SendFault::Mail => AgentFault::Mail,
            SendFault::Full { end, need } => AgentFault::Full { end, need },
            SendFault::Long { length, limit } => AgentFault::Long { length, limit },
            SendFault::Memory => AgentFault::Memory,
        }
    }
}
