ghost use Rattle.std.specs.Prelude.{◌≡◌};
ghost use Rattle.sr_session.specs.Inner.Faults.{session_fault};
ghost use Rattle.sr_session.specs.declared.fault.StepFault.TheVariants.{Memory as memory};

use sr_database::DatabaseFault;
use sr_session_script::{Refusal, Stop};
use std::alloc::{AllocError, AllocFailed};

/// Why a script ended before its last statement.
#[derive(Drop)]
pub enum SessionFault {
    /// The statement of this number, from 1, is refused. What was open before it is rolled back.
    Statement { number: u32, fault: Refusal },
    /// An entry was not committed: `Disk`, `Full` or `Long`.
    Store(DatabaseFault),
    /// The lines were not written: the sink's count of faults rose.
    Sink,
    /// There is no memory.
    Memory,
}

/// Why one statement is not done.
#[derive(Drop)]
pub(crate) enum StepFault {
    Refused(Refusal),
    Store(DatabaseFault),
    Memory,
}

impl From<AllocError> for StepFault {
    ghost from_gives = { λ _ e. e ≡ memory };

    fn from(_refused: AllocError) -> StepFault {
        StepFault::Memory
    }
}

impl<T: Drop> From<AllocFailed<T>> for StepFault {
    ghost from_gives = { λ _ e. e ≡ memory };

    fn from(_refused: AllocFailed<T>) -> StepFault {
        StepFault::Memory
    }
}

impl From<Stop> for StepFault {
    ghost use Rattle.sr_session.specs.Inner.Faults.{fault_of_stop};

    ghost from_gives = { λ stop e. e ≡ fault_of_stop stop };

    fn from(stop: Stop) -> StepFault {
        match stop {
            Stop::Refused(fault) => StepFault::Refused(fault),
            Stop::Memory => StepFault::Memory,
        }
    }
}

impl From<DatabaseFault> for StepFault {
    ghost use Rattle.sr_session.specs.Inner.Faults.{fault_of_store};

    ghost from_gives = { λ fault e. e ≡ fault_of_store fault };

    fn from(fault: DatabaseFault) -> StepFault {
        match fault {
            DatabaseFault::Memory => StepFault::Memory,
            fault => StepFault::Store(fault),
        }
    }
}

impl SessionFault {
    /// What ends a script at the statement of this number.
    pub(crate) fn at(number: u32, fault: StepFault) -> SessionFault
        ensures fault { result ≡ session_fault number fault }
    {
        match fault {
            StepFault::Refused(fault) => SessionFault::Statement { number, fault },
            StepFault::Store(fault) => SessionFault::Store(fault),
            StepFault::Memory => SessionFault::Memory,
        }
    }
}
