ghost use Rattle.std.specs.Prelude.{◌≡◌};
ghost use Rattle.sr_session_script.specs.declared.refusal.Stop.TheVariants.{Memory as memory};

use sr_catalog::{DdlFault, DmlFault};
use std::alloc::{AllocError, AllocFailed};

/// Why a statement of a script is refused. It is never want of memory.
#[derive(Drop)]
pub enum Refusal {
    /// A statement on the catalog, or one that opens a passthrough region or stands in it.
    Ddl(DdlFault),
    /// An INSERT, UPDATE, DELETE or SELECT.
    Dml(DmlFault),
}

/// Why a statement is not done: it is refused, or there is no memory.
#[derive(Drop)]
pub enum Stop {
    Refused(Refusal),
    Memory,
}

impl From<AllocError> for Stop {
    ghost from_gives = { λ _ e. e ≡ memory };

    fn from(_refused: AllocError) -> Stop {
        Stop::Memory
    }
}

impl<T: Drop> From<AllocFailed<T>> for Stop {
    ghost from_gives = { λ _ e. e ≡ memory };

    fn from(_refused: AllocFailed<T>) -> Stop {
        Stop::Memory
    }
}

impl From<DdlFault> for Stop {
    ghost use Rattle.sr_session_script.specs.Inner.Answers.{stop_of_ddl};

    ghost from_gives = { λ fault e. e ≡ stop_of_ddl fault };

    fn from(fault: DdlFault) -> Stop {
        match fault {
            DdlFault::Memory => Stop::Memory,
            fault => Stop::Refused(Refusal::Ddl(fault)),
        }
    }
}

impl From<DmlFault> for Stop {
    ghost use Rattle.sr_session_script.specs.Inner.Answers.{stop_of_dml};

    ghost from_gives = { λ fault e. e ≡ stop_of_dml fault };

    fn from(fault: DmlFault) -> Stop {
        match fault {
            DmlFault::Memory => Stop::Memory,
            fault => Stop::Refused(Refusal::Dml(fault)),
        }
    }
}
