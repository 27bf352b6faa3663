ghost use Rattle.std.specs.Prelude.{◌≡◌};
ghost use Rattle.dbremote_command.specs.Faults.{database_status, refusal_status, status_of};

use sr_agent::AgentFault;
use sr_base::NoMemory;
use sr_catalog::DdlFault;
use sr_database::DatabaseFault;
use sr_session_script::Refusal;

/// What ends a run. The first one does.
#[derive(Drop)]
pub enum Fault {
    /// The words ask for nothing.
    Words,
    /// The database is missing, there or damaged, its disk refused, a limit is passed, or there is no memory.
    Database(DatabaseFault),
    /// The source refused.
    Source,
    /// The script has more than 64 MiB.
    TooLong,
    /// The script is no UTF-8, or no script goes on with what begins at the byte `at`.
    Script { at: usize },
    /// The statement of this number, from 1, is refused.
    Statement { number: u32, fault: Refusal },
    /// The sink refused.
    Sink,
    /// The mail refused.
    Mail,
}

impl From<DatabaseFault> for Fault {
    ghost use Rattle.std.specs.Prelude.{◌≡◌};
    ghost use Rattle.dbremote_command.specs.declared.fault.Fault.TheVariants.{Database};

    ghost from_gives = { λ fault e. e ≡ Database fault };

    fn from(fault: DatabaseFault) -> Fault {
        Fault::Database(fault)
    }
}

impl From<NoMemory> for Fault {
    ghost use Rattle.std.specs.Prelude.{◌≡◌};
    ghost use Rattle.sr_database_files.specs.declared.fault.DatabaseFault.TheVariants.{Memory};
    ghost use Rattle.dbremote_command.specs.declared.fault.Fault.TheVariants.{Database};

    ghost from_gives = { λ _ e. e ≡ Database Memory };

    fn from(_refused: NoMemory) -> Fault {
        Fault::Database(DatabaseFault::Memory)
    }
}

impl From<AgentFault> for Fault {
    ghost use Rattle.std.specs.Prelude.{◌≡◌};
    ghost use Rattle.dbremote_command.specs.Faults.{fault_of_agent};

    ghost from_gives = { λ fault e. e ≡ fault_of_agent fault };

    fn from(fault: AgentFault) -> Fault {
        match fault {
            AgentFault::Disk => Fault::Database(DatabaseFault::Disk),
            AgentFault::Mail => Fault::Mail,
            AgentFault::Sink => Fault::Sink,
            AgentFault::Full { end, need } => Fault::Database(DatabaseFault::Full { end, need }),
            AgentFault::Long { length, limit } => {
                Fault::Database(DatabaseFault::Long { length, limit })
            }
            AgentFault::Memory => Fault::Database(DatabaseFault::Memory),
        }
    }
}

impl Fault {
    /// The exit status of a run that this fault ended.
    pub fn status(&self) -> u8
        ensures status { result ≡ status_of self.now }
    {
        match self {
            Fault::Words => 2,
            Fault::Database(fault) => database_status(fault),
            Fault::Source => 7,
            Fault::TooLong => 9,
            Fault::Script { .. } => 4,
            Fault::Statement { fault, .. } => refusal_status(fault),
            Fault::Sink => 7,
            Fault::Mail => 6,
        }
    }
}

fn database_status(fault: &DatabaseFault) -> u8
    ensures { result ≡ database_status fault.now }
{
    match fault {
        DatabaseFault::Missing | DatabaseFault::Exists | DatabaseFault::Damaged { .. } => 3,
        DatabaseFault::Disk => 5,
        DatabaseFault::Full { .. } | DatabaseFault::Long { .. } => 9,
        DatabaseFault::Memory => 8,
    }
}

fn refusal_status(fault: &Refusal) -> u8
    ensures { result ≡ refusal_status fault.now }
{
    match fault {
        Refusal::Ddl(DdlFault::TooMany { .. }) => 9,
        Refusal::Ddl(DdlFault::Memory) => 8,
        Refusal::Ddl(_) => 4,
        Refusal::Dml(_) => 4,
    }
}
