ghost use Rattle.std.specs.Prelude.{◌≡◌, ◌++◌, IsTrue, IfErr, OnOk};
ghost use Rattle.dbremote_command.specs.Streams.{SaidPart};
ghost use Rattle.dbremote_command.specs.declared.fault.Fault.TheVariants.{Sink as sink_fault};

use crate::fault::Fault;
use sr_session::say;
use sr_site::{Failed, Sink};

/// Writes lines that a run answers with.
pub fn say_lines<O: Sink>(output: &mut O, lines: &[u8]) -> Result<(), Fault>
    ensures said { IsTrue (O.seen output.old).observable → OnOk result ((O.seen output.new).taken ≡ (O.seen output.old).taken ++ lines.now) }
    ensures steady { OnOk result ((O.seen output.new).faults ≡ (O.seen output.old).faults) }
    ensures cause { IfErr result (λ fault. (fault ≡ sink_fault) × SaidPart lines.now (O.seen output.old) (O.seen output.new)) }
{
    match say(output, lines) {
        Ok(()) => Ok(()),
        Err(Failed) => Err(Fault::Sink),
    }
}
