//! A script, run on an opened database.

ghost use Rattle.std.specs.Prelude.{◌≡◌, [], true, not, Err, IsTrue};
ghost use Rattle.std.specs.List.{AllByRecursion};
ghost use Rattle.sr_database.specs.InForce.{HasLogInForce};
ghost use Rattle.sr_ast.specs.NormalForms.{IsNormal};
ghost use Rattle.sr_session.specs.Inner.Running.{counted, IsNoSink};
ghost use Rattle.sr_session.specs.Runs.{RanScript};
ghost use Rattle.sr_session.specs.declared.fault.SessionFault.TheVariants.{Sink as sink_fault};

use crate::fault::SessionFault;
use crate::running::run_to_end;
use crate::saying::say;
use crate::session::Session;
use sr_ast::Script;
use sr_database::Database;
use sr_site::{Sink, Site};
use std::alloc::Global;

/// Runs a script, and answers the number of its statements.
///
/// Each transaction, each statement on the catalog and each SYNCHRONIZE is one entry of the log; a statement in a passthrough region is one too. A refused
/// statement rolls the open transaction back and ends the script, and what was committed before it stands. A transaction that is open at the
/// end is rolled back. Lines are kept in memory and written behind each COMMIT, and whenever 64 KiB of them are kept: a line that tells of an
/// entry is written once that entry stands. Where such a write fails the script ends: no statement is begun behind it.
///
/// `Statement` comes exactly where the meaning of the script refuses the statement of that number; `Store` where the next entry is not
/// committed, by the disk, for want of room, or since it is too long; `Sink` where a line was not written. After each of these nothing is
/// pending. A script of more than 2^32 - 1 statements is taken for want of memory.
pub fn run_script<S: Site, O: Sink>(
    alloc: Global,
    db: &mut Database,
    site: &mut S,
    script: &Script,
    sink: &mut O,
) -> Result<u32, SessionFault>
    requires usable { db.old.log.usable ≡ true }
    requires pending { db.old.pending ≡ [] }
    requires normal { AllByRecursion IsNormal script.now }
    requires stands { IsTrue (S.seen site.old).observable → HasLogInForce db.old (S.seen site.old) }
    ensures ran { RanScript db.old db.new (S.seen site.old) (S.seen site.new) (O.seen sink.old) (O.seen sink.new) script.now result }
{
    let statements = script.as_slice();
    let Ok(count) = u32::try_from(statements.len()) else {
        return Err(SessionFault::Memory);
    };
    let usable_here = db.usable();
    prove!(usable_here);
    let mut session = Session {
        region: None,
        lines: Vec::new(alloc),
    };
    let outcome = run_to_end(alloc, db, site, &mut session, statements, sink);
    db.rollback();
    if is_of_sink(&outcome) {
        return Err(SessionFault::Sink);
    }
    match say(sink, session.lines.as_slice()) {
        Ok(()) => counted(count, outcome),
        Err(_) => Err(SessionFault::Sink),
    }
}

/// Whether the sink ended a script.
fn is_of_sink(outcome: &Result<(), SessionFault>) -> bool
    ensures sink { IsTrue result → outcome.now ≡ Err sink_fault }
    ensures other { IsTrue (not result) → IsNoSink outcome.now }
{
    match outcome {
        Err(SessionFault::Sink) => true,
        Ok(())
        | Err(SessionFault::Statement { .. })
        | Err(SessionFault::Store(_))
        | Err(SessionFault::Memory) => false,
    }
}

/// The number of statements, where a script ended with its last.
fn counted(count: u32, outcome: Result<(), SessionFault>) -> Result<u32, SessionFault>
    ensures counted { result ≡ counted count outcome }
{
    match outcome {
        Ok(()) => Ok(count),
        Err(fault) => Err(fault),
    }
}
