//! Statements in order.

ghost use Rattle.std.specs.Prelude.{◌≡◌, ◌<◌, ◌^◌, [], length, None, IsTrue, IfErr, OnOk, OnErr};
ghost use Rattle.std.specs.List.{AllByRecursion};
ghost use Rattle.sr_ast.specs.NormalForms.{IsNormal};
ghost use Rattle.sr_site.specs.Causes.{Rose};
ghost use Rattle.sr_site.specs.Streams.{OutputStays};
ghost use Rattle.sr_session.specs.Due.{is_due};
ghost use Rattle.sr_session.specs.Inner.Ready.{IsReady};
ghost use Rattle.sr_session.specs.Inner.Running.{Ran, RanStatements};
ghost use Rattle.sr_session.specs.Said.{WrotePrefix};
ghost use Rattle.sr_session.specs.declared.fault.SessionFault.TheVariants.{Sink as sink_fault};
ghost use Rattle.std.specs.Prelude.{◌++◌};

use crate::fault::SessionFault;
use crate::saying::say;
use crate::session::Session;
use crate::step::step;
use sr_ast::Stmt;
use sr_database::Database;
use sr_site::{Sink, Site};
use std::alloc::Global;

/// Lines of so many bytes are written before the next COMMIT.
const KEPT: usize = 65536;

/// Does the statements in order, and what is to be said at their end. Where it ends, lines may be kept still.
pub(crate) fn run_to_end<S: Site, O: Sink>(
    alloc: Global,
    db: &mut Database,
    site: &mut S,
    session: &mut Session,
    statements: &[Stmt],
    sink: &mut O,
) -> Result<(), SessionFault>
    requires ready { IsReady db.old (S.seen site.old) }
    requires pending { db.old.pending ≡ [] }
    requires outside { session.old.region ≡ None }
    requires empty { session.old.lines.items ≡ [] }
    requires normal { AllByRecursion IsNormal statements.now }
    requires few { length statements.now < 2 ^ 32 }
    ensures ran { Ran db.old db.new (S.seen site.old) (S.seen site.new) (O.seen sink.old) (O.seen sink.new) session.new.lines.items statements.now result }
{
    run_statements(alloc, db, site, session, statements, sink)?;
    if db.pending().is_empty() {
        return Ok(());
    }
    match session.lines.extend_from_slice(b"rolled back\n") {
        Ok(()) => Ok(()),
        Err(_) => Err(SessionFault::Memory),
    }
}

/// Does the statements in order. Lines are written behind each COMMIT, and whenever 64 KiB of them are kept.
fn run_statements<S: Site, O: Sink>(
    alloc: Global,
    db: &mut Database,
    site: &mut S,
    session: &mut Session,
    statements: &[Stmt],
    sink: &mut O,
) -> Result<(), SessionFault>
    requires ready { IsReady db.old (S.seen site.old) }
    requires pending { db.old.pending ≡ [] }
    requires outside { session.old.region ≡ None }
    requires empty { session.old.lines.items ≡ [] }
    requires normal { AllByRecursion IsNormal statements.now }
    requires few { length statements.now < 2 ^ 32 }
    ensures ran { RanStatements db.old db.new (S.seen site.old) (S.seen site.new) (O.seen sink.old) (O.seen sink.new) session.new.lines.items session.new.region statements.now result }
{
    let mut left = statements;
    'statements: while let Some((statement, rest)) = left.split_first() {
        let number = (statements.len() - rest.len()) as u32;
        match step(alloc, db, site, session, statement) {
            Ok(()) => (),
            Err(fault) => return Err(SessionFault::at(number, fault)),
        }
        left = rest;
        if is_due(statement, session) {
            flush(session, sink)?;
        }
    }
    Ok(())
}

/// Whether the lines that are kept behind a statement are written before the next one is begun.
fn is_due(statement: &Stmt, session: &Session) -> bool
    ensures due { result ≡ is_due statement.now session.now.lines.items }
{
    matches!(statement, Stmt::Commit) || session.lines.len() >= KEPT
}

/// Writes the lines that are kept. None is kept after it.
fn flush<O: Sink>(session: &mut Session, sink: &mut O) -> Result<(), SessionFault>
    ensures region { session.new.region ≡ session.old.region }
    ensures kept { session.new.lines.items ≡ [] }
    ensures said { IsTrue ((O.seen sink.old).observable) → OnOk result ((O.seen sink.new).taken ≡ (O.seen sink.old).taken ++ session.old.lines.items) }
    ensures prefix { IsTrue ((O.seen sink.old).observable) → OnErr result (WrotePrefix session.old.lines.items ((O.seen sink.old).taken) ((O.seen sink.new).taken)) }
    ensures stays { OutputStays (O.seen sink.old) (O.seen sink.new) }
    ensures steady { OnOk result ((O.seen sink.new).faults ≡ (O.seen sink.old).faults) }
    ensures rose { OnErr result (Rose ((O.seen sink.old).faults) ((O.seen sink.new).faults)) }
    ensures cause { IfErr result (λ fault. fault ≡ sink_fault) }
{
    let outcome = say(sink, session.lines.as_slice());
    session.lines.clear();
    match outcome {
        Ok(()) => Ok(()),
        Err(_) => Err(SessionFault::Sink),
    }
}
