//! The log begun anew, before the passes.

ghost use Rattle.std.specs.Prelude.{◌≤◌, IsTrue, IfErr, OnOk};
ghost use Rattle.sr_database.specs.Databases.{HasBeginning};
ghost use Rattle.sr_agent.specs.Inner.Restarting.{BeginsAt, BreaksAt, CanRun, EndsBy, EndsByNeed, IsNeedPassedOver, IsPassedOver, IsRestartRefusal, RestartBroken, RestartTold, Restarts, RunUnbegun};

use crate::fault::AgentFault;
use crate::telling::tell_restart;
use sr_base::Offset;
use sr_database::{Database, DatabaseFault};
use sr_send_needs::{NeedFault, least_need};
use sr_site::{Sink, Site};
use std::alloc::Global;

/// What the refusal of a restart says of a run: nothing where a record reads as damaged, since the log may stay as it is.
fn ended_by(fault: DatabaseFault) -> Result<(), AgentFault>
    requires refusal { IsRestartRefusal fault }
    ensures passed { OnOk result (IsPassedOver fault) }
    ensures ended { IfErr result (EndsBy fault) }
{
    match fault {
        DatabaseFault::Damaged { .. } => Ok(()),
        DatabaseFault::Disk => Err(AgentFault::Disk),
        DatabaseFault::Long { length, limit } => Err(AgentFault::Long { length, limit }),
        DatabaseFault::Memory => Err(AgentFault::Memory),
        DatabaseFault::Missing | DatabaseFault::Exists | DatabaseFault::Full { .. } => {
            unreachable!()
        }
    }
}

/// The same of the refusal of a search for the least need.
fn ended_by_need(fault: NeedFault) -> Result<(), AgentFault>
    ensures passed { OnOk result (IsNeedPassedOver fault) }
    ensures ended { IfErr result (EndsByNeed fault) }
{
    match fault {
        NeedFault::Damaged { .. } => Ok(()),
        NeedFault::Disk => Err(AgentFault::Disk),
        NeedFault::Memory => Err(AgentFault::Memory),
    }
}

/// Begins the log anew at an offset, unless a record before that reads as damaged.
fn begin_at<S: Site>(
    alloc: Global,
    db: &mut Database,
    site: &mut S,
    keep: Offset,
) -> Result<(), AgentFault>
    requires can { CanRun db.old (S.seen site.old) }
    requires begins { IsTrue (S.seen site.old).observable → HasBeginning db.old (S.seen site.old) }
    requires keep { (db.old.log.base ≤ keep.0) × (keep.0 ≤ db.old.log.end) }
    ensures begins { OnOk result (BeginsAt keep.0 db.old db.new (S.seen site.old) (S.seen site.new)) }
    ensures breaks { IfErr result (BreaksAt keep.0 db.old db.new (S.seen site.old) (S.seen site.new)) }
{
    match db.restart_log(alloc, site, keep) {
        Ok(()) => Ok(()),
        Err(fault) => ended_by(fault),
    }
}

/// Begins the log anew where the least need of all partners lies, unless a record reads as damaged.
fn begin_anew<S: Site>(alloc: Global, db: &mut Database, site: &mut S) -> Result<(), AgentFault>
    requires can { CanRun db.old (S.seen site.old) }
    requires begins { IsTrue (S.seen site.old).observable → HasBeginning db.old (S.seen site.old) }
    ensures restarts { OnOk result (Restarts db.old db.new (S.seen site.old) (S.seen site.new)) }
    ensures broken { IfErr result (RestartBroken db.old db.new (S.seen site.old) (S.seen site.new)) }
{
    match least_need(alloc, db, site) {
        Ok(keep) => begin_at(alloc, db, site, keep),
        Err(fault) => ended_by_need(fault),
    }
}

/// Begins the log anew where the least need of all partners lies, and tells the base that stands then: the old one where a record reads as damaged.
pub(crate) fn restart<S: Site, O: Sink>(
    alloc: Global,
    db: &mut Database,
    site: &mut S,
    sink: &mut O,
) -> Result<(), AgentFault>
    requires can { CanRun db.old (S.seen site.old) }
    requires begins { IsTrue (S.seen site.old).observable → HasBeginning db.old (S.seen site.old) }
    ensures told { OnOk result (RestartTold db.old db.new (S.seen site.old) (S.seen site.new) (O.seen sink.old) (O.seen sink.new)) }
    ensures unbegun { IfErr result (RunUnbegun db.old db.new (S.seen site.old) (S.seen site.new) (O.seen sink.old) (O.seen sink.new)) }
{
    begin_anew(alloc, db, site)?;
    tell_restart(alloc, sink, db.base())?;
    Ok(())
}
