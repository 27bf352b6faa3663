//! A whole run.

ghost use Rattle.std.specs.Prelude.{◌≡◌, ◌||◌, [], true, map, IsTrue, IfErr, IfOk, OnOk};
ghost use Rattle.std.specs.List.{AllByRecursion};
ghost use Rattle.sr_mail_cut.specs.Inner.Cuts.{IsMessageLimit};
ghost use Rattle.sr_database.specs.Databases.{HasBeginning};
ghost use Rattle.sr_database.specs.InForce.{HasLogInForce};
ghost use Rattle.sr_receive.specs.Inner.Ready.{IsReady};
ghost use Rattle.sr_catalog_schema.specs.Members.{user_name};
ghost use Rattle.sr_agent.specs.Agents.{RanAgent};
ghost use Rattle.sr_agent.specs.Inner.Restarting.{CanRun, RanPasses};
ghost use Rattle.sr_agent.specs.Inner.Steps.{IsUser, MadePass, MaySendTo, PassBroken, SendingBroken, SendingDone};

use crate::fault::AgentFault;
use crate::options::Options;
use crate::partner::{Partner, names_of, quiet_partners};
use crate::progress::Progress;
use crate::receiving::receive_all;
use crate::restarting::restart;
use crate::sending::send_in_order;
use crate::sharing::shared_by;
use sr_base::Name;
use sr_database::Database;
use sr_site::{Sink, Site};
use std::alloc::Global;

/// Runs the agent once on an opened database, and answers how many lines told of something amiss.
///
/// With `restart` the log is first begun anew behind all that every partner has confirmed: before the first entry that gives one of them something that he has
/// not, at the base where that is the first one past it, and at the end of the log where there is none or no partner. The history stays.
///
/// With the receive pass the folder of the publisher's name is listed once and each listed file is fetched once. Then each partner, in order of
/// grant, has his pass: what his message files confirm and ask for is noted, their windows are taken as far as they reach, and where one ends past
/// that, this is raised. Dead files are removed where `purge` says so. With the send pass each partner, in the same order, is sent what the log
/// gives him past what he was sent; with an ask where something was raised in this run. Without the receive pass nothing is asked.
///
/// The lines are these, in this order. `restarted OFFSET` tells where the log begins: where it did before, if a record read as damaged. `more`, `junk NAME`
/// and `stranger NAME` tell of the folder. For each partner come `conflict USER OFFSET N` and
/// `clash USER OFFSET N WHY` as ops were taken, `torn USER PREV UPTO`, `from USER took N up to OFFSET` and `gap USER OFFSET UPTO`; these are written
/// before his dead files are removed. Last comes `to USER put K up to OFFSET` for each. All but `restarted`, `conflict`, `from` and `to` tell of something
/// amiss.
///
/// The first fault ends the run: what was done before stands, and its lines are written, for which no memory has to be there. `Disk` and `Mail` come only
/// where that device's count of faults rose and no other did; `Full` and `Long` where an entry has no room or is too long, or the encoding of a
/// transaction, or the snapshot of what stands where the log is to begin, and no count rose; nor did one where `Memory` comes. Where the sink fails as lines
/// are written the run ends by that, whatever else would have ended it. No clock is asked for yet.
pub fn agent<S: Site, O: Sink>(
    alloc: Global,
    db: &mut Database,
    site: &mut S,
    options: &Options,
    now: i64,
    sink: &mut O,
) -> Result<u32, AgentFault>
    requires usable { db.old.log.usable ≡ true }
    requires pending { db.old.pending ≡ [] }
    requires some_pass { IsTrue (options.now.receive || options.now.send) }
    requires limit { IsMessageLimit options.now.length }
    requires stands { IsTrue (S.seen site.old).observable → HasLogInForce db.old (S.seen site.old) }
    requires begins { IsTrue options.now.restart → IsTrue (S.seen site.old).observable → HasBeginning db.old (S.seen site.old) }
    ensures ran { RanAgent db.old db.new (S.seen site.old) (S.seen site.new) (O.seen sink.old) (O.seen sink.new) options.now result }
{
    let _now = now;
    if options.restart {
        return run_anew(alloc, db, site, options, sink);
    }
    run(alloc, db, site, options, sink)
}

/// Begins the log anew, and then makes the passes.
fn run_anew<S: Site, O: Sink>(
    alloc: Global,
    db: &mut Database,
    site: &mut S,
    options: &Options,
    sink: &mut O,
) -> Result<u32, AgentFault>
    requires can { CanRun db.old (S.seen site.old) }
    requires begins { IsTrue (S.seen site.old).observable → HasBeginning db.old (S.seen site.old) }
    requires restart { options.now.restart ≡ true }
    requires limit { IsMessageLimit options.now.length }
    ensures ran { RanAgent db.old db.new (S.seen site.old) (S.seen site.new) (O.seen sink.old) (O.seen sink.new) options.now result }
{
    match restart(alloc, db, site, sink) {
        Ok(()) => run(alloc, db, site, options, sink),
        Err(fault) => Err(fault),
    }
}

/// Makes the passes that are asked for, with all partners.
fn run<S: Site, O: Sink>(
    alloc: Global,
    db: &mut Database,
    site: &mut S,
    options: &Options,
    sink: &mut O,
) -> Result<u32, AgentFault>
    requires can { CanRun db.old (S.seen site.old) }
    requires limit { IsMessageLimit options.now.length }
    ensures ran { RanPasses db.old db.new (S.seen site.old) (S.seen site.new) (O.seen sink.old) (O.seen sink.new) options.now result }
{
    let usable_here = db.usable();
    prove!(usable_here);
    let names = names_of(alloc, db.catalog().users())?;
    let outcome = run_passes(alloc, db, site, options, names.as_slice(), sink);
    drop(names);
    outcome
}

/// Makes the passes that are asked for, with the partners of these names.
fn run_passes<S: Site, O: Sink>(
    alloc: Global,
    db: &mut Database,
    site: &mut S,
    options: &Options,
    names: &[Name],
    sink: &mut O,
) -> Result<u32, AgentFault>
    requires ready { IsReady db.old (S.seen site.old) }
    requires names { names.now ≡ map user_name db.old.catalog.users }
    requires limit { IsMessageLimit options.now.length }
    ensures ran { RanPasses db.old db.new (S.seen site.old) (S.seen site.new) (O.seen sink.old) (O.seen sink.new) options.now result }
{
    let progress = receive_pass(alloc, db, site, options, names, sink)?;
    let outcome = send_pass(alloc, db, site, options, progress.partners.as_slice(), sink);
    let alarms = progress.alarms;
    drop(progress);
    match outcome {
        Ok(()) => Ok(alarms),
        Err(fault) => Err(fault),
    }
}

/// The receive pass, where it is asked for: the partners with what is to be asked of each.
fn receive_pass<S: Site, O: Sink>(
    alloc: Global,
    db: &mut Database,
    site: &mut S,
    options: &Options,
    names: &[Name],
    sink: &mut O,
) -> Result<Progress, AgentFault>
    requires ready { IsReady db.old (S.seen site.old) }
    requires users { AllByRecursion (IsUser db.old) names.now }
    ensures ready { OnOk result (IsReady db.new (S.seen site.new)) }
    ensures made { IfOk result (MadePass options.now db.old db.new (S.seen site.old) (S.seen site.new) names.now (O.seen sink.old) (O.seen sink.new)) }
    ensures broken { IfErr result (PassBroken options.now db.old db.new (S.seen site.old) (S.seen site.new) names.now (O.seen sink.old) (O.seen sink.new)) }
{
    if options.receive {
        return receive_all(alloc, db, site, options.purge, names, sink);
    }
    Ok(Progress {
        partners: quiet_partners(alloc, names)?,
        alarms: 0,
    })
}

/// The send pass, where it is asked for.
fn send_pass<S: Site, O: Sink>(
    alloc: Global,
    db: &mut Database,
    site: &mut S,
    options: &Options,
    partners: &[Partner],
    sink: &mut O,
) -> Result<(), AgentFault>
    requires ready { IsReady db.old (S.seen site.old) }
    requires limit { IsMessageLimit options.now.length }
    requires may { AllByRecursion (MaySendTo db.old) partners.now }
    ensures ready { OnOk result (IsReady db.new (S.seen site.new)) }
    ensures done { OnOk result (SendingDone options.now db.old db.new (S.seen site.old) (S.seen site.new) partners.now (O.seen sink.old) (O.seen sink.new)) }
    ensures broken { IfErr result (SendingBroken options.now db.old db.new (S.seen site.old) (S.seen site.new) partners.now (O.seen sink.old) (O.seen sink.new)) }
{
    if !options.send {
        return Ok(());
    }
    let mut shared = shared_by(db, partners);
    let outcome = send_in_order(alloc, db, site, options.length, partners, &mut shared, sink);
    drop(shared);
    outcome
}
