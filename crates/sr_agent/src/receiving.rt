//! The receive pass.

ghost use Rattle.std.specs.Prelude.{◌≡◌, Bool, true, IfErr, IfOk, OnOk};
ghost use Rattle.std.specs.List.{AllByRecursion};
ghost use Rattle.sr_receive.specs.Inner.Ready.{IsReady};
ghost use Rattle.sr_agent.specs.Inner.PartnerMails.{HasSome, HoldsSome, ToldMessageFiles};
ghost use Rattle.sr_agent.specs.Inner.Steps.{GatheringBroken, GatheringCause, GatheringDone, IsUser, KeepsPartners, OutcomeCause, PurgeEnd, PurgedWhere, ReceivingBroken, ReceivingDone, ToldGathering, ToldPartnerPass, PartnerPassBroken, PartnerPassDone, PartnerPassesBroken, PartnerPassesDone};

use crate::fault::AgentFault;
use crate::progress::Progress;
use crate::reporting::count_alarms;
use crate::telling::{count_partner_pass, tell_partner_pass, tell_reports};
use sr_base::Name;
use sr_database::Database;
use sr_receive::{Received, receive};
use sr_receive_gather::{Bag, ReceiveFault, Report, gather, purge};
use sr_site::{Sink, Site};
use std::alloc::Global;

/// Gathers the mail, and then receives from each partner in order.
pub(crate) fn receive_all<S: Site, O: Sink>(
    alloc: Global,
    db: &mut Database,
    site: &mut S,
    purges: bool,
    names: &[Name],
    sink: &mut O,
) -> Result<Progress, AgentFault>
    requires ready { IsReady db.old (S.seen site.old) }
    requires users { AllByRecursion (IsUser db.old) names.now }
    ensures ready { OnOk result (IsReady db.new (S.seen site.new)) }
    ensures done { IfOk result (ReceivingDone db.old db.new (S.seen site.old) (S.seen site.new) names.now purges (O.seen sink.old) (O.seen sink.new)) }
    ensures broken { IfErr result (ReceivingBroken db.old db.new (S.seen site.old) (S.seen site.new) names.now purges (O.seen sink.old) (O.seen sink.new)) }
{
    let (mut bag, alarms) = gather_all(alloc, db, site, sink)?;
    let mut progress = Progress {
        partners: Vec::new(alloc),
        alarms,
    };
    let outcome = receive_in_order(
        alloc,
        db,
        site,
        purges,
        names,
        &mut bag,
        sink,
        &mut progress,
    );
    drop(bag);
    match outcome {
        Ok(()) => Ok(progress),
        Err(fault) => {
            drop(progress);
            Err(fault)
        }
    }
}

/// Gathers the mail and tells what is to be reported of the folder. Answers how many lines told of something amiss, beside the bag.
fn gather_all<S: Site, O: Sink>(
    alloc: Global,
    db: &Database,
    site: &mut S,
    sink: &mut O,
) -> Result<(Bag, u32), AgentFault>
    requires ready { IsReady db.now (S.seen site.old) }
    ensures holds { IfOk result (λ gathered. HoldsSome gathered.0) }
    ensures done { IfOk result (λ gathered. GatheringDone db.now (S.seen site.old) (S.seen site.new) gathered.0 gathered.1 (O.seen sink.old) (O.seen sink.new)) }
    ensures broken { IfErr result (GatheringBroken db.now (S.seen site.old) (S.seen site.new) (O.seen sink.old) (O.seen sink.new)) }
{
    let mut reports = Vec::new(alloc);
    let outcome = gather(alloc, db, site, &mut reports);
    let told = tell_gathering(alloc, sink, outcome, reports.as_slice());
    drop(reports);
    told
}

/// Tells what is to be reported of the folder: of all of it, or of what was gathered before the fault that ended it. Where the sink fails the run ends
/// by that, since the lines stop before that of another fault.
fn tell_gathering<O: Sink>(
    alloc: Global,
    sink: &mut O,
    outcome: Result<Bag, ReceiveFault>,
    reports: &[Report],
) -> Result<(Bag, u32), AgentFault>
    ensures done { IfOk result (λ gathered. ToldGathering outcome gathered.0 gathered.1 reports.now (O.seen sink.old) (O.seen sink.new)) }
    ensures cause { IfErr result (GatheringCause outcome reports.now (O.seen sink.old) (O.seen sink.new)) }
{
    match outcome {
        Ok(bag) => {
            tell_reports(alloc, sink, reports)?;
            let alarms = count_alarms(reports)?;
            Ok((bag, alarms))
        }
        Err(fault) => {
            tell_reports(alloc, sink, reports)?;
            Err(AgentFault::from(fault))
        }
    }
}

/// Receives from each partner in order.
fn receive_in_order<S: Site, O: Sink>(
    alloc: Global,
    db: &mut Database,
    site: &mut S,
    purges: bool,
    names: &[Name],
    bag: &mut Bag,
    sink: &mut O,
    progress: &mut Progress,
) -> Result<(), AgentFault>
    requires ready { IsReady db.old (S.seen site.old) }
    requires users { AllByRecursion (IsUser db.old) names.now }
    requires holds { HoldsSome bag.old }
    ensures ready { OnOk result (IsReady db.new (S.seen site.new)) }
    ensures keeps { OnOk result (KeepsPartners db.old db.new) }
    ensures done { OnOk result (PartnerPassesDone db.old db.new (S.seen site.old) (S.seen site.new) names.now bag.old purges progress.old progress.new (O.seen sink.old) (O.seen sink.new)) }
    ensures broken { IfErr result (PartnerPassesBroken db.old db.new (S.seen site.old) (S.seen site.new) names.now bag.old purges (O.seen sink.old) (O.seen sink.new)) }
{
    let mut left = names;
    'partners: while let Some((user, rest)) = left.split_first() {
        receive_from(alloc, db, site, purges, user, bag, sink, progress)?;
        left = rest;
    }
    Ok(())
}

/// Receives from a partner, tells what came of it, and removes his dead files where they are to be removed.
fn receive_from<S: Site, O: Sink>(
    alloc: Global,
    db: &mut Database,
    site: &mut S,
    purges: bool,
    user: &Name,
    bag: &mut Bag,
    sink: &mut O,
    progress: &mut Progress,
) -> Result<(), AgentFault>
    requires ready { IsReady db.old (S.seen site.old) }
    requires user { IsUser db.old user.now }
    requires holds { HasSome bag.old user.now }
    ensures ready { OnOk result (IsReady db.new (S.seen site.new)) }
    ensures keeps { OnOk result (KeepsPartners db.old db.new) }
    ensures holds { OnOk result (HasSome bag.new user.now) }
    ensures done { OnOk result (PartnerPassDone db.old db.new (S.seen site.old) (S.seen site.new) user.now bag.old bag.new purges progress.old progress.new (O.seen sink.old) (O.seen sink.new)) }
    ensures broken { IfErr result (PartnerPassBroken db.old db.new (S.seen site.old) (S.seen site.new) user.now bag.old purges (O.seen sink.old) (O.seen sink.new)) }
{
    let (received, alarms) = take_message_files(alloc, db, site, user, bag, sink)?;
    progress.add(alloc, user, received.ask, alarms)?;
    purge_where(alloc, db, site, purges, user, bag)
}

/// Takes a partner's message files, and tells what came of it.
fn take_message_files<S: Site, O: Sink>(
    alloc: Global,
    db: &mut Database,
    site: &mut S,
    user: &Name,
    bag: &mut Bag,
    sink: &mut O,
) -> Result<(Received, u32), AgentFault>
    requires ready { IsReady db.old (S.seen site.old) }
    requires user { IsUser db.old user.now }
    requires holds { HasSome bag.old user.now }
    ensures told { IfOk result (λ told. ToldMessageFiles db.old db.new (S.seen site.old) (S.seen site.new) user.now bag.old bag.new told.0 told.1 (O.seen sink.old) (O.seen sink.new)) }
    ensures broken { (purge : Bool) → IfErr result (PartnerPassBroken db.old db.new (S.seen site.old) (S.seen site.new) user.now bag.old purge (O.seen sink.old) (O.seen sink.new)) }
{
    let mut reports = Vec::new(alloc);
    let outcome = receive(alloc, db, site, user, bag, &mut reports);
    let told = tell_outcome(alloc, sink, user, outcome, reports.as_slice());
    drop(reports);
    told
}

/// Tells what came of a pass over a partner's message files: all of it, or what was done before the fault that ended it. Where the sink fails the run
/// ends by that.
fn tell_outcome<O: Sink>(
    alloc: Global,
    sink: &mut O,
    user: &Name,
    outcome: Result<Received, ReceiveFault>,
    reports: &[Report],
) -> Result<(Received, u32), AgentFault>
    ensures done { IfOk result (λ told. ToldPartnerPass user.now outcome told.0 told.1 reports.now (O.seen sink.old) (O.seen sink.new)) }
    ensures cause { IfErr result (OutcomeCause user.now outcome reports.now (O.seen sink.old) (O.seen sink.new)) }
{
    match outcome {
        Ok(received) => {
            tell_partner_pass(alloc, sink, user, received, reports)?;
            let alarms = count_partner_pass(user, received, reports)?;
            Ok((received, alarms))
        }
        Err(fault) => {
            tell_reports(alloc, sink, reports)?;
            Err(AgentFault::from(fault))
        }
    }
}

/// Removes the dead files of a partner, where they are to be removed.
fn purge_where<S: Site>(
    alloc: Global,
    db: &Database,
    site: &mut S,
    purges: bool,
    user: &Name,
    bag: &Bag,
) -> Result<(), AgentFault>
    requires usable { db.now.log.usable ≡ true }
    requires user { IsUser db.now user.now }
    ensures purged { OnOk result (PurgedWhere purges db.now user.now bag.now (S.seen site.old) (S.seen site.new)) }
    ensures cause { IfErr result (PurgeEnd purges db.now user.now bag.now (S.seen site.old) (S.seen site.new)) }
{
    if purges {
        purge(alloc, db, site, user, bag)?;
    }
    Ok(())
}
