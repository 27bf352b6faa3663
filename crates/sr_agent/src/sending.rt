//! The send pass.

ghost use Rattle.std.specs.Prelude.{IfErr, OnOk};
ghost use Rattle.std.specs.List.{AllByRecursion};
ghost use Rattle.sr_mail_cut.specs.Inner.Cuts.{IsMessageLimit};
ghost use Rattle.sr_receive.specs.Inner.Ready.{IsReady};
ghost use Rattle.sr_send.specs.Inner.Surveys.{Surveys};
ghost use Rattle.sr_agent.specs.Inner.Steps.{DeliveriesBroken, DeliveriesDone, DeliveryBroken, DeliveryDone, KeepsPartners, MaySendTo};

use crate::fault::AgentFault;
use crate::partner::Partner;
use crate::telling::tell_delivery;
use sr_database::Database;
use sr_send::{SharedSurvey, send};
use sr_site::{Sink, Site};
use std::alloc::Global;

/// Sends each partner in order what is due to him, in messages of at most `length` bytes. The survey is read on in each pass.
pub(crate) fn send_in_order<S: Site, O: Sink>(
    alloc: Global,
    db: &mut Database,
    site: &mut S,
    length: u32,
    partners: &[Partner],
    shared: &mut SharedSurvey,
    sink: &mut O,
) -> Result<(), AgentFault>
    requires ready { IsReady db.old (S.seen site.old) }
    requires limit { IsMessageLimit length }
    requires may { AllByRecursion (MaySendTo db.old) partners.now }
    requires surveyed { Surveys db.old shared.old (S.seen site.old) }
    ensures ready { OnOk result (IsReady db.new (S.seen site.new)) }
    ensures done { OnOk result (DeliveriesDone db.old db.new (S.seen site.old) (S.seen site.new) length partners.now (O.seen sink.old) (O.seen sink.new)) }
    ensures broken { IfErr result (DeliveriesBroken db.old db.new (S.seen site.old) (S.seen site.new) length partners.now (O.seen sink.old) (O.seen sink.new)) }
{
    let mut left = partners;
    'partners: while let Some((partner, rest)) = left.split_first() {
        send_to(alloc, db, site, length, partner, shared, sink)?;
        left = rest;
    }
    Ok(())
}

/// Sends a partner what is due to him, and tells it.
fn send_to<S: Site, O: Sink>(
    alloc: Global,
    db: &mut Database,
    site: &mut S,
    length: u32,
    partner: &Partner,
    shared: &mut SharedSurvey,
    sink: &mut O,
) -> Result<(), AgentFault>
    requires ready { IsReady db.old (S.seen site.old) }
    requires limit { IsMessageLimit length }
    requires may { MaySendTo db.old partner.now }
    requires surveyed { Surveys db.old shared.old (S.seen site.old) }
    ensures surveyed { OnOk result (Surveys db.new shared.new (S.seen site.new)) }
    ensures ready { OnOk result (IsReady db.new (S.seen site.new)) }
    ensures keeps { OnOk result (KeepsPartners db.old db.new) }
    ensures done { OnOk result (DeliveryDone db.old db.new (S.seen site.old) (S.seen site.new) length partner.now (O.seen sink.old) (O.seen sink.new)) }
    ensures broken { IfErr result (DeliveryBroken db.old db.new (S.seen site.old) (S.seen site.new) length partner.now (O.seen sink.old) (O.seen sink.new)) }
{
    let sent = send(alloc, db, site, &partner.user, length, partner.ask, shared)?;
    tell_delivery(alloc, sink, &partner.user, sent)?;
    Ok(())
}
