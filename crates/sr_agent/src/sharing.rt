//! What the passes to partners share.

ghost use Rattle.std.specs.Prelude.{◌≡◌, ◌≤◌, true};
ghost use Rattle.std.specs.List.{AllByRecursion};
ghost use Rattle.sr_database.specs.Views.{View};
ghost use Rattle.sr_send.specs.Inner.Surveys.{Surveys};
ghost use Rattle.sr_site.specs.Seen.{Seen};
ghost use Rattle.sr_agent.specs.Inner.Sharing.{IsSentUpTo};

use crate::partner::Partner;
use sr_base::Offset;
use sr_database::Database;
use sr_send::SharedSurvey;

/// The survey that the passes to some partners share, from what was sent to each of them on. Where there is one alone it is none: each entry that
/// concerns him would be read twice.
pub(crate) fn shared_by(db: &Database, partners: &[Partner]) -> SharedSurvey
    requires usable { db.now.log.usable ≡ true }
    ensures surveyed { (view : View) (seen : Seen) → Surveys view result seen }
{
    if partners.len() < 2 {
        return SharedSurvey::none();
    }
    SharedSurvey::up_to(least_sent(db, partners))
}

/// Up to where the log was sent to each of some partners. It takes one pass over them.
fn least_sent(db: &Database, partners: &[Partner]) -> Offset
    requires usable { db.now.log.usable ≡ true }
    ensures sent { AllByRecursion (IsSentUpTo db.now result.0) partners.now }
{
    let mut least = db.end();
    let mut left = partners;
    'partners: while let Some((partner, rest)) = left.split_first() {
        least = with_partner(db, least, partner);
        left = rest;
    }
    least
}

/// The lesser of an offset and that up to which the log was sent to a partner.
fn with_partner(db: &Database, least: Offset, partner: &Partner) -> Offset
    requires usable { db.now.log.usable ≡ true }
    ensures no_more { result.0 ≤ least.0 }
    ensures sent { IsSentUpTo db.now result.0 partner.now }
{
    match db.book(&partner.user) {
        Some(book) if book.log_sent < least.0 => Offset(book.log_sent),
        _ => least,
    }
}
