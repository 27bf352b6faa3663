//! The need of one user, sought by a survey where that can tell it, else by a scanner.

ghost use Rattle.std.specs.Prelude.{◌≡◌, ◌≤◌, min, true, List, IsTrue, IsSome, IfOk, IfErr, OnOk};
ghost use Rattle.sr_book.specs.Entries.{Name as AName};
ghost use Rattle.sr_catalog_schema.specs.Members.{user_name};
ghost use Rattle.sr_catalog_schema.specs.Names.{named};
ghost use Rattle.sr_database_files.specs.Inner.Openings.{ReadAlone};
ghost use Rattle.sr_database_history.specs.Recorded.{Recorded};
ghost use Rattle.sr_database.specs.Databases.{IsDatabase};
ghost use Rattle.sr_send.specs.Inner.Surveys.{IsWhole};
ghost use Rattle.sr_send_needs.specs.Inner.Listing.{IsLesser};
ghost use Rattle.sr_send_needs.specs.Inner.Reading.{SearchCause};
ghost use Rattle.sr_send_needs.specs.Inner.Seeking.{confirmed_by};
ghost use Rattle.sr_send_needs.specs.Inner.Starting.{IsStart};
ghost use Rattle.sr_send_needs.specs.Inner.Surveying.{SurveysWhole};
ghost use Rattle.sr_send_needs.specs.Needs.{need_of};

use crate::listing::{need_listed, way_to};
use crate::needing::confirmed;
use crate::searching::search;
use crate::start::Start;
use crate::starting::catalog_at;
use crate::way::Way;
use sr_base::{Name, Offset};
use sr_database::{Database, DatabaseFault};
use sr_scan::Scanner;
use sr_site::Site;
use sr_survey::Survey;
use std::alloc::Global;

/// The lesser of a limit and the need of a user. Nothing is sought where the limit does not lie past the beginning.
pub(crate) fn lesser_need<S: Site>(
    alloc: Global,
    db: &Database,
    site: &mut S,
    start: Start,
    survey: &Option<Survey>,
    user: &Name,
    limit: Offset,
    buffer: &mut Vec<u8>,
) -> Result<Offset, DatabaseFault>
    requires usable { db.now.log.usable ≡ true }
    requires start { IsStart db.now start (S.seen site.old) }
    requires whole { SurveysWhole db.now survey.now (S.seen site.old) }
    requires granted { IsSome (named user_name user.now db.now.catalog.users) }
    requires confirmed { start.at.0 ≤ confirmed_by db.now user.now }
    requires limit { (db.now.log.base ≤ limit.0) × (limit.0 ≤ db.now.log.end) }
    ensures least { IsTrue (S.seen site.old).observable → (publisher : AName) (es : List Recorded) → IsDatabase db.now publisher es (S.seen site.old)
        → IfOk result (λ least. least.0 ≡ min limit.0 (need_of publisher es db.now.log.base user.now)) }
    ensures within { IfOk result (λ least. (db.now.log.base ≤ least.0) × (least.0 ≤ limit.0)) }
    ensures read { ReadAlone (S.seen site.old) (S.seen site.new) }
    ensures steady { OnOk result ((S.seen site.new).disk_faults ≡ (S.seen site.old).disk_faults) }
    ensures cause { IfErr result (SearchCause db.now (S.seen site.old) (S.seen site.new)) }
{
    if limit.0 <= start.at.0 {
        return Ok(limit);
    }
    let sent = confirmed(db, user);
    match survey {
        None => need_scanned(alloc, db, site, start, user, sent, limit, buffer),
        Some(survey) => need_surveyed(alloc, db, site, start, survey, user, sent, limit, buffer),
    }
}

/// The lesser of a limit and the place before the first entry that gives a user something past an offset, by a survey if it can tell that.
fn need_surveyed<S: Site>(
    alloc: Global,
    db: &Database,
    site: &mut S,
    start: Start,
    survey: &Survey,
    user: &Name,
    sent: Offset,
    limit: Offset,
    buffer: &mut Vec<u8>,
) -> Result<Offset, DatabaseFault>
    requires usable { db.now.log.usable ≡ true }
    requires start { IsStart db.now start (S.seen site.old) }
    requires whole { IsWhole db.now survey.now (S.seen site.old) }
    requires sent { start.at.0 ≤ sent.0 }
    requires limit { (db.now.log.base ≤ limit.0) × (limit.0 ≤ db.now.log.end) }
    ensures least { IfOk result (IsLesser db.now user.now sent.0 limit.0 (S.seen site.old)) }
    ensures within { IfOk result (λ least. (db.now.log.base ≤ least.0) × (least.0 ≤ limit.0)) }
    ensures read { ReadAlone (S.seen site.old) (S.seen site.new) }
    ensures steady { OnOk result ((S.seen site.new).disk_faults ≡ (S.seen site.old).disk_faults) }
    ensures cause { IfErr result (SearchCause db.now (S.seen site.old) (S.seen site.new)) }
{
    match way_to(alloc, survey, user, sent, limit)? {
        Way::Nothing => Ok(limit),
        Way::Places => need_listed(alloc, db, site, survey, user, sent, limit, buffer),
        Way::Log => need_scanned(alloc, db, site, start, user, sent, limit, buffer),
    }
}

/// The same by a scanner that reads the log on.
fn need_scanned<S: Site>(
    alloc: Global,
    db: &Database,
    site: &mut S,
    start: Start,
    user: &Name,
    sent: Offset,
    limit: Offset,
    buffer: &mut Vec<u8>,
) -> Result<Offset, DatabaseFault>
    requires usable { db.now.log.usable ≡ true }
    requires start { IsStart db.now start (S.seen site.old) }
    requires sent { start.at.0 ≤ sent.0 }
    requires limit { db.now.log.base ≤ limit.0 }
    ensures least { IfOk result (IsLesser db.now user.now sent.0 limit.0 (S.seen site.old)) }
    ensures within { IfOk result (λ least. (db.now.log.base ≤ least.0) × (least.0 ≤ limit.0)) }
    ensures read { ReadAlone (S.seen site.old) (S.seen site.new) }
    ensures steady { OnOk result ((S.seen site.new).disk_faults ≡ (S.seen site.old).disk_faults) }
    ensures cause { IfErr result (SearchCause db.now (S.seen site.old) (S.seen site.new)) }
{
    let mut scanner = Scanner::new(alloc, catalog_at(db, start), user)?;
    let outcome = search(alloc, db, site, &mut scanner, sent, limit, start.at, buffer);
    drop(scanner);
    outcome
}
