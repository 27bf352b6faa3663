//! The survey by which the needs of several partners are sought: the log is read once for it, and it lists which entries may give whom something.

ghost use Rattle.std.specs.Prelude.{◌≡◌, ◌≤◌, ◌<◌, true, false, None, IsTrue, IfOk, IfErr, IfSome, OnOk};
ghost use Rattle.sr_database_files.specs.Inner.Openings.{ReadAlone};
ghost use Rattle.sr_send.specs.Inner.Surveys.{BeginsAt, IsWhole, SurveysTo};
ghost use Rattle.sr_send_needs.specs.Inner.Reading.{SearchCause};
ghost use Rattle.sr_send_needs.specs.Inner.Starting.{IsStart, catalog_in};
ghost use Rattle.sr_send_needs.specs.Inner.Surveying.{SurveysWhole};

use crate::start::Start;
use crate::starting::catalog_at;
use sr_base::{Copied, Offset};
use sr_catalog_schema::User;
use sr_database::{Database, DatabaseFault};
use sr_site::Site;
use sr_survey::Survey;
use std::alloc::Global;

/// How many places a survey lists at most, of 16 bytes each: past 256 MiB for them the log is read on for each partner by itself.
const MOST_PLACES: u32 = 16_777_216;

/// A survey of all that the log holds from where it is read on, with which the needs of users are sought. There is none where no user would share it, nor
/// where memory lacks for its catalog. It takes one pass over the log from there, and where it is given up over a part of it.
pub(crate) fn survey_for<S: Site>(
    alloc: Global,
    db: &Database,
    site: &mut S,
    start: Start,
    users: &[User],
    buffer: &mut Vec<u8>,
) -> Result<Option<Survey>, DatabaseFault>
    requires usable { db.now.log.usable ≡ true }
    requires start { IsStart db.now start (S.seen site.old) }
    ensures whole { IfOk result (λ made. SurveysWhole db.now made (S.seen site.new)) }
    ensures read { ReadAlone (S.seen site.old) (S.seen site.new) }
    ensures steady { OnOk result ((S.seen site.new).disk_faults ≡ (S.seen site.old).disk_faults) }
    ensures cause { IfErr result (SearchCause db.now (S.seen site.old) (S.seen site.new)) }
{
    if users.len() < 2 {
        return Ok(None);
    }
    match survey_from(alloc, db, start) {
        None => Ok(None),
        Some(survey) => read_whole(alloc, db, site, survey, start.at, buffer),
    }
}

/// A survey that begins with a copy of the catalog where the log is read on from, if there is memory for it.
fn survey_from(alloc: Global, db: &Database, start: Start) -> Option<Survey>
    requires usable { db.now.log.usable ≡ true }
    ensures begins { IfSome result (BeginsAt (catalog_in db.now start.is_now) start.at.0) }
{
    match catalog_at(db, start).copy(alloc) {
        Ok(base) => Some(Survey::new(alloc, base, start.at, MOST_PLACES)),
        Err(_) => None,
    }
}

/// A survey that has taken all entries that follow an offset.
fn read_whole<S: Site>(
    alloc: Global,
    db: &Database,
    site: &mut S,
    survey: Survey,
    from: Offset,
    buffer: &mut Vec<u8>,
) -> Result<Option<Survey>, DatabaseFault>
    requires usable { db.now.log.usable ≡ true }
    requires from { (db.now.log.base ≤ from.0) × (from.0 ≤ db.now.log.end) }
    requires surveyed { SurveysTo db.now survey from (S.seen site.old) }
    ensures whole { IfOk result (λ made. SurveysWhole db.now made (S.seen site.new)) }
    ensures read { ReadAlone (S.seen site.old) (S.seen site.new) }
    ensures steady { OnOk result ((S.seen site.new).disk_faults ≡ (S.seen site.old).disk_faults) }
    ensures cause { IfErr result (SearchCause db.now (S.seen site.old) (S.seen site.new)) }
{
    let mut survey = survey;
    match read_to_end(alloc, db, site, &mut survey, from, buffer) {
        Ok(()) => Ok(Some(survey)),
        Err(fault) => {
            drop(survey);
            Err(fault)
        }
    }
}

/// Lets a survey take the entries that follow an offset, up to the end of the log, unless it is given up.
fn read_to_end<S: Site>(
    alloc: Global,
    db: &Database,
    site: &mut S,
    survey: &mut Survey,
    from: Offset,
    buffer: &mut Vec<u8>,
) -> Result<(), DatabaseFault>
    requires usable { db.now.log.usable ≡ true }
    requires from { (db.now.log.base ≤ from.0) × (from.0 ≤ db.now.log.end) }
    requires surveyed { SurveysTo db.now survey.old from (S.seen site.old) }
    ensures whole { OnOk result (IsWhole db.now survey.new (S.seen site.new)) }
    ensures read { ReadAlone (S.seen site.old) (S.seen site.new) }
    ensures steady { OnOk result ((S.seen site.new).disk_faults ≡ (S.seen site.old).disk_faults) }
    ensures cause { IfErr result (SearchCause db.now (S.seen site.old) (S.seen site.new)) }
{
    let mut at = from;
    'entries: while let Some(end) = take_next(alloc, db, site, survey, at, buffer)? {
        at = end;
    }
    Ok(())
}

/// Lets a survey take the entry after an offset, and answers where it ends; nothing where none follows, or the survey was given up.
fn take_next<S: Site>(
    alloc: Global,
    db: &Database,
    site: &mut S,
    survey: &mut Survey,
    at: Offset,
    buffer: &mut Vec<u8>,
) -> Result<Option<Offset>, DatabaseFault>
    requires usable { db.now.log.usable ≡ true }
    requires at { (db.now.log.base ≤ at.0) × (at.0 ≤ db.now.log.end) }
    requires surveyed { SurveysTo db.now survey.old at (S.seen site.old) }
    ensures surveyed { IfOk result (λ found. IfSome found (λ end. SurveysTo db.now survey.new end (S.seen site.new))) }
    ensures whole { IfOk result (λ found. found ≡ None → IsWhole db.now survey.new (S.seen site.new)) }
    ensures within { IfOk result (λ found. IfSome found (λ end. (at.0 < end.0) × (end.0 ≤ db.now.log.end))) }
    ensures read { ReadAlone (S.seen site.old) (S.seen site.new) }
    ensures steady { OnOk result ((S.seen site.new).disk_faults ≡ (S.seen site.old).disk_faults) }
    ensures cause { IfErr result (SearchCause db.now (S.seen site.old) (S.seen site.new)) }
{
    if is_given_up(survey) {
        return Ok(None);
    }
    match db.brief_read(alloc, site, at, buffer)? {
        None => Ok(None),
        Some((end, entry)) => {
            survey.take(alloc, &entry, end);
            drop(entry);
            Ok(Some(end))
        }
    }
}

/// Whether a survey was given up.
pub(crate) fn is_given_up(survey: &Survey) -> bool
    ensures given_up { IsTrue result → ¬ (survey.now.given_up ≡ None) }
    ensures kept { result ≡ false → survey.now.given_up ≡ None }
{
    match survey.given_up() {
        Some(_) => true,
        None => false,
    }
}
