//! The survey that passes share, begun and read on.

ghost use Rattle.std.specs.Prelude.{◌≡◌, ◌≤◌, ◌<◌, true, false, [], Some, None, IsTrue, IfOk, IfErr, IfSome, OnOk};
ghost use Rattle.sr_send.specs.Inner.Posting.{Posted};
ghost use Rattle.sr_send.specs.Inner.Starts.{BeginStop};
ghost use Rattle.sr_send.specs.Inner.Stops.{NextFault};
ghost use Rattle.sr_send.specs.Inner.Surveys.{BeginsAt, IsSurveyOf, IsWay, IsWhole, Surveys, SurveysAll, SurveysTo};
ghost use Rattle.sr_send.specs.Posting.{IsSteady};

use crate::fault::SendFault;
use crate::reading::brief_from;
use crate::shared::SharedSurvey;
use crate::starting::{end_before, is_still};
use crate::way::Way;
use sr_base::{Copied, Name, NoMemory, Offset};
use sr_catalog::Catalog;
use sr_database::Database;
use sr_site::Site;
use sr_survey::Survey;
use std::alloc::Global;
use std::mem::replace;

/// How many places a survey lists at most, of 16 bytes each: past 256 MiB for them each pass reads the log by itself. A head office whose log has a million
/// entries comes to a few million places, so that there is room for some years of it.
const MOST_PLACES: u32 = 16_777_216;

impl SharedSurvey {
    /// Begins the survey where that is still to be done, and reads it on to the end of the log. All passes of a run together read each entry once for
    /// it, and after that what the pass before has noted.
    pub(crate) fn read_on<S: Site>(
        &mut self,
        alloc: Global,
        db: &Database,
        site: &mut S,
    ) -> Result<(), SendFault>
        requires usable { db.now.log.usable ≡ true }
        requires surveyed { Surveys db.now self.old (S.seen site.old) }
        ensures whole { OnOk result (SurveysAll db.now self.new (S.seen site.new)) }
        ensures posted { OnOk result (Posted (S.seen site.old) (S.seen site.new) []) }
        ensures steady { OnOk result (IsSteady (S.seen site.old) (S.seen site.new)) }
        ensures cause { IfErr result (BeginStop (S.seen site.old) (S.seen site.new)) }
    {
        let mut buffer = Vec::new(alloc);
        self.begin(alloc, db, site, &mut buffer)?;
        match &mut self.survey {
            None => Ok(()),
            Some(survey) => read_to_end(alloc, db, site, survey, &mut buffer),
        }
    }

    /// Begins the survey where that is still to be done.
    fn begin<S: Site>(
        &mut self,
        alloc: Global,
        db: &Database,
        site: &mut S,
        buffer: &mut Vec<u8>,
    ) -> Result<(), SendFault>
        requires usable { db.now.log.usable ≡ true }
        requires surveyed { Surveys db.now self.old (S.seen site.old) }
        ensures surveyed { OnOk result (Surveys db.now self.new (S.seen site.new)) }
        ensures posted { OnOk result (Posted (S.seen site.old) (S.seen site.new) []) }
        ensures steady { OnOk result (IsSteady (S.seen site.old) (S.seen site.new)) }
        ensures cause { IfErr result (BeginStop (S.seen site.old) (S.seen site.new)) }
    {
        let Some(latest) = self.latest.take() else {
            return Ok(());
        };
        let survey = begun(alloc, db, site, latest, buffer)?;
        drop(replace(&mut self.survey, survey));
        Ok(())
    }
}

/// A survey that begins at the last end of an entry that does not lie past an offset, if no statement ran behind it; else at the base of the log.
/// There is none where memory lacks for its catalog. It takes a pass over the ends of the entries before, and over the kinds of those behind.
fn begun<S: Site>(
    alloc: Global,
    db: &Database,
    site: &mut S,
    latest: Offset,
    buffer: &mut Vec<u8>,
) -> Result<Option<Survey>, SendFault>
    requires usable { db.now.log.usable ≡ true }
    ensures surveyed { IfOk result (λ made. IfSome made (λ s. IsSurveyOf db.now s (S.seen site.new))) }
    ensures posted { OnOk result (Posted (S.seen site.old) (S.seen site.new) []) }
    ensures steady { OnOk result (IsSteady (S.seen site.old) (S.seen site.new)) }
    ensures cause { IfErr result (BeginStop (S.seen site.old) (S.seen site.new)) }
{
    let usable_here = db.usable();
    prove!(usable_here);
    let from = end_before(db, site, latest)?;
    if is_still(alloc, db, site, from, buffer)? {
        return Ok(survey_from(alloc, db.catalog(), from));
    }
    Ok(survey_from(alloc, db.base_catalog(), db.base()))
}

/// A survey that begins with a copy of a catalog at an offset, if there is memory for it.
fn survey_from(alloc: Global, catalog: &Catalog, at: Offset) -> Option<Survey>
    ensures begins { IfSome result (BeginsAt catalog.now at.0) }
{
    match catalog.copy(alloc) {
        Ok(base) => Some(Survey::new(alloc, base, at, MOST_PLACES)),
        Err(_) => None,
    }
}

/// Lets a survey take the entries that follow what it has taken, up to the end of the log, unless it is given up.
fn read_to_end<S: Site>(
    alloc: Global,
    db: &Database,
    site: &mut S,
    survey: &mut Survey,
    buffer: &mut Vec<u8>,
) -> Result<(), SendFault>
    requires usable { db.now.log.usable ≡ true }
    requires surveyed { IsSurveyOf db.now survey.old (S.seen site.old) }
    ensures whole { OnOk result (IsWhole db.now survey.new (S.seen site.new)) }
    ensures posted { OnOk result (Posted (S.seen site.old) (S.seen site.new) []) }
    ensures steady { OnOk result (IsSteady (S.seen site.old) (S.seen site.new)) }
    ensures cause { IfErr result (BeginStop (S.seen site.old) (S.seen site.new)) }
{
    let mut at = survey.end();
    'entries: while let Some(end) = take_next(alloc, db, site, survey, at, buffer)? {
        at = end;
    }
    Ok(())
}

/// Lets a survey take the entry after an offset, and answers where it ends; nothing where none follows, or the survey was given up.
fn take_next<S: Site>(
    alloc: Global,
    db: &Database,
    site: &mut S,
    survey: &mut Survey,
    at: Offset,
    buffer: &mut Vec<u8>,
) -> Result<Option<Offset>, SendFault>
    requires usable { db.now.log.usable ≡ true }
    requires surveyed { SurveysTo db.now survey.old at (S.seen site.old) }
    ensures surveyed { IfOk result (λ found. IfSome found (λ end. SurveysTo db.now survey.new end (S.seen site.new))) }
    ensures whole { IfOk result (λ found. found ≡ None → IsWhole db.now survey.new (S.seen site.new)) }
    ensures within { IfOk result (λ found. IfSome found (λ end. (at.0 < end.0) × (end.0 ≤ db.now.log.end))) }
    ensures posted { Posted (S.seen site.old) (S.seen site.new) [] }
    ensures steady { OnOk result (IsSteady (S.seen site.old) (S.seen site.new)) }
    ensures mail { (S.seen site.new).mail_faults ≡ (S.seen site.old).mail_faults }
    ensures cause { IfErr result (NextFault (S.seen site.old) (S.seen site.new)) }
{
    if is_given_up(survey) {
        return Ok(None);
    }
    match brief_from(alloc, db, site, at, buffer)? {
        None => Ok(None),
        Some((end, entry)) => {
            survey.take(alloc, &entry, end);
            drop(entry);
            Ok(Some(end))
        }
    }
}

/// Whether a survey was given up.
fn is_given_up(survey: &Survey) -> bool
    ensures given_up { IsTrue result → ¬ (survey.now.given_up ≡ None) }
    ensures kept { result ≡ false → survey.now.given_up ≡ None }
{
    match survey.given_up() {
        Some(_) => true,
        None => false,
    }
}

/// Whether a survey may tell what the log gives past an offset: it was not given up, and begins no later.
fn may_tell(survey: &Survey, sent: Offset) -> bool
    ensures may { IsTrue result → (survey.now.given_up ≡ None) × (survey.now.begin ≤ sent.0) }
{
    !is_given_up(survey) && survey.begin().0 <= sent.0
}

/// How what the log gives a user past an offset is found. It takes the time of two look-ups.
pub(crate) fn way_to(
    alloc: Global,
    survey: &Survey,
    user: &Name,
    sent: Offset,
) -> Result<Way, NoMemory>
    ensures way { IfOk result (IsWay survey.now user.now sent.0) }
{
    if !may_tell(survey, sent) {
        return Ok(Way::Log);
    }
    match survey.next(alloc, user, sent)? {
        None => Ok(Way::Nothing),
        Some(_) => way_there(alloc, survey, user, sent),
    }
}

/// The same of a user for whom something is listed past the offset: whether the catalog shows him at each of his places what it showed him then. What a
/// statement that is passed on to him gives does not hang on the catalog.
fn way_there(alloc: Global, survey: &Survey, user: &Name, sent: Offset) -> Result<Way, NoMemory>
    requires kept { survey.now.given_up ≡ None }
    requires begun { survey.now.begin ≤ sent.0 }
    ensures way { IfOk result (IsWay survey.now user.now sent.0) }
{
    match survey.next_shown(alloc, user, sent)? {
        None => Ok(Way::Places),
        Some(first) => {
            if first.start < survey.since(user).0 {
                return Ok(Way::Log);
            }
            Ok(Way::Places)
        }
    }
}
