//! The need of a user sought among the places that a survey lists for him: of the log only the entries there are read.

ghost use Rattle.std.specs.Prelude.{◌≡◌, ◌≤◌, true, None, IsTrue, IfOk, IfErr, OnOk};
ghost use Rattle.sr_database_files.specs.Inner.Openings.{ReadAlone};
ghost use Rattle.sr_database_files.specs.declared.fault.DatabaseFault.TheVariants.{Memory};
ghost use Rattle.sr_scan.specs.Inner.Views.{AreViews};
ghost use Rattle.sr_send.specs.Inner.Places.{IsPlaceOf};
ghost use Rattle.sr_send.specs.Inner.Surveys.{CanTell, IsWhole};
ghost use Rattle.sr_send_needs.specs.Inner.Listing.{FindsAt, IsAnyBy, IsLesser, IsNextWithin, IsWay, place_within};
ghost use Rattle.sr_send_needs.specs.Inner.Reading.{SearchCause};

use crate::surveying::is_given_up;
use crate::way::Way;
use sr_base::{Name, NoMemory, Offset};
use sr_database::{Database, DatabaseFault};
use sr_logform::Entry;
use sr_scan::{Views, given_by, views_of};
use sr_site::Site;
use sr_survey::Survey;
use sr_survey_places::Place;
use std::alloc::Global;

/// A user, the survey that lists places for him, and what he has of each table by its catalog.
#[derive(Clone, Copy)]
pub(crate) struct Viewer<'a> {
    pub user: &'a Name,
    pub survey: &'a Survey,
    pub views: &'a Views,
}

/// Whether a survey may tell what the log gives past an offset: it was not given up, and begins no later.
fn may_tell(survey: &Survey, sent: Offset) -> bool
    ensures may { IsTrue result → (survey.now.given_up ≡ None) × (survey.now.begin ≤ sent.0) }
{
    !is_given_up(survey) && survey.begin().0 <= sent.0
}

/// How what the log gives a user past an offset is sought up to a limit. It takes the time of two look-ups.
pub(crate) fn way_to(
    alloc: Global,
    survey: &Survey,
    user: &Name,
    sent: Offset,
    limit: Offset,
) -> Result<Way, NoMemory>
    ensures way { IfOk result (IsWay survey.now user.now sent.0 limit.0) }
{
    if !may_tell(survey, sent) {
        return Ok(Way::Log);
    }
    match next_within(alloc, survey, user, sent, limit)? {
        None => Ok(Way::Nothing),
        Some(_) => {
            if is_shown(alloc, survey, user, sent)? {
                return Ok(Way::Places);
            }
            Ok(Way::Log)
        }
    }
}

/// The place, if it begins before a limit.
fn place_within(found: Option<Place>, limit: Offset) -> Option<Place>
    ensures { result ≡ place_within limit.0 found }
{
    match found {
        Some(place) if place.start < limit.0 => Some(place),
        _ => None,
    }
}

/// The first place that is listed for a user and ends past an offset, if it begins before a limit.
fn next_within(
    alloc: Global,
    survey: &Survey,
    user: &Name,
    at: Offset,
    limit: Offset,
) -> Result<Option<Place>, NoMemory>
    ensures next { IfOk result (IsNextWithin survey.now user.now at.0 limit.0) }
{
    let first = survey.next(alloc, user, at)?;
    Ok(place_within(first, limit))
}

/// Whether the catalog of a survey shows a user at each of his places past an offset that hang on it what it showed him then.
fn is_shown(alloc: Global, survey: &Survey, user: &Name, sent: Offset) -> Result<bool, NoMemory>
    requires kept { survey.now.given_up ≡ None }
    requires begun { survey.now.begin ≤ sent.0 }
    ensures tells { IfOk result (λ shown. IsTrue shown → CanTell survey.now user.now sent.0) }
{
    match survey.next_shown(alloc, user, sent)? {
        None => Ok(true),
        Some(first) => Ok(survey.since(user).0 <= first.start),
    }
}

/// The place before the first entry, of those that a survey lists for a user past an offset, that gives him something; a limit where none before that
/// does. It takes the time of the entries up to there, that of a look-up for each, and once a pass or two over the subscriptions for each table.
pub(crate) fn need_listed<S: Site>(
    alloc: Global,
    db: &Database,
    site: &mut S,
    survey: &Survey,
    user: &Name,
    sent: Offset,
    limit: Offset,
    buffer: &mut Vec<u8>,
) -> Result<Offset, DatabaseFault>
    requires usable { db.now.log.usable ≡ true }
    requires limit { (db.now.log.base ≤ limit.0) × (limit.0 ≤ db.now.log.end) }
    requires tells { CanTell survey.now user.now sent.0 }
    requires whole { IsWhole db.now survey.now (S.seen site.old) }
    ensures least { IfOk result (IsLesser db.now user.now sent.0 limit.0 (S.seen site.old)) }
    ensures within { IfOk result (λ least. (db.now.log.base ≤ least.0) × (least.0 ≤ limit.0)) }
    ensures read { ReadAlone (S.seen site.old) (S.seen site.new) }
    ensures steady { OnOk result ((S.seen site.new).disk_faults ≡ (S.seen site.old).disk_faults) }
    ensures cause { IfErr result (SearchCause db.now (S.seen site.old) (S.seen site.new)) }
{
    let views = views_of(alloc, survey.catalog(), user)?;
    let viewer = Viewer {
        user,
        survey,
        views: &views,
    };
    let outcome = need_among(alloc, db, site, &viewer, sent, limit, buffer);
    drop(views);
    outcome
}

/// The same of a viewer, one place after the other.
fn need_among<S: Site>(
    alloc: Global,
    db: &Database,
    site: &mut S,
    viewer: &Viewer,
    sent: Offset,
    limit: Offset,
    buffer: &mut Vec<u8>,
) -> Result<Offset, DatabaseFault>
    requires usable { db.now.log.usable ≡ true }
    requires views { AreViews viewer.now.survey.now.catalog viewer.now.user.now viewer.now.views.now }
    requires limit { (db.now.log.base ≤ limit.0) × (limit.0 ≤ db.now.log.end) }
    requires tells { CanTell viewer.now.survey.now viewer.now.user.now sent.0 }
    requires whole { IsWhole db.now viewer.now.survey.now (S.seen site.old) }
    ensures least { IfOk result (IsLesser db.now viewer.now.user.now sent.0 limit.0 (S.seen site.old)) }
    ensures within { IfOk result (λ least. (db.now.log.base ≤ least.0) × (least.0 ≤ limit.0)) }
    ensures read { ReadAlone (S.seen site.old) (S.seen site.new) }
    ensures steady { OnOk result ((S.seen site.new).disk_faults ≡ (S.seen site.old).disk_faults) }
    ensures cause { IfErr result (SearchCause db.now (S.seen site.old) (S.seen site.new)) }
{
    let mut at = sent;
    'places: while let Some(place) = next_within(alloc, viewer.survey, viewer.user, at, limit)? {
        if gives_at(alloc, db, site, viewer, place, buffer)? {
            return Ok(Offset(place.start));
        }
        at = Offset(place.end);
    }
    Ok(limit)
}

/// Whether the entry at a place gives a viewer's user something. No entry before the base of the log is read.
fn gives_at<S: Site>(
    alloc: Global,
    db: &Database,
    site: &mut S,
    viewer: &Viewer,
    place: Place,
    buffer: &mut Vec<u8>,
) -> Result<bool, DatabaseFault>
    requires usable { db.now.log.usable ≡ true }
    requires views { AreViews viewer.now.survey.now.catalog viewer.now.user.now viewer.now.views.now }
    requires there { IsPlaceOf db.now place (S.seen site.old) }
    requires within { place.start ≤ db.now.log.end }
    ensures found { IfOk result (FindsAt db.now viewer.now.survey.now viewer.now.user.now place (S.seen site.old)) }
    ensures from_base { IfOk result (λ gives. IsTrue gives → db.now.log.base ≤ place.start) }
    ensures read { ReadAlone (S.seen site.old) (S.seen site.new) }
    ensures steady { OnOk result ((S.seen site.new).disk_faults ≡ (S.seen site.old).disk_faults) }
    ensures cause { IfErr result (SearchCause db.now (S.seen site.old) (S.seen site.new)) }
{
    if place.start < db.base().0 {
        return Ok(false);
    }
    match db.entry_read(alloc, site, Offset(place.start), buffer)? {
        None => Ok(false),
        Some((_, entry)) => {
            let any = gives_any(alloc, viewer, &entry);
            drop(entry);
            any
        }
    }
}

/// Whether an entry gives a viewer's user something, by the catalog of the survey.
fn gives_any(alloc: Global, viewer: &Viewer, entry: &Entry) -> Result<bool, DatabaseFault>
    requires views { AreViews viewer.now.survey.now.catalog viewer.now.user.now viewer.now.views.now }
    ensures any { IfOk result (IsAnyBy viewer.now.survey.now.catalog entry.now viewer.now.user.now) }
    ensures lack { IfErr result (λ fault. fault ≡ Memory) }
{
    let ops = given_by(
        alloc,
        viewer.survey.catalog(),
        viewer.views,
        entry,
        viewer.user,
    )?;
    let any = !ops.is_empty();
    drop(ops);
    Ok(any)
}
