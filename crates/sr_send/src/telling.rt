//! The entries that a survey lists for a user, read where they stand, and what they give put as messages.

ghost use Rattle.std.specs.Prelude.{◌≡◌, ◌≤◌, ◌<◌, true, [], Some, None, IsTrue, IfOk, IfErr, IfSome, OnOk};
ghost use Rattle.sr_base.specs.Values.{offset_from};
ghost use Rattle.sr_scan.specs.Inner.Scanners.{transaction_of};
ghost use Rattle.sr_scan.specs.Inner.Views.{AreViews};
ghost use Rattle.sr_send.specs.Inner.Aims.{IsAim, HasMade, HasMadeSome};
ghost use Rattle.sr_send.specs.Inner.Places.{FoundAt, IsPlaceOf, IsToldBy, NextStop, PlaceStop, PutPlace, WentOn};
ghost use Rattle.sr_send.specs.Inner.Posting.{Posted};
ghost use Rattle.sr_send.specs.Inner.Steps.{AllRead, stepped_to};
ghost use Rattle.sr_send.specs.Inner.Stops.{NextFault, ReadStop};
ghost use Rattle.sr_send.specs.Inner.Surveys.{CanTell, KnowsAll};
ghost use Rattle.sr_send.specs.Posting.{IsSteady};

use crate::aim::Aim;
use crate::fault::SendFault;
use crate::post::Post;
use crate::pushing::push_found;
use crate::reading::{entry_from, stepped_to};
use sr_base::{Name, NoMemory, Offset, Seq};
use sr_database::Database;
use sr_logform::{Entry, Op, Transaction};
use sr_scan::{Views, given_by, views_of};
use sr_site::Site;
use sr_survey::Survey;
use sr_survey_places::Place;
use std::alloc::Global;

/// A user, the survey that lists places for him, and what he has of each table by its catalog.
#[derive(Clone, Copy)]
pub(crate) struct Viewer<'a> {
    pub user: &'a Name,
    pub survey: &'a Survey,
    pub views: &'a Views,
}

/// Reads the entries that a survey lists for a user past what he was sent, and puts what they give. It takes their time, that of a look-up for each, and
/// once a pass or two over the subscriptions for each table.
pub(crate) fn put_listed<S: Site>(
    alloc: Global,
    db: &Database,
    site: &mut S,
    aim: &Aim,
    survey: &Survey,
    user: &Name,
    post: &mut Post,
) -> Result<(), SendFault>
    requires usable { db.now.log.usable ≡ true }
    requires aim { IsAim aim.now }
    requires made { HasMade aim.now post.old [] [] }
    requires tells { CanTell survey.now user.now aim.now.prev.0 }
    requires whole { IsTrue (S.seen site.old).observable → KnowsAll db.now survey.now (S.seen site.old) }
    ensures read { OnOk result (AllRead db.now aim.now user.now post.new (S.seen site.old) (S.seen site.new)) }
    ensures cause { IfErr result (ReadStop db.now aim.now user.now (S.seen site.old) (S.seen site.new)) }
{
    let views = views_of(alloc, survey.catalog(), user)?;
    let viewer = Viewer {
        user,
        survey,
        views: &views,
    };
    let outcome = put_places(alloc, db, site, aim, &viewer, post);
    drop(views);
    outcome
}

/// Puts what the places give that a survey lists for a user past what he was sent, one after the other.
fn put_places<S: Site>(
    alloc: Global,
    db: &Database,
    site: &mut S,
    aim: &Aim,
    viewer: &Viewer,
    post: &mut Post,
) -> Result<(), SendFault>
    requires usable { db.now.log.usable ≡ true }
    requires views { AreViews viewer.now.survey.now.catalog viewer.now.user.now viewer.now.views.now }
    requires aim { IsAim aim.now }
    requires made { HasMade aim.now post.old [] [] }
    requires tells { CanTell viewer.now.survey.now viewer.now.user.now aim.now.prev.0 }
    requires whole { IsTrue (S.seen site.old).observable → KnowsAll db.now viewer.now.survey.now (S.seen site.old) }
    ensures read { OnOk result (AllRead db.now aim.now viewer.now.user.now post.new (S.seen site.old) (S.seen site.new)) }
    ensures cause { IfErr result (ReadStop db.now aim.now viewer.now.user.now (S.seen site.old) (S.seen site.new)) }
{
    let mut buffer = Vec::new(alloc);
    let mut at = aim.prev;
    'places: while let Some(end) = put_next(alloc, db, site, aim, viewer, post, at, &mut buffer)? {
        at = end;
    }
    Ok(())
}

/// Puts what the next place past an offset gives; answers where it ends.
fn put_next<S: Site>(
    alloc: Global,
    db: &Database,
    site: &mut S,
    aim: &Aim,
    viewer: &Viewer,
    post: &mut Post,
    at: Offset,
    buffer: &mut Vec<u8>,
) -> Result<Option<Offset>, SendFault>
    requires usable { db.now.log.usable ≡ true }
    requires views { AreViews viewer.now.survey.now.catalog viewer.now.user.now viewer.now.views.now }
    requires aim { IsAim aim.now }
    requires made { HasMadeSome aim.now post.old }
    requires begun { viewer.now.survey.now.begin ≤ at.0 }
    requires ends { post.old.end.0 ≤ at.0 }
    requires whole { IsTrue (S.seen site.old).observable → KnowsAll db.now viewer.now.survey.now (S.seen site.old) }
    ensures went { IfOk result (WentOn db.now aim.now viewer.now.survey.now viewer.now.user.now post.old post.new at (S.seen site.old) (S.seen site.new)) }
    ensures further { IfOk result (λ found. IfSome found (λ end. at.0 < end.0)) }
    ensures cause { IfErr result (NextStop db.now aim.now viewer.now.survey.now viewer.now.user.now post.old at (S.seen site.old) (S.seen site.new)) }
{
    match viewer.survey.next(alloc, viewer.user, at)? {
        None => Ok(None),
        Some(place) => {
            let outcome = put_place(alloc, db, site, aim, viewer, post, place, buffer);
            stepped_to(Offset(place.end), outcome)
        }
    }
}

/// Puts what the entry at a place gives.
fn put_place<S: Site>(
    alloc: Global,
    db: &Database,
    site: &mut S,
    aim: &Aim,
    viewer: &Viewer,
    post: &mut Post,
    place: Place,
    buffer: &mut Vec<u8>,
) -> Result<(), SendFault>
    requires usable { db.now.log.usable ≡ true }
    requires views { AreViews viewer.now.survey.now.catalog viewer.now.user.now viewer.now.views.now }
    requires aim { IsAim aim.now }
    requires made { HasMadeSome aim.now post.old }
    requires ends { post.old.end.0 < place.end }
    requires there { IsPlaceOf db.now place (S.seen site.old) }
    ensures put { OnOk result (PutPlace db.now aim.now viewer.now.survey.now viewer.now.user.now post.old post.new place (S.seen site.old) (S.seen site.new)) }
    ensures cause { IfErr result (PlaceStop db.now aim.now viewer.now.survey.now viewer.now.user.now post.old place (S.seen site.old) (S.seen site.new)) }
{
    let found = found_at(alloc, db, site, viewer, place, buffer)?;
    push_found(alloc, site, aim, post, found)
}

/// What the entry at a place gives, as a transaction that ends where the place does.
fn found_at<S: Site>(
    alloc: Global,
    db: &Database,
    site: &mut S,
    viewer: &Viewer,
    place: Place,
    buffer: &mut Vec<u8>,
) -> Result<Option<Transaction>, SendFault>
    requires usable { db.now.log.usable ≡ true }
    requires views { AreViews viewer.now.survey.now.catalog viewer.now.user.now viewer.now.views.now }
    requires there { IsPlaceOf db.now place (S.seen site.old) }
    ensures told { IfOk result (FoundAt db.now viewer.now.survey.now viewer.now.user.now place (S.seen site.old)) }
    ensures at { IfOk result (λ found. IfSome found (λ t. t.at ≡ offset_from place.end)) }
    ensures posted { Posted (S.seen site.old) (S.seen site.new) [] }
    ensures steady { OnOk result (IsSteady (S.seen site.old) (S.seen site.new)) }
    ensures mail { (S.seen site.new).mail_faults ≡ (S.seen site.old).mail_faults }
    ensures cause { IfErr result (NextFault (S.seen site.old) (S.seen site.new)) }
{
    match entry_from(alloc, db, site, Offset(place.start), buffer)? {
        None => Ok(None),
        Some((_, entry)) => {
            let told = told_by(alloc, viewer, Offset(place.end), &entry);
            drop(entry);
            match told {
                Ok(found) => Ok(found),
                Err(_) => Err(SendFault::Memory),
            }
        }
    }
}

/// What an entry that ends at an offset gives, by the catalog of the survey.
fn told_by(
    alloc: Global,
    viewer: &Viewer,
    end: Offset,
    entry: &Entry,
) -> Result<Option<Transaction>, NoMemory>
    requires views { AreViews viewer.now.survey.now.catalog viewer.now.user.now viewer.now.views.now }
    ensures told { IfOk result (IsToldBy viewer.now.survey.now.catalog entry.now viewer.now.user.now end) }
    ensures at { IfOk result (λ found. IfSome found (λ t. t.at ≡ end)) }
{
    let ops = given_by(
        alloc,
        viewer.survey.catalog(),
        viewer.views,
        entry,
        viewer.user,
    )?;
    Ok(transaction_of(end, ops))
}

/// The transaction of ops; `None` where there are none.
fn transaction_of(at: Offset, ops: Vec<Op>) -> Option<Transaction>
    ensures found { result ≡ transaction_of at ops.items }
    ensures at { IfSome result (λ t. t.at ≡ at) }
{
    if ops.is_empty() {
        return None;
    }
    Some(Transaction {
        at,
        ops: Seq::from_vec(ops),
    })
}
