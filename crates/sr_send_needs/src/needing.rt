//! The least need of all partners.

ghost use Rattle.std.specs.Prelude.{◌≡◌, ◌≤◌, true, List, IsTrue, IsSome, IfOk, IfErr, OnOk};
ghost use Rattle.std.specs.List.{AllByRecursion};
ghost use Rattle.sr_book.specs.Entries.{Name as AName};
ghost use Rattle.sr_catalog_schema.specs.Members.{user_name};
ghost use Rattle.sr_catalog_schema.specs.Names.{named};
ghost use Rattle.sr_database_files.specs.Inner.Openings.{ReadAlone};
ghost use Rattle.sr_database_history.specs.Recorded.{Recorded};
ghost use Rattle.sr_database.specs.Databases.{IsDatabase};
ghost use Rattle.sr_database.specs.InForce.{HasLogInForce};
ghost use Rattle.sr_send_needs.specs.Inner.Reading.{NeedCause, SearchCause};
ghost use Rattle.sr_send_needs.specs.Inner.Seeking.{AreGranted, HasConfirmed, confirmed_by};
ghost use Rattle.sr_send_needs.specs.Inner.Starting.{IsStart};
ghost use Rattle.sr_send_needs.specs.Inner.Surveying.{SurveysWhole};
ghost use Rattle.sr_send_needs.specs.Needs.{least_need};

use crate::fault::{NeedFault, need_fault};
use crate::seeking::lesser_need;
use crate::start::Start;
use crate::starting::begin;
use crate::surveying::survey_for;
use sr_base::{Name, Offset};
use sr_catalog_schema::User;
use sr_database::{Database, DatabaseFault};
use sr_site::Site;
use sr_survey::Survey;
use std::alloc::Global;

/// Up to where the log is needed by no partner: the place before the first entry, past the base, that gives one of them something that he has not
/// confirmed, and the end of the log where none does. What lies past it is needed; up to it the log may be begun anew.
///
/// Nothing happens but reads. The ends of the entries are read up to what all have confirmed, and the kinds of those after it. Where there are several
/// partners, the entries behind that are read once for a survey of them; and then for each partner, up to the least need so far, those that it lists for him
/// past what he has confirmed, to the first that gives him something. What the survey can not tell of a partner, for there is none, it was given up, or a
/// statement changed what he is shown behind the first of them that is more than a statement passed on to him, is read for him alone, entry by entry, but only
/// where it lists something for him before the least need so far. Where a statement ran behind what all have confirmed the entries are read from the base.
///
/// `Disk` comes only where the disk's count of faults rose. `Damaged` comes only on a disk that does not give what was written to it, or where no history
/// leads to the value.
pub fn least_need<S: Site>(alloc: Global, db: &Database, site: &mut S) -> Result<Offset, NeedFault>
    requires usable { db.now.log.usable ≡ true }
    ensures least { IsTrue (S.seen site.old).observable → (publisher : AName) (es : List Recorded) → IsDatabase db.now publisher es (S.seen site.old)
        → IfOk result (λ least. least.0 ≡ least_need publisher es db.now.log.base) }
    ensures within { IfOk result (λ least. (db.now.log.base ≤ least.0) × (least.0 ≤ db.now.log.end)) }
    ensures read { ReadAlone (S.seen site.old) (S.seen site.new) }
    ensures steady { OnOk result ((S.seen site.new).disk_faults ≡ (S.seen site.old).disk_faults) }
    ensures in_force { IsTrue (S.seen site.old).observable → HasLogInForce db.now (S.seen site.old) → HasLogInForce db.now (S.seen site.new) }
    ensures cause { IfErr result (NeedCause db.now (S.seen site.old) (S.seen site.new)) }
{
    match least_of_all(alloc, db, site) {
        Ok(least) => Ok(least),
        Err(fault) => Err(need_fault(fault)),
    }
}

/// The least need of all who are granted.
fn least_of_all<S: Site>(
    alloc: Global,
    db: &Database,
    site: &mut S,
) -> Result<Offset, DatabaseFault>
    requires usable { db.now.log.usable ≡ true }
    ensures least { IsTrue (S.seen site.old).observable → (publisher : AName) (es : List Recorded) → IsDatabase db.now publisher es (S.seen site.old)
        → IfOk result (λ least. least.0 ≡ least_need publisher es db.now.log.base) }
    ensures within { IfOk result (λ least. (db.now.log.base ≤ least.0) × (least.0 ≤ db.now.log.end)) }
    ensures read { ReadAlone (S.seen site.old) (S.seen site.new) }
    ensures steady { OnOk result ((S.seen site.new).disk_faults ≡ (S.seen site.old).disk_faults) }
    ensures cause { IfErr result (SearchCause db.now (S.seen site.old) (S.seen site.new)) }
{
    let users = db.catalog().users();
    let mut buffer = Vec::new(alloc);
    let start = begin(alloc, db, site, all_confirmed(db, users), &mut buffer)?;
    least_past(alloc, db, site, start, users, &mut buffer)
}

/// What a user has confirmed, or the base of the log where that lies past it.
pub(crate) fn confirmed(db: &Database, user: &Name) -> Offset
    requires usable { db.now.log.usable ≡ true }
    requires granted { IsSome (named user_name user.now db.now.catalog.users) }
    ensures { result.0 ≡ confirmed_by db.now user.now }
{
    let base = db.base();
    match db.book(user) {
        Some(book) if base.0 < book.confirm_sent => Offset(book.confirm_sent),
        _ => base,
    }
}

/// Up to where each of some users has confirmed the log. It takes one pass over them.
fn all_confirmed(db: &Database, users: &[User]) -> Offset
    requires usable { db.now.log.usable ≡ true }
    requires granted { AreGranted db.now users.now }
    ensures confirmed { AllByRecursion (HasConfirmed db.now result.0) users.now }
    ensures from_base { db.now.log.base ≤ result.0 }
{
    let usable_here = db.usable();
    prove!(usable_here);
    let mut least = db.end();
    let mut left = users;
    'users: while let Some((user, rest)) = left.split_first() {
        least = with_user(db, least, user);
        left = rest;
    }
    least
}

/// The lesser of an offset and what a user has confirmed.
fn with_user(db: &Database, least: Offset, user: &User) -> Offset
    requires usable { db.now.log.usable ≡ true }
    requires granted { IsSome (named user_name user.now.name db.now.catalog.users) }
    requires from_base { db.now.log.base ≤ least.0 }
    ensures no_more { result.0 ≤ least.0 }
    ensures confirmed { HasConfirmed db.now result.0 user.now }
    ensures from_base { db.now.log.base ≤ result.0 }
{
    let confirmed = confirmed(db, &user.name);
    if confirmed.0 < least.0 {
        confirmed
    } else {
        least
    }
}

/// The least need of all, sought from a beginning on.
fn least_past<S: Site>(
    alloc: Global,
    db: &Database,
    site: &mut S,
    start: Start,
    users: &[User],
    buffer: &mut Vec<u8>,
) -> Result<Offset, DatabaseFault>
    requires usable { db.now.log.usable ≡ true }
    requires start { IsStart db.now start (S.seen site.old) }
    requires users { users.now ≡ db.now.catalog.users }
    requires confirmed { AllByRecursion (HasConfirmed db.now start.at.0) users.now }
    ensures least { IsTrue (S.seen site.old).observable → (publisher : AName) (es : List Recorded) → IsDatabase db.now publisher es (S.seen site.old)
        → IfOk result (λ least. least.0 ≡ least_need publisher es db.now.log.base) }
    ensures within { IfOk result (λ least. (db.now.log.base ≤ least.0) × (least.0 ≤ db.now.log.end)) }
    ensures read { ReadAlone (S.seen site.old) (S.seen site.new) }
    ensures steady { OnOk result ((S.seen site.new).disk_faults ≡ (S.seen site.old).disk_faults) }
    ensures cause { IfErr result (SearchCause db.now (S.seen site.old) (S.seen site.new)) }
{
    let survey = survey_for(alloc, db, site, start, users, buffer)?;
    let outcome = least_of(alloc, db, site, start, &survey, users, buffer);
    drop(survey);
    outcome
}

/// The least need of some users.
fn least_of<S: Site>(
    alloc: Global,
    db: &Database,
    site: &mut S,
    start: Start,
    survey: &Option<Survey>,
    users: &[User],
    buffer: &mut Vec<u8>,
) -> Result<Offset, DatabaseFault>
    requires usable { db.now.log.usable ≡ true }
    requires start { IsStart db.now start (S.seen site.old) }
    requires whole { SurveysWhole db.now survey.now (S.seen site.old) }
    requires users { users.now ≡ db.now.catalog.users }
    requires confirmed { AllByRecursion (HasConfirmed db.now start.at.0) users.now }
    ensures least { IsTrue (S.seen site.old).observable → (publisher : AName) (es : List Recorded) → IsDatabase db.now publisher es (S.seen site.old)
        → IfOk result (λ least. least.0 ≡ least_need publisher es db.now.log.base) }
    ensures within { IfOk result (λ least. (db.now.log.base ≤ least.0) × (least.0 ≤ db.now.log.end)) }
    ensures read { ReadAlone (S.seen site.old) (S.seen site.new) }
    ensures steady { OnOk result ((S.seen site.new).disk_faults ≡ (S.seen site.old).disk_faults) }
    ensures cause { IfErr result (SearchCause db.now (S.seen site.old) (S.seen site.new)) }
{
    let usable_here = db.usable();
    prove!(usable_here);
    let mut least = db.end();
    let mut left = users;
    'users: while let Some((user, rest)) = left.split_first() {
        least = lesser_need(alloc, db, site, start, survey, &user.name, least, buffer)?;
        left = rest;
    }
    Ok(least)
}
