//! A log read entry by entry, and what it gives put as messages.

ghost use Rattle.std.specs.Prelude.{◌≡◌, ◌≤◌, ◌<◌, ◌++◌, true, false, [], List, IsTrue, IfOk, IfErr, IfSome, OnOk};
ghost use Rattle.sr_book.specs.Entries.{Name as AName};
ghost use Rattle.sr_database_history.specs.Folds.{end_of};
ghost use Rattle.sr_database_history.specs.Recorded.{Recorded};
ghost use Rattle.sr_database.specs.Databases.{IsDatabase};
ghost use Rattle.sr_database.specs.Inner.Entries.{IsEntryAfter, IsBriefAfter};
ghost use Rattle.sr_send.specs.Inner.Aims.{IsAim, HasMade, HasMadeSome};
ghost use Rattle.sr_send.specs.Posting.{IsSteady};
ghost use Rattle.sr_send.specs.Inner.Posting.{Posted};
ghost use Rattle.sr_send.specs.Inner.Steps.{IsBehind, DoneStep, AllRead, stepped_to};
ghost use Rattle.sr_send.specs.Inner.Stops.{NextFault, StepStop, ReadStop};

use crate::aim::Aim;
use crate::fault::{SendFault, found_or_end};
use crate::post::Post;
use crate::pushing::feed_one;
use crate::starting::begin_at;
use sr_base::{Name, Offset};
use sr_database::Database;
use sr_logform::Entry;
use sr_scan::Scanner;
use sr_site::Site;
use std::alloc::Global;

/// The entry after an offset, with its end, read into a buffer that is lent.
pub(crate) fn next_entry<S: Site>(
    alloc: Global,
    db: &Database,
    site: &mut S,
    after: Offset,
    buffer: &mut Vec<u8>,
) -> Result<Option<(Offset, Entry)>, SendFault>
    requires usable { db.now.log.usable ≡ true }
    requires after { (db.now.log.base ≤ after.0) × (after.0 ≤ db.now.log.end) }
    ensures entry { IsTrue (S.seen site.old).observable → (publisher : AName) (done left : List Recorded) → IsDatabase db.now publisher (done ++ left) (S.seen site.old) → after.0 ≡ end_of done
        → IfOk result (IsEntryAfter done left) }
    ensures within { IfOk result (λ found. IfSome found (λ x. (after.0 < x.0.0) × (x.0.0 ≤ db.now.log.end))) }
    ensures posted { Posted (S.seen site.old) (S.seen site.new) [] }
    ensures steady { OnOk result (IsSteady (S.seen site.old) (S.seen site.new)) }
    ensures mail { (S.seen site.new).mail_faults ≡ (S.seen site.old).mail_faults }
    ensures cause { IfErr result (NextFault (S.seen site.old) (S.seen site.new)) }
{
    let outcome = db.entry_read(alloc, site, after, buffer);
    found_or_end(outcome)
}

/// As `next_entry`, after any offset: none follows one that does not lie within the log. No entry before its base is read.
pub(crate) fn entry_from<S: Site>(
    alloc: Global,
    db: &Database,
    site: &mut S,
    after: Offset,
    buffer: &mut Vec<u8>,
) -> Result<Option<(Offset, Entry)>, SendFault>
    requires usable { db.now.log.usable ≡ true }
    ensures entry { IsTrue (S.seen site.old).observable → (publisher : AName) (done left : List Recorded) → IsDatabase db.now publisher (done ++ left) (S.seen site.old) → after.0 ≡ end_of done → db.now.log.base ≤ after.0
        → IfOk result (IsEntryAfter done left) }
    ensures within { IfOk result (λ found. IfSome found (λ x. (after.0 < x.0.0) × (x.0.0 ≤ db.now.log.end))) }
    ensures posted { Posted (S.seen site.old) (S.seen site.new) [] }
    ensures steady { OnOk result (IsSteady (S.seen site.old) (S.seen site.new)) }
    ensures mail { (S.seen site.new).mail_faults ≡ (S.seen site.old).mail_faults }
    ensures cause { IfErr result (NextFault (S.seen site.old) (S.seen site.new)) }
{
    if !is_within(db, after) {
        return Ok(None);
    }
    next_entry(alloc, db, site, after, buffer)
}

/// As `next_entry`, the entry in brief.
fn next_brief<S: Site>(
    alloc: Global,
    db: &Database,
    site: &mut S,
    after: Offset,
    buffer: &mut Vec<u8>,
) -> Result<Option<(Offset, Entry)>, SendFault>
    requires usable { db.now.log.usable ≡ true }
    requires after { (db.now.log.base ≤ after.0) × (after.0 ≤ db.now.log.end) }
    ensures brief { IsTrue (S.seen site.old).observable → (publisher : AName) (done left : List Recorded) → IsDatabase db.now publisher (done ++ left) (S.seen site.old) → after.0 ≡ end_of done
        → IfOk result (IsBriefAfter done left) }
    ensures within { IfOk result (λ found. IfSome found (λ x. (after.0 < x.0.0) × (x.0.0 ≤ db.now.log.end))) }
    ensures posted { Posted (S.seen site.old) (S.seen site.new) [] }
    ensures steady { OnOk result (IsSteady (S.seen site.old) (S.seen site.new)) }
    ensures mail { (S.seen site.new).mail_faults ≡ (S.seen site.old).mail_faults }
    ensures cause { IfErr result (NextFault (S.seen site.old) (S.seen site.new)) }
{
    let found = db.brief_read(alloc, site, after, buffer);
    found_or_end(found)
}

/// As `next_brief`, after any offset: none follows one that does not lie within the log. No entry before its base is read.
pub(crate) fn brief_from<S: Site>(
    alloc: Global,
    db: &Database,
    site: &mut S,
    after: Offset,
    buffer: &mut Vec<u8>,
) -> Result<Option<(Offset, Entry)>, SendFault>
    requires usable { db.now.log.usable ≡ true }
    ensures brief { IsTrue (S.seen site.old).observable → (publisher : AName) (done left : List Recorded) → IsDatabase db.now publisher (done ++ left) (S.seen site.old) → after.0 ≡ end_of done → db.now.log.base ≤ after.0
        → IfOk result (IsBriefAfter done left) }
    ensures within { IfOk result (λ found. IfSome found (λ x. (after.0 < x.0.0) × (x.0.0 ≤ db.now.log.end))) }
    ensures posted { Posted (S.seen site.old) (S.seen site.new) [] }
    ensures steady { OnOk result (IsSteady (S.seen site.old) (S.seen site.new)) }
    ensures mail { (S.seen site.new).mail_faults ≡ (S.seen site.old).mail_faults }
    ensures cause { IfErr result (NextFault (S.seen site.old) (S.seen site.new)) }
{
    if !is_within(db, after) {
        return Ok(None);
    }
    next_brief(alloc, db, site, after, buffer)
}

/// Whether an offset lies within the log.
fn is_within(db: &Database, at: Offset) -> bool
    requires usable { db.now.log.usable ≡ true }
    ensures within { IsTrue result → (db.now.log.base ≤ at.0) × (at.0 ≤ db.now.log.end) }
    ensures without { result ≡ false → db.now.log.base ≤ at.0 → at.0 ≤ db.now.log.end → ⊥ }
{
    db.base().0 <= at.0 && at.0 <= db.end().0
}

/// A step to the end of an entry, where what it gives was put.
pub(crate) fn stepped_to(
    end: Offset,
    outcome: Result<(), SendFault>,
) -> Result<Option<Offset>, SendFault>
    ensures { result ≡ stepped_to end outcome }
{
    match outcome {
        Ok(()) => Ok(Some(end)),
        Err(fault) => Err(fault),
    }
}

/// Reads the entry after an offset and puts what it gives; answers its end.
fn step<S: Site>(
    alloc: Global,
    db: &Database,
    site: &mut S,
    aim: &Aim,
    scanner: &mut Scanner,
    post: &mut Post,
    after: Offset,
    buffer: &mut Vec<u8>,
) -> Result<Option<Offset>, SendFault>
    requires usable { db.now.log.usable ≡ true }
    requires after { (db.now.log.base ≤ after.0) × (after.0 ≤ db.now.log.end) }
    requires aim { IsAim aim.now }
    requires made { HasMadeSome aim.now post.old }
    requires behind { IsBehind aim.now.prev.0 after.0 post.old.end.0 }
    ensures done { IfOk result (DoneStep db.now aim.now scanner.old scanner.new post.old post.new after (S.seen site.old) (S.seen site.new)) }
    ensures cause { IfErr result (StepStop db.now aim.now scanner.old post.old after (S.seen site.old) (S.seen site.new)) }
{
    match next_entry(alloc, db, site, after, buffer)? {
        None => Ok(None),
        Some((end, entry)) => {
            let outcome = feed_one(alloc, site, aim, scanner, post, end, &entry);
            drop(entry);
            stepped_to(end, outcome)
        }
    }
}

/// Reads a log on to its end, from where it has to be read, and puts what it gives.
pub(crate) fn put_given<S: Site>(
    alloc: Global,
    db: &Database,
    site: &mut S,
    aim: &Aim,
    scanner: &mut Scanner,
    user: &Name,
    post: &mut Post,
) -> Result<(), SendFault>
    requires usable { db.now.log.usable ≡ true }
    requires aim { IsAim aim.now }
    requires made { HasMade aim.now post.old [] [] }
    requires user { scanner.old.user ≡ user.now }
    requires catalog { scanner.old.catalog ≡ db.now.base_catalog }
    ensures read { OnOk result (AllRead db.now aim.now scanner.old.user post.new (S.seen site.old) (S.seen site.new)) }
    ensures cause { IfErr result (ReadStop db.now aim.now scanner.old.user (S.seen site.old) (S.seen site.new)) }
{
    let mut buffer = Vec::new(alloc);
    let mut after = begin_at(alloc, db, site, aim, scanner, user, &mut buffer)?;
    'entries: while let Some(end) = step(alloc, db, site, aim, scanner, post, after, &mut buffer)? {
        after = end;
    }
    Ok(())
}
