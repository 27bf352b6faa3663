//! Where the log is read on from.
//!
//! What ends no later than what every partner has confirmed need not be read, where the catalog after it is known: it is that of the database, if no
//! statement ran in the entries that follow. So the ends of the entries are read, five bytes each, up to that offset; and then the kinds of the entries
//! after it, and those entries whose kind does not tell that no statement ran.

ghost use Rattle.std.specs.Prelude.{◌≡◌, ◌≤◌, ◌<◌, ◌++◌, true, List, IsTrue, IfOk, IfErr, IfSome, OnOk, Some};
ghost use Rattle.sr_book.specs.Entries.{Name as AName};
ghost use Rattle.sr_database_files.specs.Inner.Openings.{ReadAlone};
ghost use Rattle.sr_database_history.specs.Folds.{end_of};
ghost use Rattle.sr_database_history.specs.Recorded.{Recorded};
ghost use Rattle.sr_database.specs.Databases.{IsDatabase};
ghost use Rattle.sr_database.specs.Inner.Causes.{EntryCause};
ghost use Rattle.sr_database.specs.Inner.Entries.{IsNextEnd};
ghost use Rattle.sr_send.specs.Inner.Starts.{IsStillEnd, IsStillKind, IsStill};
ghost use Rattle.sr_send_needs.specs.Inner.Ends.{IsEndOf};
ghost use Rattle.sr_send_needs.specs.Inner.Reading.{SearchCause};
ghost use Rattle.sr_send_needs.specs.Inner.Starting.{WalkedTo, IsStart, catalog_in};

use crate::start::Start;
use sr_base::Offset;
use sr_catalog::Catalog;
use sr_database::{Database, DatabaseFault};
use sr_send::runs_nothing;
use sr_site::Site;
use std::alloc::Global;

/// The end, where it lies past neither offset.
fn up_to(found: Option<Offset>, sent: Offset, last: Offset) -> Option<Offset>
    ensures found { IfSome result (λ end. found ≡ Some end) }
    ensures within { IfSome result (λ end. (end.0 ≤ sent.0) × (end.0 ≤ last.0)) }
{
    match found {
        Some(end) if end.0 <= sent.0 && end.0 <= last.0 => Some(end),
        _ => None,
    }
}

/// The end of the entry after an offset, where it does not lie past another. It takes no memory.
fn next_end<S: Site>(
    db: &Database,
    site: &mut S,
    after: Offset,
    sent: Offset,
) -> Result<Option<Offset>, DatabaseFault>
    requires usable { db.now.log.usable ≡ true }
    requires after { (db.now.log.base ≤ after.0) × (after.0 ≤ db.now.log.end) }
    ensures end { IsTrue (S.seen site.old).observable → (publisher : AName) (done left : List Recorded) → IsDatabase db.now publisher (done ++ left) (S.seen site.old) → after.0 ≡ end_of done
        → IfOk result (λ found. IfSome found (IsNextEnd done left)) }
    ensures within { IfOk result (λ found. IfSome found (λ end. (after.0 < end.0) × (end.0 ≤ db.now.log.end) × (end.0 ≤ sent.0))) }
    ensures read { ReadAlone (S.seen site.old) (S.seen site.new) }
    ensures steady { OnOk result ((S.seen site.new).disk_faults ≡ (S.seen site.old).disk_faults) }
    ensures cause { IfErr result (EntryCause db.now after (S.seen site.old) (S.seen site.new)) }
{
    match db.end_after(site, after) {
        Ok(found) => Ok(up_to(found, sent, db.end())),
        Err(fault) => Err(fault),
    }
}

/// The last end of an entry, or the base, that does not lie past an offset. It takes no memory.
fn last_end<S: Site>(db: &Database, site: &mut S, sent: Offset) -> Result<Offset, DatabaseFault>
    requires usable { db.now.log.usable ≡ true }
    requires sent { db.now.log.base ≤ sent.0 }
    ensures walked { IfOk result (λ at. WalkedTo db.now sent.0 at (S.seen site.old) (S.seen site.new)) }
    ensures read { ReadAlone (S.seen site.old) (S.seen site.new) }
    ensures cause { IfErr result (SearchCause db.now (S.seen site.old) (S.seen site.new)) }
{
    let usable_here = db.usable();
    prove!(usable_here);
    let mut at = db.base();
    'ends: while let Some(end) = next_end(db, site, at, sent)? {
        at = end;
    }
    Ok(at)
}

/// The end, where it is one.
fn kept(end: Offset, is_kept: bool) -> Option<Offset>
    ensures end { IfSome result (λ x. x ≡ end) }
    ensures kept { IfSome result (λ x. IsTrue is_kept) }
{
    if is_kept { Some(end) } else { None }
}

/// Whether entries of a kind run no statement: an Own, a Sync and a Note.
fn is_still_kind(kind: u8) -> bool
    ensures still { IsTrue result → IsStillKind kind }
{
    kind == 1 || kind == 4 || kind == 6
}

/// The end of the entry after an offset, where no statement of it ran.
fn still_end<S: Site>(
    alloc: Global,
    db: &Database,
    site: &mut S,
    after: Offset,
    buffer: &mut Vec<u8>,
) -> Result<Option<Offset>, DatabaseFault>
    requires usable { db.now.log.usable ≡ true }
    requires after { (db.now.log.base ≤ after.0) × (after.0 ≤ db.now.log.end) }
    ensures end { IsTrue (S.seen site.old).observable → (publisher : AName) (done left : List Recorded) → IsDatabase db.now publisher (done ++ left) (S.seen site.old) → after.0 ≡ end_of done
        → IfOk result (λ found. IfSome found (IsStillEnd done left)) }
    ensures within { IfOk result (λ found. IfSome found (λ end. (after.0 < end.0) × (end.0 ≤ db.now.log.end))) }
    ensures read { ReadAlone (S.seen site.old) (S.seen site.new) }
    ensures steady { OnOk result ((S.seen site.new).disk_faults ≡ (S.seen site.old).disk_faults) }
    ensures cause { IfErr result (EntryCause db.now after (S.seen site.old) (S.seen site.new)) }
{
    match db.kind_after(site, after, buffer)? {
        None => Ok(None),
        Some((end, kind)) => {
            if is_still_kind(kind) {
                return Ok(Some(end));
            }
            read_still(alloc, db, site, after, buffer)
        }
    }
}

/// The end of the entry after an offset, which is read whole, where no statement of it ran.
fn read_still<S: Site>(
    alloc: Global,
    db: &Database,
    site: &mut S,
    after: Offset,
    buffer: &mut Vec<u8>,
) -> Result<Option<Offset>, DatabaseFault>
    requires usable { db.now.log.usable ≡ true }
    requires after { (db.now.log.base ≤ after.0) × (after.0 ≤ db.now.log.end) }
    ensures end { IsTrue (S.seen site.old).observable → (publisher : AName) (done left : List Recorded) → IsDatabase db.now publisher (done ++ left) (S.seen site.old) → after.0 ≡ end_of done
        → IfOk result (λ found. IfSome found (IsStillEnd done left)) }
    ensures within { IfOk result (λ found. IfSome found (λ end. (after.0 < end.0) × (end.0 ≤ db.now.log.end))) }
    ensures read { ReadAlone (S.seen site.old) (S.seen site.new) }
    ensures steady { OnOk result ((S.seen site.new).disk_faults ≡ (S.seen site.old).disk_faults) }
    ensures cause { IfErr result (EntryCause db.now after (S.seen site.old) (S.seen site.new)) }
{
    match db.entry_read(alloc, site, after, buffer)? {
        None => Ok(None),
        Some((end, entry)) => {
            let is_still = runs_nothing(&entry);
            drop(entry);
            Ok(kept(end, is_still))
        }
    }
}

/// Whether no statement ran in the entries after an offset. They are read up to the first in which one did.
fn is_still<S: Site>(
    alloc: Global,
    db: &Database,
    site: &mut S,
    from: Offset,
    buffer: &mut Vec<u8>,
) -> Result<bool, DatabaseFault>
    requires usable { db.now.log.usable ≡ true }
    requires from { (db.now.log.base ≤ from.0) × (from.0 ≤ db.now.log.end) }
    requires end { IsTrue (S.seen site.old).observable → (publisher : AName) (es : List Recorded) → IsDatabase db.now publisher es (S.seen site.old) → IsEndOf es from.0 }
    ensures still { IfOk result (λ still. IsTrue still → IsStill db.now from (S.seen site.old)) }
    ensures read { ReadAlone (S.seen site.old) (S.seen site.new) }
    ensures steady { OnOk result ((S.seen site.new).disk_faults ≡ (S.seen site.old).disk_faults) }
    ensures cause { IfErr result (SearchCause db.now (S.seen site.old) (S.seen site.new)) }
{
    let mut at = from;
    'entries: while let Some(end) = still_end(alloc, db, site, at, buffer)? {
        at = end;
    }
    Ok(at.0 == db.end().0)
}

/// Where the log is read on from: at the last end of an entry up to an offset, with the catalog of the database, if that is the one there; else at the base.
pub(crate) fn begin<S: Site>(
    alloc: Global,
    db: &Database,
    site: &mut S,
    sent: Offset,
    buffer: &mut Vec<u8>,
) -> Result<Start, DatabaseFault>
    requires usable { db.now.log.usable ≡ true }
    requires sent { db.now.log.base ≤ sent.0 }
    ensures start { IfOk result (λ start. IsStart db.now start (S.seen site.old)) }
    ensures before { IfOk result (λ start. start.at.0 ≤ sent.0) }
    ensures read { ReadAlone (S.seen site.old) (S.seen site.new) }
    ensures steady { OnOk result ((S.seen site.new).disk_faults ≡ (S.seen site.old).disk_faults) }
    ensures cause { IfErr result (SearchCause db.now (S.seen site.old) (S.seen site.new)) }
{
    let usable_here = db.usable();
    prove!(usable_here);
    let at = last_end(db, site, sent)?;
    if is_still(alloc, db, site, at, buffer)? {
        return Ok(Start { at, is_now: true });
    }
    Ok(Start {
        at: db.base(),
        is_now: false,
    })
}

/// The catalog where the log is read on from.
pub(crate) fn catalog_at(db: &Database, start: Start) -> &Catalog
    requires usable { db.now.log.usable ≡ true }
    ensures catalog { result.now ≡ catalog_in db.now start.is_now }
{
    if start.is_now {
        db.catalog()
    } else {
        db.base_catalog()
    }
}
