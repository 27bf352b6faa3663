//! Where the log is read on from.
//!
//! What ends no later than the offset up to which the log was sent need not be read, where the catalog after it is known: it is that of the database,
//! if no statement ran in the entries that follow. So the ends of the entries are read, five bytes each, up to that offset, for it need be no end itself;
//! and then the kinds of the entries after it, and those entries whose kind does not tell that no statement ran.

ghost use Rattle.std.specs.Prelude.{◌≡◌, ◌≢◌, ◌≤◌, ◌<◌, ◌++◌, true, [], List, IsTrue, IfOk, IfErr, IfSome, OnOk};
ghost use Rattle.sr_book.specs.Entries.{Name as AName};
ghost use Rattle.sr_database_history.specs.Folds.{end_of};
ghost use Rattle.sr_database_history.specs.Recorded.{Recorded};
ghost use Rattle.sr_database.specs.Databases.{IsDatabase};
ghost use Rattle.sr_database.specs.Inner.Entries.{IsEndAfter, IsKindAfter, IsNextEnd};
ghost use Rattle.sr_send.specs.Posting.{IsSteady};
ghost use Rattle.sr_send.specs.Inner.Posting.{Posted};
ghost use Rattle.sr_send.specs.Inner.Starts.{Walked, IsStillEnd, IsStillKind, Looked, IsStill, Begun, BeginStop};
ghost use Rattle.sr_send.specs.Inner.Stops.{NextFault};
ghost use Rattle.sr_send.specs.declared.fault.SendFault.TheVariants.{Memory as memory};

use crate::aim::Aim;
use crate::fault::{SendFault, found_or_end};
use crate::passing::runs_nothing;
use crate::reading::next_entry;
use sr_base::{Name, NoMemory, Offset};
use sr_catalog::Catalog;
use sr_database::Database;
use sr_scan::Scanner;
use sr_site::Site;
use std::alloc::Global;
use std::mem::replace;

/// The end, where it lies past neither offset.
fn up_to(found: Option<Offset>, sent: Offset, last: Offset) -> Option<Offset>
    ensures found { IfSome result (λ end. found ≡ Some end) }
    ensures within { IfSome result (λ end. (end.0 ≤ sent.0) × (end.0 ≤ last.0)) }
{
    match found {
        Some(end) if end.0 <= sent.0 && end.0 <= last.0 => Some(end),
        _ => None,
    }
}

/// The end of the entry after an offset. It takes no memory.
fn found_end<S: Site>(
    db: &Database,
    site: &mut S,
    after: Offset,
) -> Result<Option<Offset>, SendFault>
    requires usable { db.now.log.usable ≡ true }
    requires after { (db.now.log.base ≤ after.0) × (after.0 ≤ db.now.log.end) }
    ensures end { IsTrue (S.seen site.old).observable → (publisher : AName) (done left : List Recorded) → IsDatabase db.now publisher (done ++ left) (S.seen site.old) → after.0 ≡ end_of done
        → IfOk result (IsEndAfter done left) }
    ensures later { IfOk result (λ found. IfSome found (λ end. after.0 < end.0)) }
    ensures posted { Posted (S.seen site.old) (S.seen site.new) [] }
    ensures steady { OnOk result (IsSteady (S.seen site.old) (S.seen site.new)) }
    ensures mail { (S.seen site.new).mail_faults ≡ (S.seen site.old).mail_faults }
    ensures cause { IfErr result (NextFault (S.seen site.old) (S.seen site.new)) }
    ensures memory { IfErr result (λ fault. fault ≢ memory) }
{
    let outcome = db.end_after(site, after);
    found_or_end(outcome)
}

/// The end of the entry after an offset, where it does not lie past another. It takes no memory.
fn next_end<S: Site>(
    db: &Database,
    site: &mut S,
    after: Offset,
    sent: Offset,
) -> Result<Option<Offset>, SendFault>
    requires usable { db.now.log.usable ≡ true }
    requires after { (db.now.log.base ≤ after.0) × (after.0 ≤ db.now.log.end) }
    ensures end { IsTrue (S.seen site.old).observable → (publisher : AName) (done left : List Recorded) → IsDatabase db.now publisher (done ++ left) (S.seen site.old) → after.0 ≡ end_of done
        → IfOk result (λ found. IfSome found (IsNextEnd done left)) }
    ensures within { IfOk result (λ found. IfSome found (λ end. (after.0 < end.0) × (end.0 ≤ db.now.log.end) × (end.0 ≤ sent.0))) }
    ensures posted { Posted (S.seen site.old) (S.seen site.new) [] }
    ensures steady { OnOk result (IsSteady (S.seen site.old) (S.seen site.new)) }
    ensures mail { (S.seen site.new).mail_faults ≡ (S.seen site.old).mail_faults }
    ensures cause { IfErr result (NextFault (S.seen site.old) (S.seen site.new)) }
    ensures memory { IfErr result (λ fault. fault ≢ memory) }
{
    match found_end(db, site, after) {
        Ok(found) => Ok(up_to(found, sent, db.end())),
        Err(fault) => Err(fault),
    }
}

/// The last end of an entry that does not lie past an offset; the base where there is none. It takes no memory.
pub(crate) fn end_before<S: Site>(
    db: &Database,
    site: &mut S,
    sent: Offset,
) -> Result<Offset, SendFault>
    requires usable { db.now.log.usable ≡ true }
    ensures walked { IfOk result (λ at. Walked db.now sent.0 at (S.seen site.old) (S.seen site.new)) }
    ensures cause { IfErr result (BeginStop (S.seen site.old) (S.seen site.new)) }
    ensures memory { IfErr result (λ fault. fault ≢ memory) }
{
    let usable_here = db.usable();
    prove!(usable_here);
    let mut at = db.base();
    'ends: while let Some(end) = next_end(db, site, at, sent)? {
        at = end;
    }
    Ok(at)
}

/// The end, where it is one.
fn kept(end: Offset, is_kept: bool) -> Option<Offset>
    ensures end { IfSome result (λ x. x ≡ end) }
    ensures kept { IfSome result (λ x. IsTrue is_kept) }
{
    if is_kept { Some(end) } else { None }
}

/// The end of the entry after an offset, with the byte that tells its kind.
fn next_kind<S: Site>(
    db: &Database,
    site: &mut S,
    after: Offset,
    buffer: &mut Vec<u8>,
) -> Result<Option<(Offset, u8)>, SendFault>
    requires usable { db.now.log.usable ≡ true }
    requires after { (db.now.log.base ≤ after.0) × (after.0 ≤ db.now.log.end) }
    ensures kind { IsTrue (S.seen site.old).observable → (publisher : AName) (done left : List Recorded) → IsDatabase db.now publisher (done ++ left) (S.seen site.old) → after.0 ≡ end_of done
        → IfOk result (IsKindAfter done left) }
    ensures within { IfOk result (λ found. IfSome found (λ x. (after.0 < x.0.0) × (x.0.0 ≤ db.now.log.end))) }
    ensures posted { Posted (S.seen site.old) (S.seen site.new) [] }
    ensures steady { OnOk result (IsSteady (S.seen site.old) (S.seen site.new)) }
    ensures mail { (S.seen site.new).mail_faults ≡ (S.seen site.old).mail_faults }
    ensures cause { IfErr result (NextFault (S.seen site.old) (S.seen site.new)) }
{
    let outcome = db.kind_after(site, after, buffer);
    found_or_end(outcome)
}

/// Whether entries of a kind run no statement: an Own, a Sync and a Note.
fn is_still_kind(kind: u8) -> bool
    ensures still { IsTrue result → IsStillKind kind }
{
    kind == 1 || kind == 4 || kind == 6
}

/// The end of the entry after an offset, where no statement of it ran.
fn still_end<S: Site>(
    alloc: Global,
    db: &Database,
    site: &mut S,
    after: Offset,
    buffer: &mut Vec<u8>,
) -> Result<Option<Offset>, SendFault>
    requires usable { db.now.log.usable ≡ true }
    requires after { (db.now.log.base ≤ after.0) × (after.0 ≤ db.now.log.end) }
    ensures end { IsTrue (S.seen site.old).observable → (publisher : AName) (done left : List Recorded) → IsDatabase db.now publisher (done ++ left) (S.seen site.old) → after.0 ≡ end_of done
        → IfOk result (λ found. IfSome found (IsStillEnd done left)) }
    ensures within { IfOk result (λ found. IfSome found (λ end. (after.0 < end.0) × (end.0 ≤ db.now.log.end))) }
    ensures posted { Posted (S.seen site.old) (S.seen site.new) [] }
    ensures steady { OnOk result (IsSteady (S.seen site.old) (S.seen site.new)) }
    ensures mail { (S.seen site.new).mail_faults ≡ (S.seen site.old).mail_faults }
    ensures cause { IfErr result (NextFault (S.seen site.old) (S.seen site.new)) }
{
    match next_kind(db, site, after, buffer)? {
        None => Ok(None),
        Some((end, kind)) => {
            if is_still_kind(kind) {
                return Ok(Some(end));
            }
            read_still(alloc, db, site, after, buffer)
        }
    }
}

/// The end of the entry after an offset, which is read whole, where no statement of it ran.
fn read_still<S: Site>(
    alloc: Global,
    db: &Database,
    site: &mut S,
    after: Offset,
    buffer: &mut Vec<u8>,
) -> Result<Option<Offset>, SendFault>
    requires usable { db.now.log.usable ≡ true }
    requires after { (db.now.log.base ≤ after.0) × (after.0 ≤ db.now.log.end) }
    ensures end { IsTrue (S.seen site.old).observable → (publisher : AName) (done left : List Recorded) → IsDatabase db.now publisher (done ++ left) (S.seen site.old) → after.0 ≡ end_of done
        → IfOk result (λ found. IfSome found (IsStillEnd done left)) }
    ensures within { IfOk result (λ found. IfSome found (λ end. (after.0 < end.0) × (end.0 ≤ db.now.log.end))) }
    ensures posted { Posted (S.seen site.old) (S.seen site.new) [] }
    ensures steady { OnOk result (IsSteady (S.seen site.old) (S.seen site.new)) }
    ensures mail { (S.seen site.new).mail_faults ≡ (S.seen site.old).mail_faults }
    ensures cause { IfErr result (NextFault (S.seen site.old) (S.seen site.new)) }
{
    match next_entry(alloc, db, site, after, buffer)? {
        None => Ok(None),
        Some((end, entry)) => {
            let is_still = runs_nothing(&entry);
            drop(entry);
            Ok(kept(end, is_still))
        }
    }
}

/// Whether no statement ran in the entries after an offset. They are read up to the first in which one did.
pub(crate) fn is_still<S: Site>(
    alloc: Global,
    db: &Database,
    site: &mut S,
    from: Offset,
    buffer: &mut Vec<u8>,
) -> Result<bool, SendFault>
    requires usable { db.now.log.usable ≡ true }
    requires from { (db.now.log.base ≤ from.0) × (from.0 ≤ db.now.log.end) }
    ensures still { IfOk result (λ still. IsTrue still → IsStill db.now from (S.seen site.old)) }
    ensures posted { OnOk result (Posted (S.seen site.old) (S.seen site.new) []) }
    ensures steady { OnOk result (IsSteady (S.seen site.old) (S.seen site.new)) }
    ensures cause { IfErr result (BeginStop (S.seen site.old) (S.seen site.new)) }
{
    let mut at = from;
    'entries: while let Some(end) = still_end(alloc, db, site, at, buffer)? {
        at = end;
    }
    Ok(at.0 == db.end().0)
}

/// Where the log is read on from by a scanner that has the catalog of its base: at the last end of an entry before what was sent, with the catalog of the
/// database, if that is the one there; else at the base.
pub(crate) fn begin_at<S: Site>(
    alloc: Global,
    db: &Database,
    site: &mut S,
    aim: &Aim,
    scanner: &mut Scanner,
    user: &Name,
    buffer: &mut Vec<u8>,
) -> Result<Offset, SendFault>
    requires usable { db.now.log.usable ≡ true }
    requires user { scanner.old.user ≡ user.now }
    requires catalog { scanner.old.catalog ≡ db.now.base_catalog }
    ensures begun { IfOk result (λ after. Begun db.now aim.now scanner.new after (S.seen site.old) (S.seen site.new)) }
    ensures user { scanner.new.user ≡ scanner.old.user }
    ensures cause { IfErr result (BeginStop (S.seen site.old) (S.seen site.new)) }
{
    let usable_here = db.usable();
    prove!(usable_here);
    let from = end_before(db, site, aim.prev)?;
    if !is_still(alloc, db, site, from, buffer)? {
        return Ok(db.base());
    }
    go_on_with(alloc, scanner, db.catalog(), user)?;
    Ok(from)
}

/// Lets the scanner for a user go on with another catalog.
fn go_on_with(
    alloc: Global,
    scanner: &mut Scanner,
    catalog: &Catalog,
    user: &Name,
) -> Result<(), NoMemory>
    requires user { scanner.old.user ≡ user.now }
    ensures catalog { OnOk result (scanner.new.catalog ≡ catalog.now) }
    ensures user { scanner.new.user ≡ scanner.old.user }
{
    let next = Scanner::new(alloc, catalog, user)?;
    take_over(scanner, next);
    Ok(())
}

/// Puts a scanner in the place of another, which is dropped.
fn take_over(scanner: &mut Scanner, next: Scanner)
    ensures { scanner.new ≡ next }
{
    drop(replace(scanner, next));
}
