//! The log read on until it gives a user something past an offset.

ghost use Rattle.std.specs.Prelude.{◌≡◌, ◌≤◌, min, true, List, IsTrue, IfOk, IfErr, OnOk};
ghost use Rattle.sr_book.specs.Entries.{Name as AName};
ghost use Rattle.sr_database_files.specs.Inner.Openings.{ReadAlone};
ghost use Rattle.sr_database_history.specs.Folds.{fresh};
ghost use Rattle.sr_database_history.specs.Recorded.{Recorded};
ghost use Rattle.sr_database.specs.Databases.{IsDatabase};
ghost use Rattle.sr_database.specs.Inner.Causes.{EntryCause};
ghost use Rattle.sr_database_files.specs.declared.fault.DatabaseFault.TheVariants.{Memory};
ghost use Rattle.sr_send_needs.specs.Inner.Reading.{SearchCause};
ghost use Rattle.sr_send_needs.specs.Inner.Searching.{IsAsked, IsStep, HasPassed, step_to};
ghost use Rattle.sr_send_needs.specs.Needs.{end_before};

use sr_base::Offset;
use sr_database::{Database, DatabaseFault};
use sr_logform::Entry;
use sr_scan::Scanner;
use sr_site::Site;
use std::alloc::Global;

/// The lesser of two offsets.
fn lesser(one: Offset, other: Offset) -> Offset
    ensures { result.0 ≡ min one.0 other.0 }
{
    if one.0 <= other.0 { one } else { other }
}

/// Whether the next entry, which ends at an offset, gives a scanner's user something past another.
fn gives_past(
    alloc: Global,
    scanner: &mut Scanner,
    sent: Offset,
    end: Offset,
    entry: &Entry,
) -> Result<bool, DatabaseFault>
    ensures asked { IfOk result (λ past. IsAsked scanner.old sent.0 end entry.now scanner.new past) }
    ensures lack { IfErr result (λ fault. fault ≡ Memory) }
{
    match scanner.feed(alloc, end, entry)? {
        None => Ok(false),
        Some(found) => {
            drop(found);
            Ok(sent.0 < end.0)
        }
    }
}

/// A step to the end of an entry, if that gives nothing past the offset.
fn step_to(end: Offset, past: Result<bool, DatabaseFault>) -> Result<Option<Offset>, DatabaseFault>
    ensures { result ≡ step_to end past }
{
    match past {
        Ok(true) => Ok(None),
        Ok(false) => Ok(Some(end)),
        Err(fault) => Err(fault),
    }
}

/// The end of the entry after an offset, where that lies before a limit and the entry gives a scanner's user nothing past another.
fn step<S: Site>(
    alloc: Global,
    db: &Database,
    site: &mut S,
    scanner: &mut Scanner,
    sent: Offset,
    limit: Offset,
    at: Offset,
    buffer: &mut Vec<u8>,
) -> Result<Option<Offset>, DatabaseFault>
    requires usable { db.now.log.usable ≡ true }
    requires at { (db.now.log.base ≤ at.0) × (at.0 ≤ db.now.log.end) }
    ensures step { IfOk result (IsStep db.now sent.0 limit.0 scanner.old scanner.new at (S.seen site.old)) }
    ensures read { ReadAlone (S.seen site.old) (S.seen site.new) }
    ensures steady { OnOk result ((S.seen site.new).disk_faults ≡ (S.seen site.old).disk_faults) }
    ensures cause { IfErr result (EntryCause db.now at (S.seen site.old) (S.seen site.new)) }
{
    if limit.0 <= at.0 {
        return Ok(None);
    }
    match db.entry_read(alloc, site, at, buffer)? {
        None => Ok(None),
        Some((end, entry)) => {
            let past = gives_past(alloc, scanner, sent, end, &entry);
            drop(entry);
            step_to(end, past)
        }
    }
}

/// The place before the first entry after an offset that gives a scanner's user something past what he has confirmed, or a limit where that lies before it.
/// No entry is read that begins past the limit.
pub(crate) fn search<S: Site>(
    alloc: Global,
    db: &Database,
    site: &mut S,
    scanner: &mut Scanner,
    sent: Offset,
    limit: Offset,
    from: Offset,
    buffer: &mut Vec<u8>,
) -> Result<Offset, DatabaseFault>
    requires usable { db.now.log.usable ≡ true }
    requires from { (db.now.log.base ≤ from.0) × (from.0 ≤ db.now.log.end) }
    requires limit { db.now.log.base ≤ limit.0 }
    requires passed { IsTrue (S.seen site.old).observable → (publisher : AName) (es : List Recorded) → IsDatabase db.now publisher es (S.seen site.old)
        → HasPassed publisher es scanner.old.user sent.0 scanner.old from }
    ensures least { IsTrue (S.seen site.old).observable → (publisher : AName) (es : List Recorded) → IsDatabase db.now publisher es (S.seen site.old)
        → IfOk result (λ least. least.0 ≡ min limit.0 (end_before sent.0 (fresh publisher) 0 es scanner.old.user)) }
    ensures within { IfOk result (λ least. (db.now.log.base ≤ least.0) × (least.0 ≤ limit.0)) }
    ensures read { ReadAlone (S.seen site.old) (S.seen site.new) }
    ensures steady { OnOk result ((S.seen site.new).disk_faults ≡ (S.seen site.old).disk_faults) }
    ensures cause { IfErr result (SearchCause db.now (S.seen site.old) (S.seen site.new)) }
{
    let mut at = from;
    'entries: while let Some(end) = step(alloc, db, site, scanner, sent, limit, at, buffer)? {
        at = end;
    }
    Ok(lesser(limit, at))
}
