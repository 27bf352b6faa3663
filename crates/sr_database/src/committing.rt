ghost use Rattle.std.specs.Prelude.{◌≡◌, ◌≤◌, ◌<◌, [], ◌∷◌, ◌++◌, ◌+◌, ◌^◌, ℕ, true, List, length, IsTrue, IfOk, IfErr, OnOk, OnErr, is_ok};
ghost use Rattle.std.specs.Option.{SomeIff};
ghost use Rattle.sr_book.specs.Entries.{Name as AName};
ghost use Rattle.sr_database_history.specs.Recorded.{Recorded};
ghost use Rattle.sr_logfile.specs.Inner.Calls.{commit_calls};
ghost use Rattle.sr_logfile.specs.Logs.{IsFull, gate_of};
ghost use Rattle.sr_logfile.specs.Inner.Logs.{IsLog, HasLog, longer, spent};
ghost use Rattle.sr_logfile.specs.Inner.Moments.{HasOrLacks, IsAsRead};
ghost use Rattle.sr_logfile.specs.Records.{IsFramed, body_of};
ghost use Rattle.sr_logform.specs.Inner.Entries.{IsShortEntry};
ghost use Rattle.sr_site.specs.Causes.{DiskStays, Rose};
ghost use Rattle.sr_site.specs.Inner.Happenings.{Made};
ghost use Rattle.sr_site.specs.Images.{IsSettled, RestsThroughout};
ghost use Rattle.sr_site.specs.Files.{OthersStay};
ghost use Rattle.sr_database_meaning.specs.Events.{attaches_in, commit};
ghost use Rattle.sr_database_meaning.specs.Standing.{StandsFor};
ghost use Rattle.sr_database_meaning.specs.Traces.{Went};
ghost use Rattle.sr_database.specs.Inner.Causes.{CommitCause, FramingCause, IsBegun};
ghost use Rattle.sr_database.specs.Commits.{HasRoom, IsPrepared};
ghost use Rattle.sr_database.specs.Inner.Commits.{CanCommit, CanCommitSome, FollowsAsSome};
ghost use Rattle.sr_database.specs.Advances.{Advances};
ghost use Rattle.sr_database.specs.Databases.{ArePending, IsDatabase};
ghost use Rattle.sr_database.specs.Inner.Without.{WasWithout};
ghost use Rattle.sr_database.specs.InForce.{HasLogInForce};
ghost use Rattle.sr_database.specs.Inner.Taking.{at_last_commit, StaysAll, Takes};
ghost use Rattle.sr_exec_dml.specs.Fitting.{RowsFit};
ghost use Rattle.sr_database_files.specs.declared.fault.DatabaseFault.TheVariants.{Disk};

use crate::database::Database;
use crate::settling::settle;
use sr_base::{FARTHEST_OFFSET, Offset};
use sr_catalog::Catalog;
use sr_database_files::DatabaseFault;
use sr_database_replay::Books;
use sr_logfile::{LogFile, frame, place_in};
use sr_logform::{Change, Entry, farthest_end, longest_body, write_entry};
use sr_rows::Rows;
use sr_site::Site;
use std::alloc::Global;

impl Database {
    /// Commits an entry, and answers its offset: the end of the history with it.
    ///
    /// It has to keep the rules of entries; the changes of an Own are the pending ones, and any other entry comes where none is pending and
    /// fits the state. Memory is taken before the first call of a device. `Long` comes exactly where its body is longer than its kind may
    /// be, and else `Full` exactly where its record would pass its kind's bound in the file or the last offset, 2^62. After these all is
    /// as it was, pending changes too. The record is written behind the closed gate and synced before that is opened, so that at each moment a
    /// crash leaves the history before or with the entry; after `Disk` it may be either, and the value is not used again.
    pub fn commit<S: Site>(
        &mut self,
        alloc: Global,
        site: &mut S,
        entry: &Entry,
    ) -> Result<Offset, DatabaseFault>
        requires usable { self.old.log.usable ≡ true }
        requires entry { CanCommitSome self.old entry.now }
        requires stands { IsTrue (S.seen site.old).observable → HasLogInForce self.old (S.seen site.old) }
        ensures offset { IfOk result (λ offset. offset.0 ≡ self.new.log.end) }
        ensures ready { OnOk result ((self.new.log.usable ≡ true) × (self.new.pending ≡ [])) }
        ensures room { OnOk result (HasRoom self.old.log entry.now) }
        ensures value { (r : Recorded) → CanCommit self.old entry.now r → OnOk result (Advances self.old self.new (r ∷ [])) }
        ensures in_force { IsTrue (S.seen site.old).observable → OnOk result (HasLogInForce self.new (S.seen site.new)) }
        ensures database { IsTrue (S.seen site.old).observable → (publisher : AName) (es : List Recorded) (r : Recorded) → IsDatabase self.old publisher es (S.seen site.old) → CanCommit self.old entry.now r
            → OnOk result (IsDatabase self.new publisher (es ++ r ∷ []) (S.seen site.new)) }
        ensures without { IsTrue (S.seen site.old).observable → (publisher : AName) (es : List Recorded) (base : ℕ) (r : Recorded) → CanCommit self.old entry.now r
            → OnOk result (StandsFor publisher es base (S.seen site.new).files → WasWithout self.old publisher es r (S.seen site.old)) }
        ensures went { IsTrue (S.seen site.old).observable → (publisher : AName) (es : List Recorded) (r : Recorded) → IsDatabase self.old publisher es (S.seen site.old) → CanCommit self.old entry.now r
            → IsBegun result → Went (S.seen site.old) (S.seen site.new) publisher es (commit r ∷ []) }
        ensures others { IsTrue (S.seen site.old).observable → OthersStay self.old.log.file (S.seen site.old).files (S.seen site.new).files }
        ensures attached { IsTrue (S.seen site.old).observable → attaches_in (S.seen site.new).happened ≡ attaches_in (S.seen site.old).happened }
        ensures stays { DiskStays (S.seen site.old) (S.seen site.new) }
        ensures steady { OnOk result ((S.seen site.new).disk_faults ≡ (S.seen site.old).disk_faults) }
        ensures cause { IfErr result (CommitCause self.old self.new entry.now (S.seen site.old) (S.seen site.new)) }
    {
        let framed = prepare(
            alloc,
            &self.log,
            &mut self.catalog,
            &mut self.rows,
            &mut self.books,
            self.pending.as_slice(),
            entry,
        )?;
        self.pending.clear();
        let offset = append(&mut self.log, site, framed.as_slice(), farthest_end(entry))?;
        Ok(offset)
    }
}

/// The entry's record, with catalog, rows and books as they are behind it. After a refusal they are as they were.
fn prepare(
    alloc: Global,
    log: &LogFile,
    catalog: &mut Catalog,
    rows: &mut Rows,
    books: &mut Books,
    pending: &[Change],
    entry: &Entry,
) -> Result<Vec<u8>, DatabaseFault>
    requires fit { RowsFit catalog.old rows.old.marked }
    requires pending { ArePending catalog.old rows.old pending.now }
    requires entry { FollowsAsSome (at_last_commit catalog.old rows.old) pending.now entry.now }
    ensures ready { IfOk result (λ framed. IsPrepared log.now entry.now framed.items) }
    ensures takes { OnOk result (Takes catalog.old catalog.new rows.old rows.new books.old books.new pending.now entry.now) }
    ensures stays { OnErr result (StaysAll catalog.old catalog.new rows.old rows.new books.old books.new) }
    ensures cause { IfErr result (FramingCause log.now entry.now) }
{
    let framed = framed_record(alloc, log, entry)?;
    settle(alloc, catalog, rows, books, pending, entry)?;
    Ok(framed)
}

/// The bytes of the entry's record with a closed gate behind it, where it is not too long and has room behind the log.
fn framed_record(alloc: Global, log: &LogFile, entry: &Entry) -> Result<Vec<u8>, DatabaseFault>
    requires short { IsShortEntry entry.now }
    ensures ready { IfOk result (λ framed. IsPrepared log.now entry.now framed.items) }
    ensures cause { IfErr result (FramingCause log.now entry.now) }
{
    let body = write_entry(alloc, entry)?;
    let length = body.as_slice().len() as u64;
    let limit = longest_body(entry);
    if length > limit {
        return Err(DatabaseFault::Long { length, limit });
    }
    if let Some((end, need)) = no_room(log, length, farthest_end(entry)) {
        return Err(DatabaseFault::Full { end, need });
    }
    Ok(frame(alloc, body.as_slice())?)
}

/// Where the record of a body of this length, at most 64 MiB, has no room: the place in the file past the log's first closed gate, and the
/// number of bytes that it needs.
fn no_room(log: &LogFile, length: u64, bound: u64) -> Option<(u64, u64)>
    requires length { length ≤ 2 ^ 26 }
    ensures { SomeIff result (IsFull log.now (length + 5) bound) (gate_of log.now + 1, length + 5) }
{
    let base = log.base().0;
    let end = log.end().0;
    let place = place_in(base, end) + 1;
    let need = length + 5;
    if place + need > bound || end + need > FARTHEST_OFFSET {
        return Some((place, need));
    }
    None
}

/// Commits a framed record that has room.
fn append<S: Site>(
    log: &mut LogFile,
    site: &mut S,
    framed: &[u8],
    bound: u64,
) -> Result<Offset, DatabaseFault>
    requires framed { IsFramed framed.now }
    requires usable { log.old.usable ≡ true }
    requires room { ¬ (IsFull log.old (length framed.now) bound) }
    requires log { IsTrue (S.seen site.old).observable → HasLog log.old (S.seen site.old).files }
    ensures offset { IfOk result (λ offset. offset.0 ≡ log.new.end) }
    ensures log { OnOk result (log.new ≡ longer log.old (length framed.now)) }
    ensures spent { OnErr result (log.new ≡ spent log.old) }
    ensures record { IsTrue (S.seen site.old).observable → OnOk result ((bodies : List (List ℕ)) → IsLog log.old bodies (S.seen site.old).files → IsLog log.new (bodies ++ body_of framed.now ∷ []) (S.seen site.new).files) }
    ensures happened { IsTrue (S.seen site.old).observable → Made (commit_calls log.old.file (gate_of log.old) framed.now) (S.seen site.old).happened (S.seen site.new).happened (is_ok result) }
    ensures moments { IsTrue (S.seen site.old).observable → (bodies : List (List ℕ)) → IsLog log.old bodies (S.seen site.old).files → IsSettled (IsLog log.old bodies) (S.seen site.old) → RestsThroughout (HasOrLacks log.old bodies framed.now) (S.seen site.old) (S.seen site.new) }
    ensures settled { IsTrue (S.seen site.old).observable → OnOk result (IsSettled (IsAsRead log.old.file (S.seen site.new)) (S.seen site.new)) }
    ensures others { IsTrue (S.seen site.old).observable → OthersStay log.old.file (S.seen site.old).files (S.seen site.new).files }
    ensures stays { DiskStays (S.seen site.old) (S.seen site.new) }
    ensures steady { OnOk result ((S.seen site.new).disk_faults ≡ (S.seen site.old).disk_faults) }
    ensures cause { IfErr result (λ fault. (fault ≡ Disk) × Rose (S.seen site.old).disk_faults (S.seen site.new).disk_faults) }
{
    match log.commit(site, framed, bound) {
        Ok(offset) => Ok(offset),
        Err(_) => Err(DatabaseFault::Disk),
    }
}
