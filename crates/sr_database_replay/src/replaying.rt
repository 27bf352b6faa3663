//! The entries of a log, one after the other, from its base.

ghost use Rattle.std.specs.Prelude.{◌≡◌, ◌<◌, ◌≤◌, ◌+◌, ◌^◌, [], length, drop, IsTrue, IfOk, IfErr, OnOk, IfSome, IfNone, vec_len};
ghost use Rattle.std.specs.FinMap as map;
ghost use Rattle.sr_base.specs.Values.{farthest_offset};
ghost use Rattle.sr_book.specs.Books.{with_taken, with_note};
ghost use Rattle.sr_database_files.specs.Books.{book_in};
ghost use Rattle.sr_database_history.specs.Recorded.{Recorded, entry_of};
ghost use Rattle.sr_logfile.specs.Inner.Heads.{HasWhole};
ghost use Rattle.sr_logfile.specs.Inner.Log.{InOrder};
ghost use Rattle.sr_logfile.specs.Records.{HasHeader, place_in};
ghost use Rattle.sr_logform.specs.Entries.{entry_spelling, IsEntry};
ghost use Rattle.sr_logform.specs.declared.entry.Entry.{Entry as Body};
ghost use Rattle.sr_rows.specs.Inner.Steps.{at_mark};
ghost use Rattle.sr_site.specs.Files.{bytes_of};
ghost use Rattle.sr_snapshot.specs.Inner.Beginnings.{beginning_in};
ghost use Rattle.sr_snapshot.specs.Beginnings.{Beginning, IsBeginning};
ghost use Rattle.sr_survey_brief.specs.Inner.Briefs.{IsBrief};
ghost use Rattle.sr_database_files.specs.Inner.Openings.{ReadAlone};
ghost use Rattle.sr_database_replay.specs.Inner.Replays.{IsReplayed, IsReplayedTo, IsReplayedSome, HasReplayed, IsNextEntry, IsReadOn, FollowsAny, piece, SpellingCause, BodyCause, RecordCause, ReplayCause};
ghost use Rattle.sr_database_replay.specs.Inner.Books.{BooksFollow};

use crate::bookkeeping::Books;
use sr_base::{Bad, Name, NoMemory, Offset};
use sr_book::{Book, Note};
use sr_catalog::Catalog;
use sr_database_files::{DatabaseFault, log_fault};
use sr_database_fold::go_on;
use sr_logfile::{place_in, record_end};
use sr_logform::{Entry, longest_body, read_entry};
use sr_rows::Rows;
use sr_site::{Disk, File, Site};
use sr_snapshot::State;
use sr_survey_brief::read_brief;
use std::alloc::Global;

/// What the entries come to that were read so far, and a buffer for the next one.
#[derive(Drop)]
pub struct Replay {
    pub catalog: Catalog,
    pub rows: Rows,
    pub books: Books,
    pub buffer: Vec<u8>,
}

impl Replay {
    /// Nothing was read so far behind this state.
    pub fn behind(alloc: Global, state: State) -> Result<Replay, NoMemory>
        requires beginning { IsBeginning (beginning_in state) }
        requires marked { state.rows ≡ at_mark state.rows.rows }
        ensures new { IfOk result (λ r. IsReplayed r.catalog r.rows r.books state.offset.0 (beginning_in state) []) }
    {
        let State {
            offset: _,
            catalog,
            rows,
            books: lines,
        } = state;
        let books = Books::of_lines(alloc, lines.as_slice())?;
        Ok(Replay {
            catalog,
            rows,
            books,
            buffer: Vec::new(alloc),
        })
    }
}

/// Reads all entries of a log that begins at `base`, behind what was read before it, and answers the position behind the last. It reads front to
/// back, once.
pub fn replay_all<S: Site>(
    alloc: Global,
    site: &mut S,
    log: File,
    replay: &mut Replay,
    base: u64,
    size: u64,
) -> Result<u64, DatabaseFault>
    requires base { base ≤ farthest_offset }
    requires size { IsTrue (S.seen site.old).observable → size ≡ length (bytes_of (S.seen site.old).files log) }
    requires header { IsTrue (S.seen site.old).observable → HasHeader base (bytes_of (S.seen site.old).files log) }
    requires replayed { IsReplayedTo replay.old.catalog replay.old.rows replay.old.books base }
    ensures replayed { (b : Beginning) → IsReplayed replay.old.catalog replay.old.rows replay.old.books base b []
        → IfOk result (λ end. HasReplayed replay.new.catalog replay.new.rows replay.new.books end b log (S.seen site.old)) }
    ensures order { IfOk result (λ end. InOrder base end) }
    ensures read { ReadAlone (S.seen site.old) (S.seen site.new) }
    ensures steady { OnOk result ((S.seen site.new).disk_faults ≡ (S.seen site.old).disk_faults) }
    ensures cause { (b : Beginning) → IsReplayed replay.old.catalog replay.old.rows replay.old.books base b [] → IfErr result (ReplayCause log b (S.seen site.old) (S.seen site.new)) }
{
    let mut position = base;
    'entries: while let Some(end) = next_entry(alloc, site, log, replay, base, position, size)? {
        position = end;
    }
    Ok(position)
}

/// Reads the record whose gate stands at `position` of the log, which begins at `base`, and follows its entry. It answers the position behind
/// it, or `None` where the gate is closed.
pub(crate) fn next_entry<S: Site>(
    alloc: Global,
    site: &mut S,
    log: File,
    replay: &mut Replay,
    base: u64,
    position: u64,
    size: u64,
) -> Result<Option<u64>, DatabaseFault>
    requires order { InOrder base position }
    requires size { IsTrue (S.seen site.old).observable → size ≡ length (bytes_of (S.seen site.old).files log) }
    requires replayed { IsReplayedTo replay.old.catalog replay.old.rows replay.old.books position }
    ensures next { IfOk result (IsNextEntry replay.old.catalog replay.new.catalog replay.old.rows replay.new.rows replay.old.books replay.new.books base position log (S.seen site.old)) }
    ensures onward { IfOk result (λ found. IfSome found (λ end. (position < end) × (end ≤ farthest_offset))) }
    ensures read { ReadAlone (S.seen site.old) (S.seen site.new) }
    ensures steady { OnOk result ((S.seen site.new).disk_faults ≡ (S.seen site.old).disk_faults) }
    ensures cause { IfErr result (RecordCause log replay.old.catalog replay.old.rows replay.old.books base position (S.seen site.old) (S.seen site.new)) }
{
    match record_end(site, log, base, position, size) {
        Ok(None) => Ok(None),
        Ok(Some(end)) => {
            read_record(alloc, site, log, replay, base, position, end)?;
            Ok(Some(end))
        }
        Err(fault) => Err(log_fault(log, fault)),
    }
}

/// Reads the whole record behind the open gate at `position`, up to `end`, and follows its entry.
fn read_record<S: Site>(
    alloc: Global,
    site: &mut S,
    log: File,
    replay: &mut Replay,
    base: u64,
    position: u64,
    end: u64,
) -> Result<(), DatabaseFault>
    requires base { base ≤ position }
    requires order { (position < end) × (end ≤ farthest_offset) }
    requires whole { IsTrue (S.seen site.old).observable → HasWhole position (drop (place_in base position) (bytes_of (S.seen site.old).files log)) end }
    requires replayed { IsReplayedTo replay.old.catalog replay.old.rows replay.old.books position }
    ensures on { OnOk result (IsReadOn replay.old.catalog replay.new.catalog replay.old.rows replay.new.rows replay.old.books replay.new.books base position end log (S.seen site.old)) }
    ensures read { ReadAlone (S.seen site.old) (S.seen site.new) }
    ensures steady { OnOk result ((S.seen site.new).disk_faults ≡ (S.seen site.old).disk_faults) }
    ensures cause { IfErr result (RecordCause log replay.old.catalog replay.old.rows replay.old.books base position (S.seen site.old) (S.seen site.new)) }
{
    let place = place_in(base, position);
    let Some(count) = body_length(position, end) else {
        return Err(DatabaseFault::Damaged {
            file: log,
            at: place,
        });
    };
    let entry = read_body(alloc, site, log, &mut replay.buffer, place, count)?;
    let followed = follow(
        alloc,
        &mut replay.catalog,
        &mut replay.rows,
        &mut replay.books,
        &entry,
        count,
    );
    drop(entry);
    let may = followed?;
    if may {
        Ok(())
    } else {
        Err(DatabaseFault::Damaged {
            file: log,
            at: place,
        })
    }
}

/// The length of the body of a record between two gates, where these are far enough from one another.
fn body_length(position: u64, end: u64) -> Option<usize>
    requires limit { position ≤ farthest_offset }
    ensures some { IfSome result (λ count. position + (count + 5) ≡ end) }
    ensures none { IfNone result (end < position + 5) }
{
    if end < position + 5 {
        return None;
    }
    Some((end - position - 5) as usize)
}

/// Reads the entry whose body of `count` bytes stands behind the gate at `place` and the four bytes of its length.
fn read_body<S: Site>(
    alloc: Global,
    site: &mut S,
    log: File,
    buffer: &mut Vec<u8>,
    place: u64,
    count: usize,
) -> Result<Entry, DatabaseFault>
    requires place { place + 5 < 2 ^ 64 }
    ensures entry { IfOk result IsEntry }
    ensures size { IfOk result (λ entry. length (entry_spelling entry) ≡ count) }
    ensures body { IsTrue (S.seen site.old).observable → IfOk result (λ entry. piece (place + 5) count (bytes_of (S.seen site.old).files log) ≡ entry_spelling entry) }
    ensures read { ReadAlone (S.seen site.old) (S.seen site.new) }
    ensures steady { OnOk result ((S.seen site.new).disk_faults ≡ (S.seen site.old).disk_faults) }
    ensures cause { IfErr result (BodyCause log place count (S.seen site.old) (S.seen site.new)) }
{
    make_room(buffer, count)?;
    let (prefix, _) = buffer.as_mut_slice().split_at_mut(count);
    let read = site.read_at(log, place + 5, prefix)?;
    if read < count {
        return Err(DatabaseFault::Damaged {
            file: log,
            at: place,
        });
    }
    entry_in(alloc, log, place, prefix)
}

/// Gives a buffer a length of at least `count`.
fn make_room(buffer: &mut Vec<u8>, count: usize) -> Result<(), NoMemory>
    ensures room { OnOk result (count ≤ vec_len buffer.new) }
{
    if buffer.as_slice().len() < count {
        buffer.resize(count, 0u8)?;
    }
    Ok(())
}

/// The entry of a record's body, whose gate stands at `place` of the log.
pub fn entry_in(alloc: Global, log: File, place: u64, body: &[u8]) -> Result<Entry, DatabaseFault>
    ensures entry { IfOk result (λ entry. IsEntry entry × (body.now ≡ entry_spelling entry)) }
    ensures cause { IfErr result (SpellingCause log place body.now) }
{
    match read_entry(alloc, body) {
        Ok(entry) => Ok(entry),
        Err(Bad::Memory) => Err(DatabaseFault::Memory),
        Err(Bad::Field { .. }) => Err(DatabaseFault::Damaged {
            file: log,
            at: place,
        }),
    }
}

/// As `entry_in`, the entry in brief.
pub fn brief_in(alloc: Global, log: File, place: u64, body: &[u8]) -> Result<Entry, DatabaseFault>
    ensures brief { IfOk result (λ brief. (entry : Body) → IsEntry entry → body.now ≡ entry_spelling entry → IsBrief entry brief) }
    ensures cause { IfErr result (SpellingCause log place body.now) }
{
    match read_brief(alloc, body) {
        Ok(entry) => Ok(entry),
        Err(Bad::Memory) => Err(DatabaseFault::Memory),
        Err(Bad::Field { .. }) => Err(DatabaseFault::Damaged {
            file: log,
            at: place,
        }),
    }
}

/// Follows an entry whose body has `count` bytes, where it may stand behind those that were read; whether it may. Where it may not, and for
/// want of memory, nothing of what was read is good for anything.
fn follow(
    alloc: Global,
    catalog: &mut Catalog,
    rows: &mut Rows,
    books: &mut Books,
    entry: &Entry,
    count: usize,
) -> Result<bool, NoMemory>
    requires entry { IsEntry entry.now }
    requires replayed { IsReplayedSome catalog.old rows.old books.old }
    requires size { length (entry_spelling entry.now) ≡ count }
    ensures told { IfOk result (FollowsAny catalog.old catalog.new rows.old rows.new books.old books.new count entry.now) }
{
    if count as u64 > longest_body(entry) {
        return Ok(false);
    }
    let may = go_on(alloc, catalog, rows, entry)?;
    if !may {
        return Ok(false);
    }
    follow_books(alloc, books, entry)?;
    Ok(true)
}

/// The book of the entry's partner behind it, where it has one.
fn follow_books(alloc: Global, books: &mut Books, entry: &Entry) -> Result<(), NoMemory>
    ensures books { OnOk result ((r : Recorded) → entry_of r ≡ entry.now → BooksFollow books.old books.new r) }
{
    match entry {
        Entry::From { user, at, .. } => follow_taken(alloc, books, user, *at),
        Entry::Note { user, note } => follow_note(alloc, books, user, note),
        Entry::Own(_) => Ok(()),
        Entry::Ddl(_) => Ok(()),
        Entry::Sync { .. } => Ok(()),
        Entry::Pass { .. } => Ok(()),
    }
}

/// The book of a partner behind a transaction that was taken.
fn follow_taken(alloc: Global, books: &mut Books, user: &Name, at: Offset) -> Result<(), NoMemory>
    ensures taken { OnOk result (books.new ≡ map.insert books.old user.now (with_taken (book_in books.old user.now) at.0)) }
{
    let book = books.get(user).took(at);
    books.put(alloc, user, book)
}

/// The book of a partner behind a note.
fn follow_note(alloc: Global, books: &mut Books, user: &Name, note: &Note) -> Result<(), NoMemory>
    ensures noted { OnOk result (books.new ≡ map.insert books.old user.now (with_note (book_in books.old user.now) note.now)) }
{
    let book = books.get(user).after(note);
    books.put(alloc, user, book)
}
