//! The state at an offset of a log: its entries, read again up to there.

ghost use Rattle.std.specs.Prelude.{◌≡◌, ◌<◌, ◌≤◌, [], List, length, IsTrue, IfOk, IfErr, OnOk};
ghost use Rattle.sr_base.specs.Values.{farthest_offset};
ghost use Rattle.sr_database_files.specs.Inner.Openings.{ReadAlone};
ghost use Rattle.sr_database_files.specs.declared.fault.DatabaseFault.TheVariants.{Memory};
ghost use Rattle.sr_database_history.specs.Recorded.{Recorded};
ghost use Rattle.sr_logfile.specs.Inner.Log.{InOrder};
ghost use Rattle.sr_logfile.specs.Records.{HasHeader};
ghost use Rattle.sr_rows.specs.Inner.Steps.{at_mark};
ghost use Rattle.sr_site.specs.Files.{bytes_of};
ghost use Rattle.sr_snapshot.specs.Beginnings.{Beginning, IsBeginning};
ghost use Rattle.sr_snapshot.specs.Inner.Beginnings.{beginning_in};
ghost use Rattle.sr_database_replay.specs.Inner.Replays.{IsReplayed, IsReplayedTo, IsReadOn};
ghost use Rattle.sr_database_replay.specs.Inner.Stops.{lines_of, HasStopped, IsStateAt, LastCause, StopCause};
ghost use Rattle.sr_database_replay.specs.Stops.{beginning_from};

use crate::bookkeeping::Books;
use crate::replaying::{Replay, next_entry};
use sr_base::{Copied, Name, NoMemory, Offset, Seq};
use sr_book::Book;
use sr_catalog_schema::User;
use sr_database_files::DatabaseFault;
use sr_logfile::place_in;
use sr_site::{File, Site};
use sr_snapshot::State;
use std::alloc::Global;

/// The state at the offset `keep` of a log that begins behind a state: the offset of that state, or the end of an entry past it.
///
/// It reads the log of `size` bytes front to back, once, up to there. `Damaged` comes where no entry ends there, or where one before it is not as written.
pub fn state_at<S: Site>(
    alloc: Global,
    site: &mut S,
    log: File,
    state: State,
    keep: Offset,
    size: u64,
) -> Result<State, DatabaseFault>
    requires beginning { IsBeginning (beginning_in state) }
    requires marked { state.rows ≡ at_mark state.rows.rows }
    requires order { InOrder state.offset.0 keep.0 }
    requires size { IsTrue (S.seen site.old).observable → size ≡ length (bytes_of (S.seen site.old).files log) }
    requires header { IsTrue (S.seen site.old).observable → HasHeader state.offset.0 (bytes_of (S.seen site.old).files log) }
    ensures state { IfOk result (λ found. IsStateAt (beginning_in state) keep.0 log (S.seen site.old) (beginning_in found)) }
    ensures read { ReadAlone (S.seen site.old) (S.seen site.new) }
    ensures steady { OnOk result ((S.seen site.new).disk_faults ≡ (S.seen site.old).disk_faults) }
    ensures cause { IfErr result (StopCause log (beginning_in state) keep.0 (S.seen site.old) (S.seen site.new)) }
{
    let base = state.offset.0;
    let mut replay = Replay::behind(alloc, state)?;
    match replay_up_to(alloc, site, log, &mut replay, base, keep.0, size) {
        Ok(()) => replay_state(alloc, replay, keep),
        Err(fault) => {
            drop(replay);
            Err(fault)
        }
    }
}

/// Reads the entries of a log that begins at `base` up to the offset `keep`, behind what was read before it.
fn replay_up_to<S: Site>(
    alloc: Global,
    site: &mut S,
    log: File,
    replay: &mut Replay,
    base: u64,
    keep: u64,
    size: u64,
) -> Result<(), DatabaseFault>
    requires order { InOrder base keep }
    requires size { IsTrue (S.seen site.old).observable → size ≡ length (bytes_of (S.seen site.old).files log) }
    requires header { IsTrue (S.seen site.old).observable → HasHeader base (bytes_of (S.seen site.old).files log) }
    requires replayed { IsReplayedTo replay.old.catalog replay.old.rows replay.old.books base }
    ensures stopped { (b : Beginning) → IsReplayed replay.old.catalog replay.old.rows replay.old.books base b []
        → OnOk result (HasStopped replay.new.catalog replay.new.rows replay.new.books keep b log (S.seen site.old)) }
    ensures read { ReadAlone (S.seen site.old) (S.seen site.new) }
    ensures steady { OnOk result ((S.seen site.new).disk_faults ≡ (S.seen site.old).disk_faults) }
    ensures cause { (b : Beginning) → IsReplayed replay.old.catalog replay.old.rows replay.old.books base b [] → IfErr result (StopCause log b keep (S.seen site.old) (S.seen site.new)) }
{
    let mut position = base;
    'entries: while position < keep {
        let end = next_end(alloc, site, log, replay, base, position, size)?;
        position = end;
    }
    if keep < position {
        return Err(DatabaseFault::Damaged {
            file: log,
            at: place_in(base, keep),
        });
    }
    Ok(())
}

/// Reads the record whose gate stands at `position`, and follows its entry. It answers the position behind it. Where the gate is closed the log is damaged
/// there.
fn next_end<S: Site>(
    alloc: Global,
    site: &mut S,
    log: File,
    replay: &mut Replay,
    base: u64,
    position: u64,
    size: u64,
) -> Result<u64, DatabaseFault>
    requires order { InOrder base position }
    requires size { IsTrue (S.seen site.old).observable → size ≡ length (bytes_of (S.seen site.old).files log) }
    requires replayed { IsReplayedTo replay.old.catalog replay.old.rows replay.old.books position }
    ensures on { IfOk result (λ end. IsReadOn replay.old.catalog replay.new.catalog replay.old.rows replay.new.rows replay.old.books replay.new.books base position end log (S.seen site.old)) }
    ensures onward { IfOk result (λ end. (position < end) × (end ≤ farthest_offset)) }
    ensures read { ReadAlone (S.seen site.old) (S.seen site.new) }
    ensures steady { OnOk result ((S.seen site.new).disk_faults ≡ (S.seen site.old).disk_faults) }
    ensures cause { IfErr result (LastCause log replay.old.catalog replay.old.rows replay.old.books base position (S.seen site.old) (S.seen site.new)) }
{
    match next_entry(alloc, site, log, replay, base, position, size) {
        Ok(Some(end)) => Ok(end),
        Ok(None) => Err(DatabaseFault::Damaged {
            file: log,
            at: place_in(base, position),
        }),
        Err(fault) => Err(fault),
    }
}

/// The state of what was read up to an offset, with a book for each user in order of grant.
fn replay_state(alloc: Global, replay: Replay, keep: Offset) -> Result<State, DatabaseFault>
    ensures state { IfOk result (λ found. (b : Beginning) (es : List Recorded) → IsReplayed replay.catalog replay.rows replay.books keep.0 b es → beginning_in found ≡ beginning_from b es) }
    ensures cause { IfErr result (λ fault. fault ≡ Memory) }
{
    let Replay {
        catalog,
        rows,
        books,
        buffer: _,
    } = replay;
    let lines = lines_of(alloc, &books, catalog.users())?;
    drop(books);
    Ok(State {
        offset: keep,
        catalog,
        rows,
        books: Seq::from_vec(lines),
    })
}

/// The books of users, in their order.
pub fn lines_of(alloc: Global, books: &Books, users: &[User]) -> Result<Vec<(Name, Book)>, NoMemory>
    ensures lines { IfOk result (λ lines. lines.items ≡ lines_of books.now users.now) }
{
    let mut lines = Vec::new(alloc);
    let mut left = users;
    'users: while let Some((user, rest)) = left.split_first() {
        lines.push((user.name.copy(alloc)?, books.get(&user.name)))?;
        left = rest;
    }
    Ok(lines)
}
