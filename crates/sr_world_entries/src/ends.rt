//! Whether an entry may stand in a log by its bytes alone, and where it ends.

ghost use Rattle.std.specs.Prelude.{◌↔◌, ⊤, IfOk, IsTrue};
ghost use Rattle.sr_logform.specs.Entries.{AreUsers};
ghost use Rattle.sr_logform.specs.Inner.Entries.{IsShortEntry};
ghost use Rattle.sr_world_entries.specs.Inner.Ends.{IsEndOf, IsLocal};

use crate::names::are_distinct;
use crate::shortness::{are_few, are_short, are_short_tables};
use sr_base::{Name, NoMemory};
use sr_logform::{Entry, longest_body, write_entry};
use std::alloc::Global;

/// The farthest offset of a history.
const FARTHEST: u64 = 4_611_686_018_427_387_904;

/// The offset at which an entry ends that stands behind one; `None` exactly where it has no spelling, or a longer one than its kind may have, or
/// would end past the farthest offset. It takes the time of writing the entry.
#[tactic(auto, unfolding(crate::specs::Inner::Ends::IsEndOf))]
pub fn end_behind(alloc: Global, place: u64, entry: &Entry) -> Result<Option<u64>, NoMemory>
    requires short { IsShortEntry entry.now }
    ensures end { IfOk result (IsEndOf place entry.now) }
{
    let bytes = write_entry(alloc, entry)?;
    let size = bytes.len() as u64;
    drop(bytes);
    let end = place.saturating_add(size).saturating_add(5);
    if size > longest_body(entry) || end > FARTHEST {
        return Ok(None);
    }
    Ok(Some(end))
}

/// The same of what a database does by itself; `None` of anything else too.
#[tactic(auto, using(crate::proofs::Roomy::not_short))]
pub fn local_end(alloc: Global, place: u64, entry: &Entry) -> Result<Option<u64>, NoMemory>
    requires local { IsLocal entry.now }
    ensures end { IfOk result (IsEndOf place entry.now) }
{
    if !is_short(entry) {
        return Ok(None);
    }
    end_behind(alloc, place, entry)
}

/// Whether the entry is of what a database does by itself.
pub fn is_local(entry: &Entry) -> bool
    ensures local { IsTrue result ↔ IsLocal entry.now }
{
    match entry {
        Entry::From { .. } | Entry::Note { .. } => false,
        Entry::Own(_) | Entry::Ddl(_) | Entry::Sync { .. } | Entry::Pass { .. } => true,
    }
}

/// Whether such an entry can be written: it keeps its rules, no list of it has 2^32 items, and no text 2^32 bytes.
fn is_short(entry: &Entry) -> bool
    requires local { IsLocal entry.now }
    ensures short { IsTrue result ↔ IsShortEntry entry.now }
{
    match entry {
        Entry::Own(changes) => { !changes.as_slice().is_empty() && are_short(changes.as_slice()) }
        Entry::Ddl(text) => are_few(text.bytes()),
        Entry::Sync { tables, .. } => are_short_tables(tables.as_slice()),
        Entry::Pass {
            users,
            text,
            changes,
            ..
        } => are_users(users.as_slice()) && are_few(text.bytes()) && are_short(changes.as_slice()),
        Entry::From { .. } | Entry::Note { .. } => true,
    }
}

/// Whether there are fewer than 2^32 users, and none stands twice.
fn are_users(users: &[Name]) -> bool
    ensures users { IsTrue result ↔ AreUsers (λ name. ⊤) users.now }
{
    are_few(users) && are_distinct(users)
}
