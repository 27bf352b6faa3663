//! Where a note would end in the log of a database.

ghost use Rattle.std.specs.Prelude.{◌≡◌, IfOk};
ghost use Rattle.sr_logform.specs.declared.entry.Entry.TheVariants.{Note as NoteEntry};
ghost use Rattle.sr_world_steps.specs.Inner.Logs.{HasLog};
ghost use Rattle.sr_world_steps.specs.Inner.Noted.{NewsEnds, NoteEnds, TellsKnown};

use crate::books::{book_of, end_of};
use crate::notes::may_note;
use crate::standing::standing_of;
use sr_base::{Copied, Name, NoMemory, Offset};
use sr_book::Note;
use sr_logform::Entry;
use sr_msgform::Message;
use sr_world_entries::end_behind;
use std::alloc::Global;

/// The offset at which a note would end that a message lets a database make of its sender; `None` exactly where it may not be made. It goes through the
/// log.
#[tactic(auto, using(crate::proofs::Logged::not_news, crate::proofs::Logged::news_ends))]
pub(crate) fn note_end(
    alloc: Global,
    at: &Name,
    log: &[(Offset, Entry)],
    user: &Name,
    note: &Note,
    message: &Message,
) -> Result<Option<u64>, NoMemory>
    requires some { HasLog at.now log.now }
    ensures end { IfOk result (NewsEnds at.now log.now user.now note.now message.now) }
{
    let book = book_of(log, user);
    if !may_note(&book, at, user, note, message) {
        return Ok(None);
    }
    let end = noted_end(alloc, at, log, user, note)?;
    Ok(end)
}

/// The offset at which a note of a user would end; `None` exactly where it may not stand in the log: the user is not granted, or it would end past
/// the farthest offset. It goes through the log.
#[tactic(auto, using(crate::proofs::Logged::unknown_user, crate::proofs::Logged::note_ends))]
pub(crate) fn noted_end(
    alloc: Global,
    at: &Name,
    log: &[(Offset, Entry)],
    user: &Name,
    note: &Note,
) -> Result<Option<u64>, NoMemory>
    requires some { HasLog at.now log.now }
    ensures end { IfOk result (NoteEnds at.now log.now user.now note.now) }
{
    if !is_known(alloc, at, log, user)? {
        return Ok(None);
    }
    let entry = entry_of(alloc, user, note)?;
    let end = end_behind(alloc, end_of(log), &entry);
    drop(entry);
    let end = end?;
    Ok(end)
}

/// Whether a user is granted behind a history.
#[tactic(auto, using(crate::proofs::Logged::known_behind))]
fn is_known(
    alloc: Global,
    at: &Name,
    log: &[(Offset, Entry)],
    user: &Name,
) -> Result<bool, NoMemory>
    requires some { HasLog at.now log.now }
    ensures known { IfOk result (TellsKnown at.now log.now user.now) }
{
    let standing = standing_of(alloc, at, log)?;
    let known = standing.catalog.user(user).is_some();
    drop(standing);
    Ok(known)
}

/// The entry of a note.
fn entry_of(alloc: Global, user: &Name, note: &Note) -> Result<Entry, NoMemory>
    ensures entry { IfOk result (λ entry. entry ≡ NoteEntry user.now note.now) }
{
    Ok(Entry::Note {
        user: user.copy(alloc)?,
        note: *note,
    })
}
