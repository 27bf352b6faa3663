//! The steps that rows ask for.

use sr_base::{Bad, Name, NoMemory};
use sr_book::Note;
use sr_logform::{Entry, read_entry};
use sr_msgform::{Message, read_message};
use sr_world_steps::WorldStep;
use std::alloc::{AllocError, Global};
use test_rows::{named, number, push_hex, word};

/// The step of a row, if it is read.
pub(crate) fn step_of(
    alloc: Global,
    kind: &str,
    given: &str,
) -> Result<Option<WorldStep>, NoMemory> {
    let at = named(alloc, word(given, 0))?;
    match kind {
        "commit" => commit_of(alloc, at, word(given, 1)),
        "take" => {
            let user = named(alloc, word(given, 1))?;
            Ok(Some(WorldStep::Take { at, user }))
        }
        "note" => note_of(alloc, at, number(given, 1) as usize, word(given, 2)),
        "sent" => sent_of(alloc, at, word(given, 1)),
        "put" => put_of(alloc, at, word(given, 1)),
        "crash" => Ok(Some(WorldStep::Crash { at })),
        _ => Ok(None),
    }
}

fn commit_of(alloc: Global, at: Name, hex: &str) -> Result<Option<WorldStep>, NoMemory> {
    match entry_of(alloc, hex)? {
        Some(entry) => Ok(Some(WorldStep::Commit { at, entry })),
        None => Ok(None),
    }
}

fn note_of(
    alloc: Global,
    at: Name,
    message: usize,
    hex: &str,
) -> Result<Option<WorldStep>, NoMemory> {
    match noted(alloc, hex)? {
        Some((user, note)) => Ok(Some(WorldStep::Note {
            at,
            user,
            note,
            message,
        })),
        None => Ok(None),
    }
}

fn sent_of(alloc: Global, at: Name, hex: &str) -> Result<Option<WorldStep>, NoMemory> {
    match noted(alloc, hex)? {
        Some((user, note)) => Ok(Some(WorldStep::SentNote { at, user, note })),
        None => Ok(None),
    }
}

fn put_of(alloc: Global, at: Name, hex: &str) -> Result<Option<WorldStep>, NoMemory> {
    match message_of(alloc, hex)? {
        Some(message) => Ok(Some(WorldStep::Put { at, message })),
        None => Ok(None),
    }
}

/// The user and the note of an entry, if it is one.
fn noted(alloc: Global, hex: &str) -> Result<Option<(Name, Note)>, NoMemory> {
    match entry_of(alloc, hex)? {
        Some(Entry::Note { user, note }) => Ok(Some((user, note))),
        _ => Ok(None),
    }
}

fn entry_of(alloc: Global, hex: &str) -> Result<Option<Entry>, NoMemory> {
    let mut bytes = Vec::new(alloc);
    push_hex(&mut bytes, hex)?;
    match read_entry(alloc, bytes.as_slice()) {
        Ok(entry) => Ok(Some(entry)),
        Err(Bad::Field { .. }) => Ok(None),
        Err(Bad::Memory) => Err(AllocError),
    }
}

fn message_of(alloc: Global, hex: &str) -> Result<Option<Message>, NoMemory> {
    let mut bytes = Vec::new(alloc);
    push_hex(&mut bytes, hex)?;
    read_message(alloc, bytes.as_slice())
}
