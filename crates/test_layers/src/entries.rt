//! Entries and ops, read and written.

ghost use Rattle.sr_logform.specs.Inner.Entries.{IsShortEntry};
ghost use Rattle.sr_logform.specs.Ops.{IsShortOp};

use sr_base::{Bad, NoMemory};
use sr_book::Note;
use sr_logform::{
    Entry, Op, read_entry, read_op, what_has_a_spelling_can_be_written, write_entry, write_op,
};
use std::alloc::{AllocError, Global};
use test_rows::{say, say_bytes, say_number};

/// Says what bytes are read as, or where they break.
pub fn say_entry(alloc: Global, bytes: &[u8], out: &mut Vec<u8>) -> Result<(), NoMemory> {
    what_has_a_spelling_can_be_written();
    match read_entry(alloc, bytes) {
        Ok(entry) => {
            let said = say_whole(alloc, &entry, bytes, out);
            drop(entry);
            said
        }
        Err(Bad::Field { at }) => say_number(out, "bad ", at as u64),
        Err(Bad::Memory) => Err(AllocError),
    }
}

/// Says what an entry is, if it is written as these bytes.
fn say_whole(alloc: Global, entry: &Entry, bytes: &[u8], out: &mut Vec<u8>) -> Result<(), NoMemory>
    requires short { IsShortEntry entry.now }
{
    let written = write_entry(alloc, entry)?;
    let is_same = written.as_slice() == bytes;
    drop(written);
    if is_same {
        say_parts(entry, out)
    } else {
        say(out, "written otherwise")
    }
}

/// Says the kind of an entry, with its name, offset and count.
fn say_parts(entry: &Entry, out: &mut Vec<u8>) -> Result<(), NoMemory> {
    match entry {
        Entry::Own(changes) => say_number(out, "own ", changes.as_slice().len() as u64),
        Entry::From { user, at, ops } => {
            say_bytes(out, "from ", user.bytes())?;
            say_number(out, " ", at.0)?;
            say_number(out, " ", ops.as_slice().len() as u64)
        }
        Entry::Ddl(text) => say_number(out, "ddl ", text.bytes().len() as u64),
        Entry::Sync { user, tables } => {
            say_bytes(out, "sync ", user.bytes())?;
            say_number(out, " ", tables.as_slice().len() as u64)
        }
        Entry::Pass {
            users,
            only,
            changes,
            ..
        } => {
            say_number(out, "pass ", users.as_slice().len() as u64)?;
            let whom = if *only { " only " } else { " all " };
            say_number(out, whom, changes.as_slice().len() as u64)
        }
        Entry::Note { user, note } => {
            say_bytes(out, "note ", user.bytes())?;
            say(out, kind_of(note))
        }
    }
}

fn kind_of(note: &Note) -> &'static str {
    match note {
        Note::Confirmed(_) => " confirmed",
        Note::Asked(_, _) => " asked",
        Note::Raised => " raised",
        Note::Sent { .. } => " sent",
    }
}

/// Says what stands at the front of bytes and how many it takes, or where it breaks.
pub fn say_op(alloc: Global, bytes: &[u8], out: &mut Vec<u8>) -> Result<(), NoMemory> {
    what_has_a_spelling_can_be_written();
    match read_op(alloc, bytes) {
        Ok((op, taken)) => {
            let said = say_prefix(alloc, &op, bytes.get(..taken), out);
            drop(op);
            said
        }
        Err(Bad::Field { at }) => say_number(out, "bad ", at as u64),
        Err(Bad::Memory) => Err(AllocError),
    }
}

/// Says what an op is and how many bytes it has, if it is written as these bytes.
fn say_prefix(
    alloc: Global,
    op: &Op,
    bytes: Option<&[u8]>,
    out: &mut Vec<u8>,
) -> Result<(), NoMemory>
    requires short { IsShortOp op.now }
{
    let mut written = Vec::new(alloc);
    let wrote = write_op(alloc, op, &mut written);
    let is_same = bytes == Some(written.as_slice());
    let length = written.len() as u64;
    drop(written);
    wrote?;
    if !is_same {
        return say(out, "written otherwise");
    }
    say_op_parts(op, out)?;
    say_number(out, " ", length)
}

/// Says the kind of an op, with its counts.
fn say_op_parts(op: &Op, out: &mut Vec<u8>) -> Result<(), NoMemory> {
    match op {
        Op::Insert { values, .. } => say_number(out, "insert ", values.as_slice().len() as u64),
        Op::Remove { key, .. } => say_number(out, "remove ", key.as_slice().len() as u64),
        Op::Set { key, columns, .. } => {
            say_number(out, "set ", key.as_slice().len() as u64)?;
            say_number(out, " ", columns.as_slice().len() as u64)
        }
        Op::Clear { .. } => say(out, "clear"),
        Op::Exec { text } => say_number(out, "exec ", text.bytes().len() as u64),
    }
}
