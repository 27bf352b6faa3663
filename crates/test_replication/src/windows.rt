//! Inboxes with many messages.

use crate::samples::{Sample, add};
use sr_base::{NoMemory, Offset};
use sr_mail::{Inbox, Piece};
use std::alloc::Global;
use test_rows::{say, say_number};

/// The window that is to be taken next, and how many pieces make it.
#[derive(Clone, Copy)]
pub struct Next {
    pub prev: Offset,
    pub upto: Offset,
    total: u32,
    pieces: usize,
}

/// What an inbox answers as the next window.
pub fn next_of(alloc: Global, inbox: &Inbox, received: Offset) -> Result<Option<Next>, NoMemory> {
    match inbox.next(alloc, received)? {
        Some(pieces) => {
            let next = window_of(pieces.as_slice());
            drop(pieces);
            Ok(next)
        }
        None => Ok(None),
    }
}

fn window_of(pieces: &[Piece]) -> Option<Next> {
    let first = pieces.first()?;
    Some(Next {
        prev: first.prev,
        upto: first.upto,
        total: first.total,
        pieces: pieces.len(),
    })
}

/// Takes windows as long as there are, at most so many, and drops each where it is to: how many.
fn taken(alloc: Global, inbox: &mut Inbox, most: u64, drops: bool) -> Result<u64, NoMemory> {
    let mut received = Offset(0);
    for number in 0..most {
        let Some(next) = next_of(alloc, inbox, received)? else {
            return Ok(number);
        };
        received = next.upto;
        if drops {
            inbox.drop_window(next.prev, next.upto, next.total);
        }
    }
    Ok(most)
}

/// One window behind the other.
pub fn say_windows(
    alloc: Global,
    inbox: &mut Inbox,
    count: u32,
    out: &mut Vec<u8>,
) -> Result<(), NoMemory> {
    for number in 0..count {
        let prev = number as u64 * 10;
        let sample = Sample {
            prev,
            upto: prev + 10,
            total: 1,
            start: 0,
            length: 1,
        };
        add(alloc, inbox, number as u64, sample)?;
    }
    say_number(out, "far ", inbox.far(alloc, Offset(0))?.0)?;
    say_number(out, ", ", taken(alloc, inbox, count as u64, false)?)?;
    say_number(out, " taken, ", taken(alloc, inbox, count as u64, true)?)?;
    say_number(out, " dropped, then far ", inbox.far(alloc, Offset(0))?.0)
}

/// Fragments of one window, the last first.
pub fn say_fragments(
    alloc: Global,
    inbox: &mut Inbox,
    count: u32,
    out: &mut Vec<u8>,
) -> Result<(), NoMemory> {
    for number in 0..count {
        let sample = Sample {
            prev: 0,
            upto: 10,
            total: count,
            start: count - 1 - number,
            length: 1,
        };
        add(alloc, inbox, number as u64, sample)?;
    }
    say_number(out, "far ", inbox.far(alloc, Offset(0))?.0)?;
    let pieces = match next_of(alloc, inbox, Offset(0))? {
        Some(next) => next.pieces,
        None => 0,
    };
    say_number(out, ", ", pieces as u64)?;
    say(out, " pieces")
}

/// Windows each of which lies in the one before it, dropped one after the other.
pub fn say_nested(
    alloc: Global,
    inbox: &mut Inbox,
    count: u32,
    out: &mut Vec<u8>,
) -> Result<(), NoMemory> {
    for number in 0..count {
        let prev = number as u64;
        let sample = Sample {
            prev,
            upto: 2 * count as u64 + 1 - prev,
            total: 1,
            start: 0,
            length: 1,
        };
        add(alloc, inbox, prev, sample)?;
    }
    let mut dropped = 0u64;
    for _ in 0..count {
        let Some(next) = next_of(alloc, inbox, Offset(count as u64))? else {
            break;
        };
        inbox.drop_window(next.prev, next.upto, next.total);
        dropped = dropped.saturating_add(1);
    }
    say_number(out, "", dropped)?;
    say(out, " dropped")
}
