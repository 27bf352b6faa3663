//! What an inbox finds of windows.
//!
//! Messages `PREV-UPTO`, each a whole window of 10 bytes, `PREV-UPTO/` one that lacks its last byte, `PREV-UPTO!` one that was dropped, `PREV-PREV`
//! one without a body; behind `from` what was received.

use crate::samples::{Sample, add};
use crate::saying::say_some;
use crate::windows::next_of;
use sr_base::{NoMemory, Offset};
use sr_mail::Inbox;
use std::alloc::Global;
use test_rows::{number_of, say, say_number};

pub fn say_inbox(alloc: Global, given: &str, out: &mut Vec<u8>) -> Result<(), NoMemory> {
    let (messages, received) = given.split_once(" from ").unwrap_or((given, ""));
    let received = Offset(number_of(received));
    let mut inbox = Inbox::new(alloc);
    let said = match add_all(alloc, &mut inbox, messages) {
        Ok(()) => say_found(alloc, &inbox, received, out),
        Err(refused) => Err(refused),
    };
    drop(inbox);
    said
}

fn add_all(alloc: Global, inbox: &mut Inbox, messages: &str) -> Result<(), NoMemory> {
    let mut number = 0u64;
    for word in messages.split_whitespace() {
        add_word(alloc, inbox, number, word)?;
        number = number.wrapping_add(1);
    }
    Ok(())
}

/// Adds a message, and drops its window where it says so.
fn add_word(alloc: Global, inbox: &mut Inbox, number: u64, word: &str) -> Result<(), NoMemory> {
    let is_torn = word.ends_with('/');
    let is_dropped = word.ends_with('!');
    let window = word.trim_end_matches('/').trim_end_matches('!');
    let (prev, upto) = window.split_once('-').unwrap_or((window, ""));
    let prev = number_of(prev);
    let upto = number_of(upto);
    let total = if prev == upto { 0 } else { 10 };
    let sample = Sample {
        prev,
        upto,
        total,
        start: 0,
        length: if is_torn { 9 } else { total as usize },
    };
    add(alloc, inbox, number, sample)?;
    if is_dropped {
        inbox.drop_window(Offset(prev), Offset(upto), total);
    }
    Ok(())
}

fn say_found(
    alloc: Global,
    inbox: &Inbox,
    received: Offset,
    out: &mut Vec<u8>,
) -> Result<(), NoMemory> {
    match next_of(alloc, inbox, received)? {
        Some(next) => {
            say_number(out, "", next.prev.0)?;
            say_number(out, "-", next.upto.0)?;
        }
        None => say(out, "none")?,
    }
    say_number(out, " ", inbox.far(alloc, received)?.0)?;
    say_some(out, " ", inbox.past(received).map(|upto| upto.0))
}
