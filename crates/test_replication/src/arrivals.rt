//! Which messages of two cuts make a window whole.
//!
//! The transaction inserts six rows with texts of 29,971 letters and ends at 180194; its body has 180,000 bytes. Cut into files of at most 50,000
//! bytes it makes the messages 1 to 4, and into files of at most 20,000 bytes the messages 5 to 14.

ghost use Rattle.sr_mail.specs.Inner.Inboxes.{IsNext};

use crate::long::joined;
use crate::parts::read_transactions;
use crate::samples::{add_message, cut_at, spell};
use crate::saying::say_some;
use sr_base::{Copied, NoMemory, Offset};
use sr_mail::{Inbox, Piece};
use sr_msgform::Message;
use std::alloc::{AllocError, Global};
use test_rows::{number_of, say, say_number};

pub fn say_arrival(alloc: Global, numbers: &str, out: &mut Vec<u8>) -> Result<(), NoMemory> {
    let mut bytes = Vec::new(alloc);
    let said = match spell(&mut bytes, 180_194, 6, 29_971) {
        Ok(()) => say_of_cuts(alloc, bytes.as_slice(), numbers, out),
        Err(refused) => Err(refused),
    };
    drop(bytes);
    said
}

fn say_of_cuts(
    alloc: Global,
    whole: &[u8],
    numbers: &str,
    out: &mut Vec<u8>,
) -> Result<(), NoMemory> {
    let mut messages = Vec::new(alloc);
    let said = match cut_twice(alloc, whole, &mut messages) {
        Ok(()) => say_in_inbox(alloc, messages.as_slice(), whole, numbers, out),
        Err(refused) => Err(refused),
    };
    drop(messages);
    said
}

fn cut_twice(alloc: Global, whole: &[u8], messages: &mut Vec<Message>) -> Result<(), NoMemory> {
    cut_into(alloc, whole, 50_000, messages)?;
    cut_into(alloc, whole, 20_000, messages)
}

/// Appends the messages of a cut.
fn cut_into(
    alloc: Global,
    whole: &[u8],
    length: u32,
    messages: &mut Vec<Message>,
) -> Result<(), NoMemory> {
    let transactions = read_transactions(alloc, whole)?;
    let made = cut_at(alloc, transactions.as_slice(), length);
    drop(transactions);
    match made? {
        Some(mut more) => {
            let appended = messages.append(&mut more);
            drop(more);
            appended
        }
        None => Ok(()),
    }
}

fn say_in_inbox(
    alloc: Global,
    messages: &[Message],
    whole: &[u8],
    numbers: &str,
    out: &mut Vec<u8>,
) -> Result<(), NoMemory> {
    let mut inbox = Inbox::new(alloc);
    let said = match add_numbers(alloc, &mut inbox, messages, numbers) {
        Ok(()) => say_found(alloc, &inbox, messages, whole, out),
        Err(refused) => Err(refused),
    };
    drop(inbox);
    said
}

/// Adds the messages of these numbers, in their order.
fn add_numbers(
    alloc: Global,
    inbox: &mut Inbox,
    messages: &[Message],
    numbers: &str,
) -> Result<(), NoMemory> {
    for word in numbers.split_whitespace() {
        let number = number_of(word);
        if let Some(message) = messages.get((number as usize).wrapping_sub(1)) {
            add_message(alloc, inbox, number, message)?;
        }
    }
    Ok(())
}

/// Says how far windows reach, the greatest end that was seen, and the pieces of the window that is next.
fn say_found(
    alloc: Global,
    inbox: &Inbox,
    messages: &[Message],
    whole: &[u8],
    out: &mut Vec<u8>,
) -> Result<(), NoMemory> {
    say_number(out, "far ", inbox.far(alloc, Offset(0))?.0)?;
    say_some(out, ", seen ", inbox.past(Offset(0)).map(|upto| upto.0))?;
    match inbox.next(alloc, Offset(0))? {
        Some(pieces) => {
            let said = say_pieces(alloc, inbox, pieces.as_slice(), messages, whole, out);
            drop(pieces);
            said
        }
        None => say(out, ", none"),
    }
}

/// Says the numbers of the pieces, and whether they make the body.
fn say_pieces(
    alloc: Global,
    inbox: &Inbox,
    pieces: &[Piece],
    messages: &[Message],
    whole: &[u8],
    out: &mut Vec<u8>,
) -> Result<(), NoMemory>
    requires next { IsNext inbox.now 0 pieces.now }
{
    say_numbers(pieces, out)?;
    let letters = copies(alloc, pieces, messages)?;
    match joined(alloc, inbox, pieces, letters)? {
        Some(bytes) => {
            let is_whole = bytes.as_slice() == whole;
            drop(bytes);
            say(
                out,
                if is_whole {
                    " make it"
                } else {
                    " make another"
                },
            )
        }
        None => say(out, " make none"),
    }
}

fn say_numbers(pieces: &[Piece], out: &mut Vec<u8>) -> Result<(), NoMemory> {
    say(out, ",")?;
    for piece in pieces {
        say_number(out, " ", number_in(piece))?;
    }
    Ok(())
}

/// The number in a file's name.
fn number_in(piece: &Piece) -> u64 {
    let digits = piece.name.as_str().trim_start_matches("cons.");
    match u64::from_str_radix(digits, 16) {
        Ok(number) => number,
        Err(_) => 0,
    }
}

/// The message of each piece, by its number.
fn copies(alloc: Global, pieces: &[Piece], messages: &[Message]) -> Result<Vec<Message>, NoMemory> {
    let mut letters = Vec::new(alloc);
    let copied = copy_each(alloc, pieces, messages, &mut letters);
    match copied {
        Ok(()) => Ok(letters),
        Err(refused) => {
            drop(letters);
            Err(refused)
        }
    }
}

fn copy_each(
    alloc: Global,
    pieces: &[Piece],
    messages: &[Message],
    letters: &mut Vec<Message>,
) -> Result<(), NoMemory> {
    for piece in pieces {
        match messages.get((number_in(piece) as usize).wrapping_sub(1)) {
            Some(message) => letters.push(message.copy(alloc)?)?,
            None => return Err(AllocError),
        }
    }
    Ok(())
}
