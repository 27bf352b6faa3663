//! A partner's book, noted in.

use sr_base::{Bad, NoMemory, Offset};
use sr_book::Book;
use sr_logform::{Entry, read_entry};
use std::alloc::{AllocError, Global};
use test_rows::{number_of, say, say_number};

/// Notes what the bytes of an entry say: the book behind it.
pub fn say_noted(
    alloc: Global,
    book: Book,
    bytes: &[u8],
    out: &mut Vec<u8>,
) -> Result<Book, NoMemory> {
    match read_entry(alloc, bytes) {
        Ok(entry) => {
            let after = after(book, &entry);
            drop(entry);
            say_columns(&after, out)?;
            Ok(after)
        }
        Err(Bad::Field { .. }) => Ok(book),
        Err(Bad::Memory) => Err(AllocError),
    }
}

fn after(book: Book, entry: &Entry) -> Book {
    match entry {
        Entry::Note { note, .. } => book.after(note),
        _ => book,
    }
}

/// Takes a transaction at an offset: the book behind it.
pub fn say_took(book: Book, at: &str, out: &mut Vec<u8>) -> Result<Book, NoMemory> {
    let after = book.took(Offset(number_of(at)));
    say_columns(&after, out)?;
    Ok(after)
}

/// log_sent, confirm_sent, send_count, resend_count; log_received, confirm_received, receive_count, rereceive_count
fn say_columns(book: &Book, out: &mut Vec<u8>) -> Result<(), NoMemory> {
    say_number(out, "", book.log_sent)?;
    say_number(out, " ", book.confirm_sent)?;
    say_number(out, " ", book.send_count)?;
    say_number(out, " ", book.resend_count)?;
    say_number(out, " ", book.log_received)?;
    say_number(out, " ", book.confirm_received)?;
    say_number(out, " ", book.receive_count)?;
    say_number(out, " ", book.rereceive_count)
}

/// Says whether a message is due, where an ask is to be made or none.
pub fn say_need(book: &Book, ask: &str, out: &mut Vec<u8>) -> Result<(), NoMemory> {
    say(
        out,
        if book.need(ask == "ask") {
            "due"
        } else {
            "not due"
        },
    )
}
