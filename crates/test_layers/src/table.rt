//! The rows, one after the other.

use crate::books::{say_need, say_noted, say_took};
use crate::damages::{say_cut, say_more, say_set};
use crate::entries::{say_entry, say_op};
use crate::expressions::say_given;
use crate::hosts::{say_host, say_streams};
use crate::letters::say_letters;
use crate::logs::say_crashes;
use crate::messages::{say_bits, say_file};
use crate::sites::say_site;
use crate::texts::{say_date, say_name, say_text};
use crate::tokens::{say_kinds, say_lexed, say_tokens};
use crate::values::{say_compared, say_fitted, say_literal, say_order};
use sr_base::NoMemory;
use sr_book::Book;
use std::alloc::Global;
use test_rows::{Answerer, push_hex, say};

/// What goes from one row to the next, and room for bytes.
#[derive(Drop)]
pub struct Bench {
    rt: HostRuntime,
    /// The last entry.
    entry: Vec<u8>,
    /// The book that was noted in.
    book: Book,
    /// The bytes of a row.
    bytes: Vec<u8>,
}

impl Bench {
    pub fn new(rt: HostRuntime) -> Bench {
        Bench {
            rt,
            entry: Vec::new(rt.alloc()),
            book: Book::new(),
            bytes: Vec::new(rt.alloc()),
        }
    }
}

impl Answerer for Bench {
    fn answer(&mut self, alloc: Global, question: &str, out: &mut Vec<u8>) -> Result<(), NoMemory> {
        let (kind, given) = question.split_once(" ").unwrap_or((question, ""));
        match kind {
            "entry" | "cut" | "set" | "more" => answer_entry(alloc, self, kind, given, out),
            "note" | "took" | "need" => answer_book(alloc, self, kind, given, out),
            "text" | "name" | "op" | "file" | "bits" | "lexed" => {
                answer_bytes(alloc, &mut self.bytes, kind, given, out)
            }
            "tokens" | "kinds" | "gives" | "date" => answer_text(alloc, kind, given, out),
            "site" | "mail" | "host" | "streams" | "log" => {
                answer_devices(alloc, self.rt, kind, given, out)
            }
            _ => answer_values(alloc, kind, given, out),
        }
    }
}

/// Puts the bytes of hexadecimal digits in place of those that stand there.
fn hex_into(bytes: &mut Vec<u8>, hex: &str) -> Result<(), NoMemory> {
    bytes.clear();
    push_hex(bytes, hex)
}

fn answer_entry(
    alloc: Global,
    bench: &mut Bench,
    kind: &str,
    given: &str,
    out: &mut Vec<u8>,
) -> Result<(), NoMemory> {
    match kind {
        "entry" => {
            hex_into(&mut bench.entry, given)?;
            say_entry(alloc, bench.entry.as_slice(), out)
        }
        "cut" => say_cut(alloc, bench.entry.as_slice(), given, out),
        "set" => say_set(alloc, bench.entry.as_slice(), &mut bench.bytes, given, out),
        _ => say_more(alloc, bench.entry.as_slice(), &mut bench.bytes, given, out),
    }
}

fn answer_book(
    alloc: Global,
    bench: &mut Bench,
    kind: &str,
    given: &str,
    out: &mut Vec<u8>,
) -> Result<(), NoMemory> {
    match kind {
        "note" => {
            hex_into(&mut bench.bytes, given)?;
            bench.book = say_noted(alloc, bench.book, bench.bytes.as_slice(), out)?;
            Ok(())
        }
        "took" => {
            bench.book = say_took(bench.book, given, out)?;
            Ok(())
        }
        _ => say_need(&bench.book, given, out),
    }
}

fn answer_bytes(
    alloc: Global,
    bytes: &mut Vec<u8>,
    kind: &str,
    given: &str,
    out: &mut Vec<u8>,
) -> Result<(), NoMemory> {
    hex_into(bytes, given)?;
    match kind {
        "text" => say_text(alloc, bytes.as_slice(), out),
        "name" => say_name(alloc, bytes.as_slice(), out),
        "op" => say_op(alloc, bytes.as_slice(), out),
        "file" => say_file(alloc, bytes.as_slice(), out),
        "bits" => say_bits(alloc, bytes, out),
        _ => say_lexed(alloc, bytes.as_slice(), out),
    }
}

fn answer_text(alloc: Global, kind: &str, given: &str, out: &mut Vec<u8>) -> Result<(), NoMemory> {
    match kind {
        "tokens" => say_tokens(alloc, given, out),
        "kinds" => say_kinds(alloc, given, out),
        "gives" => say_given(alloc, given, out),
        _ => say_date(given, out),
    }
}

fn answer_values(
    alloc: Global,
    kind: &str,
    given: &str,
    out: &mut Vec<u8>,
) -> Result<(), NoMemory> {
    match kind {
        "order" => say_order(alloc, given, out),
        "compare" => say_compared(alloc, given, out),
        "fit" => say_fitted(alloc, given, out),
        "literal" => say_literal(alloc, given, out),
        _ => say(out, "no kind"),
    }
}

fn answer_devices(
    alloc: Global,
    rt: HostRuntime,
    kind: &str,
    given: &str,
    out: &mut Vec<u8>,
) -> Result<(), NoMemory> {
    match kind {
        "site" => say_site(alloc, given, out),
        "mail" => say_letters(alloc, given, out),
        "host" => say_host(rt, given, out),
        "streams" => say_streams(rt, out),
        _ => say_crashes(alloc, given, out),
    }
}
