//! The rows on messages, and what is measured of them.

use crate::arrivals::say_arrival;
use crate::cuts::{say_bodied, say_cut, say_pushed};
use crate::files::say_file;
use crate::inboxes::say_inbox;
use crate::long::{say_joined, say_long, say_text};
use crate::small::say_small;
use crate::windows::{say_fragments, say_nested, say_windows};
use sr_base::NoMemory;
use sr_mail::Inbox;
use std::alloc::Global;
use test_rows::say;

/// Answers a row on messages.
pub(crate) fn say_letter(
    alloc: Global,
    kind: &str,
    given: &str,
    out: &mut Vec<u8>,
) -> Result<(), NoMemory> {
    match kind {
        "cut" => say_cut(alloc, given, out),
        "push" => say_pushed(alloc, given, out),
        "body" => say_bodied(alloc, given, out),
        "arrive" => say_arrival(alloc, given, out),
        "inbox" => say_inbox(alloc, given, out),
        "file" => say_file(alloc, given, out),
        _ => say(out, "no kind"),
    }
}

/// Measures this, so many times.
pub(crate) fn say_measured(
    alloc: Global,
    what: &str,
    count: u32,
    out: &mut Vec<u8>,
) -> Result<(), NoMemory> {
    match what {
        "long" => say_long(alloc, count, out),
        "text" => say_text(alloc, count, out),
        "join" => say_joined(alloc, count, out),
        "small" => say_small(alloc, count, out),
        _ => say_inboxes(alloc, what, count, out),
    }
}

/// The same for what is tried in an inbox.
fn say_inboxes(alloc: Global, what: &str, count: u32, out: &mut Vec<u8>) -> Result<(), NoMemory> {
    let mut inbox = Inbox::new(alloc);
    let said = match what {
        "windows" => say_windows(alloc, &mut inbox, count, out),
        "fragments" => say_fragments(alloc, &mut inbox, count, out),
        "nested" => say_nested(alloc, &mut inbox, count, out),
        _ => say(out, "no such measure"),
    };
    drop(inbox);
    said
}
