//! Which messages a database may put.

ghost use Rattle.std.specs.Prelude.{◌↔◌, IfOk, IsTrue};
ghost use Rattle.sr_world_steps.specs.Inner.Putting.{HasLawfulLog, IsBacked, TellsCarried, TellsPut};

use crate::books::{book_of, end_of};
use crate::given::given_in;
use crate::messages::{carries, is_spelled};
use sr_base::{Name, NoMemory, Offset};
use sr_book::Book;
use sr_logform::Entry;
use sr_msgform::Message;
use sr_world_entries::is_same;
use std::alloc::Global;

/// Whether a database may put a message: it has a spelling, and is true of the history. It goes through the log three times, as a scanner does once.
#[tactic(auto, using(crate::proofs::Truths::not_from, crate::proofs::Truths::not_spelled, crate::proofs::Truths::not_backed, crate::proofs::Truths::true_where))]
pub(crate) fn may_put(
    alloc: Global,
    at: &Name,
    log: &[(Offset, Entry)],
    message: &Message,
) -> Result<bool, NoMemory>
    requires some { HasLawfulLog at.now log.now }
    ensures may { IfOk result (TellsPut at.now log.now message.now) }
{
    if !is_same(&message.from, at) {
        return Ok(false);
    }
    if !is_spelled(alloc, message)? {
        return Ok(false);
    }
    let book = book_of(log, &message.to);
    if !is_backed(&book, end_of(log), message) {
        return Ok(false);
    }
    let carried = carries_given(alloc, at, log, message)?;
    Ok(carried)
}

/// Whether the message ends within a history, and says no more than the book of its receiver has.
fn is_backed(book: &Book, end: u64, message: &Message) -> bool
    ensures backed { IsTrue result ↔ IsBacked book.now end message.now }
{
    message.upto.0 <= end
        && message.confirm.0 <= book.log_received
        && message.ask_offset.0 <= book.log_received
        && message.ask_count <= book.rereceive_count
        && message.resend_count <= book.resend_count
}

/// Whether the message carries what the history gives its receiver in its window.
#[tactic(auto, using(crate::proofs::Truths::given_short, crate::proofs::Truths::given_rising, crate::proofs::Truths::carries_where))]
fn carries_given(
    alloc: Global,
    at: &Name,
    log: &[(Offset, Entry)],
    message: &Message,
) -> Result<bool, NoMemory>
    requires some { HasLawfulLog at.now log.now }
    ensures carries { IfOk result (TellsCarried at.now log.now message.now) }
{
    let members = given_in(alloc, at, log, &message.to, message.prev, message.upto)?;
    let carried = carries(alloc, members.as_slice(), message);
    drop(members);
    let carried = carried?;
    Ok(carried)
}
