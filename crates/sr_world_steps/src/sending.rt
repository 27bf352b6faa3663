//! When messages may be noted as sent.

ghost use Rattle.std.specs.Prelude.{◌≡◌, IfOk};
ghost use Rattle.sr_book.specs.declared.note.Note.TheVariants.{Sent};
ghost use Rattle.sr_world_steps.specs.Inner.Logs.{HasLog};
ghost use Rattle.sr_world_steps.specs.Inner.Sending.{ends_at, SentEnds, TellsEnd, TellsSent};

use crate::books::book_of;
use crate::chains::leads;
use crate::given::given_in;
use crate::noting::noted_end;
use sr_base::{Name, NoMemory, Offset};
use sr_book::Note;
use sr_logform::{Entry, Transaction};
use sr_msgform::Message;
use std::alloc::Global;

/// The offset at which a note of messages that were sent would end; `None` exactly where it may not be made. It goes through the log, and looks which
/// whole windows of the messages follow one another.
#[tactic(auto, using(crate::proofs::Sendings::not_sent, crate::proofs::Sendings::sent_ends))]
pub(crate) fn sent_end(
    alloc: Global,
    messages: &[Message],
    at: &Name,
    log: &[(Offset, Entry)],
    user: &Name,
    note: &Note,
) -> Result<Option<u64>, NoMemory>
    requires some { HasLog at.now log.now }
    ensures end { IfOk result (SentEnds messages.now at.now log.now user.now note.now) }
{
    if !was_sent(alloc, messages, at, log, user, note)? {
        return Ok(None);
    }
    let end = noted_end(alloc, at, log, user, note)?;
    Ok(end)
}

/// Whether it is a note of messages that were sent, and they were.
#[tactic(auto, using(crate::proofs::Sendings::none_confirmed, crate::proofs::Sendings::none_asked, crate::proofs::Sendings::none_raised))]
fn was_sent(
    alloc: Global,
    messages: &[Message],
    at: &Name,
    log: &[(Offset, Entry)],
    user: &Name,
    note: &Note,
) -> Result<bool, NoMemory>
    requires some { HasLog at.now log.now }
    ensures sent { IfOk result (TellsSent messages.now at.now log.now user.now note.now) }
{
    match *note {
        Note::Sent {
            end,
            messages: count,
            confirm,
        } => {
            let sent = were_sent(alloc, messages, at, log, user, end, count, confirm)?;
            Ok(sent)
        }
        Note::Confirmed(_) | Note::Asked(..) | Note::Raised => Ok(false),
    }
}

/// Whether so many messages may have been sent up to an offset that confirm another: there is one, what is confirmed is what was taken, the offset is what was sent
/// up to or ends a later transaction, and whole windows lead to it.
#[tactic(auto, using(crate::proofs::Sendings::no_count, crate::proofs::Sendings::no_end, crate::proofs::Sendings::sent_where))]
fn were_sent(
    alloc: Global,
    messages: &[Message],
    at: &Name,
    log: &[(Offset, Entry)],
    user: &Name,
    end: Offset,
    count: u32,
    confirm: Offset,
) -> Result<bool, NoMemory>
    requires some { HasLog at.now log.now }
    ensures sent { IfOk result (TellsSent messages.now at.now log.now user.now (Sent end count confirm)) }
{
    let book = book_of(log, user);
    if count == 0 || confirm.0 != book.log_received {
        return Ok(false);
    }
    if !is_given_end(alloc, at, log, user, Offset(book.log_sent), end)? {
        return Ok(false);
    }
    let leads = leads(alloc, messages, at, user, book.log_sent, end.0)?;
    Ok(leads)
}

/// Whether an offset is what was sent up to, or a later one at which a transaction for the user ends.
#[tactic(auto, using(crate::proofs::Sendings::end_here, crate::proofs::Sendings::end_behind))]
fn is_given_end(
    alloc: Global,
    at: &Name,
    log: &[(Offset, Entry)],
    user: &Name,
    sent: Offset,
    end: Offset,
) -> Result<bool, NoMemory>
    requires some { HasLog at.now log.now }
    ensures given { IfOk result (TellsEnd at.now log.now user.now sent.0 end.0) }
{
    if end.0 <= sent.0 {
        return Ok(end.0 == sent.0);
    }
    let members = given_in(alloc, at, log, user, sent, end)?;
    let given = ends_at(members.as_slice(), end);
    drop(members);
    Ok(given)
}

/// Whether one of these transactions ends at an offset.
fn ends_at(members: &[Transaction], end: Offset) -> bool
    ensures ends { result ≡ ends_at members.now end.0 }
{
    let mut left = members;
    'members: while let Some((member, rest)) = left.split_first() {
        if member.at.0 == end.0 {
            return true;
        }
        left = rest;
    }
    false
}
