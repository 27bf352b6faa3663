//! Whether a message has a spelling, and whether it carries what is in its window.

ghost use Rattle.std.specs.Prelude.{◌≡◌, ◌≤◌, ◌↔◌, length, IfOk, IsTrue};
ghost use Rattle.std.specs.List.{AllByRecursion};
ghost use Rattle.sr_logform.specs.Inner.Ops.{IsShortTransaction};
ghost use Rattle.sr_mail_cut.specs.Bodies.{AreRising, body_spelling, last_at};
ghost use Rattle.sr_msgform.specs.Messages.{IsMessage, KeepsFragment, KeepsRules, KeepsWindow};
ghost use Rattle.sr_world_steps.specs.Inner.Windows.{Carries, StandsIn};

use sr_base::{NoMemory, Offset};
use sr_logform::Transaction;
use sr_mail_cut::body;
use sr_msgform::{Message, message_length, write_message};
use std::alloc::Global;

/// The longest body of a window, in bytes.
const LONGEST_BODY: u32 = 67_108_864;

/// The longest message file, in bytes.
const LONGEST_FILE: u64 = 2_097_152;

/// Whether a message has a spelling. It takes the time of writing it.
pub(crate) fn is_spelled(alloc: Global, message: &Message) -> Result<bool, NoMemory>
    ensures spelled { IfOk result (λ spelled. IsTrue spelled ↔ IsMessage message.now) }
{
    if !keeps_rules(message) || message_length(message) > LONGEST_FILE {
        return Ok(false);
    }
    let bytes = write_message(alloc, message)?;
    drop(bytes);
    Ok(true)
}

/// Whether the fields of the message keep the rules that tie them.
fn keeps_rules(message: &Message) -> bool
    ensures rules { IsTrue result ↔ KeepsRules message.now }
{
    keeps_window(message.prev.0, message.upto.0, message.total)
        && keeps_fragment(
            message.total,
            message.start,
            message.fragment.as_slice().len(),
        )
        && keeps_ask(message.ask_count, message.ask_offset.0)
}

/// Whether the window goes on, and its body is as long as it may be, and empty where the window is.
fn keeps_window(prev: u64, upto: u64, total: u32) -> bool
    ensures window { IsTrue result ↔ KeepsWindow prev upto total }
{
    if total == 0 {
        return prev == upto;
    }
    prev < upto && total <= LONGEST_BODY
}

/// Whether the fragment lies in the body, and is empty where the body is.
fn keeps_fragment(total: u32, start: u32, length: usize) -> bool
    ensures fragment { IsTrue result ↔ KeepsFragment total start length }
{
    if length == 0 {
        return total == 0 && start == 0;
    }
    length <= total as usize && start as usize <= total as usize - length
}

/// Whether nothing is asked past an offset where nothing is asked.
fn keeps_ask(count: u64, offset: u64) -> bool
    ensures ask { IsTrue result ↔ (count ≡ 0 → offset ≡ 0) }
{
    count != 0 || offset == 0
}

/// Whether the message carries a part of the body of these transactions, all of it where they are two or more, and ends where the last of them does.
pub(crate) fn carries(
    alloc: Global,
    members: &[Transaction],
    message: &Message,
) -> Result<bool, NoMemory>
    requires each { AllByRecursion IsShortTransaction members.now }
    requires rising { AreRising members.now }
    ensures carries { IfOk result (λ carries. IsTrue carries ↔ Carries members.now message.now) }
{
    let bytes = body(alloc, members)?;
    let carried = carries_of(bytes.as_slice(), members, message);
    drop(bytes);
    Ok(carried)
}

/// Whether it does so, where this is the body.
fn carries_of(bytes: &[u8], members: &[Transaction], message: &Message) -> bool
    requires body { bytes.now ≡ body_spelling members.now }
    ensures carries { IsTrue result ↔ Carries members.now message.now }
{
    end_of(message.prev, members).0 == message.upto.0
        && message.total as usize == bytes.len()
        && stands_in(bytes, message.start as usize, message.fragment.as_slice())
        && (members.len() < 2 || message.fragment.as_slice() == bytes)
}

/// The offset of the last transaction, or this one where there is none.
fn end_of(before: Offset, members: &[Transaction]) -> Offset
    ensures end { result ≡ last_at before members.now }
{
    let mut end = before;
    let mut left = members;
    'members: while let Some((member, rest)) = left.split_first() {
        end = member.at;
        left = rest;
    }
    end
}

/// Whether a fragment is what stands at its place in a body.
fn stands_in(bytes: &[u8], start: usize, fragment: &[u8]) -> bool
    ensures stands { IsTrue result ↔ StandsIn bytes.now start fragment.now }
{
    if bytes.len() < start {
        return fragment.is_empty();
    }
    let (_, behind) = bytes.split_at(start);
    if behind.len() < fragment.len() {
        return false;
    }
    let (part, _) = behind.split_at(fragment.len());
    part == fragment
}
