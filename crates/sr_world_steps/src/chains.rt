//! Windows of messages that lead from one offset to another.

ghost use Rattle.std.specs.Prelude.{◌≡◌, ◌↔◌, ◌<◌, ◌≤◌, ℕ, [], length, get_or, None, IfOk, IfSome, IsTrue, OnOk};
ghost use Rattle.sr_world_steps.specs.Inner.Leading.{Covers, has, HasCover, IsNext, IsSameWindow, IsWhole, Leads, ReachesOn, StepsOn};

use sr_base::{Name, NoMemory};
use sr_msgform::Message;
use sr_world_entries::is_same;
use std::alloc::Global;

/// Whether whole windows from one database to another lead from one offset to another, each beginning where the one before it ends.
///
/// From each offset that is reached it goes through the messages, and for each that begins there looks whether its window is whole.
#[tactic(auto, using(crate::proofs::Chained::leading_begun))]
pub(crate) fn leads(
    alloc: Global,
    messages: &[Message],
    sender: &Name,
    receiver: &Name,
    from: u64,
    to: u64,
) -> Result<bool, NoMemory>
    ensures leads { IfOk result (λ leads. IsTrue leads ↔ Leads messages.now sender.now receiver.now from to) }
{
    let mut reached = Vec::new(alloc);
    reached.push(from)?;
    let mut next = 0;
    'places: while let Some(place) = place_at(&reached, next) {
        reach_on(messages, sender, receiver, place, &mut reached)?;
        next += 1;
    }
    let leads = is_reached(&reached, to);
    drop(reached);
    Ok(leads)
}

/// The offset at a place, if there is one.
fn place_at(places: &Vec<u64>, at: usize) -> Option<u64>
    ensures some { IfSome result (λ place. (at < length places.now.items) × (place ≡ get_or places.now.items at 0)) }
    ensures none { result ≡ None → length places.now.items ≤ at }
{
    if places.len() <= at {
        return None;
    }
    Some(places[at])
}

/// Whether an offset is among those that were reached.
fn is_reached(places: &Vec<u64>, place: u64) -> bool
    ensures { result ≡ has places.now.items place }
{
    has(places.as_slice(), place)
}

/// Adds the ends of the whole windows that begin at an offset, where they are not there.
#[tactic(auto, using(crate::proofs::Reaching::reach_begun))]
fn reach_on(
    messages: &[Message],
    sender: &Name,
    receiver: &Name,
    place: u64,
    reached: &mut Vec<u64>,
) -> Result<(), NoMemory>
    ensures on { OnOk result (ReachesOn messages.now sender.now receiver.now place reached.old.items reached.new.items []) }
{
    let mut left = messages;
    'messages: while let Some((message, rest)) = left.split_first() {
        step_on(messages, sender, receiver, place, message, reached)?;
        left = rest;
    }
    Ok(())
}

/// Adds the end of the window of a message, where this is a whole one that begins at an offset, and its end is not there.
#[tactic(auto, using(crate::proofs::Reaching::steps_over, crate::proofs::Reaching::steps_past, crate::proofs::Reaching::steps_to))]
fn step_on(
    messages: &[Message],
    sender: &Name,
    receiver: &Name,
    place: u64,
    message: &Message,
    reached: &mut Vec<u64>,
) -> Result<(), NoMemory>
    ensures on { OnOk result (StepsOn messages.now sender.now receiver.now place message.now reached.old.items reached.new.items) }
{
    if !is_next(messages, sender, receiver, place, message) {
        return Ok(());
    }
    if is_reached(reached, message.upto.0) {
        return Ok(());
    }
    reached.push(message.upto.0)?;
    Ok(())
}

/// Whether a message is of a whole window from one database to another that begins at an offset.
fn is_next(
    messages: &[Message],
    sender: &Name,
    receiver: &Name,
    place: u64,
    message: &Message,
) -> bool
    ensures next { IsTrue result ↔ IsNext messages.now sender.now receiver.now place message.now }
{
    is_same(&message.from, sender)
        && is_same(&message.to, receiver)
        && message.prev.0 == place
        && is_whole(messages, message)
}

/// Whether each byte of a message's window came.
#[tactic(auto, using(crate::proofs::Chained::came_on, crate::proofs::Chained::came_all, crate::proofs::Chained::came_none))]
pub(crate) fn is_whole(messages: &[Message], message: &Message) -> bool
    ensures whole { IsTrue result ↔ IsWhole messages.now message.now }
{
    let total = message.total as usize;
    let mut place = 0;
    'bytes: while place < total {
        let Some(end) = covered_to(messages, message, place) else {
            return false;
        };
        place = end;
    }
    true
}

/// Where the first fragment ends that has the byte at a place of the window of a message; `None` where none has it.
#[tactic(auto, using(crate::proofs::Chained::still_none, crate::proofs::Chained::covers_to, crate::proofs::Chained::left_head))]
fn covered_to(messages: &[Message], message: &Message, place: usize) -> Option<usize>
    ensures some { IfSome result (λ end. (place < end) × ((k : ℕ) → place ≤ k → k < end → HasCover messages.now message.now k)) }
    ensures none { result ≡ None → ¬ (HasCover messages.now message.now place) }
{
    let mut left = messages;
    'messages: while let Some((piece, rest)) = left.split_first() {
        if covers(piece, message, place) {
            return Some(piece.start as usize + piece.fragment.as_slice().len());
        }
        left = rest;
    }
    None
}

/// Whether a message is of the window of another, and its fragment has the byte at a place.
fn covers(piece: &Message, message: &Message, place: usize) -> bool
    ensures covers { IsTrue result ↔ Covers piece.now message.now place }
{
    is_of_window(piece, message)
        && piece.start as usize <= place
        && place - (piece.start as usize) < piece.fragment.as_slice().len()
}

/// Whether a message is of the window of another.
fn is_of_window(piece: &Message, message: &Message) -> bool
    ensures window { IsTrue result ↔ IsSameWindow piece.now message.now }
{
    is_same(&piece.from, &message.from)
        && is_same(&piece.to, &message.to)
        && piece.prev.0 == message.prev.0
        && piece.upto.0 == message.upto.0
        && piece.total == message.total
}

/// Whether an offset is among others.
fn has(places: &[u64], place: u64) -> bool
    ensures { result ≡ has places.now place }
{
    let mut left = places;
    'places: while let Some((other, rest)) = left.split_first() {
        if *other == place {
            return true;
        }
        left = rest;
    }
    false
}
