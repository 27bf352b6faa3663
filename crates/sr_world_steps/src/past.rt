//! Whole windows of messages that go on past what was taken.

ghost use Rattle.std.specs.Prelude.{◌↔◌, IsTrue};
ghost use Rattle.sr_world_steps.specs.Inner.Past.{GoesPast, SomePast};

use crate::chains::is_whole;
use sr_base::Name;
use sr_msgform::Message;
use sr_world_entries::is_same;

/// Whether a whole window from one database to another begins no later than at an offset, and ends past it. Of each message of a window that would, it looks
/// whether the window is whole.
#[tactic(auto, using(crate::proofs::Ahead::past_here, crate::proofs::Ahead::past_none))]
pub(crate) fn goes_past(messages: &[Message], sender: &Name, receiver: &Name, taken: u64) -> bool
    ensures past { IsTrue result ↔ SomePast messages.now messages.now sender.now receiver.now taken }
{
    let mut left = messages;
    'messages: while let Some((message, rest)) = left.split_first() {
        if is_past(messages, sender, receiver, taken, message) {
            return true;
        }
        left = rest;
    }
    false
}

/// Whether a message is of such a window.
fn is_past(
    messages: &[Message],
    sender: &Name,
    receiver: &Name,
    taken: u64,
    message: &Message,
) -> bool
    ensures past { IsTrue result ↔ GoesPast messages.now sender.now receiver.now taken message.now }
{
    is_same(&message.from, sender)
        && is_same(&message.to, receiver)
        && message.prev.0 <= taken
        && taken < message.upto.0
        && is_whole(messages, message)
}
