//! The rules that tie the fields of a message.

ghost use Rattle.std.specs.Prelude.{◌≡◌, ◌<◌, ◌^◌, ◌↔◌, length, IsTrue};
ghost use Rattle.sr_msgform.specs.Messages.{KeepsWindow, KeepsFragment, KeepsRules, message_length as length_of};

use crate::message::Message;

/// The longest body of a window, in bytes.
const LONGEST_BODY: u32 = 67_108_864;

/// Whether the window goes on, and its body is as long as it may be, and empty where the window is.
fn keeps_window(prev: u64, upto: u64, total: u32) -> bool
    ensures { IsTrue result ↔ KeepsWindow prev upto total }
{
    if total == 0 {
        return prev == upto;
    }
    prev < upto && total <= LONGEST_BODY
}

/// Whether the fragment lies in the body, and is empty where the body is.
fn keeps_fragment(total: u32, start: u32, length: usize) -> bool
    ensures { IsTrue result ↔ KeepsFragment total start length }
{
    if length == 0 {
        return total == 0 && start == 0;
    }
    length <= total as usize && start as usize <= total as usize - length
}

/// Whether nothing is asked past an offset where nothing is asked.
fn keeps_ask(count: u64, offset: u64) -> bool
    ensures { IsTrue result ↔ (count ≡ 0 → offset ≡ 0) }
{
    count != 0 || offset == 0
}

/// Whether the fields of the message keep the rules that tie them.
pub(crate) fn keeps_rules(message: &Message) -> bool
    ensures { IsTrue result ↔ KeepsRules message.now }
{
    keeps_window(message.prev.0, message.upto.0, message.total)
        && keeps_fragment(
            message.total,
            message.start,
            message.fragment.as_slice().len(),
        )
        && keeps_ask(message.ask_count, message.ask_offset.0)
}

/// The number of bytes of the message's file.
pub fn message_length(message: &Message) -> u64
    requires { length message.now.fragment < 2 ^ 32 }
    ensures { result ≡ length_of message.now }
{
    99 + message.from.bytes().len() as u64
        + message.to.bytes().len() as u64
        + message.fragment.as_slice().len() as u64
}
