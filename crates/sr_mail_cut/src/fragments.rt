//! The messages of one window.

ghost use Rattle.std.specs.Prelude.{◌≡◌, ◌<◌, ◌≤◌, ◌^◌, ◌++◌, length, IfOk, OnOk};
ghost use Rattle.std.specs.List.{concat};
ghost use Rattle.sr_mail_cut.specs.Cuts.{carrying, file_length, messages_from, least_message};

use crate::head::Head;
use sr_base::{Copied, NoMemory, Offset, Seq};
use sr_msgform::Message;
use std::alloc::Global;

/// The bytes that a message file has beside its names and its fragment.
const FRAME: u32 = 99;

/// What the messages of one window have in common beside their head.
#[derive(Clone, Copy)]
pub(crate) struct Span {
    pub(crate) prev: Offset,
    pub(crate) upto: Offset,
    pub(crate) total: u32,
}

/// How many bytes of a body a message of at most `length` bytes carries.
pub(crate) fn room(head: &Head, length: u32) -> u32
    requires { least_message ≤ length }
    ensures room { file_length head.now result ≡ length }
    ensures some { 9000 ≤ result }
{
    let names = head.from.bytes().len() + head.to.bytes().len();
    length - FRAME - names as u32
}

/// The message with this head that carries a fragment.
pub(crate) fn message_of(
    alloc: Global,
    head: &Head,
    span: &Span,
    start: u32,
    fragment: Seq<u8>,
) -> Result<Message, NoMemory>
    ensures { IfOk result (λ m. m ≡ carrying head.now span.now.prev span.now.upto span.now.total start fragment) }
{
    Ok(Message {
        from: head.from.copy(alloc)?,
        to: head.to.copy(alloc)?,
        resend_count: head.resend_count,
        prev: span.prev,
        upto: span.upto,
        total: span.total,
        start,
        fragment,
        confirm: head.confirm,
        ask_count: head.ask_count,
        ask_offset: head.ask_offset,
    })
}

/// Adds the messages that carry these fragments of a body, one after the other. The fragments are moved to them.
pub(crate) fn add_messages(
    alloc: Global,
    head: &Head,
    span: &Span,
    fragments: Vec<Seq<u8>>,
    messages: &mut Vec<Message>,
) -> Result<(), NoMemory>
    requires { length (concat fragments.items) < 2 ^ 32 }
    ensures { OnOk result (messages.new.items ≡ messages.old.items ++ messages_from head.now span.now.prev span.now.upto span.now.total 0 fragments.items) }
{
    let mut start = 0;
    let mut left = fragments.into_iter();
    'fragments: while let Some(fragment) = left.next() {
        let size = fragment.as_slice().len() as u32;
        messages.push(message_of(alloc, head, span, start, fragment)?)?;
        start += size;
    }
    Ok(())
}
