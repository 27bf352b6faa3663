//! The fields of a message between its version and its digest.

ghost use Rattle.std.specs.Prelude.{◌≡◌, ◌++◌, ◌<◌, ◌^◌, length, OnOk};
ghost use Rattle.sr_base.specs.Fields.{bytes_spelling};
ghost use Rattle.sr_base.specs.Inner.Fields.{bytes_at};
ghost use Rattle.sr_base.specs.Inner.Reading.{Gives};
ghost use Rattle.sr_msgform.specs.Messages.{head_fields, fields, HeadInRange, IsInRange};
ghost use Rattle.sr_msgform.specs.Inner.Messages.{fields_at};

use crate::message::Message;
use sr_base::{Broken, Field, Name, NoMemory, Offset, Seq, write_triple};
use std::alloc::Global;

type Head = ((Name, Name, u64), (Offset, Offset, u32), u32);

type Tail = (Offset, u64, Offset);

/// A u32 length, and so many bytes.
#[tactic(auto, unfolding(sr_base::specs::Inner::Fields::bytes_at))]
fn fragment_of(alloc: Global, bytes: &[u8]) -> Result<(Seq<u8>, &[u8]), Broken>
    ensures { Gives (λ x. (x.0, x.1.now)) result (bytes_at bytes.now) }
{
    let (size, behind) = u32::read(alloc, bytes)?;
    let size = size as usize;
    if behind.len() < size {
        return Err(Broken::Left(bytes.len()));
    }
    let (prefix, rest) = behind.split_at(size);
    Ok((Seq::from_vec(Vec::from_slice(alloc, prefix)?), rest))
}

/// The message whose fields stand at the front of the bytes, and the bytes after them.
#[tactic(auto, unfolding(crate::specs::Inner::Messages::fields_at))]
pub(crate) fn fields_of(alloc: Global, bytes: &[u8]) -> Result<(Message, &[u8]), Broken>
    ensures { Gives (λ x. (x.0, x.1.now)) result (fields_at bytes.now) }
{
    let (head, rest) = Head::read(alloc, bytes)?;
    let (fragment, rest) = fragment_of(alloc, rest)?;
    let (tail, rest) = Tail::read(alloc, rest)?;
    let ((from, to, resend_count), (prev, upto, total), start) = head;
    let (confirm, ask_count, ask_offset) = tail;
    let message = Message {
        from,
        to,
        resend_count,
        prev,
        upto,
        total,
        start,
        fragment,
        confirm,
        ask_count,
        ask_offset,
    };
    Ok((message, rest))
}

/// Adds the fields before the fragment.
fn write_head(message: &Message, out: &mut Vec<u8>) -> Result<(), NoMemory>
    ensures ok { OnOk result (out.new.items ≡ out.old.items ++ head_fields message.now) }
    ensures kept { OnOk result (HeadInRange message.now) }
{
    write_triple(&message.from, &message.to, &message.resend_count, out)?;
    write_triple(&message.prev, &message.upto, &message.total, out)?;
    message.start.write(out)
}

/// Adds the length of the fragment and its bytes.
fn write_fragment(fragment: &[u8], out: &mut Vec<u8>) -> Result<(), NoMemory>
    requires { length fragment.now < 2 ^ 32 }
    ensures { OnOk result (out.new.items ≡ out.old.items ++ bytes_spelling fragment.now) }
{
    (fragment.len() as u32).write(out)?;
    out.extend_from_slice(fragment)
}

/// Adds the fields in their order.
#[tactic(auto, unfolding(crate::specs::Messages::fields))]
pub(crate) fn write_fields(message: &Message, out: &mut Vec<u8>) -> Result<(), NoMemory>
    requires { length message.now.fragment < 2 ^ 32 }
    ensures ok { OnOk result (out.new.items ≡ out.old.items ++ fields message.now) }
    ensures kept { OnOk result (IsInRange message.now) }
{
    write_head(message, out)?;
    write_fragment(message.fragment.as_slice(), out)?;
    write_triple(
        &message.confirm,
        &message.ask_count,
        &message.ask_offset,
        out,
    )
}
