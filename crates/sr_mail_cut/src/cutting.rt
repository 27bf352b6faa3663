//! Transactions cut into messages at once.

ghost use Rattle.std.specs.Prelude.{◌≡◌, ◌++◌, ◌∷◌, [], None, IfOk, IfErr, OnOk};
ghost use Rattle.std.specs.List.{AllByRecursion};
ghost use Rattle.sr_logform.specs.Inner.Ops.{IsShortTransaction};
ghost use Rattle.sr_mail_cut.specs.Bodies.{first_long};
ghost use Rattle.sr_mail_cut.specs.Cuts.{IsCut, AreCut, bodyless};
ghost use Rattle.sr_mail_cut.specs.Inner.Cuts.{CutCause, IsMessageLimit};

use crate::cutter::Cutter;
use crate::fragments::{Span, message_of};
use crate::head::Head;
use crate::too_long::TooLong;
use sr_base::{NoMemory, Offset, Seq};
use sr_logform::Transaction;
use sr_msgform::Message;
use std::alloc::Global;

/// The messages that carry these transactions from `prev` on, each of at most `length` bytes and filled as far as that allows. Of no
/// transaction it is one message without a body. It takes a time linear in what they carry.
///
/// `TooLong::Transaction { need }` comes exactly where the encoding of one is longer than 64 MiB; `need` is the number of bytes of the first such.
pub fn cut(
    alloc: Global,
    head: &Head,
    prev: Offset,
    transactions: &[Transaction],
    length: u32,
) -> Result<Vec<Message>, TooLong>
    requires each { AllByRecursion IsShortTransaction transactions.now }
    requires limit { IsMessageLimit length }
    ensures cut { IfOk result (λ messages. IsCut head.now prev transactions.now length messages.items) }
    ensures fits { OnOk result (first_long transactions.now ≡ None) }
    ensures cause { IfErr result (CutCause transactions.now) }
{
    if transactions.is_empty() {
        return Ok(without_body(alloc, head, prev)?);
    }
    cut_all(alloc, head, prev, transactions, length)
}

/// One message without a body.
fn without_body(alloc: Global, head: &Head, prev: Offset) -> Result<Vec<Message>, NoMemory>
    ensures { IfOk result (λ messages. messages.items ≡ bodyless head.now prev ∷ []) }
{
    let span = Span {
        prev,
        upto: prev,
        total: 0,
    };
    let mut messages = Vec::new(alloc);
    messages.push(message_of(alloc, head, &span, 0, Seq::empty(alloc))?)?;
    Ok(messages)
}

/// The messages that carry these transactions.
fn cut_all(
    alloc: Global,
    head: &Head,
    prev: Offset,
    transactions: &[Transaction],
    length: u32,
) -> Result<Vec<Message>, TooLong>
    requires each { AllByRecursion IsShortTransaction transactions.now }
    requires limit { IsMessageLimit length }
    ensures cut { IfOk result (λ messages. AreCut head.now prev transactions.now length messages.items) }
    ensures fits { OnOk result (first_long transactions.now ≡ None) }
    ensures cause { IfErr result (CutCause transactions.now) }
{
    let mut cutter = Cutter::new(alloc, head, prev, length)?;
    let mut messages = Vec::new(alloc);
    for transaction in transactions {
        let mut closed = cutter.push(alloc, transaction)?;
        messages.append(&mut closed)?;
    }
    let mut last = cutter.finish(alloc)?;
    messages.append(&mut last)?;
    Ok(messages)
}
