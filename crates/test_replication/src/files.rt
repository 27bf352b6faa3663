//! Message files that another implementation made.

ghost use Rattle.std.specs.List.{AllByRecursion};
ghost use Rattle.sr_logform.specs.Inner.Ops.{IsShortTransaction};

use crate::parts::read_transactions;
use sr_base::{Copied, NoMemory};
use sr_logform::Transaction;
use sr_mail_cut::{Head, cut, file_name};
use sr_msgform::{Message, read_message};
use std::alloc::{AllocError, Global};
use test_rows::{number_of, push_hex, say};

/// Says the name of a file with this number, where what it carries is cut into it.
pub fn say_file(alloc: Global, given: &str, out: &mut Vec<u8>) -> Result<(), NoMemory> {
    let (number, hex) = given.split_once(" ").unwrap_or((given, ""));
    let mut bytes = Vec::new(alloc);
    let said = match push_hex(&mut bytes, hex) {
        Ok(()) => say_read(alloc, number_of(number), bytes.as_slice(), out),
        Err(refused) => Err(refused),
    };
    drop(bytes);
    said
}

fn say_read(alloc: Global, number: u64, file: &[u8], out: &mut Vec<u8>) -> Result<(), NoMemory> {
    match read_message(alloc, file)? {
        Some(message) => {
            let said = say_name(alloc, number, &message, out);
            drop(message);
            said
        }
        None => say(out, "no message"),
    }
}

fn say_name(
    alloc: Global,
    number: u64,
    message: &Message,
    out: &mut Vec<u8>,
) -> Result<(), NoMemory> {
    if !is_cut_again(alloc, message)? {
        return say(out, "cut otherwise");
    }
    let name = file_name(alloc, &message.from, number)?;
    let said = say(out, name.as_str());
    drop(name);
    said
}

/// Whether what a message carries is cut into this message alone.
fn is_cut_again(alloc: Global, message: &Message) -> Result<bool, NoMemory> {
    let transactions = read_transactions(alloc, message.fragment.as_slice())?;
    let is_cut = is_cut_so(alloc, message, transactions.as_slice());
    drop(transactions);
    is_cut
}

fn is_cut_so(
    alloc: Global,
    message: &Message,
    transactions: &[Transaction],
) -> Result<bool, NoMemory>
    requires each { AllByRecursion IsShortTransaction transactions.now }
{
    let head = head_of(alloc, message)?;
    let made = cut(alloc, &head, message.prev, transactions, 10_000);
    drop(head);
    match made {
        Ok(messages) => {
            let is_same = match messages.as_slice() {
                [one] => is_same(one, message),
                _ => false,
            };
            drop(messages);
            Ok(is_same)
        }
        Err(_) => Err(AllocError),
    }
}

/// What the messages of one pass have in common with this one.
fn head_of(alloc: Global, message: &Message) -> Result<Head, NoMemory> {
    let from = message.from.copy(alloc)?;
    let to = message.to.copy(alloc)?;
    Ok(Head {
        from,
        to,
        resend_count: message.resend_count,
        confirm: message.confirm,
        ask_count: message.ask_count,
        ask_offset: message.ask_offset,
    })
}

/// Whether they are one message.
fn is_same(message: &Message, other: &Message) -> bool {
    message.from.bytes() == other.from.bytes()
        && message.to.bytes() == other.to.bytes()
        && message.resend_count == other.resend_count
        && message.prev.0 == other.prev.0
        && message.upto.0 == other.upto.0
        && message.total == other.total
        && message.start == other.start
        && message.fragment.as_slice() == other.fragment.as_slice()
        && message.confirm.0 == other.confirm.0
        && message.ask_count == other.ask_count
        && message.ask_offset.0 == other.ask_offset.0
}
