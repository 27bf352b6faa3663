//! Transactions and messages to try with, from cons to r1.

ghost use Rattle.std.specs.List.{AllByRecursion};
ghost use Rattle.sr_logform.specs.Inner.Ops.{IsShortTransaction};

use sr_base::{NoMemory, Offset, Seq};
use sr_logform::Transaction;
use sr_mail::Inbox;
use sr_mail_cut::{Head, TooLong, cut, file_name};
use sr_msgform::Message;
use std::alloc::{AllocError, Global};
use test_rows::named;

pub fn head(alloc: Global) -> Result<Head, NoMemory> {
    let from = named(alloc, "cons")?;
    let to = named(alloc, "r1")?;
    Ok(Head {
        from,
        to,
        resend_count: 0,
        confirm: Offset(0),
        ask_count: 0,
        ask_offset: Offset(0),
    })
}

/// Appends the bytes of a transaction at an offset that inserts so many rows into doc, each with a text of so many letters x.
pub fn spell(bytes: &mut Vec<u8>, at: u64, rows: u32, letters: u32) -> Result<(), NoMemory> {
    spell_head(bytes, at, rows)?;
    for id in 0..rows {
        spell_row(bytes, id, letters)?;
    }
    Ok(())
}

/// The offset, and how many rows there are.
pub fn spell_head(bytes: &mut Vec<u8>, at: u64, rows: u32) -> Result<(), NoMemory> {
    bytes.extend_from_slice(&at.to_be_bytes())?;
    bytes.extend_from_slice(&rows.to_be_bytes())
}

/// One of the rows.
pub fn spell_row(bytes: &mut Vec<u8>, id: u32, letters: u32) -> Result<(), NoMemory> {
    bytes.extend_from_slice(b"\x01\x03doc\x00\x00\x00\x02\x02id\x01")?;
    bytes.extend_from_slice(&id.to_be_bytes())?;
    bytes.extend_from_slice(b"\x04body\x03")?;
    bytes.extend_from_slice(&letters.to_be_bytes())?;
    for _ in 0..letters {
        bytes.push(b'x')?;
    }
    Ok(())
}

/// The messages of transactions past offset 0; nothing where one is too long.
pub fn cut_at(
    alloc: Global,
    transactions: &[Transaction],
    length: u32,
) -> Result<Option<Vec<Message>>, NoMemory>
    requires each { AllByRecursion IsShortTransaction transactions.now }
{
    if length < 10_000 || length > 1_048_576 {
        return Ok(None);
    }
    let sender = head(alloc)?;
    let messages = cut(alloc, &sender, Offset(0), transactions, length);
    drop(sender);
    match messages {
        Ok(messages) => Ok(Some(messages)),
        Err(TooLong::Transaction { .. }) => Ok(None),
        Err(TooLong::Memory) => Err(AllocError),
    }
}

/// The window of a message, and its fragment.
#[derive(Clone, Copy)]
pub struct Sample {
    pub prev: u64,
    pub upto: u64,
    pub total: u32,
    pub start: u32,
    pub length: usize,
}

fn message(alloc: Global, sample: Sample) -> Result<Message, NoMemory> {
    let mut fragment = Vec::new(alloc);
    fragment.resize(sample.length, b'x')?;
    message_of(alloc, sample, fragment)
}

/// The message of a sample that carries these bytes.
pub fn message_of(alloc: Global, sample: Sample, fragment: Vec<u8>) -> Result<Message, NoMemory> {
    let from = named(alloc, "cons")?;
    let to = named(alloc, "r1")?;
    Ok(Message {
        from,
        to,
        resend_count: 0,
        prev: Offset(sample.prev),
        upto: Offset(sample.upto),
        total: sample.total,
        start: sample.start,
        fragment: Seq::from_vec(fragment),
        confirm: Offset(0),
        ask_count: 0,
        ask_offset: Offset(0),
    })
}

/// Adds the message of a sample to an inbox, under the name of this number.
pub fn add(alloc: Global, inbox: &mut Inbox, number: u64, sample: Sample) -> Result<(), NoMemory> {
    let message = message(alloc, sample)?;
    let added = add_message(alloc, inbox, number, &message);
    drop(message);
    added
}

/// Adds a message to an inbox, under the name of this number.
pub fn add_message(
    alloc: Global,
    inbox: &mut Inbox,
    number: u64,
    message: &Message,
) -> Result<(), NoMemory> {
    let name = file_name(alloc, &message.from, number)?;
    inbox.add(alloc, name, message)
}
