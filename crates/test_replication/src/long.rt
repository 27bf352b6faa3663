//! A long transaction, cut; and put together and read.

ghost use Rattle.std.specs.Prelude.{◌≡◌, map, IfOk};
ghost use Rattle.std.specs.List.{AllByRecursion};
ghost use Rattle.sr_logform.specs.Inner.Ops.{IsShortTransaction};
ghost use Rattle.sr_mail.specs.Inner.Inboxes.{IsNext};
ghost use Rattle.sr_mail.specs.declared.piece.Piece.{Piece as APiece};
ghost use Rattle.sr_msgform.specs.declared.message.Message.{Message as AMessage};

use crate::parts::read_transactions;
use crate::samples::{Sample, add_message, cut_at, message_of, spell, spell_head, spell_row};
use sr_base::{Copied, NoMemory, Offset};
use sr_logform::Transaction;
use sr_mail::{Inbox, Piece, assemble};
use sr_mail_cut::read_body;
use sr_msgform::Message;
use std::alloc::{AllocError, Global};
use test_rows::{say, say_number};

/// How many letters a row has.
const LETTERS: u32 = 32_000;

/// The offset of the transaction.
const AT: u64 = 100;

/// How many bytes a message carries.
const ROOM: usize = 49_895;

/// Says what a transaction with so many letters is cut into, in rows of 32,000.
pub fn say_long(alloc: Global, letters: u32, out: &mut Vec<u8>) -> Result<(), NoMemory> {
    say_cut_up(alloc, rows_of(letters), LETTERS, out)
}

/// The same of a transaction with one row.
pub fn say_text(alloc: Global, letters: u32, out: &mut Vec<u8>) -> Result<(), NoMemory> {
    say_cut_up(alloc, 1, letters, out)
}

/// Says what the messages of the transaction with so many letters are put together to.
pub fn say_joined(alloc: Global, letters: u32, out: &mut Vec<u8>) -> Result<(), NoMemory> {
    let messages = spelled_messages(alloc, rows_of(letters))?;
    say_number(out, "", messages.len() as u64)?;
    say_put_together(alloc, messages, out)
}

fn rows_of(letters: u32) -> u32 {
    letters / LETTERS + 1
}

fn say_cut_up(alloc: Global, rows: u32, letters: u32, out: &mut Vec<u8>) -> Result<(), NoMemory> {
    match messages_of(alloc, rows, letters)? {
        Some(messages) => {
            let count = messages.len() as u64;
            let size = body_size(messages.as_slice());
            drop(messages);
            say_number(out, "", count)?;
            say_number(out, " messages, ", size)?;
            say(out, " bytes, cut")
        }
        None => say(out, "too long"),
    }
}

/// How many bytes the body of a window has, by its first message.
fn body_size(messages: &[Message]) -> u64 {
    match messages.first() {
        Some(message) => message.total as u64,
        None => 0,
    }
}

/// The messages of a transaction that never stands as a whole, as the receiver finds them.
fn spelled_messages(alloc: Global, rows: u32) -> Result<Vec<Message>, NoMemory> {
    let mut sample = Sample {
        prev: 0,
        upto: AT,
        total: rows.wrapping_mul(LETTERS + 27).wrapping_add(12),
        start: 0,
        length: ROOM,
    };
    let mut messages = Vec::new(alloc);
    let mut left = Vec::new(alloc);
    spell_head(&mut left, AT, rows)?;
    for id in 0..rows {
        spell_row(&mut left, id, LETTERS)?;
        if left.len() > ROOM {
            let behind = left.split_off(ROOM)?;
            let fragment = Vec::from_slice(alloc, left.as_slice())?;
            messages.push(message_of(alloc, sample, fragment)?)?;
            sample.start = sample.start.wrapping_add(ROOM as u32);
            left = behind;
        }
    }
    messages.push(message_of(alloc, sample, left)?)?;
    Ok(messages)
}

/// The transaction's bytes, read.
fn transactions_of(alloc: Global, rows: u32, letters: u32) -> Result<Vec<Transaction>, NoMemory>
    ensures { IfOk result (λ transactions. AllByRecursion IsShortTransaction transactions.items) }
{
    let mut bytes = Vec::new(alloc);
    let transactions = match spell(&mut bytes, AT, rows, letters) {
        Ok(()) => read_transactions(alloc, bytes.as_slice()),
        Err(refused) => Err(refused),
    };
    drop(bytes);
    transactions
}

fn messages_of(alloc: Global, rows: u32, letters: u32) -> Result<Option<Vec<Message>>, NoMemory> {
    let transactions = transactions_of(alloc, rows, letters)?;
    let messages = cut_at(alloc, transactions.as_slice(), 50_000);
    drop(transactions);
    messages
}

fn say_put_together(
    alloc: Global,
    messages: Vec<Message>,
    out: &mut Vec<u8>,
) -> Result<(), NoMemory> {
    match put_together(alloc, messages)? {
        Some(bytes) => {
            let ops = ops_in(alloc, bytes.as_slice());
            let size = bytes.len() as u64;
            drop(bytes);
            say_number(out, " messages, ", size)?;
            say_number(out, " bytes, ", ops? as u64)?;
            say(out, " ops")
        }
        None => say(out, " messages, torn"),
    }
}

/// The body that the messages have together.
fn put_together(alloc: Global, messages: Vec<Message>) -> Result<Option<Vec<u8>>, NoMemory> {
    let mut inbox = Inbox::new(alloc);
    let body = match add_all(alloc, &mut inbox, messages.as_slice()) {
        Ok(()) => body_in(alloc, &inbox, messages),
        Err(refused) => {
            drop(messages);
            Err(refused)
        }
    };
    drop(inbox);
    body
}

fn add_all(alloc: Global, inbox: &mut Inbox, messages: &[Message]) -> Result<(), NoMemory> {
    let mut number = 0u64;
    for message in messages {
        add_message(alloc, inbox, number, message)?;
        number = number.wrapping_add(1);
    }
    Ok(())
}

/// The body of the next window of an inbox, whose pieces are these messages in their order.
fn body_in(
    alloc: Global,
    inbox: &Inbox,
    messages: Vec<Message>,
) -> Result<Option<Vec<u8>>, NoMemory> {
    match inbox.next(alloc, Offset(0)) {
        Ok(Some(pieces)) => {
            let body = joined(alloc, inbox, pieces.as_slice(), messages);
            drop(pieces);
            body
        }
        Ok(None) => {
            drop(messages);
            Ok(None)
        }
        Err(refused) => {
            drop(messages);
            Err(refused)
        }
    }
}

/// The body of the pieces that are next, whose messages are these in their order.
pub fn joined(
    alloc: Global,
    _inbox: &Inbox,
    pieces: &[Piece],
    messages: Vec<Message>,
) -> Result<Option<Vec<u8>>, NoMemory>
    requires next { IsNext _inbox.now 0 pieces.now }
{
    let pairs = paired(alloc, pieces, messages)?;
    let body = assemble(alloc, pairs.as_slice());
    drop(pairs);
    body
}

/// Each piece with the message at its place.
fn paired(
    alloc: Global,
    pieces: &[Piece],
    messages: Vec<Message>,
) -> Result<Vec<(Piece, Message)>, NoMemory>
    ensures { IfOk result (λ pairs. map (λ (pair : APiece × AMessage). pair.0) pairs.items ≡ pieces.now) }
{
    let mut left = messages.into_iter();
    let mut pairs = Vec::new(alloc);
    for piece in pieces {
        let Some(message) = left.next() else {
            return Err(AllocError);
        };
        pairs.push((piece.copy(alloc)?, message))?;
    }
    Ok(pairs)
}

/// How many ops the first transaction of a body has.
fn ops_in(alloc: Global, bytes: &[u8]) -> Result<usize, NoMemory> {
    match read_body(alloc, bytes)? {
        Some(read) => {
            let ops = first_ops(read.as_slice());
            drop(read);
            Ok(ops)
        }
        None => Ok(0),
    }
}

fn first_ops(transactions: &[Transaction]) -> usize {
    match transactions.first() {
        Some(transaction) => transaction.ops.as_slice().len(),
        None => 0,
    }
}
