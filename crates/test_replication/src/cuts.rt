//! Transactions cut into messages.

ghost use Rattle.std.specs.Prelude.{IfOk};
ghost use Rattle.std.specs.List.{AllByRecursion};
ghost use Rattle.sr_logform.specs.Inner.Ops.{IsShortTransaction};
ghost use Rattle.sr_mail_cut.specs.Bodies.{AreRising};

use crate::parts::read_transactions;
use crate::samples::{cut_at, head, spell};
use sr_base::{NoMemory, Offset};
use sr_logform::Transaction;
use sr_mail_cut::{Cutter, body};
use sr_msgform::Message;
use std::alloc::Global;
use test_rows::{count_of, say, say_number};

/// What is to be cut: the transactions at `at`, twice `at` and so on, and the longest message file.
#[derive(Clone, Copy)]
struct Cutting {
    at: u32,
    count: u32,
    rows: u32,
    letters: u32,
    length: u32,
}

fn cutting_of(given: &str) -> Cutting {
    Cutting {
        at: number_at(given, 0),
        count: number_at(given, 1),
        rows: number_at(given, 2),
        letters: number_at(given, 3),
        length: number_at(given, 4),
    }
}

fn number_at(given: &str, place: usize) -> u32 {
    match given.split_whitespace().nth(place) {
        Some(word) => count_of(word),
        None => 0,
    }
}

/// The transactions.
fn transactions_of(alloc: Global, cutting: Cutting) -> Result<Vec<Transaction>, NoMemory>
    ensures short { IfOk result (λ transactions. AllByRecursion IsShortTransaction transactions.items) }
    ensures rising { IfOk result (λ transactions. AreRising transactions.items) }
{
    let mut bytes = Vec::new(alloc);
    let transactions = match spell_all(&mut bytes, cutting) {
        Ok(()) => read_transactions(alloc, bytes.as_slice()),
        Err(refused) => Err(refused),
    };
    drop(bytes);
    transactions
}

fn spell_all(bytes: &mut Vec<u8>, cutting: Cutting) -> Result<(), NoMemory> {
    for number in 0..cutting.count {
        let at = (number as u64 + 1).wrapping_mul(cutting.at as u64);
        spell(bytes, at, cutting.rows, cutting.letters)?;
    }
    Ok(())
}

/// Cuts them at once.
pub fn say_cut(alloc: Global, given: &str, out: &mut Vec<u8>) -> Result<(), NoMemory> {
    let cutting = cutting_of(given);
    let transactions = transactions_of(alloc, cutting)?;
    let said = say_at_once(alloc, transactions.as_slice(), cutting.length, out);
    drop(transactions);
    said
}

fn say_at_once(
    alloc: Global,
    transactions: &[Transaction],
    length: u32,
    out: &mut Vec<u8>,
) -> Result<(), NoMemory>
    requires each { AllByRecursion IsShortTransaction transactions.now }
{
    match cut_at(alloc, transactions, length)? {
        Some(messages) => {
            let said = say_messages(messages.as_slice(), out);
            drop(messages);
            said
        }
        None => say(out, "too long"),
    }
}

/// Pushes them one by one.
pub fn say_pushed(alloc: Global, given: &str, out: &mut Vec<u8>) -> Result<(), NoMemory> {
    let cutting = cutting_of(given);
    let transactions = transactions_of(alloc, cutting)?;
    let said = say_by_cutter(alloc, transactions.as_slice(), cutting.length, out);
    drop(transactions);
    said
}

fn say_by_cutter(
    alloc: Global,
    transactions: &[Transaction],
    length: u32,
    out: &mut Vec<u8>,
) -> Result<(), NoMemory>
    requires each { AllByRecursion IsShortTransaction transactions.now }
{
    if length < 10_000 || length > 1_048_576 {
        return say(out, "no length");
    }
    let sender = head(alloc)?;
    let made = Cutter::new(alloc, &sender, Offset(0), length);
    drop(sender);
    let mut cutter = made?;
    let said = say_each(alloc, &mut cutter, transactions, out);
    drop(cutter);
    said
}

/// The messages that each transaction closes, and the last one. Where one closes several, nothing is held then.
fn say_each(
    alloc: Global,
    cutter: &mut Cutter,
    transactions: &[Transaction],
    out: &mut Vec<u8>,
) -> Result<(), NoMemory>
    requires each { AllByRecursion IsShortTransaction transactions.now }
{
    for transaction in transactions {
        match cutter.push(alloc, transaction) {
            Ok(closed) => {
                let is_held = closed.len() > 1 && cutter.held() != 0;
                let said = say_messages(closed.as_slice(), out);
                drop(closed);
                said?;
                if is_held {
                    say(out, " held")?;
                }
            }
            Err(_) => return say(out, "refused"),
        }
    }
    let last = cutter.finish(alloc)?;
    let said = say_messages(last.as_slice(), out);
    drop(last);
    said
}

fn say_messages(messages: &[Message], out: &mut Vec<u8>) -> Result<(), NoMemory> {
    for message in messages {
        let before = if out.is_empty() { "" } else { " " };
        say_number(out, before, message.upto.0)?;
        say_number(out, "@", message.start as u64)?;
        say_number(out, "+", message.fragment.as_slice().len() as u64)?;
    }
    Ok(())
}

/// Says how long the body of the transactions is, and how many they are.
pub fn say_bodied(alloc: Global, given: &str, out: &mut Vec<u8>) -> Result<(), NoMemory> {
    let transactions = transactions_of(alloc, cutting_of(given))?;
    let said = say_body(alloc, transactions.as_slice(), out);
    drop(transactions);
    said
}

fn say_body(alloc: Global, transactions: &[Transaction], out: &mut Vec<u8>) -> Result<(), NoMemory>
    requires each { AllByRecursion IsShortTransaction transactions.now }
    requires rising { AreRising transactions.now }
{
    let bytes = body(alloc, transactions)?;
    let length = bytes.len() as u64;
    drop(bytes);
    say_number(out, "", length)?;
    say_number(out, " bytes, ", transactions.len() as u64)
}
