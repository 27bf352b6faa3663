//! Many small transactions.

ghost use Rattle.std.specs.Prelude.{IfOk};
ghost use Rattle.std.specs.List.{AllByRecursion};
ghost use Rattle.sr_logform.specs.Inner.Ops.{IsShortTransaction};

use crate::parts::read_transactions;
use crate::samples::{head, spell};
use sr_base::{NoMemory, Offset};
use sr_logform::Transaction;
use sr_mail_cut::Cutter;
use std::alloc::Global;
use test_rows::{say, say_number};

/// How many transactions are read at a time.
const BATCH: u32 = 1000;

/// What came of pushing.
#[derive(Clone, Copy)]
struct Told {
    transactions: u64,
    messages: u64,
    /// The most bytes that were held.
    held: u32,
}

/// Pushed to a cutter as they come, for messages of at most 50,000 bytes.
pub fn say_small(alloc: Global, count: u32, out: &mut Vec<u8>) -> Result<(), NoMemory> {
    let sender = head(alloc)?;
    let made = Cutter::new(alloc, &sender, Offset(0), 50_000);
    drop(sender);
    let mut cutter = made?;
    let told = push_all(alloc, &mut cutter, count);
    drop(cutter);
    say_told(told?, out)
}

fn say_told(told: Told, out: &mut Vec<u8>) -> Result<(), NoMemory> {
    say_number(out, "", told.transactions)?;
    say_number(out, " transactions, ", told.messages)?;
    say_number(out, " messages, at most ", told.held as u64)?;
    say(out, " bytes held")
}

fn push_all(alloc: Global, cutter: &mut Cutter, count: u32) -> Result<Told, NoMemory> {
    let mut told = Told {
        transactions: 0,
        messages: 0,
        held: 0,
    };
    for batch in 0..count / BATCH {
        push_batch(alloc, cutter, batch as u64 * BATCH as u64, &mut told)?;
    }
    let last = cutter.finish(alloc)?;
    told.messages = told.messages.wrapping_add(last.len() as u64);
    drop(last);
    Ok(told)
}

/// The transactions of one batch, which follow an offset.
fn push_batch(
    alloc: Global,
    cutter: &mut Cutter,
    before: u64,
    told: &mut Told,
) -> Result<(), NoMemory> {
    let transactions = batch_of(alloc, before)?;
    let pushed = push_each(alloc, cutter, transactions.as_slice(), told);
    drop(transactions);
    pushed
}

/// Each inserts a row with a text of 8 letters.
fn batch_of(alloc: Global, before: u64) -> Result<Vec<Transaction>, NoMemory>
    ensures { IfOk result (λ transactions. AllByRecursion IsShortTransaction transactions.items) }
{
    let mut bytes = Vec::new(alloc);
    let transactions = match spell_batch(&mut bytes, before) {
        Ok(()) => read_transactions(alloc, bytes.as_slice()),
        Err(refused) => Err(refused),
    };
    drop(bytes);
    transactions
}

fn spell_batch(bytes: &mut Vec<u8>, before: u64) -> Result<(), NoMemory> {
    for number in 0..BATCH {
        spell(bytes, before.wrapping_add(number as u64 + 1), 1, 8)?;
    }
    Ok(())
}

fn push_each(
    alloc: Global,
    cutter: &mut Cutter,
    transactions: &[Transaction],
    told: &mut Told,
) -> Result<(), NoMemory>
    requires each { AllByRecursion IsShortTransaction transactions.now }
{
    for transaction in transactions {
        match cutter.push(alloc, transaction) {
            Ok(closed) => {
                told.messages = told.messages.wrapping_add(closed.len() as u64);
                drop(closed);
                told.transactions = told.transactions.wrapping_add(1);
                told.held = told.held.max(cutter.held());
            }
            Err(_) => return Ok(()),
        }
    }
    Ok(())
}
