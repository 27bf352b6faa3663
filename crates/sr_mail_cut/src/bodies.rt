//! Bodies: transactions one after the other, each a u64 offset and a list of ops that is not empty, with rising offsets.

ghost use Rattle.std.specs.Prelude.{◌≡◌, ◌++◌, List, IfOk, IfSome, OnOk, MatchOption};
ghost use Rattle.std.specs.List.{AllByRecursion};
ghost use Rattle.sr_logform.specs.declared.op.Transaction.{Transaction as ATransaction};
ghost use Rattle.sr_logform.specs.Inner.Ops.{IsShortTransaction};
ghost use Rattle.sr_mail_cut.specs.Bodies.{body_spelling, AreRising, IsBody};
ghost use Rattle.sr_mail_cut.specs.Inner.Bodies.{lies_past};

use sr_base::{Broken, Field, NoMemory, Offset};
use sr_logform::Transaction;
use std::alloc::{AllocError, Global};

/// The one spelling of these transactions. It takes a time linear in it.
pub fn body(alloc: Global, transactions: &[Transaction]) -> Result<Vec<u8>, NoMemory>
    requires each { AllByRecursion IsShortTransaction transactions.now }
    requires rising { AreRising transactions.now }
    ensures spelling { IfOk result (λ bytes. bytes.items ≡ body_spelling transactions.now) }
    ensures kept { OnOk result (IsBody transactions.now) }
{
    let mut out = Vec::new(alloc);
    for transaction in transactions {
        transaction.write(&mut out)?;
    }
    Ok(out)
}

/// The transactions that these bytes spell, all of the bytes. `None` exactly where they spell none: also where an offset does not
/// lie past the one before it. It takes a time linear in the bytes.
pub fn read_body(alloc: Global, bytes: &[u8]) -> Result<Option<Vec<Transaction>>, NoMemory>
    // What is read is spelled so.
    ensures found { IfOk result (λ found. IfSome found (λ transactions. IsBody transactions.items × (bytes.now ≡ body_spelling transactions.items))) }
    // So it can be written, and cut.
    ensures short { IfOk result (λ found. IfSome found (λ transactions. AllByRecursion IsShortTransaction transactions.items)) }
    // What is spelled so is read, unless there is no memory.
    ensures only { (transactions : List ATransaction) → IsBody transactions → bytes.now ≡ body_spelling transactions → IfOk result (λ found. MatchOption found ⊥ (λ read. read.items ≡ transactions)) }
{
    let mut transactions = Vec::new(alloc);
    let mut last = None;
    let mut rest = bytes;
    'transactions: while !rest.is_empty() {
        let (transaction, after) = match Transaction::read(alloc, rest) {
            Ok(read) => read,
            Err(Broken::Left(_)) => return Ok(None),
            Err(Broken::Memory) => return Err(AllocError),
        };
        if !lies_past(transaction.at, last) {
            return Ok(None);
        }
        last = Some(transaction.at);
        transactions.push(transaction)?;
        rest = after;
    }
    Ok(Some(transactions))
}

/// Whether an offset lies past the one before it, if there is one.
fn lies_past(offset: Offset, last: Option<Offset>) -> bool
    ensures { result ≡ lies_past offset last }
{
    match last {
        Some(before) => before.0 < offset.0,
        None => true,
    }
}
