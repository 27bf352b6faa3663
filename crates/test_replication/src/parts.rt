//! Rows, entries and transactions from what a row has. Bytes that are no row or entry are nothing.

ghost use Rattle.std.specs.Prelude.{IfOk};
ghost use Rattle.std.specs.List.{AllByRecursion};
ghost use Rattle.sr_mail_cut.specs.Bodies.{AreRising};
ghost use Rattle.sr_logform.specs.Inner.Ops.{IsShortTransaction};

use sr_base::{NoMemory, Row, read_row};
use sr_logform::{Entry, Transaction, read_entry};
use sr_mail_cut::read_body;
use std::alloc::{AllocError, Global};
use test_rows::push_hex;

fn bytes_of(alloc: Global, hex: &str) -> Result<Vec<u8>, NoMemory> {
    let mut bytes = Vec::new(alloc);
    push_hex(&mut bytes, hex)?;
    Ok(bytes)
}

pub(crate) fn row_of(alloc: Global, hex: &str) -> Result<Option<Row>, NoMemory> {
    let bytes = bytes_of(alloc, hex)?;
    match read_row(alloc, bytes.as_slice()) {
        Ok((row, _)) => Ok(Some(row)),
        Err(_) => Ok(None),
    }
}

pub(crate) fn entry_of(alloc: Global, hex: &str) -> Result<Option<Entry>, NoMemory> {
    let bytes = bytes_of(alloc, hex)?;
    match read_entry(alloc, bytes.as_slice()) {
        Ok(entry) => Ok(Some(entry)),
        Err(_) => Ok(None),
    }
}

/// The transactions of a body: none of no bytes.
pub(crate) fn body_of(alloc: Global, hex: &str) -> Result<Vec<Transaction>, NoMemory> {
    let bytes = bytes_of(alloc, hex)?;
    read_transactions(alloc, bytes.as_slice())
}

/// The transactions of a body. Bytes that are none count as want of memory.
pub(crate) fn read_transactions(alloc: Global, bytes: &[u8]) -> Result<Vec<Transaction>, NoMemory>
    ensures short { IfOk result (λ transactions. AllByRecursion IsShortTransaction transactions.items) }
    ensures rising { IfOk result (λ transactions. AreRising transactions.items) }
{
    match read_body(alloc, bytes)? {
        Some(transactions) => Ok(transactions),
        None => Err(AllocError),
    }
}
