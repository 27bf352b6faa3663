//! What the history of a database gives a user, by its log.

ghost use Rattle.std.specs.Prelude.{◌≡◌, ◌++◌, IfOk, OnOk};
ghost use Rattle.sr_catalog_schema.specs.Catalogs.{nothing_but};
ghost use Rattle.sr_world_steps.specs.Inner.Scanned.{AreGiven, kept};

use sr_base::{Copied, Name, NoMemory, Offset};
use sr_catalog::Catalog;
use sr_logform::{Entry, Transaction};
use sr_scan::Scanner;
use std::alloc::{AllocError, Global};

/// The transactions that a history gives a user in a window. It goes through the log, as a scanner does.
#[tactic(auto, using(crate::proofs::Scanning::scan_begun, crate::proofs::Scanning::scan_goes_on, crate::proofs::Scanning::scan_ended))]
pub(crate) fn given_in(
    alloc: Global,
    publisher: &Name,
    log: &[(Offset, Entry)],
    user: &Name,
    prev: Offset,
    upto: Offset,
) -> Result<Vec<Transaction>, NoMemory>
    ensures given { IfOk result (λ found. AreGiven publisher.now user.now prev.0 upto.0 log.now found.items) }
{
    let mut scanner = scanner_of(alloc, publisher, user)?;
    let mut found = Vec::new(alloc);
    let mut left = log;
    'entries: while let Some(((at, entry), rest)) = left.split_first() {
        let transaction = scanner.feed(alloc, *at, entry)?;
        keep(&mut found, prev, upto, transaction)?;
        left = rest;
    }
    Ok(found)
}

/// A scanner for a user, before any entry of a database.
fn scanner_of(alloc: Global, publisher: &Name, user: &Name) -> Result<Scanner, NoMemory>
    ensures catalog { IfOk result (λ s. s.catalog ≡ nothing_but publisher.now) }
    ensures user { IfOk result (λ s. s.user ≡ user.now) }
{
    let name = publisher.copy(alloc)?;
    let catalog = Catalog::new(alloc, name);
    let scanner = Scanner::new(alloc, &catalog, user);
    drop(catalog);
    let scanner = scanner?;
    Ok(scanner)
}

/// Keeps a transaction, where there is one and it lies in the window.
fn keep(
    found: &mut Vec<Transaction>,
    prev: Offset,
    upto: Offset,
    transaction: Option<Transaction>,
) -> Result<(), NoMemory>
    ensures kept { OnOk result (found.new.items ≡ found.old.items ++ kept prev.0 upto.0 transaction) }
{
    let Some(transaction) = transaction else {
        return Ok(());
    };
    if transaction.at.0 <= prev.0 || upto.0 < transaction.at.0 {
        drop(transaction);
        return Ok(());
    }
    match found.push(transaction) {
        Ok(()) => Ok(()),
        Err(_) => Err(AllocError),
    }
}
