//! What logs and single entries give.

use crate::databases::new_catalog;
use crate::ops::are_ops;
use crate::parts::{body_of, entry_of};
use sr_base::{Name, NoMemory, Offset};
use sr_catalog::Catalog;
use sr_logform::{Entry, Op, Transaction};
use sr_scan::{Scanner, given};
use std::alloc::Global;
use test_rows::{named, number_of, word};

/// Whether an entry gives the user the ops of the transaction behind `gives`.
pub(crate) fn is_given(alloc: Global, catalog: &Catalog, told: &str) -> Result<bool, NoMemory> {
    let (told, want) = told.split_once(" gives ").unwrap_or((told, ""));
    let (user, entry) = told.split_once(" ").unwrap_or((told, ""));
    let user = named(alloc, user)?;
    is_given_to(alloc, catalog, &user, entry, want)
}

fn is_given_to(
    alloc: Global,
    catalog: &Catalog,
    user: &Name,
    entry: &str,
    want: &str,
) -> Result<bool, NoMemory> {
    match entry_of(alloc, entry)? {
        Some(entry) => {
            let right = gives(alloc, catalog, user, &entry, want);
            drop(entry);
            right
        }
        None => Ok(false),
    }
}

fn gives(
    alloc: Global,
    catalog: &Catalog,
    user: &Name,
    entry: &Entry,
    want: &str,
) -> Result<bool, NoMemory> {
    let found = given(alloc, catalog, entry, user)?;
    let right = are_wanted(alloc, found.as_slice(), want);
    drop(found);
    right
}

fn are_wanted(alloc: Global, found: &[Op], want: &str) -> Result<bool, NoMemory> {
    let body = body_of(alloc, want)?;
    let same = match body.as_slice() {
        [] => found.is_empty(),
        [wanted] => are_ops(found, wanted.ops.as_slice()),
        _ => false,
    };
    drop(body);
    Ok(same)
}

/// A scanner for a user of a new database.
pub(crate) fn scanner_of(alloc: Global, publisher: &str, user: &str) -> Result<Scanner, NoMemory> {
    let user = named(alloc, user)?;
    let catalog = new_catalog(alloc, publisher)?;
    let scanner = Scanner::new(alloc, &catalog, &user);
    drop(catalog);
    scanner
}

/// Begins with another log.
pub(crate) fn begin(alloc: Global, scanner: &mut Scanner, names: &str) -> Result<(), NoMemory> {
    let other = scanner_of(alloc, word(names, 0), word(names, 1))?;
    *scanner = other;
    Ok(())
}

/// Whether the next entry gives the transaction behind `gives`.
pub(crate) fn is_fed(alloc: Global, scanner: &mut Scanner, told: &str) -> Result<bool, NoMemory> {
    let (told, want) = told.split_once(" gives ").unwrap_or((told, ""));
    let (end, entry) = told.split_once(" ").unwrap_or((told, ""));
    match entry_of(alloc, entry)? {
        Some(entry) => {
            let right = is_next(alloc, scanner, Offset(number_of(end)), &entry, want);
            drop(entry);
            right
        }
        None => Ok(false),
    }
}

fn is_next(
    alloc: Global,
    scanner: &mut Scanner,
    end: Offset,
    entry: &Entry,
    want: &str,
) -> Result<bool, NoMemory> {
    let found = scanner.feed(alloc, end, entry)?;
    let right = is_wanted(alloc, &found, want);
    drop(found);
    right
}

fn is_wanted(alloc: Global, found: &Option<Transaction>, want: &str) -> Result<bool, NoMemory> {
    let body = body_of(alloc, want)?;
    let same = match (found, body.as_slice()) {
        (None, []) => true,
        (Some(found), [wanted]) => {
            found.at.0 == wanted.at.0 && are_ops(found.ops.as_slice(), wanted.ops.as_slice())
        }
        _ => false,
    };
    drop(body);
    Ok(same)
}
