//! The entries of a log, and what they give a user.

use crate::bodies::framed;
use crate::giving::scanner_of;
use sr_base::{NoMemory, Offset};
use sr_logform::{Entry, read_entry};
use sr_scan::Scanner;
use std::alloc::{AllocError, Global};

/// How many entries there were, and how many of them gave something.
#[derive(Clone, Copy)]
pub(crate) struct Told {
    pub(crate) entries: u64,
    pub(crate) given: u64,
}

/// Reads each entry.
pub(crate) fn read(alloc: Global, bytes: &[u8]) -> Result<Told, NoMemory> {
    let mut told = Told {
        entries: 0,
        given: 0,
    };
    let mut left = bytes;
    for _ in 0..u64::MAX {
        let Some((body, rest)) = framed(left) else {
            break;
        };
        drop(entry_of(alloc, body)?);
        told.entries = told.entries.saturating_add(1);
        left = rest;
    }
    Ok(told)
}

/// Feeds each entry to a scanner.
pub(crate) fn scanned(alloc: Global, bytes: &[u8], user: &str) -> Result<Told, NoMemory> {
    let mut scanner = scanner_of(alloc, "cons", user)?;
    let told = scan(alloc, &mut scanner, bytes);
    drop(scanner);
    told
}

fn scan(alloc: Global, scanner: &mut Scanner, bytes: &[u8]) -> Result<Told, NoMemory> {
    let mut told = Told {
        entries: 0,
        given: 0,
    };
    let mut left = bytes;
    for _ in 0..u64::MAX {
        let Some((body, rest)) = framed(left) else {
            break;
        };
        told.entries = told.entries.saturating_add(1);
        if gives(alloc, scanner, Offset(told.entries), body)? {
            told.given = told.given.saturating_add(1);
        }
        left = rest;
    }
    Ok(told)
}

/// Whether an entry gives something.
fn gives(alloc: Global, scanner: &mut Scanner, at: Offset, body: &[u8]) -> Result<bool, NoMemory> {
    let entry = entry_of(alloc, body)?;
    let found = fed(alloc, scanner, at, &entry);
    drop(entry);
    found
}

fn fed(alloc: Global, scanner: &mut Scanner, at: Offset, entry: &Entry) -> Result<bool, NoMemory> {
    match scanner.feed(alloc, at, entry) {
        Ok(found) => Ok(found.is_some()),
        Err(refused) => Err(refused),
    }
}

/// The entry of a body; bytes that are none count as want of memory.
fn entry_of(alloc: Global, body: &[u8]) -> Result<Entry, NoMemory> {
    match read_entry(alloc, body) {
        Ok(entry) => Ok(entry),
        Err(_) => Err(AllocError),
    }
}
