//! Calls of the mail of a site.

use crate::saying::say_written;
use sr_base::{Name, NoMemory, Text};
use sr_site::{MailFault, Site};
use std::alloc::{AllocError, Global};
use test_rows::{named, number, say, say_number, word};

/// Makes a call of the mail.
pub fn say_mail<S: Site>(
    alloc: Global,
    site: &mut S,
    step: &str,
    out: &mut Vec<u8>,
) -> Result<(), NoMemory> {
    let name = Text::from_str(alloc, word(step, 2))?;
    let said = say_named(alloc, site, &name, step, out);
    drop(name);
    said
}

fn say_named<S: Site>(
    alloc: Global,
    site: &mut S,
    name: &Text,
    step: &str,
    out: &mut Vec<u8>,
) -> Result<(), NoMemory> {
    let address = named(alloc, word(step, 1))?;
    let said = match word(step, 0) {
        "put" => say_end(
            out,
            site.put(alloc, &address, name, word(step, 3).as_bytes()),
        ),
        "remove" => say_end(out, site.remove(alloc, &address, name)),
        "list" => say_list(alloc, site, &address, out),
        _ => say_fetched(alloc, site, &address, name, number(step, 3), out),
    };
    drop(address);
    said
}

/// Attaches a site to the files of a name, the first word behind the step's own, and to the mail folder that the second one names.
pub fn say_attached<S: Site>(
    alloc: Global,
    site: &mut S,
    step: &str,
    out: &mut Vec<u8>,
) -> Result<(), NoMemory> {
    let name = Text::from_str(alloc, word(step, 1))?;
    let said = say_attached_to(alloc, site, &name, word(step, 2), out);
    drop(name);
    said
}

fn say_attached_to<S: Site>(
    alloc: Global,
    site: &mut S,
    name: &Text,
    folder: &str,
    out: &mut Vec<u8>,
) -> Result<(), NoMemory> {
    let folder = Text::from_str(alloc, folder)?;
    let end = site.attach(alloc, name, &folder);
    drop(folder);
    say_end(out, end)
}

fn say_end(out: &mut Vec<u8>, end: Result<(), MailFault>) -> Result<(), NoMemory> {
    match end {
        Ok(()) => say(out, "ok"),
        Err(MailFault::Failed) => say(out, "failed"),
        Err(MailFault::Memory) => Err(AllocError),
    }
}

/// Says how many names are listed.
fn say_list<S: Site>(
    alloc: Global,
    site: &mut S,
    address: &Name,
    out: &mut Vec<u8>,
) -> Result<(), NoMemory> {
    match site.list(alloc, address) {
        Ok(listing) => {
            let count = listing.names.as_slice().len() as u64;
            drop(listing);
            say_number(out, "", count)
        }
        Err(fault) => say_end(out, Err(fault)),
    }
}

fn say_fetched<S: Site>(
    alloc: Global,
    site: &mut S,
    address: &Name,
    name: &Text,
    limit: u64,
    out: &mut Vec<u8>,
) -> Result<(), NoMemory> {
    match site.fetch(alloc, address, name, limit as usize) {
        Ok(Some(bytes)) => {
            let said = say_written(out, bytes.as_slice());
            drop(bytes);
            said
        }
        Ok(None) => say(out, "none"),
        Err(fault) => say_end(out, Err(fault)),
    }
}
