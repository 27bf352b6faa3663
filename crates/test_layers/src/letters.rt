//! Steps on the folders alone: what becomes of message files on their way.

use crate::saying::{Devices, say_ok, say_steps, say_written};
use sr_base::{Name, NoMemory, Text};
use sr_memsite::SharedMail;
use std::alloc::Global;
use test_rows::{named, number, say, say_number, word};

pub fn say_letters(alloc: Global, steps: &str, out: &mut Vec<u8>) -> Result<(), NoMemory> {
    let mut mail = SharedMail::new(alloc);
    let said = say_steps(alloc, &mut mail, steps, out);
    drop(mail);
    said
}

impl Devices for SharedMail {
    fn say_step(&mut self, alloc: Global, step: &str, out: &mut Vec<u8>) -> Result<(), NoMemory> {
        match word(step, 0) {
            "release" => {
                self.release();
                say(out, "ok")
            }
            "puts" => say_puts(self.puts(), out),
            _ => say_named(alloc, self, step, out),
        }
    }
}

/// Says the address and the name of every put.
fn say_puts(puts: &[(Name, Text)], out: &mut Vec<u8>) -> Result<(), NoMemory> {
    for put in puts {
        say(out, "/")?;
        out.extend_from_slice(put.0.bytes())?;
        say(out, ":")?;
        out.extend_from_slice(put.1.bytes())?;
    }
    Ok(())
}

fn say_named(
    alloc: Global,
    mail: &mut SharedMail,
    step: &str,
    out: &mut Vec<u8>,
) -> Result<(), NoMemory> {
    let address = named(alloc, word(step, 1))?;
    let said = say_addressed(alloc, mail, &address, step, out);
    drop(address);
    said
}

fn say_addressed(
    alloc: Global,
    mail: &mut SharedMail,
    address: &Name,
    step: &str,
    out: &mut Vec<u8>,
) -> Result<(), NoMemory> {
    let name = Text::from_str(alloc, word(step, 2))?;
    let said = say_letter(alloc, mail, address, &name, step, out);
    drop(name);
    said
}

/// Does what a step says with a file.
fn say_letter(
    alloc: Global,
    mail: &mut SharedMail,
    address: &Name,
    name: &Text,
    step: &str,
    out: &mut Vec<u8>,
) -> Result<(), NoMemory> {
    match word(step, 0) {
        "put" => {
            mail.put(alloc, address, name, word(step, 3).as_bytes())?;
            say(out, "ok")
        }
        "lay" => {
            let bytes = Vec::from_slice(alloc, word(step, 3).as_bytes())?;
            mail.lay(alloc, address, name, bytes)?;
            say(out, "ok")
        }
        "remove" => {
            mail.remove(address, name);
            say(out, "ok")
        }
        "lose" => say_ok(out, mail.lose(address, name), "none"),
        "hold" => say_ok(out, mail.hold(address, name), "none"),
        "repeat" => say_repeated(alloc, mail, address, name, word(step, 3), out),
        "list" => say_list(alloc, mail, address, out),
        "file" => say_some(mail.file(address, name), out),
        _ => say_fetched(alloc, mail, address, name, number(step, 3), out),
    }
}

fn say_repeated(
    alloc: Global,
    mail: &mut SharedMail,
    address: &Name,
    name: &Text,
    as_name: &str,
    out: &mut Vec<u8>,
) -> Result<(), NoMemory> {
    let as_name = Text::from_str(alloc, as_name)?;
    let is_there = mail.repeat(alloc, address, name, &as_name);
    drop(as_name);
    say_ok(out, is_there?, "none")
}

/// Says how many names are listed.
fn say_list(
    alloc: Global,
    mail: &SharedMail,
    address: &Name,
    out: &mut Vec<u8>,
) -> Result<(), NoMemory> {
    let listing = mail.list(alloc, address)?;
    let count = listing.names.as_slice().len() as u64;
    drop(listing);
    say_number(out, "", count)
}

fn say_some(file: Option<&[u8]>, out: &mut Vec<u8>) -> Result<(), NoMemory> {
    match file {
        Some(bytes) => say_written(out, bytes),
        None => say(out, "none"),
    }
}

fn say_fetched(
    alloc: Global,
    mail: &SharedMail,
    address: &Name,
    name: &Text,
    limit: u64,
    out: &mut Vec<u8>,
) -> Result<(), NoMemory> {
    match mail.fetch(alloc, address, name, limit as usize)? {
        Some(bytes) => {
            let said = say_written(out, bytes.as_slice());
            drop(bytes);
            said
        }
        None => say(out, "none"),
    }
}
