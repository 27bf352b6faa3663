//! What becomes of files on their way.

use crate::test_sites::TestSites;
use sr_base::{Name, NoMemory, Text};
use sr_memsite::SharedMail;
use std::alloc::Global;
use test_rows::{named, say, say_bytes, say_number, word};

/// Does with the files of the mail what a step asks for, and appends what it is to say.
pub fn say_mail(
    alloc: Global,
    test_sites: &mut TestSites,
    step: &str,
    out: &mut Vec<u8>,
) -> Result<(), NoMemory> {
    match word(step, 0) {
        "release" => {
            test_sites.mail.release();
            Ok(())
        }
        "puts" => say_puts(test_sites.mail.puts(), out),
        _ => say_addressed(alloc, &mut test_sites.mail, step, out),
    }
}

/// Says the folder and the name of every put.
fn say_puts(puts: &[(Name, Text)], out: &mut Vec<u8>) -> Result<(), NoMemory> {
    for put in puts {
        let between = if out.is_empty() { "" } else { " " };
        say_bytes(out, between, put.0.bytes())?;
        say_bytes(out, ":", put.1.bytes())?;
    }
    Ok(())
}

fn say_addressed(
    alloc: Global,
    mail: &mut SharedMail,
    step: &str,
    out: &mut Vec<u8>,
) -> Result<(), NoMemory> {
    let address = named(alloc, word(step, 1))?;
    let said = say_named(alloc, mail, &address, step, out);
    drop(address);
    said
}

fn say_named(
    alloc: Global,
    mail: &mut SharedMail,
    address: &Name,
    step: &str,
    out: &mut Vec<u8>,
) -> Result<(), NoMemory> {
    let name = Text::from_str(alloc, word(step, 2))?;
    let said = say_file(alloc, mail, address, &name, step, out);
    drop(name);
    said
}

fn say_file(
    alloc: Global,
    mail: &mut SharedMail,
    address: &Name,
    name: &Text,
    step: &str,
    out: &mut Vec<u8>,
) -> Result<(), NoMemory> {
    match word(step, 0) {
        "lay" => {
            let bytes = Vec::from_slice(alloc, word(step, 3).as_bytes())?;
            mail.lay(alloc, address, name, bytes)
        }
        "lose" => say_unless(mail.lose(address, name), out),
        "hold" => say_unless(mail.hold(address, name), out),
        "repeat" => {
            let as_name = Text::from_str(alloc, word(step, 3))?;
            let is_there = mail.repeat(alloc, address, name, &as_name);
            drop(as_name);
            say_unless(is_there?, out)
        }
        "file" => match mail.file(address, name) {
            Some(bytes) => say_number(out, "", bytes.len() as u64),
            None => say(out, "none"),
        },
        _ => say(out, "no step"),
    }
}

/// Says that there is no such file, where it is so.
fn say_unless(is_there: bool, out: &mut Vec<u8>) -> Result<(), NoMemory> {
    if is_there {
        Ok(())
    } else {
        say(out, "no file")
    }
}
