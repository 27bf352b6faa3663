//! Bytes as texts and as names, and texts as dates.

use sr_base::{BadName, NoMemory, NotUtf8, name_of, text_of};
use sr_base_dates::day_of;
use std::alloc::{AllocError, Global};
use test_rows::{say, say_bytes, say_number};

pub fn say_text(alloc: Global, bytes: &[u8], out: &mut Vec<u8>) -> Result<(), NoMemory> {
    match text_of(alloc, bytes) {
        Ok(text) => {
            drop(text);
            say(out, "ok")
        }
        Err(NotUtf8::Byte { at }) => say_number(out, "bad ", at as u64),
        Err(NotUtf8::Memory) => Err(AllocError),
    }
}

pub fn say_name(alloc: Global, bytes: &[u8], out: &mut Vec<u8>) -> Result<(), NoMemory> {
    match name_of(alloc, bytes) {
        Ok(name) => {
            let said = say_bytes(out, "", name.bytes());
            drop(name);
            said
        }
        Err(BadName::NotAName) => say(out, "no name"),
        Err(BadName::Memory) => Err(AllocError),
    }
}

pub fn say_date(text: &str, out: &mut Vec<u8>) -> Result<(), NoMemory> {
    match day_of(text.as_bytes()) {
        Some(day) => {
            let days = day.days();
            let sign = if days < 0 { "-" } else { "" };
            say_number(out, sign, days.unsigned_abs() as u64)
        }
        None => say(out, "none"),
    }
}
