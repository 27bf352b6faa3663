//! Steps on a site.

use crate::mail::{say_attached, say_mail};
use crate::saying::{Devices, say_ok, say_steps, say_written};
use sr_base::NoMemory;
use sr_memsite::{MemorySite, SharedMail};
use sr_site::{Disk, File, Site};
use std::alloc::Global;
use test_rows::{number, say, say_number, word};

pub fn say_site(alloc: Global, steps: &str, out: &mut Vec<u8>) -> Result<(), NoMemory> {
    let mut site = MemorySite::new(alloc, SharedMail::new(alloc));
    let said = say_steps(alloc, &mut site, steps, out);
    drop(site);
    said
}

impl Devices for MemorySite {
    fn say_step(&mut self, alloc: Global, step: &str, out: &mut Vec<u8>) -> Result<(), NoMemory> {
        match word(step, 0) {
            "fail" => {
                fail(alloc, self, step)?;
                say(out, "ok")
            }
            "stop" => {
                self.stop_after(number(step, 1));
                say(out, "ok")
            }
            "crash" => {
                self.crash(alloc, number(step, 1))?;
                say(out, "ok")
            }
            _ => say_on_site(alloc, self, step, out),
        }
    }
}

/// Makes a step that any site has.
pub fn say_on_site<S: Site>(
    alloc: Global,
    site: &mut S,
    step: &str,
    out: &mut Vec<u8>,
) -> Result<(), NoMemory> {
    match word(step, 0) {
        "attach" => say_attached(alloc, site, step, out),
        "put" | "remove" | "list" | "fetch" => say_mail(alloc, site, step, out),
        _ => say_call(site, file_of(word(step, 1)), step, out),
    }
}

/// Makes the calls with the numbers behind the first word fail.
fn fail(alloc: Global, site: &mut MemorySite, step: &str) -> Result<(), NoMemory> {
    let mut calls = Vec::new(alloc);
    let failed = match push_numbers(&mut calls, step) {
        Ok(()) => site.fail_calls(alloc, calls.as_slice()),
        Err(refused) => Err(refused),
    };
    drop(calls);
    failed
}

fn push_numbers(calls: &mut Vec<u64>, step: &str) -> Result<(), NoMemory> {
    for word in step.split(' ') {
        if let Ok(call) = word.parse::<u64>() {
            calls.push(call)?;
        }
    }
    Ok(())
}

fn file_of(name: &str) -> File {
    match name {
        "root" => File::Root,
        "log0" => File::Log0,
        "log1" => File::Log1,
        "snap0" => File::Snap0,
        _ => File::Snap1,
    }
}

/// Makes a call of the disk.
fn say_call<D: Disk>(
    disk: &mut D,
    file: File,
    step: &str,
    out: &mut Vec<u8>,
) -> Result<(), NoMemory> {
    match word(step, 0) {
        "length" => match disk.length(file) {
            Ok(length) => say_number(out, "", length),
            Err(_) => say(out, "failed"),
        },
        "write" => {
            let bytes = word(step, 3).as_bytes();
            say_ok(out, wrote(disk, file, number(step, 2), bytes), "failed")
        }
        "cut" => say_ok(out, cut(disk, file, number(step, 2)), "failed"),
        "sync" => say_ok(out, disk.sync(file).is_ok(), "failed"),
        "read" => say_read(disk, file, number(step, 2), out),
        _ => say(out, "no step"),
    }
}

/// Puts bytes at a place within a file; whether that succeeded.
fn wrote<D: Disk>(disk: &mut D, file: File, at: u64, bytes: &[u8]) -> bool {
    match disk.length(file) {
        Ok(end) if at <= end => disk.write_at(file, at, bytes).is_ok(),
        _ => false,
    }
}

/// Cuts a file that is as long; whether that succeeded.
fn cut<D: Disk>(disk: &mut D, file: File, to: u64) -> bool {
    match disk.length(file) {
        Ok(end) if to <= end => disk.cut(file, to).is_ok(),
        _ => false,
    }
}

/// Reads eight bytes, or those that there are.
fn say_read<D: Disk>(disk: &mut D, file: File, at: u64, out: &mut Vec<u8>) -> Result<(), NoMemory> {
    let mut buffer = [0u8; 8];
    match disk.read_at(file, at, &mut buffer) {
        Ok(count) if count <= buffer.len() => say_written(out, buffer.split_at(count).0),
        _ => say(out, "failed"),
    }
}
