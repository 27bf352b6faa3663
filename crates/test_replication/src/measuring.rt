//! What is measured, and the line of what came out.

use crate::letters::say_measured;
use crate::scanning::{Told, read, scanned};
use crate::updating::say_updates;
use sr_base::NoMemory;
use std::alloc::Global;
use std::io::Read;
use test_rows::{count_of, print, say, say_number};

/// The status of a run that found no memory, whose input is no log, or that could not read or write.
const FAILED: u8 = 8;

/// Reads the entries on standard input, and scans them for a user where one is named; answers the status.
pub(crate) fn entries(rt: HostRuntime, user: Option<&str>) -> u8 {
    let mut bytes = Vec::new(rt.alloc());
    let mut line = Vec::new(rt.alloc());
    let status = match rt.reader().read_to_end(&mut bytes) {
        Ok(_) => match say_entries(rt, bytes.as_slice(), user, &mut line) {
            Ok(()) => print(rt, line.as_slice()),
            Err(_) => FAILED,
        },
        Err(_) => FAILED,
    };
    drop(line);
    drop(bytes);
    status
}

fn say_entries(
    rt: HostRuntime,
    bytes: &[u8],
    user: Option<&str>,
    out: &mut Vec<u8>,
) -> Result<(), NoMemory> {
    let told = match user {
        Some(user) => scanned(rt.alloc(), bytes, user)?,
        None => read(rt.alloc(), bytes)?,
    };
    say_told(told, out)
}

fn say_told(told: Told, out: &mut Vec<u8>) -> Result<(), NoMemory> {
    say_number(out, "", told.entries)?;
    say_number(out, " entries, ", told.given)?;
    say(out, " of them give something\n")
}

/// Measures anything else, and says what came out; answers the status.
pub(crate) fn measured(rt: HostRuntime, what: &str, first: &str, second: &str) -> u8 {
    let mut line = Vec::new(rt.alloc());
    let status = match say_line(rt.alloc(), what, first, second, &mut line) {
        Ok(()) => print(rt, line.as_slice()),
        Err(_) => FAILED,
    };
    drop(line);
    status
}

fn say_line(
    alloc: Global,
    what: &str,
    first: &str,
    second: &str,
    out: &mut Vec<u8>,
) -> Result<(), NoMemory> {
    say_measure(alloc, what, first, second, out)?;
    say(out, "\n")
}

/// Says what comes out of a measure by its words.
pub(crate) fn say_measure(
    alloc: Global,
    what: &str,
    first: &str,
    second: &str,
    out: &mut Vec<u8>,
) -> Result<(), NoMemory> {
    match what {
        "update" => say_updates(alloc, count_of(first), count_of(second), out),
        _ => say_measured(alloc, what, count_of(first), out),
    }
}
