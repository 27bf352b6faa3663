//! Steps on devices, how each ended, and bytes as they are written in a row.

use sr_base::NoMemory;
use std::alloc::Global;
use test_rows::say;

/// Devices that steps are made on.
pub trait Devices {
    /// Makes a step, and appends how it ended.
    fn say_step(&mut self, alloc: Global, step: &str, out: &mut Vec<u8>) -> Result<(), NoMemory>;
}

/// Makes steps in their order; `; ` stands between them, and between their ends.
pub fn say_steps<D: Devices>(
    alloc: Global,
    devices: &mut D,
    steps: &str,
    out: &mut Vec<u8>,
) -> Result<(), NoMemory> {
    for step in steps.split("; ") {
        if !out.is_empty() {
            say(out, "; ")?;
        }
        devices.say_step(alloc, step, out)?;
    }
    Ok(())
}

/// Appends `ok`, or another word.
pub fn say_ok(out: &mut Vec<u8>, is_ok: bool, other: &str) -> Result<(), NoMemory> {
    say(out, if is_ok { "ok" } else { other })
}

/// Appends bytes, each that is no letter, digit or sign as `\` and two digits; `-` for none.
pub fn say_written(out: &mut Vec<u8>, bytes: &[u8]) -> Result<(), NoMemory> {
    if bytes.is_empty() {
        return say(out, "-");
    }
    for byte in bytes {
        if byte.is_ascii_graphic() {
            out.push(*byte)?;
        } else {
            out.push(b'\\')?;
            out.push(digit(*byte / 16))?;
            out.push(digit(*byte % 16))?;
        }
    }
    Ok(())
}

fn digit(value: u8) -> u8 {
    if value < 10 {
        b'0'.wrapping_add(value)
    } else {
        b'a'.wrapping_sub(10).wrapping_add(value)
    }
}
