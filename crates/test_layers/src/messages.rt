//! Message files, whole.

ghost use Rattle.sr_msgform.specs.Messages.{IsMessage};

use sr_base::NoMemory;
use sr_msgform::{Message, read_message, write_message};
use std::alloc::Global;
use test_rows::{say, say_bytes, say_number};

/// Says the names, the window from `prev` to `upto`, the body's length, the fragment's start and its length.
pub fn say_file(alloc: Global, bytes: &[u8], out: &mut Vec<u8>) -> Result<(), NoMemory> {
    match read_message(alloc, bytes)? {
        Some(message) => {
            let said = say_whole(alloc, &message, bytes, out);
            drop(message);
            said
        }
        None => say(out, "no message"),
    }
}

/// Says the fields of a message, if it is written as these bytes.
fn say_whole(
    alloc: Global,
    message: &Message,
    bytes: &[u8],
    out: &mut Vec<u8>,
) -> Result<(), NoMemory>
    requires message { IsMessage message.now }
{
    let written = write_message(alloc, message)?;
    let is_same = written.as_slice() == bytes;
    drop(written);
    if is_same {
        say_fields(message, out)
    } else {
        say(out, "written otherwise")
    }
}

fn say_fields(message: &Message, out: &mut Vec<u8>) -> Result<(), NoMemory> {
    say_bytes(out, "", message.from.bytes())?;
    say_bytes(out, " ", message.to.bytes())?;
    say_number(out, " ", message.prev.0)?;
    say_number(out, " ", message.upto.0)?;
    say_number(out, " ", message.total as u64)?;
    say_number(out, " ", message.start as u64)?;
    say_number(out, " ", message.fragment.as_slice().len() as u64)
}

/// Says whether the file is a message with any one of its bits turned.
pub fn say_bits(alloc: Global, bytes: &mut Vec<u8>, out: &mut Vec<u8>) -> Result<(), NoMemory> {
    for place in 0..bytes.len() {
        for mask in [1u8, 2, 4, 8, 16, 32, 64, 128] {
            turn(bytes, place, mask);
            if is_message(alloc, bytes.as_slice())? {
                say_number(out, "a message at ", place as u64)?;
            }
            turn(bytes, place, mask);
        }
    }
    say(out, "no message")
}

fn turn(bytes: &mut Vec<u8>, place: usize, mask: u8) {
    if let Some(byte) = bytes.get_mut(place) {
        *byte ^= mask;
    }
}

fn is_message(alloc: Global, bytes: &[u8]) -> Result<bool, NoMemory> {
    match read_message(alloc, bytes)? {
        Some(message) => {
            drop(message);
            Ok(true)
        }
        None => Ok(false),
    }
}
