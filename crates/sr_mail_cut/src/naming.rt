ghost use Rattle.std.specs.Prelude.{◌≡◌, ◌<◌, ◌%◌, ◌++◌, map, IfOk, OnOk};
ghost use Rattle.sr_mail_cut.specs.Hexadecimal.{digit, file_name_of};

use sr_base::{Name, NoMemory, NotUtf8, Text, text_of};
use std::alloc::{AllocError, Global};

/// What the places of 16 hexadecimal digits are worth, the first place first.
const PLACES: [u64; 16] = [
    0x1000_0000_0000_0000,
    0x0100_0000_0000_0000,
    0x0010_0000_0000_0000,
    0x0001_0000_0000_0000,
    0x0000_1000_0000_0000,
    0x0000_0100_0000_0000,
    0x0000_0010_0000_0000,
    0x0000_0001_0000_0000,
    0x0000_0000_1000_0000,
    0x0000_0000_0100_0000,
    0x0000_0000_0010_0000,
    0x0000_0000_0001_0000,
    0x0000_0000_0000_1000,
    0x0000_0000_0000_0100,
    0x0000_0000_0000_0010,
    0x0000_0000_0000_0001,
];

/// The name of a message file: the sender's name, a dot, and the message's number as 16 hexadecimal digits in lower case.
///
/// The number is the sender's count of messages before the pass and the message's place in it, from 1, modulo 2^64.
pub fn file_name(alloc: Global, sender: &Name, number: u64) -> Result<Text, NoMemory>
    ensures { IfOk result (λ name. name ≡ file_name_of sender.now number) }
{
    let mut name = Vec::from_slice(alloc, sender.bytes())?;
    name.push(b'.')?;
    for place in PLACES {
        name.push(digit_of(number / place % 16))?;
    }
    match text_of(alloc, name.as_slice()) {
        Ok(text) => Ok(text),
        Err(NotUtf8::Byte { .. }) => Err(AllocError),
        Err(NotUtf8::Memory) => Err(AllocError),
    }
}

/// The digit of a number below 16.
fn digit_of(number: u64) -> u8
    requires { number < 16 }
    ensures { result ≡ digit number }
{
    if number < 10 {
        return b'0' + number as u8;
    }
    b'a' - 10 + number as u8
}
