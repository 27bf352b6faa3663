//! What is appended to an answer, and what stands in a question.

use itoa::Buffer;
use std::alloc::AllocError;

/// Appends a text.
pub fn say(out: &mut Vec<u8>, text: &str) -> Result<(), AllocError> {
    out.extend_from_slice(text.as_bytes())
}

/// Appends a text and a number.
pub fn say_number(out: &mut Vec<u8>, text: &str, number: u64) -> Result<(), AllocError> {
    say(out, text)?;
    let mut buffer = Buffer::new();
    say(out, buffer.format(number))
}

/// Appends a text and bytes.
pub fn say_bytes(out: &mut Vec<u8>, text: &str, bytes: &[u8]) -> Result<(), AllocError> {
    say(out, text)?;
    out.extend_from_slice(bytes)
}

/// Appends the bytes of pairs of hexadecimal digits; anything else between them is passed over.
pub fn push_hex(bytes: &mut Vec<u8>, hex: &str) -> Result<(), AllocError> {
    let mut high = None;
    for letter in hex.as_bytes() {
        match (high, digit(*letter)) {
            (_, None) => {}
            (None, Some(digit)) => high = Some(digit),
            (Some(first), Some(digit)) => {
                bytes.push(first.wrapping_mul(16).wrapping_add(digit))?;
                high = None;
            }
        }
    }
    Ok(())
}

fn digit(letter: u8) -> Option<u8> {
    match letter {
        b'0'..=b'9' => Some(letter - b'0'),
        b'a'..=b'f' => Some(letter - b'a' + 10),
        _ => None,
    }
}

/// The number of decimal digits; anything else is 0.
pub fn number_of(text: &str) -> u64 {
    match text.parse::<u64>() {
        Ok(number) => number,
        Err(_) => 0,
    }
}

/// The number of decimal digits, at most 100,000,000; anything else is 0.
pub fn count_of(text: &str) -> u32 {
    match text.parse::<u32>() {
        Ok(count) => count.min(100_000_000),
        Err(_) => 0,
    }
}

/// The word at a place, between blanks; none is empty.
pub fn word(question: &str, place: usize) -> &str {
    match question.split(' ').nth(place) {
        Some(word) => word,
        None => "",
    }
}

/// The number at a place; 0 where none stands.
pub fn number(question: &str, place: usize) -> u64 {
    number_of(word(question, place))
}
