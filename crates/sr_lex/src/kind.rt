ghost use Rattle.std.specs.Prelude.{◌≡◌, IfOk, ◌≤◌, length};
ghost use Rattle.std.specs.List.{prefix_len};
ghost use Rattle.sr_lex.specs.Tokens.{is_part, is_digit};
ghost use Rattle.sr_lex.specs.Inner.Reading.{token_at, word_at, number_at, text_at, sign_at, sign_length, utf8_text};

use crate::bytes::{is_digit, is_part, is_start};
use crate::number::{TOP, number_up_to_past};
use crate::quoted::text_rest;
use crate::token::TokenKind;
use sr_base::{NoMemory, Text};
use std::alloc::Global;

/// The token at the front of bytes that begin with no white space and no comment, and how many bytes it takes.
pub fn token_at(alloc: Global, bytes: &[u8]) -> Result<Option<(TokenKind, usize)>, NoMemory>
    ensures { IfOk result (λ found. found ≡ token_at bytes.now) }
{
    let Some((first, after)) = bytes.split_first() else {
        return Ok(None);
    };
    if is_start(*first) {
        Ok(word_at(bytes))
    } else if is_digit(*first) {
        Ok(number_at(bytes))
    } else if *first == b'\'' {
        text_at(alloc, after)
    } else {
        Ok(sign_at(*first, after))
    }
}

/// The word at the front.
fn word_at(bytes: &[u8]) -> Option<(TokenKind, usize)>
    ensures { result ≡ word_at bytes.now }
{
    let length = part_length(bytes);
    if length <= 64 {
        Some((TokenKind::Word, length))
    } else {
        None
    }
}

/// The number at the front.
fn number_at(bytes: &[u8]) -> Option<(TokenKind, usize)>
    ensures { result ≡ number_at bytes.now }
{
    let length = digits_length(bytes);
    let (digits, _rest) = bytes.split_at(length);
    let number = number_up_to_past(digits);
    if number < TOP {
        Some((TokenKind::Number(number as i64), length))
    } else if number == TOP {
        Some((TokenKind::TopNumber, length))
    } else {
        None
    }
}

/// The bytes as a text, where they are UTF-8.
fn utf8_text(bytes: Vec<u8>) -> Result<Option<Text>, NoMemory>
    ensures { IfOk result (λ text. text ≡ utf8_text bytes.items) }
{
    match String::from_utf8(bytes) {
        Ok(text) => Ok(Some(Text::from_string(text)?)),
        Err(_) => Ok(None),
    }
}

/// The text whose opening quote stands before `after`.
fn text_at(alloc: Global, after: &[u8]) -> Result<Option<(TokenKind, usize)>, NoMemory>
    ensures { IfOk result (λ found. found ≡ text_at after.now) }
{
    let Some((content, left)) = text_rest(alloc, after)? else {
        return Ok(None);
    };
    match utf8_text(content)? {
        Some(text) => Ok(Some((TokenKind::Str(text), 1 + (after.len() - left)))),
        None => Ok(None),
    }
}

/// The sign that begins with `first`: the longest that stands there.
fn sign_at(first: u8, after: &[u8]) -> Option<(TokenKind, usize)>
    ensures { result ≡ sign_at first after.now }
{
    let second = match after.split_first() {
        None => 0,
        Some((byte, _rest)) => *byte,
    };
    let length = sign_length(first, second);
    if length == 0 {
        None
    } else {
        Some((TokenKind::Sign, length))
    }
}

/// How many of two bytes are a sign: 0 where none begins there.
fn sign_length(first: u8, second: u8) -> usize
    ensures { result ≡ sign_length first second }
{
    match first {
        b'<' => {
            if second == b'=' || second == b'>' {
                2
            } else {
                1
            }
        }
        b'>' => { if second == b'=' { 2 } else { 1 } }
        b'(' | b')' | b',' | b';' | b'.' | b'+' | b'-' | b'*' | b'=' => 1,
        _ => 0,
    }
}

/// How many bytes at the front go on a word.
#[tactic(auto, using(crate::proofs::Runs::steps))]
fn part_length(bytes: &[u8]) -> usize
    ensures length { result ≡ prefix_len is_part bytes.now }
    ensures within { result ≤ length bytes.now }
{
    for (at, byte) in bytes.iter().enumerate() {
        if !is_part(*byte) {
            return at;
        }
    }
    bytes.len()
}

/// How many bytes at the front are digits.
#[tactic(auto, using(crate::proofs::Runs::steps))]
fn digits_length(bytes: &[u8]) -> usize
    ensures length { result ≡ prefix_len is_digit bytes.now }
    ensures within { result ≤ length bytes.now }
{
    for (at, byte) in bytes.iter().enumerate() {
        if !is_digit(*byte) {
            return at;
        }
    }
    bytes.len()
}
