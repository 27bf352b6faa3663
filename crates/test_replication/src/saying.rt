//! A number that may lack.

use sr_base::NoMemory;
use test_rows::{say, say_number};

/// Appends a word and a number, or `none`.
pub fn say_some(out: &mut Vec<u8>, word: &str, number: Option<u64>) -> Result<(), NoMemory> {
    match number {
        Some(number) => say_number(out, word, number),
        None => {
            say(out, word)?;
            say(out, "none")
        }
    }
}
