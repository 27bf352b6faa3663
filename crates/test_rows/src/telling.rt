//! The rows, one after the other.

use crate::saying::{say, say_bytes, say_number};
use std::alloc::{AllocError, Global};
use std::io::Read;

/// The status of a run that found no memory, or could not read or write.
const FAILED: u8 = 8;

/// What answers questions.
pub trait Answerer {
    /// Appends the answer to a question.
    fn answer(
        &mut self,
        alloc: Global,
        question: &str,
        out: &mut Vec<u8>,
    ) -> Result<(), AllocError>;
}

/// Goes through the rows on standard input; answers the status.
pub fn run<A: Answerer>(rt: HostRuntime, answerer: &mut A) -> u8 {
    let mut text = String::new(rt.alloc());
    let status = match rt.reader().read_to_string(&mut text) {
        Ok(_) => told(rt, answerer, text.as_str()),
        Err(_) => FAILED,
    };
    drop(text);
    status
}

fn told<A: Answerer>(rt: HostRuntime, answerer: &mut A, text: &str) -> u8 {
    let mut lines = Vec::new(rt.alloc());
    let status = match tell(rt.alloc(), answerer, text, &mut lines) {
        Ok(()) => print(rt, lines.as_slice()),
        Err(_) => FAILED,
    };
    drop(lines);
    status
}

/// Writes lines to standard output; answers the status.
pub fn print(rt: HostRuntime, lines: &[u8]) -> u8 {
    let Ok(lines) = str::from_utf8(lines) else {
        return FAILED;
    };
    match print!(rt; "{lines}") {
        Ok(_) => 0,
        Err(_) => FAILED,
    }
}

/// Says each row that is answered otherwise, and the number of the others.
fn tell<A: Answerer>(
    alloc: Global,
    answerer: &mut A,
    text: &str,
    out: &mut Vec<u8>,
) -> Result<(), AllocError> {
    let mut found = Vec::new(alloc);
    let right = tell_all(alloc, answerer, text, &mut found, out);
    drop(found);
    say_number(out, "", right?)?;
    say(out, " rows as they stand\n")
}

fn tell_all<A: Answerer>(
    alloc: Global,
    answerer: &mut A,
    text: &str,
    found: &mut Vec<u8>,
    out: &mut Vec<u8>,
) -> Result<u64, AllocError> {
    let mut right = 0u64;
    for line in text.lines() {
        if let Some((question, answer)) = line.split_once(" => ") {
            found.clear();
            answerer.answer(alloc, question, found)?;
            if found.as_slice() == answer.as_bytes() {
                right = right.saturating_add(1);
            } else {
                say_bytes(out, line, b" BUT ")?;
                say_bytes(out, "", found.as_slice())?;
                say(out, "\n")?;
            }
        }
    }
    Ok(right)
}
