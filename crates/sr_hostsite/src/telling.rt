//! Why a call of the system failed, on standard error: a line `dbremote: PATH: REASON` for each.
ghost use Rattle.std.specs.Prelude.{◌≡◌};

use std::io::{self, ErrorKind};
use std::rt::Runtime;

/// What stands in the system's text behind the reason: the number.
const NUMBER: &str = " (os error ";

/// Says it of the path. In the path a byte below 32, and 127, is said as `?`. What standard error does not take is left out.
pub fn say<R: Runtime>(rt: &R, path: &str, reason: &str) {
    if let Ok(line) = line_of(rt, path, reason) {
        match rt.eprintln(line) {
            Ok(()) | Err(_) => {}
        }
    }
}

/// The line without its end.
fn line_of<R: Runtime>(rt: &R, path: &str, reason: &str) -> io::Result<String<R::A>> {
    let mut line = String::from_str(rt.alloc(), "dbremote: ")?;
    for letter in path.chars() {
        line.push(if letter.is_ascii_control() {
            '?'
        } else {
            letter
        })?;
    }
    line.push_str(": ")?;
    line.push_str(reason)?;
    Ok(line)
}

/// The answer of a call for the path, as it is. Where the system refused the call, its reason is said.
pub fn told<T, R: Runtime>(rt: &R, path: &str, answer: io::Result<T>) -> io::Result<T>
    ensures same { result ≡ answer }
{
    if let Err(fault) = &answer {
        say_fault(rt, path, fault);
    }
    answer
}

/// Says the reason of a fault. Want of memory that the program itself came upon is none of the system's.
fn say_fault<R: Runtime>(rt: &R, path: &str, fault: &io::Error) {
    if fault.kind() == ErrorKind::OutOfMemory && fault.raw_os_error().is_none() {
        return;
    }
    if let Ok(text) = format!(in rt.alloc(); "{fault}") {
        say(rt, path, reason_of(text.as_str()));
    }
}

/// The reason alone.
fn reason_of(text: &str) -> &str {
    match text.split_once(NUMBER) {
        Some((reason, _)) => reason,
        None => text,
    }
}
