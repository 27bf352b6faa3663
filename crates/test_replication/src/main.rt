//! `test_replication`: tries and measures what users see, what logs give, what ops come to, and messages with their windows. It is no part of the product.
//!
//! With no words it reads rows `KIND GIVEN => ANSWER` on standard input, and says each row to which another answer is given, and then how many are
//! answered as they stand. The rows were made by hand or outside; none comes from this program. Bytes are written in hexadecimal, `-` where there are
//! none; a line without ` => ` is a heading. So the crates that it tries have no tests, and are proved once.
//!
//! | Kind | Given | Answer |
//! |---|---|---|
//! | `do` | a statement | whether the catalog accepts it, which it then follows |
//! | `view` | `USER TABLE ROW sees ROW` | whether this is what the user sees of the row |
//! | `given` | `USER ENTRY gives TRANSACTION` | whether the ops of this transaction are what the entry gives him |
//! | `log` | `PUBLISHER USER` | `yes`: it begins with a new database, and a scanner for the user |
//! | `entry` | `END ENTRY gives TRANSACTION` | whether this is what the scanner gives for the next entry |
//! | `setting` | a script | `yes`: on the database that it makes the next ops are judged |
//! | `judge` | an op, as `sent` has it; and behind `under`, triggers | what it comes to, from above, and behind `from below` where that is something else: changes as `table before>after` |
//! | `cut`, `push` | transactions at A, 2 A and so on: A, how many, the rows of each, the letters of a row; and the longest file | each message, cut at once or pushed one by one: the end of its window, `@`, the start of its fragment, `+`, its length |
//! | `body` | the same transactions | the bytes of the body, and how many transactions are read from it |
//! | `arrive` | numbers of the messages of two cuts of one transaction, as they come | how far windows reach, what was seen, and the pieces that make the body |
//! | `inbox` | windows that come, as `inboxes` has it | the window that is next, how far windows reach, and the greatest end past what was received |
//! | `file` | a number, and a message file that another implementation made | the file's name, where what it carries is cut into this message |
//! | `measure` | words as below, but for the first two | the line |
//!
//! With words it measures, and says in a line what came out:
//!
//! - `read`: standard input has the bodies of a log's entries, each behind its length as a u32; each is read.
//! - `scan USER`: each of them is read and fed to a scanner for USER, which begins with the catalog of a new database.
//! - `update ROWS COUNT`: of a table of so many rows, COUNT updates by key that a partner below sent are judged, spread over the table.
//! - `windows N`: N windows, one behind the other, are added, taken in their order, and taken once more with each dropped.
//! - `fragments N`: N fragments of one window, the last first.
//! - `nested N`: N windows each of which lies in the one before it; each is dropped.
//! - `long N`: a transaction with N letters of text, in rows of 32,000, is cut into messages of at most 50,000 bytes.
//! - `text N`: the same of a transaction with one row, whose text has N letters.
//! - `join N`: the messages of the transaction of `long` are put together and read.
//! - `small N`: N transactions of one small row, by the thousand, are pushed to a cutter one by one.
#![tactic(auto)]

mod arrivals;
mod bodies;
mod cuts;
mod databases;
mod files;
mod giving;
mod inboxes;
mod judging;
mod letters;
mod loading;
mod long;
mod measuring;
mod ops;
mod outcomes;
mod parts;
mod samples;
mod saying;
mod scanning;
mod sent;
mod small;
mod table;
mod updating;
mod viewing;
mod windows;

use measuring::{entries, measured};
use std::env;
use std::process::ExitCode;
use table::new_told;

/// The status of a run that found no memory, whose input is no log, or that could not read or write.
const FAILED: u8 = 8;

fn main(rt: HostRuntime) -> ExitCode {
    let Ok(mut words) = env::args(&rt) else {
        return ExitCode::from(FAILED);
    };
    let _ = words.next();
    let status = match words.next() {
        None => rows(rt),
        Some(what) => {
            let first = words.next().unwrap_or(String::new(rt.alloc()));
            let second = words.next().unwrap_or(String::new(rt.alloc()));
            measures(rt, what.as_str(), first.as_str(), second.as_str())
        }
    };
    ExitCode::from(status)
}

/// Measures; answers the status.
fn measures(rt: HostRuntime, what: &str, first: &str, second: &str) -> u8 {
    match what {
        "read" => entries(rt, None),
        "scan" => entries(rt, Some(first)),
        _ => measured(rt, what, first, second),
    }
}

/// Goes through the rows; answers the status.
fn rows(rt: HostRuntime) -> u8 {
    match new_told(rt.alloc()) {
        Ok(mut told) => {
            let status = test_rows::run(rt, &mut told);
            drop(told);
            status
        }
        Err(_) => FAILED,
    }
}
