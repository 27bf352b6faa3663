//! Rows of questions with their answers, on standard input: what the programs share that go through such rows. For tests.
//!
//! A row is a line `QUESTION => ANSWER`; any other line is a heading. `run` asks an `Answerer` each question, says each row to which another answer is
//! given, and then how many are answered as they stand.
#![tactic(auto)]

mod naming;
mod saying;
mod telling;

pub use naming::named;
pub use saying::{count_of, number, number_of, push_hex, say, say_bytes, say_number, word};
pub use telling::{Answerer, print, run};
