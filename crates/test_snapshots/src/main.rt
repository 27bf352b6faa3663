//! `test_snapshots`: reads rows `QUESTION => ANSWER` on standard input, reads snapshots from a site in memory, and says each row in which another answer is
//! given, and then how many are answered as they stand. The rows were made outside; none comes from this program. It is no part of the product.
//!
//! It is nothing but a test, so that the crates that it tries have none and are proved once. A line without ` => ` is a heading. Bytes are written in
//! hexadecimal.
//!
//! | Question | |
//! |---|---|
//! | `snapshot BYTES` | these bytes |
//! | `cut COUNT`, `more BYTES`, `byte AT BYTE` | damages of the last snapshot: so many first bytes of it; bytes behind it; another byte at a place |
//!
//! The answer is `state` and the offset of the state that is read, or `damaged` and the place at which the bytes break. A state that is read is written to
//! another file too; where that has other bytes then, `but written otherwise` stands behind the answer.
#![tactic(auto)]

mod damages;
mod reading;

use damages::{say_byte, say_cut, say_more};
use reading::say_read;
use sr_base::NoMemory;
use std::alloc::Global;
use std::process::ExitCode;
use test_rows::{Answerer, push_hex, say};

/// The last snapshot.
#[derive(Drop)]
struct Laid {
    bytes: Vec<u8>,
}

impl Answerer for Laid {
    fn answer(&mut self, alloc: Global, question: &str, out: &mut Vec<u8>) -> Result<(), NoMemory> {
        let (kind, given) = question.split_once(" ").unwrap_or((question, ""));
        match kind {
            "snapshot" => {
                self.bytes.clear();
                push_hex(&mut self.bytes, given)?;
                say_read(alloc, self.bytes.as_slice(), out)
            }
            "cut" => say_cut(alloc, self.bytes.as_slice(), given, out),
            "more" => say_more(alloc, self.bytes.as_slice(), given, out),
            "byte" => say_byte(alloc, self.bytes.as_slice(), given, out),
            _ => say(out, "no question"),
        }
    }
}

fn main(rt: HostRuntime) -> ExitCode {
    let mut laid = Laid {
        bytes: Vec::new(rt.alloc()),
    };
    let status = test_rows::run(rt, &mut laid);
    drop(laid);
    ExitCode::from(status)
}
