//! `test_worlds`: reads rows `STEP => ANSWER` on standard input, asks a world for each step, and says each row in which another answer is given, and then how
//! many are answered as they stand. The rows were reckoned outside, from what runs are to do; none comes from this program. It is no part of the product.
//!
//! It is nothing but a test, so that the crates that it tries have none and are proved once. A line without ` => ` is a heading. Entries and message files are
//! written in hexadecimal.
//!
//! | Step | |
//! |---|---|
//! | `begin NAME NAME ..` | `yes`: the world is a fresh one with these databases; or `no`: one is named twice |
//! | `commit AT ENTRY`, `take AT USER`, `sent AT ENTRY`, `put AT FILE`, `crash AT` | a step of the database AT |
//! | `note AT MESSAGE ENTRY` | the same, by the message at this place of all that were put |
//!
//! The answer to a step that is made is the offset at which the log of AT then ends, `/`, and how many messages were put. To one that is not, it is `rule` and
//! the number.
#![tactic(auto)]

mod asking;
mod reading;

use asking::{begin, new_world, say_step};
use sr_base::NoMemory;
use sr_world_steps::World;
use std::alloc::Global;
use std::process::ExitCode;
use test_rows::Answerer;

/// The status of a run that found no memory.
const FAILED: u8 = 8;

/// What goes from one row to the next.
#[derive(Drop)]
struct Told {
    world: World,
}

impl Answerer for Told {
    fn answer(&mut self, alloc: Global, question: &str, out: &mut Vec<u8>) -> Result<(), NoMemory> {
        let (kind, given) = question.split_once(" ").unwrap_or((question, ""));
        match kind {
            "begin" => begin(alloc, &mut self.world, given, out),
            _ => say_step(alloc, &mut self.world, kind, given, out),
        }
    }
}

fn main(rt: HostRuntime) -> ExitCode {
    let Ok(world) = new_world(rt.alloc()) else {
        return ExitCode::from(FAILED);
    };
    let mut told = Told { world };
    let status = test_rows::run(rt, &mut told);
    drop(told);
    ExitCode::from(status)
}
