//! What the words of a run ask for.
//!
//! The first word names the order. The rest is read by a clap command with exactly the arguments of that order's usage line, without help or
//! version; `asked_of` says what its arguments come to. The commands stand in src/commands.rt as clap builds them, and in specs/Commands.antt
//! as clap's own contracts see them, so that the contract of `asked_of` is what clap means by them.
#![tactic(auto)]

mod asked;
mod commands;
mod given;
mod numbers;
mod orders;
mod reading;
mod words;

pub use asked::Asked;
pub use words::asked_of;
