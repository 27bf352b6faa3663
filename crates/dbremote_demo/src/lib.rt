//! The demonstration: four databases in memory that exchange rows by mail that gets lost, and what they come to.
//!
//! `demo` makes them, changes their rows by drawn statements, runs the agent on each, loses messages, lets all settle, and prints how much was
//! done and how far the databases differ. Each run inside it is made by the command of the program, on devices in memory; its contract says so
//! (`Ran`), and what is counted is counted of the histories and the mail that are left (`IsSummary`).
#![tactic(auto)]

mod blocks;
mod branches;
mod closing;
mod ending;
mod inner;
mod kept;
mod making;
mod scripts;
mod stop;
mod whole;

pub use whole::demo;
