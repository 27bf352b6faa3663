//! What the program does: it reads the words of a run, and does what they ask for.
//!
//! `run` does all of it, over any site, source and sink; its contract is what the program is claimed to do. The program gives it the host's:
//! files, standard input and standard output. The tests give it devices in memory. It stands on dbremote_words for what words ask for,
//! on dbremote_command for what each command does, and on dbremote_demo for the demonstration.
#![tactic(auto)]

mod whole;

pub use dbremote_command::{Fault, report};
pub use whole::run;
