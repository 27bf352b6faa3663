//! Entries of a log read in brief: for who has to know of an entry what it changed here, and not all that was asked for.
//!
//! It stands on sr_base and sr_logform. The contract that matters most is that of `read_brief`: what it answers is the entry that the bytes spell, but
//! that in the place of an op that inserted a row may stand another one that ran no statement, with the same outcome.
#![tactic(auto)]

mod parts;
mod passing;
mod reading;

pub use reading::read_brief;
