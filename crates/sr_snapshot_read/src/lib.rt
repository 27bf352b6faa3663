//! Snapshots, read back as states.
//!
//! It stands on sr_snapshot for what a snapshot is, on sr_parse for the statement of a text, and on sr_exec_fits for which rows fit a table. The
//! contract that matters most is that of `read_state`: it answers the state whose snapshot the file is, or the place at which the bytes break, and
//! then they are the snapshot of no state.
#![tactic(auto)]

mod books;
mod fields;
mod heads;
mod laws;
mod loading;
mod rows;
mod script;
mod values;
mod window;

pub use laws::{bytes_break_at_one_place, damage_excludes_a_snapshot};
pub use loading::read_state;
