//! The state of a database as bytes: the snapshot that stands before a log.
//!
//! It stands on sr_catalog for the statements that make a catalog, on sr_rows for the rows, and on sr_book for the books. The contract that matters
//! most is that of `write_state`: the file is the snapshot of the state, whatever a crash leaves, and no other file was touched. States are read back
//! by sr_snapshot_read.
#![tactic(auto)]

mod fault;
mod laws;
mod measuring;
mod pieces;
mod putting;
mod sizing;
mod state;
mod writing;

pub use fault::SnapFault;
pub use laws::{
    a_history_has_a_beginning, a_snapshot_is_of_one_beginning, the_first_snapshot_has_no_items,
};
pub use putting::MAGIC;
pub use sizing::length_of;
pub use state::State;
pub use writing::{LONGEST_SNAPSHOT, write_state};
