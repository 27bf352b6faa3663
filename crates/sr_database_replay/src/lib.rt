//! The entries of a log, read again one after the other behind the state of its snapshot, and the books that they leave.
//!
//! It stands on sr_database_fold for what an entry does, on sr_logfile and sr_logform for records, on sr_snapshot for the state that a log begins behind. It calls
//! the disk to read alone. The contract that matters most is that of `replay_all`: catalog, rows and books are what the entries come to that the log spells, or
//! the log is damaged at the gate of the first one that may not stand there. `state_at` answers the state at an offset on the way,
//! and `lines_of` the books of users as a snapshot lists them.
#![tactic(auto)]

mod bookkeeping;
mod replaying;
mod stopping;

pub use bookkeeping::Books;
pub use replaying::{Replay, brief_in, entry_in, replay_all};
pub use stopping::{lines_of, state_at};
