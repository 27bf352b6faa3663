//! The records of a log behind one of its positions, carried over into another file: the log of a database that is begun anew.
//!
//! It stands on sr_logfile for the shape of a log, and on sr_site for the disk. The contract that matters most is that of `carry`: the other file is a
//! log that begins at the position and has the records behind it, whatever a crash leaves, and no call was made on another file but reads.
#![tactic(auto)]

mod carrying;
mod copying;
mod fault;
mod laws;

pub use carrying::carry;
pub use fault::CarryFault;
pub use laws::what_is_carried_is_a_log;
