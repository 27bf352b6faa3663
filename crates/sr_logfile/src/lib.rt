//! The log file of a database: commits one after another, each whole or not there.
//!
//! It stands on sr_base for offsets and on sr_site for the disk. A file is its spelling: a header, each record behind an open gate, a closed
//! gate, and bytes that mean nothing (docs/FORMATS.md, "Log file"). The contract that matters most is that of `LogFile::commit`: the bodies
//! after it are those before and the new one, at the offset that it answers.
#![tactic(auto)]

mod appending;
mod fault;
mod framing;
mod head;
mod laws;
mod log;
mod opening;
mod reading;
mod starting;

pub use fault::{LogFault, RecordFault};
pub use framing::frame;
pub use head::place_in;
pub use laws::one_spelling_or_one_damage;
pub use log::LogFile;
pub use opening::{base_of, open, record_end};
pub use reading::Step;
pub use starting::fresh;
