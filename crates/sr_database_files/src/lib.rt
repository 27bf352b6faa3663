//! The five files of a database before its entries are read: made new, and opened as far as their fronts tell.
//!
//! It stands on sr_database_meaning for what files stand for, on sr_snapshot_read for a snapshot, and on sr_logfile for the shape of a log. The contract that matters most is that of `create`:
//! at each moment a crash leaves no database or the new one. Files that stand for a history are damaged nowhere, and none are damaged at two places.
#![tactic(auto)]

mod creating;
mod damage_laws;
mod fault;
mod prefixes;
mod snapshot;

pub use creating::create;
pub use damage_laws::damage_stands_for_nothing;
pub use fault::DatabaseFault;
pub use prefixes::{InForce, files_in_force, log_fault, open_records};
pub use snapshot::{read_snapshot, snapshot_fault};
