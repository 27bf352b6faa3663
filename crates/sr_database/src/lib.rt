//! A database in five files: made, opened, gone on with one entry at a time, read again, and its log begun anew.
//!
//! It stands on sr_database_files for what is made and read of files before their entries, on sr_database_meaning for what files stand for and for traces, on sr_database_fold
//! for what an entry does, on sr_database_replay for entries that are read again, on sr_database_restart for files begun anew, on sr_logfile and sr_logform for
//! records.
//! The contract that matters most is that of `Database::commit`: the database of a history is then that of the history and one entry more,
//! at each moment a crash leaves the one or the other, and after a refusal all is as it was.
#![tactic(auto)]

mod alike_laws;
mod at_end;
mod committing;
mod creating;
mod database;
mod opening;
mod reading;
mod restarting;
mod settling;

pub use alike_laws::a_database_is_of_alike_histories;
pub use database::Database;
pub use sr_database_files::DatabaseFault;
