//! A database's files begun anew behind a state: the generation that is not in force is written, and then the root names it.
//!
//! It stands on sr_snapshot and sr_logfile_carry for the two files of a generation, and on sr_database_meaning for what files stand for. The contract that matters
//! most is that of `restart_files`: up to the write of the root nothing in force changes, from then on both generations are whole, and in the end the new one is
//! in force, whatever a crash leaves. The law `a_restart_keeps_what_stands` says what that means for the history that the files stand for.
#![tactic(auto)]

mod fault;
mod generations;
mod laws;
mod naming;
mod restarting;
mod writing;

pub use fault::RestartFault;
pub use laws::{a_generation_has_a_log_and_a_byte, a_restart_keeps_what_stands};
pub use restarting::restart_files;
