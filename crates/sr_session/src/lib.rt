//! A script run on a database: each statement in order, its entries committed, its lines written.
//!
//! It stands on sr_session_script for what a script means and on sr_database for commits. The contract that matters most is that of `run_script`: what was
//! done is a prefix of the script's acts, all of them where it ended with its last statement or with the one that is refused.
#![tactic(auto)]

mod catalog;
mod entering;
mod fault;
mod region;
mod rows;
mod run;
mod running;
mod saying;
mod session;
mod step;
mod synchronizing;
mod transaction;

pub use fault::SessionFault;
pub use run::run_script;
pub use saying::say;
