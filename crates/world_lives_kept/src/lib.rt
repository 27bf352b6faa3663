//! A site in memory that keeps what is put and fetched, so that it can be looked at after a run whether what was fetched had been put before.
//!
//! It stands on sr_memsite for the devices, and on sr_world_runs for what a fetch may come of. It is no part of the product: test_lives has its databases run
//! over such sites.
#![tactic(auto)]

mod kept;
mod watched;

pub use kept::{KeptMail, are_of, push_all};
pub use watched::WatchedSite;
