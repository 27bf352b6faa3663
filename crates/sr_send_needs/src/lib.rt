//! What partners still need of a log: up to where it may be begun anew.
//!
//! It stands on sr_database for the log, on sr_survey for which of its entries concern whom, on sr_scan for what they give, and on sr_send for which of them
//! run no statement. The contract that matters most is that of `least_need`: it answers the place before the first entry that gives a partner something that
//! he has not confirmed. The law `what_is_needed_is_kept` says that all that is needed lies past that place, and goes on to do so.
#![tactic(auto)]

mod fault;
mod laws;
mod listing;
mod needing;
mod searching;
mod seeking;
mod start;
mod starting;
mod surveying;
mod way;

pub use fault::NeedFault;
pub use laws::{
    a_need_is_an_end, needs_go_on, what_is_needed_is_kept, who_is_not_granted_needs_nothing,
};
pub use needing::least_need;
