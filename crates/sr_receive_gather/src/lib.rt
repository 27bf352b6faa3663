//! The mail gathered: the folder listed and each file fetched, message files by their partners, what they confirm and ask for, dead files removed.
//!
//! It stands on sr_database for the books and the end of the log, and on sr_mail for windows. The contract that matters most is that of `gather`: each
//! listed file is a message file of one partner, in the bag, or is reported as what it is.
#![tactic(auto)]

mod adding;
mod asking;
mod bag;
mod dues;
mod fault;
mod fetching;
mod gathering;
mod purging;
mod report;
mod sorting;

pub use asking::greatest_upto;
pub use bag::{Bag, Filed, PartnerMail};
pub use dues::{due_ask, due_confirm, due_raise, report_gap};
pub use fault::{ReceiveFault, store_fault};
pub use fetching::fetch_all;
pub use gathering::gather;
pub use purging::purge;
pub use report::Report;
