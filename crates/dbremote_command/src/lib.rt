//! What each command of the program does: it makes databases, runs scripts on them, takes and sends their mail, and shows what they are.
//!
//! `command` does it, over any site, source and sink, for an order that the words of a run have given. It stands on sr_database and sr_session for
//! all that touches a database, on sr_agent for its mail, and on sr_parse for scripts.
#![tactic(auto)]

mod agents;
mod attaching;
mod commands;
mod fault;
mod making;
mod order;
mod reading;
mod reporting;
mod running;
mod saying;
mod showing;
mod shown_count;
mod shown_lines;
mod shown_text;
mod stream;

pub use commands::{command, tell};
pub use fault::Fault;
pub use order::Order;
pub use reporting::report;
