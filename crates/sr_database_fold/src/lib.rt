//! Whether a log's next entry fits the state that the log before it comes to, and the state that it leaves: what is done for each record
//! when a database is opened, and what it is damaged by.
//!
//! It stands on sr_database_history for what an entry means and when that fits, on sr_parse, sr_catalog, sr_rows and sr_exec for the parts. It has no
//! devices. The contract that matters most is that of `go_on`: it tells the entries that fit from those that do not, and the state behind it
//! is the one that the history's fold comes to.
#![tactic(auto)]

mod changes;
mod conflicts;
mod effects;
mod emptying;
mod going;
mod keys;
mod naming;
mod ops;
mod statements;
mod steps;
mod users;

pub use effects::takes_effect;
pub use going::go_on;
pub use keys::key_of;
