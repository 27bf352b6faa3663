//! What becomes of a transaction that is taken: its ops judged one after the other, each in the state that those before it leave.
//!
//! It stands on sr_resolve for what becomes of one op. The contract that matters most is that of `entry_of`: the entry has the outcomes that judging
//! gives each op, and the database is left as it was.
#![tactic(auto)]

mod changing;
mod judging;
mod scratch;

pub use judging::entry_of;
