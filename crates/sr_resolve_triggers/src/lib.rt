//! What the triggers of a table make of a conflict: DECLARE, SET, IF and INSERT.
//!
//! It stands on sr_catalog, sr_eval, sr_rows and sr_logform, and takes definitions of sr_catalog_triggers and sr_exec_dml. Nothing is changed: what triggers
//! insert is kept beside the rows. The contract that matters most is that of `fire`.
#![tactic(auto)]

mod acting;
mod bindings;
mod columns;
mod conflict;
mod fired;
mod firing;
mod inserting;
mod laws;
mod running;
mod setting;

pub use columns::is_of_key;
pub use conflict::Conflict;
pub use fired::Fired;
pub use firing::fire;
pub use laws::what_triggers_leave_fits;
