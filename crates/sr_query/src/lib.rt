//! SELECT: the rows that it answers, and exactly when it is refused.
//!
//! It stands on sr_catalog, sr_eval and sr_rows, and on sr_exec_dml for what rows of a table are. The contract that matters most is that
//! of `select`: a filter of all combinations of rows, in order.
#![tactic(auto)]

mod aggregates;
mod candidates;
mod checks;
mod classes;
mod combining;
mod equations;
mod fixing;
mod items;
mod joined;
mod joining;
mod keeping;
mod lists;
mod names;
mod ordering;
mod parts;
mod placing;
mod prepared;
mod rank;
mod selecting;
mod tallies;
mod unknown;

pub use selecting::select;
