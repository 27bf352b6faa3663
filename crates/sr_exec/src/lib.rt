//! INSERT, UPDATE and DELETE on the rows of a database: the table that a statement names is looked up in the catalog.
//!
//! It stands on sr_exec_dml for what a statement changes in the rows of its table, and on sr_catalog for the tables. A statement changes
//! nothing by itself: it is answered with its changes, which `apply` makes.
//! The contract that matters most is that of `exec`.
#![tactic(auto)]

mod applying;
mod execution;

pub use applying::apply;
pub use execution::{exec, exec_reusing};
pub use sr_exec_dml::{
    Changes, changes_are_where_rows_differ, changes_fit, changes_make_the_rows_afterwards,
    rows_stay_fitting,
};
pub use sr_exec_where::key_of;
