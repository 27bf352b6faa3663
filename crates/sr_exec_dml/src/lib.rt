//! INSERT, UPDATE and DELETE of one table: what they change in its rows, and exactly when each is refused.
//!
//! It stands on sr_exec_where, sr_catalog_schema, sr_eval, sr_rows and sr_logform, and needs no catalog. A statement changes nothing by itself: it is answered
//! with its changes, which are applied to the rows afterwards.
//! The contracts that matter most are those of `insert`, `update` and `delete`.
#![tactic(auto)]

mod applying;
mod changes;
mod deleting;
mod edit;
mod edits;
mod effect;
mod inserting;
mod laws;
mod lists;
mod moving;
mod pending;
mod placing;
mod settling;
mod single;
mod storing;
mod together;
mod updating;

pub use applying::{apply_in, apply_same};
pub use changes::Changes;
pub use deleting::delete;
pub use inserting::insert;
pub use laws::{
    changes_are_where_rows_differ, changes_fit, changes_make_the_rows_afterwards, rows_stay_fitting,
};
pub use updating::update;
