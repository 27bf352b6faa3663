//! Which fault refuses a statement, and what a statement makes of a schema.
//!
//! It stands on sr_catalog_ddl and sr_catalog_triggers, and goes by the kind of the statement. The contracts that matter most are those of `refusal`
//! and `apply`: the one definition of each that the laws above cite.
#![tactic(auto)]

mod change;
mod dropping;

pub use change::{apply, refusal};
