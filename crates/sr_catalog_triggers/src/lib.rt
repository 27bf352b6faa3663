//! What speaks against CREATE TRIGGER and DROP TRIGGER, the trigger that is made, and which tables a trigger names.
//!
//! It stands on sr_catalog_schema. A trigger's actions are looked through in the order of the text, by one walk for each question.
#![tactic(auto)]

mod absent;
mod bad;
mod looking;
mod naming;
mod scope;
mod triggers;

pub use naming::is_named;
pub use triggers::{create_trigger_fault, drop_trigger_fault, trigger_of};
