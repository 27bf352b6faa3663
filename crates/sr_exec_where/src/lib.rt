//! What a statement on one table says before a row is looked at: what is wrong with it, its names resolved once, and the key that its condition fixes.
//!
//! It stands on sr_catalog_schema for the columns and on sr_eval for expressions, and sees no rows. The contract that matters most is that of `only_key`: the
//! key of the only row that a condition can select.
#![tactic(auto)]

mod checks;
mod classes;
mod fixing;
mod keys;
mod lists;
mod names;
mod prepared;

pub use checks::{bad_in_insert, bad_in_update, unknown_in_insert, unknown_in_update};
pub use classes::{bad_condition, unknown_condition};
pub use fixing::only_key;
pub use keys::key_of;
pub use lists::push;
pub use names::names_of;
pub use prepared::{Prepared, places_in, prepare};
