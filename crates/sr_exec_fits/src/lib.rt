//! Whether a row fits the columns of a table: said once, and tested once.
//!
//! It stands on sr_catalog_schema for the columns and on sr_base_dates for what a column holds for a value. The contract that matters most is that of
//! `is_row`: the test passes exactly where the row fits.
#![tactic(auto)]

mod fitting;

pub use fitting::is_row;
