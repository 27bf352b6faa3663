//! Dates and their texts, and what stands on them: the literal of a value, and what a column holds for it.
//!
//! It stands on sr_base and on the toolchain's calendar. The contract that matters most is that of `day_of`: a text names a day
//! exactly where it is that day's text.
#![tactic(auto)]

mod day_reading;
mod fitting;
mod literal;

pub use day_reading::day_of;
pub use fitting::{fit, fitted};
pub use literal::write_literal;
