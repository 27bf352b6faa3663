//! The rows of a database: a finite map from (table, key) to a row, with a mark to which it can go back.
//!
//! It stands on sr_base. The contracts that matter most are those of `undo` and `back_to`: the rows are those of the mark, or of an
//! earlier step, again, and no memory is taken. So a row that is taken leaves its empty place in the map until the next `mark`.
#![tactic(auto)]

mod at_hand;
mod laws;
mod rising;
mod rows;
mod table;
mod tables;
mod tree;
mod undo;
mod walk;

pub use at_hand::AtHand;
pub use laws::a_table_is_walked_in_the_order_of_its_keys;
pub use rows::Rows;
pub use walk::Walk;
