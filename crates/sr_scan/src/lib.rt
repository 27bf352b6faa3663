//! What a log gives a partner: which ops each of its entries comes to for him.
//!
//! It stands on sr_publish for views, on sr_parse for the statements that texts are, and on sr_database_history for what a log comes to. A `Scanner` reads the entries of a log one
//! after the other, and sees their images and the catalog alone, never the rows. The contract that matters most is that of
//! `Scanner::feed`, with the law `images_are_views`: what it answers is what the views before and after each change differ in.
#![tactic(auto)]

mod changes;
mod columns;
mod conflicts;
mod entries;
mod keys;
mod laws;
mod returns;
mod scanner;
mod statements;
mod synchronized;
mod views;

pub use laws::{
    a_dropped_table_is_not_seen, given_grows, images_are_views, what_differs_has_two_values,
    what_is_given_has_a_spelling, what_is_given_is_one,
};
pub use scanner::{Scanner, given, given_by};
pub use views::{Views, views_of};
