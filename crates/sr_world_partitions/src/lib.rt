//! A row that goes from one partition to another and comes back, in a world of real databases: so that the law of untouched keys is not empty where views
//! have only some rows.
//!
//! It stands on sr_world_untouched, has no run time, and is one function that carries what is so as its clauses.
#![tactic(auto)]

mod moves;

pub use moves::a_row_moves_and_comes_back;
