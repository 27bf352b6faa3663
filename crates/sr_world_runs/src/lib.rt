//! All that a run does are steps of a world of databases: what it commits and what it puts, in every run, also one that a fault ended, and whatever a crash
//! leaves.
//!
//! It stands on sr_world_prefix, which goes along a run entry by entry, and joins it with sr_world, which says what steps of a world are and what they keep.
//! `agent` is that of sr_agent, with what it makes of a world said beside; the other functions have no run time, and carry laws as their clauses.
#![tactic(auto)]

mod agents;
mod following;
mod lives;
mod worlds;

pub use agents::agent;
pub use following::a_run_leaves_what_the_next_one_asks_for;
pub use lives::runs_make_one_world;
pub use worlds::whole_runs_make_steps_of_a_world;
