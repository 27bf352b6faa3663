//! A world that can be asked: databases with their logs and the messages that were put, and the steps that they may take.
//!
//! It stands on sr_world, whose relation of steps it decides, and on the crates that tell what a log comes to. It is for asking and not for running: each
//! step goes through the log of its database from the beginning. The contract that matters most is that of `World::step`: a step is made exactly where the
//! world allows it, and the world behind it is the one that is shown then, is good, and its untouched keys agree.
#![tactic(auto)]

mod books;
mod chains;
mod commits;
mod given;
mod laws;
mod messages;
mod notes;
mod noting;
mod past;
mod places;
mod putting;
mod sending;
mod standing;
mod step;
mod taking;
mod world;

pub use laws::a_world_is_shown_once;
pub use step::{NotAStep, WorldStep};
pub use world::World;
