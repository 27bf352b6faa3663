//! The world of real databases: what each does keeps every world good, whatever the others do and whichever messages are lost, repeated,
//! late or out of order.
//!
//! It joins sr_world_model, which knows entries and messages alone, with what entries, outcomes, views and bodies are. It has no run time: each
//! function carries laws as its clauses. Those that matter most are `every_step_keeps_a_world_good` and `the_layers_keep_the_laws`; that they
//! are not empty is `a_real_world_goes`.
#![tactic(auto)]

mod layers;
mod sample;
mod windows;
mod worlds;

pub use layers::{Real, a_lawful_history_grows, the_layers_keep_the_laws};
pub use sample::a_real_world_goes;
pub use windows::{one_take_of_a_window, windows_are_taken};
pub use worlds::{every_step_keeps_a_world_good, runs_keep_a_world_good, what_is_allowed_stays_so};
