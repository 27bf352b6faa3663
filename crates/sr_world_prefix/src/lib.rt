//! What was taken stays a beginning of what the partner's log gives: in commit order and each once, in every run, also one that a fault ended,
//! and whatever a crash leaves. What is put is true of what is durable, what was taken is as judging has it, and good histories stay good.
//!
//! It stands on sr_agent and sr_session, which say what a run does; it takes lemmas and definitions of sr_world_model and sr_world. It has no run time: each
//! function carries laws as its clauses. The one that matters most is `a_run_keeps_partners_in_step`: whatever files lie in the folder, none forged,
//! each moment of a run leaves a history that goes with the partner's.
#![tactic(auto)]

mod beginnings;
mod histories;
mod letters;
mod runs;
mod scripts;

pub use beginnings::a_run_keeps_partners_in_step;
pub use histories::{own_entries_keep_partners_in_step, what_is_true_stays_so};
pub use letters::{
    what_a_run_puts_is_true, what_is_true_is_not_forged, whole_runs_put_what_is_true,
};
pub use runs::{
    whole_runs_keep_histories_good, whole_runs_keep_partners, whole_runs_keep_what_is_decided,
};
pub use scripts::a_script_keeps_partners_in_step;
