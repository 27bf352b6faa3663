//! What becomes of an op that a partner has sent: the table of outcomes, conflicts and the statements of passthrough included.
//!
//! It stands on sr_resolve_triggers for what triggers do, on sr_exec for statements on rows, and on sr_database_history for the state of a database. Judging
//! changes nothing. The contract that matters most is that of `judge`; the laws say that what is judged may stand in a log, and that
//! the fold that judges agrees with the one that reads stored outcomes.
#![tactic(auto)]

mod clearing;
mod executing;
mod inserting;
mod judging;
mod laws;
mod measuring;
mod named;
mod outcomes;
mod removing;
mod setting;
mod updates;

pub use judging::{Judgement, judge, judge_op};
pub use laws::{
    judged_outcomes_fit, judging_from_above_is_local, judging_has_one_answer,
    stored_outcomes_agree, transactions_fit, what_differs_is_set,
};
