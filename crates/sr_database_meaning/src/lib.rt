//! What the five files of a database stand for, and how a call goes through its trace of commits and puts.
//!
//! It stands on sr_database_history for histories, on sr_snapshot for a snapshot's bytes, on sr_logfile for a log's bytes and on sr_site
//! for what a crash may leave, and has no code but the laws. Files stand for histories that are alike. The law that matters most is `traces_join`: what goes through one trace
//! and then through another goes through both joined, so that no layer above looks at files or moments.
#![tactic(auto)]

mod alike_laws;
mod history_laws;
mod trace_laws;

pub use alike_laws::alike_histories_come_to_the_same;
pub use history_laws::{files_stand_behind_one_beginning, files_stand_for_alike_histories};
pub use trace_laws::{
    a_commit_is_an_event, a_put_is_an_event, nothing_is_no_event, traces_join, traces_tell,
};
