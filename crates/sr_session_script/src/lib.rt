//! What a script means: what each statement commits and prints, or why it is refused.
//!
//! It stands on sr_database_history, sr_exec, sr_query and sr_publish, and has no devices. `ran` of `specs/Scripts` is what a whole script does on the state that a
//! history comes to: a list of acts, entries to commit and lines to print, and how it ends. The functions find out what one statement
//! comes to, and write lines. The contract that matters most is that of `execute`, `answer` and `accept` together: what `done_by` is made of.
#![tactic(auto)]

mod laws;
mod lines;
mod lists;
mod passing;
mod refusal;
mod refusal_lines;
mod shortness;
mod statements;
mod views;

pub use laws::{acts_join, scripts_go_on};
pub use lines::{LONGEST_COMMITTED, push_committed, push_count, push_rows};
pub use passing::{pass_on_catalog, pass_on_rows, region_of, uncarried};
pub use refusal::{Refusal, Stop};
pub use refusal_lines::push_refusal;
pub use shortness::{are_few, are_short, are_short_views};
pub use statements::{accept, answer, execute, is_done_already};
pub use views::views_of;
