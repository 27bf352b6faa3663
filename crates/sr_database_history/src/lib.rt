//! What a history comes to: the entries of a log as they are meant, the state that they fold to, and which of them may stand in a log.
//!
//! It stands on sr_logform, sr_parse_grammar, sr_catalog_script_laws, sr_exec_dml and sr_book, and has no code but the laws. A recorded entry carries its statement
//! in place of the text, so that the fold is a function. The law that matters most is `what_holds_stays`: behind every history that
//! may stand in a log, each row fits its table.
#![tactic(auto)]

mod doing;
mod folding;
mod keeping;
mod meaning;
mod sample;

pub use doing::{entries_do, entries_do_no_more};
pub use folding::{books_begin_at_grants, books_grow, ends_grow, state_grows, stored_grows};
pub use keeping::{conflicts_meet_a_row, entries_have_bounds, what_holds_stays};
pub use meaning::an_entry_is_meant_once;
pub use sample::a_history_may_stand;
