//! Scripts read as statements.
//!
//! It stands on sr_parse_grammar and sr_parse_reader. The contract that matters most is that of `parse`: a text that spells a script, by the grammar, is
//! answered with that script, and every other text is refused. It always returns, whatever the text and however deep it nests. A refusal
//! stands where no token begins, or else at the first token with which no script goes on, or at the end.
//!
//! The laws of the grammar are those of sr_parse_grammar: `a_text_spells_one_script` and `what_prints_is_read_so`.
#![tactic(auto)]

mod acting;
mod creating;
mod normal;
mod options;
mod parsing;
mod printed;

pub use parsing::parse;
pub use printed::{a_text_prints_one_statement, printed_statement};
pub use sr_parse_grammar::{ParseFault, a_text_spells_one_script, what_prints_is_read_so};
