//! The grammar of scripts: what a token means, which symbols spell which statements, and the laws of that relation.
//!
//! It stands on sr_lex and sr_ast, and reads nothing. The contracts that matter most are its laws: a text spells one script at most, so the
//! grammar is unambiguous (`a_text_spells_one_script`); the printed text of a statement in normal form spells it, and each statement of a
//! script is in normal form (`what_prints_is_read_so`). The productions stand in `specs/`: `Scripts` and the files that it names. What a
//! refusal means stands in `specs/Places`.
#![tactic(auto)]

mod fault;
mod keyword;
mod laws;
mod level;
mod symbol;

pub use fault::ParseFault;
pub use laws::{a_text_spells_one_script, what_prints_is_read_so};
pub use level::Level;
pub use symbol::{Sign, Symbol, symbol_of};
