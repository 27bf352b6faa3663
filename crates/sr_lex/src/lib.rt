//! The tokens of an SQL script: words, whole numbers, texts in quotes and signs, each with its place.
//!
//! It stands on sr_base. The contract that matters most is that of `lex`: the tokens are the slices of their spans, in order, and
//! between them stands only white space and comments; it refuses a text exactly where no token begins.
#![tactic(auto)]

mod bytes;
mod fault;
mod gap;
mod kind;
mod lexer;
mod lexing;
mod number;
mod quoted;
mod token;

pub use fault::LexFault;
pub use lexer::Lexer;
pub use lexing::lex;
pub use token::{Token, TokenKind};
