//! Symbols read: the symbols of a text, a reader of them, expressions, and statements on rows.
//!
//! It stands on sr_parse_grammar. Each function reads one production. Its contract is one relation (`specs/Reading`): what was read, by the
//! symbols that were taken, and nothing else can be; or it was refused at the next symbol, and no text goes on with that one.
//!
//! No token is kept: symbols are made of a text as its tokens are taken, and given up as statements are read (`symbols`, `Reader`).
#![tactic(auto)]

mod exprs;
mod forms;
mod querying;
mod reader;
mod tokens;

pub use exprs::{expr, literal, negative};
pub use forms::form_at;
pub use querying::{condition, delete, insert, passthrough, row, select, update};
pub use reader::{Broken, Reader};
pub use tokens::{start_behind, symbols};
