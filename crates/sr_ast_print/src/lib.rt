//! Printing statements: one text for each, by which a log, a catalog's script and passthrough keep it.
//!
//! It stands on sr_ast, which says how each part prints (`specs/Layout`, `specs/Printing`). The contract that matters most is that of `print`.
#![tactic(auto)]

mod page;
mod print_action;
mod print_create;
mod print_expr;
mod print_stmt;
mod printing;

pub use print_stmt::print;
