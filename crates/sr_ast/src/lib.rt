//! SQL statements as data: their kinds, and the classes of their expressions. How they print is said here; sr_ast_print prints them.
//!
//! It stands on sr_base. Expressions and actions hold others of their kind; contracts see these as terms and chains, without where
//! they lie in memory, so that a copy equals what was copied. The contract that matters most is that of `class_of`.
#![tactic(auto)]

mod action;
mod classes;
mod copying;
mod create;
mod expr;
mod form;
mod keyword;
mod operator;
mod options;
mod query;
mod stmt;
mod uses;

pub use action::{Action, Actions};
pub use classes::{
    Class, Columns, NotTyped, Places, Scope, class_of, first_place, is_comparable, is_meant,
    kind_class, value_class,
};
pub use create::{
    ArticleRule, ColumnRule, CreatePublication, CreateTable, CreateTrigger, Grant, Image,
    SubscriptionRule,
};
pub use expr::{DEEPEST, Expr, Operand};
pub use form::Form;
pub use keyword::Keyword;
pub use operator::{Binary, Unary};
pub use options::{OptionRule, settled};
pub use query::{Delete, Dml, Insert, Item, Items, Join, OrderBy, Select, Source, Update};
pub use stmt::{Passthrough, Script, Stmt, is_carried, is_ddl};
pub use uses::{
    class_among, class_in, gives_truth, gives_value, is_plain, unknown_among, unknown_in,
};
