//! What a database knows beside its rows: its tables, users, publications, triggers and subscriptions under their names, how they are
//! looked up, its options, and the faults by which statements are refused.
//!
//! It stands on sr_ast. Contracts see a schema as its lists in order of creation. The contract that matters most is that of
//! `Named::get`: what is found under a name is the first thing of that name.
#![tactic(auto)]

mod altered;
mod columns;
mod exprs;
mod fault;
mod firsts;
mod keys;
mod listed;
mod named;
mod options;
mod publication;
mod schema;
mod starts;
mod subscription;
mod subscriptions;
mod table;
mod trigger;
mod user;

pub use columns::{column_names, first_absent_column, key_names, scope_of};
pub use exprs::{add_refs, is_operator};
pub use fault::{DdlFault, DmlFault, missing_fault, too_many_fault};
pub use firsts::{
    Seen, first, first_absent, first_twice, first_twice_of, is_empty, is_full, is_taken,
    item_named, limit_where, owned, paired, place_named, where_true,
};
pub use named::{HasName, Named, item_at};
pub use options::Options;
pub use publication::{Article, Publication};
pub use schema::Schema;
pub use subscription::Subscription;
pub use table::{Column, Table};
pub use trigger::Trigger;
pub use user::User;
