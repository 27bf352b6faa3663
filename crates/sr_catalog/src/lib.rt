//! The catalog of a database: what it knows beside its rows, and how each statement changes it.
//!
//! It stands on sr_catalog_change for what a statement does and on sr_catalog_script_laws for what the catalog's own script makes. Contracts see a catalog
//! as its lists in order of creation. The contract that matters most is that of `Catalog::change`: what the catalog is after a
//! statement, and exactly which statements are refused, by what.
#![tactic(auto)]

mod catalog;
mod script;

pub use catalog::Catalog;
pub use sr_catalog_schema::{
    Article, Column, DdlFault, DmlFault, HasName, Named, Publication, Subscription, Table, Trigger,
    User,
};
pub use sr_catalog_script_laws::{
    accepted_statements_make_it, statements_in_normal_form_make_it, statements_make_it_again,
};
