//! What speaks against the statements on tables, users, publications, subscriptions and options, and what they make.
//!
//! It stands on sr_catalog_schema. Each statement has one call that answers the fault that refuses it, which looks for each cause only where
//! those before do not hold, and a CREATE or GRANT one more that answers what it makes.
#![tactic(auto)]

mod elsewhere;
mod grants;
mod options;
mod publications;
mod subscriptions;
mod tables;

pub use grants::{grant_fault, passthrough_fault, stands_above, user_of};
pub use options::{options_set, set_option_fault};
pub use publications::{create_publication_fault, drop_publication_fault, publication_of};
pub use subscriptions::{
    create_subscription_fault, drop_subscription_fault, start_fault, stop_fault, subscription_of,
    synchronize_fault,
};
pub use tables::{create_table_fault, table_of};
