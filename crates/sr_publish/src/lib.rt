//! Which rows of a database a partner sees, and what of them: publications with their articles, and subscriptions.
//!
//! It stands on sr_catalog and sr_eval. What a user has of a table is a `TableView`, which is made once for a catalog and then costs by
//! the row alone. The contract that matters most is that of `sees`: what a user sees of a row.
#![tactic(auto)]

mod articles;
mod laws;
mod seeing;
mod subscribed;
mod table_view;
mod values;

pub use laws::{catalogs_are_in_order, nobody_has_a_dropped_table, one_article, seen_where_held};
pub use seeing::sees;
pub use table_view::TableView;
pub use values::{is_same, value_or_null, values_at};
