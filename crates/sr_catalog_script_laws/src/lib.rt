//! Laws of the catalogs that accepted statements have made of a new one: their own statements are accepted, and make them again; and they are in
//! normal form where those were.
//!
//! It stands on sr_catalog_change, and has no code but the laws.
#![tactic(auto)]

mod laws;

pub use laws::{
    accepted_statements_make_it, statements_in_normal_form_make_it, statements_make_it_again,
};
