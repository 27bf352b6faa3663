//! Places of a log, listed under keys: which entries concern whom.
//!
//! It stands on sr_base alone and knows neither entries nor catalogs. The contract that matters most is that of `Listings::first_among`: it answers the
//! first place under some keys that ends past an offset and was not taken from a user, and nothing only where there is none.
#![tactic(auto)]

mod key;
mod listed;
mod listings;
mod place;
mod search;

pub use key::Key;
pub use listings::Listings;
pub use place::Place;
