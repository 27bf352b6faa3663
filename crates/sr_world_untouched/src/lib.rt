//! Keys that a database below did not touch: there it holds exactly the row that the one above shows it, as of the last transaction that it took.
//!
//! It stands on sr_world and has no run time: each function carries a law as its clause. The one that matters is `untouched_keys_agree`; the
//! others say of one row what its proof goes along with, transaction by transaction.
#![tactic(auto)]

mod laws;
mod sample;

pub use laws::{
    a_key_from_above_is_fitted, an_insert_from_above_agrees, an_update_from_above_agrees,
    untouched_keys_agree,
};
pub use sample::keys_are_untouched;
