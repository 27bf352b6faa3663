//! What is done to a database on its site, said by one relation: which entries were committed and which calls of the mail were made, one behind the other, and
//! how it ended.
//!
//! It stands on sr_database and sr_site. The contract that matters most is `effects_join`: what was done in two stretches, of which the first ended well, was
//! done in one. A layer above says of each of its functions what that function did, and joins.
#![tactic(auto)]

mod laws;
mod place;

pub use laws::effects_join;
pub use place::Place;
