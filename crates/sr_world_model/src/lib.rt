//! The world of databases that hand each other messages, as a machine of histories and messages, and the theorem that whatever steps
//! its databases take, a good world stays good.
//!
//! It stands on the books of sr_book and the message of sr_msgform, and on nothing of catalogs, rows, judging or bytes: what it needs of
//! the layers that define these is the record `Layers`, when a history is lawful is any fact of theirs (`Rules`), and what they owe is the
//! record `Laws`. Its functions do nothing when they run. Each carries a law as its clause, and whoever calls one may use the law. The
//! contract that matters most is that of `stays_good`.
#![tactic(auto)]

mod below;
mod ends;
mod folded;
mod freedom;
mod goodness;
mod outlook;
mod runs;
mod sample;

pub use below::{Rules, StepRules};
pub use ends::end_grows;
pub use folded::{books_begin_at_grants, given_grows, has_laws, lawful_grows, state_grows};
pub use freedom::{run_good, run_still_allowed, runs_join, still_allowed, window_taken};
pub use goodness::{
    always_good, chain_covers, fresh_is_good, nothing_passes, one_take, stays_good, whole_body,
};
pub use outlook::{given_rises, true_longer};
pub use runs::runs_good;
pub use sample::small_world_goes;
