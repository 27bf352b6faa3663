//! Whether an entry may stand in the log of a database, in the state and behind the offset that the log comes to: by its bytes, and by what it says; and
//! which entry takes a transaction of a partner there.
//!
//! It stands on sr_world, whose rules of a history it decides, on sr_resolve for what becomes of an op, and on sr_database_fold for the state behind it. It
//! has a catalog and rows before it, and no log and no world. The contract that matters most is that of `take_end`: the entry is the one that keeps every
//! rule, and there is none where it says so.
#![tactic(auto)]

mod alike;
mod ends;
mod judging;
mod names;
mod saying;
mod shortness;
mod taking;

pub use ends::{end_behind, is_local, local_end};
pub use names::{are_distinct, is_same};
pub use saying::says_so;
pub use taking::take_end;
