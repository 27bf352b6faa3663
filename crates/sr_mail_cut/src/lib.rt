//! What a sender makes of transactions: bodies, the messages that they are cut into, and the names of message files.
//!
//! It stands on sr_base, sr_logform and sr_msgform. Bodies and their bytes are one relation both ways. Of given transactions there is one
//! cut: `cut` and `Cutter` make it.
#![tactic(auto)]

mod bodies;
mod cutter;
mod cutting;
mod encoded;
mod encoding;
mod fragments;
mod head;
mod laws;
mod naming;
mod too_long;

pub use bodies::{body, read_body};
pub use cutter::Cutter;
pub use cutting::cut;
pub use head::Head;
pub use laws::{a_body_is_spelled_once, a_cut_is_true, a_cut_keeps_the_rules, there_is_one_cut};
pub use naming::file_name;
pub use too_long::TooLong;
