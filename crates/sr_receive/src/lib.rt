//! The receive pass from one partner: what his message files confirm and ask for noted, his windows taken, what is missing raised.
//!
//! It stands on sr_receive_gather for the message files, on sr_mail for windows, on sr_receive_judged for what becomes of a transaction. The contract that matters most is that of
//! `receive`: what was committed is a prefix of a pass, all of it where no fault came, and each transaction that was taken has the outcomes
//! that judging gives it.
#![tactic(auto)]

mod laws;
mod noting;
mod pass;
mod receiving;
mod reporting;
mod taking;
mod trying;

pub use laws::windows_are_taken_as_far_as_they_reach;
pub use receiving::{Received, receive};
pub use sr_receive_gather::{Bag, ReceiveFault, Report, gather, purge};
