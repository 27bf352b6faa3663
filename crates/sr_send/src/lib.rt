//! The send pass to one partner: what the log gives him and he has not been sent, put as messages into his folder and noted in his book.
//!
//! It stands on sr_database for the log, on sr_survey for which of its entries concern whom, on sr_scan for what they give, on sr_mail_cut for messages. The
//! passes of a run read the log once, for the survey that they share; a pass reads again what that lists for its partner, or, where it can not tell that,
//! the log from what he was sent on. Each message is put as soon as it is filled, so that but for the survey memory does not grow with the log. The contract
//! that matters most is that of `send`: the messages are the one cut of what the history gives him past what he was sent, and the note comes after them.
#![tactic(auto)]

mod aim;
mod fault;
mod finishing;
mod heading;
mod laws;
mod noting;
mod passing;
mod post;
mod posting;
mod pushing;
mod reading;
mod sending;
mod shared;
mod starting;
mod surveying;
mod telling;
mod unsent;
mod way;
mod writable;

pub use fault::SendFault;
pub use laws::{what_a_history_gives_can_be_written, what_is_put_is_true};
pub use passing::runs_nothing;
pub use sending::{Sent, send};
pub use shared::SharedSurvey;
