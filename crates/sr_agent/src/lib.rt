//! One run of the agent on an opened database: the log begun anew where that is asked for, the mail taken from each partner, and what is due sent to each.
//!
//! It stands on sr_receive and sr_send for what is done with one partner, and on sr_send_needs for where the log may begin. Here is what joins them: which
//! passes a run makes, the partners in order of grant, the lines, and the first fault, which ends it. The contract that matters most is that of `agent`: what was done is a whole run,
//! or the first steps of one and a part of the next, and the lines tell just that: all of it,
//! whatever fault ends the run, but for that of the sink.
#![tactic(auto)]

mod adding;
mod fault;
mod options;
mod partner;
mod progress;
mod receiving;
mod reporting;
mod restarting;
mod running;
mod sending;
mod sharing;
mod telling;

pub use fault::AgentFault;
pub use options::Options;
pub use running::agent;
