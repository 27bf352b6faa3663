//! Five files in memory that know what of them is not yet synced, for tests and the demonstration.
//!
//! It stands on sr_site for the names of the files and for what a crash may leave. The contract that matters most is that of a crash: it leaves the
//! files that its pick names, change by change, and no more memory or copying is asked for by a sync than to forget.
#![tactic(auto)]

mod bytes;
mod crashing;
mod five;
mod stored;
mod tear;
mod written;

pub use five::FiveFiles;
pub use stored::Stored;
