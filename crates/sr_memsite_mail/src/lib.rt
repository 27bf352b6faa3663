//! Message files in memory, for tests and the demonstration: the folders that several sites share, what the mail does with them, and what may
//! become of a file on its way: it is lost, comes twice, or is held back.
//!
//! It stands on sr_base for names and texts and on sr_site for a listing. The contract that matters most is that of a file that is held back:
//! to the mail it is not there, until all are released or another file is put in its place.
#![tactic(auto)]

mod file;
mod mail;
mod place;

pub use mail::SharedMail;
