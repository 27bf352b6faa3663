//! The host's devices: the five files, the mail folder, standard input and standard output, the program's words and its clock.
//!
//! It stands on sr_base for texts, names and lists and on sr_site for the traits. The devices tell nothing of what they hold: contracts see only
//! their counts of faults. What they do with the system's calls is trusted (docs/DECISIONS.md, "The host's devices").
#![tactic(auto)]

mod disk;
mod disk_file;
mod files;
mod folder;
mod mail;
mod opening;
mod sink;
mod site;
mod source;
mod start;
mod telling;
mod waiting;
mod window;

pub use sink::HostSink;
pub use site::HostSite;
pub use source::HostSource;
pub use start::{now, words};
