//! Devices in memory, for tests and the demonstration: a site with its five files and a mail folder that several sites share, a script to
//! read and a sink for lines.
//!
//! It stands on sr_base for texts and names, on sr_site for the traits, on sr_memsite_disk for the files and on sr_memsite_mail for the
//! mail folder. Each device tells everything. The
//! contract that matters most is that of a failing call: a call whose number `fail_calls` named fails with its device's count raised; no other
//! one does but a write for want of memory, which the site tells. A site that is handed its folders (`HandedSite`) says besides what lies there.
#![tactic(auto)]

mod bytes;
mod calls;
mod disk;
mod handed;
mod sink;
mod site;
mod source;
mod turns;

pub use disk::MemoryDisk;
pub use handed::HandedSite;
pub use sink::MemorySink;
pub use site::MemorySite;
pub use source::MemorySource;
pub use sr_memsite_mail::SharedMail;
