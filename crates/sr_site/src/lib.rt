//! The outside as traits: the five files of a database, the mail folder, the script that comes in and the lines that go out.
//!
//! It stands on sr_base for texts, names and lists. What a device holds is a meaning (`seen`) that counts where the device tells it: the files, and one
//! list of what happened on both devices, from which follows what a crash may leave. Each refusal comes only where that device's count of
//! faults rose in the call.
#![tactic(auto)]

mod disk;
mod file;
mod held;
mod laws;
mod mail;
mod stream;

pub use disk::Disk;
pub use file::File;
pub use held::{Failed, Held};
pub use laws::{
    a_site_reads_an_image, a_sync_settles, calls_on_one_file_leave_the_others, what_happened_grows,
    what_is_read_is_an_image,
};
pub use mail::{Listing, Mail, MailFault, Site};
pub use stream::{Sink, Source};
