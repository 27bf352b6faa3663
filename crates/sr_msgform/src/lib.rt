//! Message files: the bytes that one database hands another.
//!
//! It stands on sr_base and the digest of `sha2`. Messages and their bytes are one relation both ways: `read_message` answers
//! `None` exactly where no message spells the bytes, and `write_message` gives the one spelling.
#![tactic(auto)]

mod fields;
mod laws;
mod message;
mod reading;
mod rules;
mod seal;
mod writing;

pub use laws::{a_message_has_its_length, no_bytes_spell_two_messages};
pub use message::Message;
pub use reading::read_message;
pub use rules::message_length;
pub use writing::write_message;
