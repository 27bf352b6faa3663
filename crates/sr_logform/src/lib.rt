//! What a log records, and what one database tells another to do: entries and ops, byte for byte.
//!
//! It stands on sr_base and sr_book. Entries and their bytes are one relation both ways: `read_entry` answers the one entry whose
//! spelling the bytes are, and breaks exactly where they are none, at the first byte of the innermost field that breaks;
//! `write_entry` gives the one spelling. `read_op` and `write_op` do the same with an op at the front of bytes.
#![tactic(auto)]

mod change;
mod entry;
mod field_change;
mod field_changes;
mod field_entry;
mod field_note;
mod field_op;
mod field_outcome;
mod filled;
mod laws;
mod limits;
mod names;
mod op;
mod outcome;
mod reading;
mod values;
mod writing;
mod writing_parts;

pub use change::Change;
pub use entry::Entry;
pub use laws::{
    an_entry_is_as_long_as_its_ops, each_has_one_spelling, what_has_a_spelling_can_be_written,
};
pub use limits::{LONGEST_TRANSACTION, farthest_end, longest_body};
pub use op::{Op, Transaction};
pub use outcome::{Clash, Outcome};
pub use reading::{read_entry, read_op};
pub use writing::{write_entry, write_op};
