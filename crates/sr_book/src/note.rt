use sr_base::{Copied, NoMemory, Offset};
use std::alloc::Global;

/// A change of a partner's book that is no taken transaction.
#[derive(Clone, Copy)]
pub enum Note {
    /// The partner confirmed this log up to an offset.
    Confirmed(Offset),
    /// The partner asked, with this count, for what lies past an offset of this log.
    Asked(u64, Offset),
    /// An ask for a resend was raised here.
    Raised,
    /// Messages were put, up to an offset of this log, that confirm the partner's log up to another.
    Sent {
        end: Offset,
        messages: u32,
        confirm: Offset,
    },
}

impl Copied for Note {
    fn copy(&self, _alloc: Global) -> Result<Note, NoMemory> {
        Ok(*self)
    }
}
