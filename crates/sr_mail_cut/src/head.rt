use sr_base::{Copied, Name, NoMemory, Offset};
use std::alloc::Global;

/// What the messages of one pass to one partner have in common.
#[derive(Drop)]
pub struct Head {
    /// The sender's database.
    pub from: Name,
    /// The receiver's database.
    pub to: Name,
    /// The sender's count of asks that it has noted.
    pub resend_count: u64,
    /// The offset of the receiver's log up to which the sender has taken it.
    pub confirm: Offset,
    /// The count of the sender's ask for a resend, 0 for none.
    pub ask_count: u64,
    /// The offset of the receiver's log past which the sender asks, 0 for none.
    pub ask_offset: Offset,
}

impl Copied for Head {
    fn copy(&self, alloc: Global) -> Result<Head, NoMemory> {
        Ok(Head {
            from: self.from.copy(alloc)?,
            to: self.to.copy(alloc)?,
            resend_count: self.resend_count,
            confirm: self.confirm,
            ask_count: self.ask_count,
            ask_offset: self.ask_offset,
        })
    }
}
