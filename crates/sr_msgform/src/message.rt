use sr_base::{Copied, Name, NoMemory, Offset, Seq};
use std::alloc::Global;

/// One message file, without its magic, version and digest.
#[derive(Drop)]
pub struct Message {
    /// The sender's database.
    pub from: Name,
    /// The receiver's database.
    pub to: Name,
    /// The sender's count of asks that it has noted, at the put.
    pub resend_count: u64,
    /// The window holds what the sender's log gives past this offset,
    pub prev: Offset,
    /// and up to this one.
    pub upto: Offset,
    /// The length in bytes of the whole window's body.
    pub total: u32,
    /// The place in the body at which the fragment begins.
    pub start: u32,
    /// Bytes of the body.
    pub fragment: Seq<u8>,
    /// The offset of the receiver's log up to which the sender has taken it.
    pub confirm: Offset,
    /// The count of the sender's ask for a resend, 0 for none.
    pub ask_count: u64,
    /// The offset of the receiver's log past which the sender asks, 0 for none.
    pub ask_offset: Offset,
}

impl Copied for Message {
    fn copy(&self, alloc: Global) -> Result<Message, NoMemory> {
        Ok(Message {
            from: self.from.copy(alloc)?,
            to: self.to.copy(alloc)?,
            resend_count: self.resend_count,
            prev: self.prev,
            upto: self.upto,
            total: self.total,
            start: self.start,
            fragment: self.fragment.copy(alloc)?,
            confirm: self.confirm,
            ask_count: self.ask_count,
            ask_offset: self.ask_offset,
        })
    }
}
