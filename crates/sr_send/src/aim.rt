use sr_base::{Name, Offset};
use sr_mail_cut::Head;

/// What all messages of one pass have in common.
#[derive(Drop)]
pub(crate) struct Aim {
    pub head: Head,
    /// The folder that they are put into.
    pub address: Name,
    /// The offset of this log up to which it was sent to the partner before.
    pub prev: Offset,
    /// How many messages he was sent before.
    pub count: u64,
    /// How many bytes a message file may have.
    pub limit: u32,
}
