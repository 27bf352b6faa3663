use sr_base::Offset;
use sr_mail_cut::Cutter;

/// The messages of one pass on their way.
#[derive(Drop)]
pub(crate) struct Post {
    /// What is not yet put of what was pushed.
    pub cutter: Cutter,
    /// The offset of the last transaction that was pushed, or that up to which the log was sent before.
    pub end: Offset,
    /// How many messages were put.
    pub put: u32,
}
