use sr_base::Offset;

/// Where the log is read on from, and whether by the catalog that it comes to: else by that of its base.
#[derive(Clone, Copy)]
pub(crate) struct Start {
    pub at: Offset,
    pub is_now: bool,
}
