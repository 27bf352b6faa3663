/// How the need of a user is sought up to a limit.
#[derive(Clone, Copy)]
pub(crate) enum Way {
    /// Nothing is listed for him that begins before the limit: he needs nothing there.
    Nothing,
    /// The survey lists the entries that may give him something, and its catalog tells which of them do.
    Places,
    /// The log is read on.
    Log,
}
