/// How what the log gives a user past an offset is found.
#[derive(Clone, Copy)]
pub(crate) enum Way {
    /// Nothing is listed for him there: it gives him nothing.
    Nothing,
    /// The survey lists the entries that may give him something, and its catalog tells what they give.
    Places,
    /// The log is read from what he was sent on.
    Log,
}
