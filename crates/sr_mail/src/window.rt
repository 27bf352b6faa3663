ghost use Rattle.std.specs.Prelude.{◌≡◌, IsTrue, ◌↔◌};
ghost use Rattle.sr_mail.specs.Seen.{same_window};
ghost use Rattle.sr_mail.specs.Inner.Shelves.{is_before};

/// A window of a sender's log: what the log gives past `prev` and up to `upto`, and how many bytes its body has.
///
/// Fragments are of one window where all three are equal. Windows stand in the order of `prev`, then `upto`, then `total`.
#[derive(Clone, Copy)]
pub struct Window {
    pub prev: u64,
    pub upto: u64,
    pub total: u32,
}

/// Whether they are one window.
pub(crate) fn same_window(window: Window, other: Window) -> bool
    ensures { result ≡ same_window window other }
{
    window.prev == other.prev && window.upto == other.upto && window.total == other.total
}

/// Whether a window comes before another one in their order.
pub(crate) fn is_before(window: Window, other: Window) -> bool
    ensures { result ≡ is_before window other }
{
    window.prev < other.prev
        || (window.prev == other.prev
            && (window.upto < other.upto
                || (window.upto == other.upto && window.total < other.total)))
}
