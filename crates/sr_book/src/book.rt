ghost use Rattle.std.specs.Prelude.{◌≡◌, ◌<◌, ◌⊎◌, ◌↔◌, IsTrue};
ghost use Rattle.sr_book.specs.Books.{new_book, with_taken, with_note};

use crate::note::Note;
use sr_base::{Copied, NoMemory, Offset};
use std::alloc::Global;

/// What one database keeps of one partner, as SYSREMOTEUSER does: offsets are stream offsets in bytes, counts stop at 2^64 - 1.
///
/// All are 0 when the partner is granted.
#[derive(Clone, Copy)]
pub struct Book {
    /// The offset up to which this log was sent to the partner.
    pub log_sent: u64,
    /// The greatest offset of this log whose receipt the partner has confirmed.
    pub confirm_sent: u64,
    /// Messages sent.
    pub send_count: u64,
    /// The count of the last ask for a resend that was noted.
    pub resend_count: u64,
    /// The offset of the partner's log up to which its transactions were taken.
    pub log_received: u64,
    /// What was last confirmed to the partner.
    pub confirm_received: u64,
    /// Transactions taken.
    pub receive_count: u64,
    /// Asks for a resend that were raised here.
    pub rereceive_count: u64,
}

impl Book {
    /// The book of a partner that was just granted: eight zeros. It takes no memory.
    pub fn new() -> Book
        ensures { result ≡ new_book }
    {
        Book {
            log_sent: 0,
            confirm_sent: 0,
            send_count: 0,
            resend_count: 0,
            log_received: 0,
            confirm_received: 0,
            receive_count: 0,
            rereceive_count: 0,
        }
    }

    /// The book after a note. An ask whose count was noted already, or an older one, changes nothing.
    pub fn after(self, note: &Note) -> Book
        ensures { result ≡ with_note self note.now }
    {
        match *note {
            Note::Confirmed(place) => self.confirmed(place),
            Note::Asked(count, place) => self.asked(count, place),
            Note::Raised => self.raised(),
            Note::Sent {
                end,
                messages,
                confirm,
            } => self.sent(end, messages, confirm),
        }
    }

    /// The book after one of the partner's transactions was taken, whose offset in the partner's log is `at`.
    pub fn took(self, at: Offset) -> Book
        ensures { result ≡ with_taken self at.0 }
    {
        Book {
            log_received: at.0,
            receive_count: self.receive_count.saturating_add(1),
            ..self
        }
    }

    /// Whether a message is due where no transaction is to be sent: an ask is to be made, or more was taken than confirmed.
    pub fn need(&self, ask: bool) -> bool
        ensures { IsTrue result ↔ (IsTrue ask ⊎ (self.now.confirm_received < self.now.log_received)) }
    {
        ask || self.confirm_received < self.log_received
    }

    fn confirmed(self, place: Offset) -> Book
        ensures { result ≡ with_note self (Note.Confirmed place) }
    {
        Book {
            log_sent: self.log_sent.max(place.0),
            confirm_sent: self.confirm_sent.max(place.0),
            ..self
        }
    }

    fn asked(self, count: u64, place: Offset) -> Book
        ensures { result ≡ with_note self (Note.Asked count place) }
    {
        if self.resend_count < count {
            Book {
                log_sent: self.confirm_sent.max(place.0),
                resend_count: count,
                ..self
            }
        } else {
            self
        }
    }

    fn raised(self) -> Book
        ensures { result ≡ with_note self Note.Raised }
    {
        Book {
            rereceive_count: self.rereceive_count.saturating_add(1),
            ..self
        }
    }

    fn sent(self, end: Offset, messages: u32, confirm: Offset) -> Book
        ensures { result ≡ with_note self (Note.Sent end messages confirm) }
    {
        Book {
            log_sent: end.0,
            send_count: self.send_count.saturating_add(u64::from(messages)),
            confirm_received: confirm.0,
            ..self
        }
    }
}

impl Copied for Book {
    fn copy(&self, _alloc: Global) -> Result<Book, NoMemory> {
        Ok(*self)
    }
}
