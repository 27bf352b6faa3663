//! What may be noted of a user, by a message.

ghost use Rattle.std.specs.Prelude.{◌≡◌, ◌↔◌, ◌<◌, ◌⊎◌, IsTrue};
ghost use Rattle.sr_world_steps.specs.Inner.Notes.{IsNews, MayNote};

use sr_base::{Name, Offset};
use sr_book::{Book, Note};
use sr_msgform::Message;
use sr_world_entries::is_same;

/// Whether a message from a user lets a database note this of him.
pub(crate) fn may_note(book: &Book, at: &Name, user: &Name, note: &Note, message: &Message) -> bool
    ensures may { IsTrue result ↔ MayNote book.now at.now user.now note.now message.now }
{
    is_same(&message.from, user) && is_same(&message.to, at) && is_news(book, message, note)
}

/// Whether the message says what is noted, and this is new to the book. What was sent no message of another says.
fn is_news(book: &Book, message: &Message, note: &Note) -> bool
    ensures news { IsTrue result ↔ IsNews book.now message.now note.now }
{
    match *note {
        Note::Confirmed(place) => is_confirmed(book, message.confirm, place),
        Note::Asked(count, place) => {
            message.ask_count == count
                && message.ask_offset.0 == place.0
                && book.resend_count < count
        }
        Note::Raised => book.log_received < message.upto.0,
        Note::Sent { .. } => false,
    }
}

/// Whether the offset that is confirmed is this one, and raises what the book has as confirmed or as sent.
fn is_confirmed(book: &Book, confirm: Offset, place: Offset) -> bool
    ensures confirmed { IsTrue result ↔ ((confirm ≡ place) × ((book.now.confirm_sent < place.0) ⊎ (book.now.log_sent < place.0))) }
{
    confirm.0 == place.0 && (book.confirm_sent < place.0 || book.log_sent < place.0)
}
