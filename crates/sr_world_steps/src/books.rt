//! The book of a user, and the end of a history, by its log.

ghost use Rattle.std.specs.Prelude.{◌≡◌};
ghost use Rattle.sr_book.specs.Books.{new_book};
ghost use Rattle.sr_world_steps.specs.Inner.Booked.{booked_by, booked_in, end_in};

use sr_base::{Name, Offset};
use sr_book::Book;
use sr_logform::Entry;

/// The book of a user: eight zeros, changed by each entry that was taken from him or noted of him. It goes through the log.
pub(crate) fn book_of(log: &[(Offset, Entry)], user: &Name) -> Book
    ensures book { result ≡ booked_in user.now new_book log.now }
{
    let mut book = Book::new();
    let mut left = log;
    'entries: while let Some(((_, entry), rest)) = left.split_first() {
        book = book_behind(book, user, entry);
        left = rest;
    }
    book
}

/// The book behind an entry.
fn book_behind(book: Book, user: &Name, entry: &Entry) -> Book
    ensures book { result ≡ booked_by user.now book entry.now }
{
    match entry {
        Entry::From {
            user: other,
            at,
            ..
        } if user.bytes() == other.bytes() => book.took(*at),
        Entry::Note { user: other, note } if user.bytes() == other.bytes() => book.after(note),
        _ => book,
    }
}

/// The offset at which the last entry ends; 0 where there is none. It goes through the log.
pub(crate) fn end_of(log: &[(Offset, Entry)]) -> u64
    ensures end { result ≡ end_in 0 log.now }
{
    let mut end = 0;
    let mut left = log;
    'entries: while let Some(((at, _), rest)) = left.split_first() {
        end = at.0;
        left = rest;
    }
    end
}
