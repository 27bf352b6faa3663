//! What a database keeps of each partner: the eight columns of SYSREMOTEUSER, the notes that change them, and the book that a whole
//! history of a log comes to, with what that history took from the partner.
//!
//! It stands on sr_base alone. The contract that matters most is that of `Book::after`: each note changes the columns of its row in
//! the table of docs/REPLICATION.md, and no other. `taken_grows`, `asked_grows`, `book_grows` and `book_agrees` do nothing when
//! they run: each carries a law of histories as its clauses, which whoever calls it may use.
#![tactic(auto)]

mod book;
mod history;
mod note;

pub use book::Book;
pub use history::{asked_grows, book_agrees, book_grows, taken_grows};
pub use note::Note;
