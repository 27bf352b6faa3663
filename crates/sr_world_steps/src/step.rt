//! The steps that a world is asked for, and why one is not made.

use sr_base::Name;
use sr_book::Note;
use sr_logform::Entry;
use sr_msgform::Message;

/// A step of a database that a world is asked for.
#[derive(Drop)]
pub enum WorldStep {
    /// It commits an entry of its own: an Own, a Ddl, a Sync or a Pass.
    Commit {
        at: Name,
        entry: Entry,
    },
    /// It takes the first transaction of a user past what it took of him, from a whole window of messages.
    Take {
        at: Name,
        user: Name,
    },
    /// It notes something of a user, by the message at a place of all that were ever put: what this confirms, its ask, or that an ask is raised.
    Note {
        at: Name,
        user: Name,
        note: Note,
        message: usize,
    },
    /// It notes that messages were sent to a user, up to an offset of its log.
    SentNote {
        at: Name,
        user: Name,
        note: Note,
    },
    /// It puts a message.
    Put {
        at: Name,
        message: Message,
    },
    /// It stops in a crash.
    Crash {
        at: Name,
    },
}

/// Why a step was not made.
#[derive(Drop)]
pub enum NotAStep {
    /// The world does not allow it; the number of its rule: 1 of a commit, 2 of a take, 3 of a note, 4 of a note of what was sent, 5 of a put, 6 of a crash.
    Rule { rule: u8 },
    /// There was no memory.
    Memory,
}
