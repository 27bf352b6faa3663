ghost use Rattle.std.specs.Prelude.{◌≡◌, IfOk};
ghost use Rattle.sr_logform.specs.declared.entry.Entry.TheVariants.{Note as note_entry};

use crate::change::Change;
use crate::op::Op;
use crate::outcome::Outcome;
use sr_base::{Copied, Name, NoMemory, Offset, Row, Seq, Text};
use sr_book::Note;
use std::alloc::Global;

/// The body of one record of a log.
#[derive(Drop)]
pub enum Entry {
    /// A transaction of this database's own: its changes.
    Own(Seq<Change>),
    /// A transaction that was taken: the partner, its offset in the partner's log, and each op with what became of it.
    From {
        user: Name,
        at: Offset,
        ops: Seq<(Op, Outcome)>,
    },
    /// A statement that changed the catalog, as it prints.
    Ddl(Text),
    /// A partner's view of some tables, row by row.
    Sync {
        user: Name,
        tables: Seq<(Name, Seq<Row>)>,
    },
    /// A statement that is passed on to some users, and its changes here; where it is for them alone, it did not run here.
    Pass {
        users: Seq<Name>,
        only: bool,
        text: Text,
        changes: Seq<Change>,
    },
    /// A change of a partner's book.
    Note {
        user: Name,
        note: Note,
    },
}

impl Entry {
    /// The entry of a note in a user's book.
    pub fn note(alloc: Global, user: &Name, note: Note) -> Result<Entry, NoMemory>
        ensures entry { IfOk result (λ entry. entry ≡ note_entry user.now note) }
    {
        Ok(Entry::Note {
            user: user.copy(alloc)?,
            note,
        })
    }
}

impl Copied for Entry {
    fn copy(&self, alloc: Global) -> Result<Entry, NoMemory> {
        match self {
            Entry::Own(changes) => Ok(Entry::Own(changes.copy(alloc)?)),
            Entry::From { user, at, ops } => Ok(Entry::From {
                user: user.copy(alloc)?,
                at: *at,
                ops: ops.copy(alloc)?,
            }),
            Entry::Ddl(text) => Ok(Entry::Ddl(text.copy(alloc)?)),
            Entry::Sync { user, tables } => Ok(Entry::Sync {
                user: user.copy(alloc)?,
                tables: tables.copy(alloc)?,
            }),
            Entry::Pass {
                users,
                only,
                text,
                changes,
            } => Ok(Entry::Pass {
                users: users.copy(alloc)?,
                only: *only,
                text: text.copy(alloc)?,
                changes: changes.copy(alloc)?,
            }),
            Entry::Note { user, note } => Ok(Entry::Note {
                user: user.copy(alloc)?,
                note: *note,
            }),
        }
    }
}
