use crate::change::Change;
use sr_base::{Copied, NoMemory, Row, Seq};
use std::alloc::Global;

/// Why an op was skipped.
#[derive(Clone, Copy)]
pub enum Clash {
    /// The key is held.
    Duplicate,
    /// The key is not held.
    NoRow,
    /// The table is not there.
    NoTable,
    /// A column is not in the table, or no key column is where one is needed.
    NoColumn,
    /// A value does not fit its column.
    BadValue,
    /// A column is NOT NULL.
    Null,
    /// A trigger met an overflow or a row that may not stand.
    Trigger,
    /// The statement is none that may run.
    Statement,
}

/// What became of an op that was taken.
#[derive(Drop)]
pub enum Outcome {
    /// It was done, with these changes.
    Plain(Seq<Change>),
    /// It met another value: what the triggers inserted, and the row of the op's key before and after, which may be equal.
    Conflict {
        inserts: Seq<Change>,
        before: Row,
        after: Row,
    },
    /// It was skipped.
    Clash(Clash),
}

impl Copied for Clash {
    fn copy(&self, _alloc: Global) -> Result<Clash, NoMemory> {
        Ok(*self)
    }
}

impl Copied for Outcome {
    fn copy(&self, alloc: Global) -> Result<Outcome, NoMemory> {
        match self {
            Outcome::Plain(changes) => Ok(Outcome::Plain(changes.copy(alloc)?)),
            Outcome::Conflict {
                inserts,
                before,
                after,
            } => Ok(Outcome::Conflict {
                inserts: inserts.copy(alloc)?,
                before: before.copy(alloc)?,
                after: after.copy(alloc)?,
            }),
            Outcome::Clash(clash) => Ok(Outcome::Clash(*clash)),
        }
    }
}
