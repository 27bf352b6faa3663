use sr_base::{Copied, Name, NoMemory, Offset, Seq, Text, Value};
use std::alloc::Global;

/// What one database tells another to do.
#[derive(Drop)]
pub enum Op {
    /// A new row, with the columns that are not NULL.
    Insert {
        table: Name,
        values: Seq<(Name, Value)>,
    },
    /// The row of a key goes.
    Remove {
        table: Name,
        key: Seq<(Name, Value)>,
    },
    /// Columns of the row of a key change: for each its name, its old value and its new one.
    Set {
        table: Name,
        key: Seq<(Name, Value)>,
        columns: Seq<(Name, Value, Value)>,
    },
    /// Every row of a table goes.
    Clear {
        table: Name,
    },
    /// A statement runs.
    Exec {
        text: Text,
    },
}

/// What one transaction of a log gives a partner: its offset in that log, and its ops.
#[derive(Drop)]
pub struct Transaction {
    pub at: Offset,
    pub ops: Seq<Op>,
}

impl Copied for Op {
    fn copy(&self, alloc: Global) -> Result<Op, NoMemory> {
        match self {
            Op::Insert { table, values } => Ok(Op::Insert {
                table: table.copy(alloc)?,
                values: values.copy(alloc)?,
            }),
            Op::Remove { table, key } => Ok(Op::Remove {
                table: table.copy(alloc)?,
                key: key.copy(alloc)?,
            }),
            Op::Set {
                table,
                key,
                columns,
            } => Ok(Op::Set {
                table: table.copy(alloc)?,
                key: key.copy(alloc)?,
                columns: columns.copy(alloc)?,
            }),
            Op::Clear { table } => Ok(Op::Clear {
                table: table.copy(alloc)?,
            }),
            Op::Exec { text } => Ok(Op::Exec {
                text: text.copy(alloc)?,
            }),
        }
    }
}

impl Copied for Transaction {
    fn copy(&self, alloc: Global) -> Result<Transaction, NoMemory> {
        Ok(Transaction {
            at: self.at,
            ops: self.ops.copy(alloc)?,
        })
    }
}
