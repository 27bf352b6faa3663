use sr_base::{Copied, Name, NoMemory, Row};
use std::alloc::Global;

/// One row of a table, changed: the row before and the row after. None before is an insert, and none after a delete.
#[derive(Drop)]
pub struct Change {
    pub table: Name,
    pub before: Option<Row>,
    pub after: Option<Row>,
}

impl Copied for Change {
    fn copy(&self, alloc: Global) -> Result<Change, NoMemory> {
        Ok(Change {
            table: self.table.copy(alloc)?,
            before: self.before.copy(alloc)?,
            after: self.after.copy(alloc)?,
        })
    }
}
