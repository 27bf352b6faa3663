use sr_base::{Copied, NoMemory, Seq};
use sr_logform::Change;
use std::alloc::Global;

/// What a statement changes: each key at which the rows before and after differ, ascending, with its rows; and the number of rows
/// that were inserted, selected for an update, or deleted.
#[derive(Drop)]
pub struct Changes {
    pub list: Seq<Change>,
    pub count: u64,
}

impl Copied for Changes {
    fn copy(&self, alloc: Global) -> Result<Changes, NoMemory> {
        Ok(Changes {
            list: self.list.copy(alloc)?,
            count: self.count,
        })
    }
}
