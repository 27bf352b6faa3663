use crate::named::HasName;
use sr_ast::Stmt;
use sr_base::{Copied, Name, NoMemory};
use std::alloc::Global;

/// A trigger: the table that it stands on, and its CREATE TRIGGER statement.
#[derive(Drop)]
pub struct Trigger {
    pub name: Name,
    pub table: Name,
    pub stmt: Stmt,
}

impl HasName for Trigger {
    ghost name_of = { λ t. t.name };

    fn name(&self) -> &Name {
        &self.name
    }
}

impl Copied for Trigger {
    fn copy(&self, alloc: Global) -> Result<Trigger, NoMemory> {
        Ok(Trigger {
            name: self.name.copy(alloc)?,
            table: self.table.copy(alloc)?,
            stmt: self.stmt.copy(alloc)?,
        })
    }
}
