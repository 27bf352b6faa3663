use crate::named::HasName;
use sr_base::{Copied, Kind, Name, NoMemory, Seq};
use std::alloc::Global;

/// A table: its columns in order, and the places of its key's columns, in key order.
#[derive(Drop)]
pub struct Table {
    pub name: Name,
    pub columns: Seq<Column>,
    pub key: Seq<usize>,
}

/// A column of a table.
#[derive(Drop)]
pub struct Column {
    pub name: Name,
    pub kind: Kind,
    pub not_null: bool,
}

impl HasName for Table {
    ghost name_of = { λ t. t.name };

    fn name(&self) -> &Name {
        &self.name
    }
}

impl HasName for Column {
    ghost name_of = { λ c. c.name };

    fn name(&self) -> &Name {
        &self.name
    }
}

impl Copied for Table {
    fn copy(&self, alloc: Global) -> Result<Table, NoMemory> {
        Ok(Table {
            name: self.name.copy(alloc)?,
            columns: self.columns.copy(alloc)?,
            key: self.key.copy(alloc)?,
        })
    }
}

impl Copied for Column {
    fn copy(&self, alloc: Global) -> Result<Column, NoMemory> {
        Ok(Column {
            name: self.name.copy(alloc)?,
            kind: self.kind,
            not_null: self.not_null,
        })
    }
}
