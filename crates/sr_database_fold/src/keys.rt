//! The key of a row.

ghost use Rattle.std.specs.Prelude.{◌≡◌, IfOk};
ghost use Rattle.sr_exec_where.specs.Keys.{key_of};

use sr_base::{Key, NoMemory, Row};
use sr_catalog::Table;
use sr_exec_where::key_of as key_at;
use std::alloc::Global;

/// The key of a table's row: its values at the places of the key's columns, each found at once.
pub fn key_of(alloc: Global, table: &Table, row: &Row) -> Result<Key, NoMemory>
    ensures key { IfOk result (λ key. key ≡ key_of table.now.key row.now) }
{
    key_at(alloc, table.key.as_slice(), row.values())
}
