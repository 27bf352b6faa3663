//! How many rows there are.

ghost use Rattle.std.specs.Prelude.{◌≡◌, ◌+◌, length, IfOk};
ghost use Rattle.sr_rows.specs.Walks.{table_rows};
ghost use Rattle.dbremote_command.specs.Shown.{count_of};

use sr_base::{Name, NoMemory};
use sr_catalog::Table;
use sr_rows::Rows;
use std::alloc::AllocError;

/// A sum; no memory holds more than 2^64 - 1 of anything.
fn sum(one: u64, other: u64) -> Result<u64, NoMemory>
    ensures sum { IfOk result (λ both. both ≡ one + other) }
{
    match one.checked_add(other) {
        Some(both) => Ok(both),
        None => Err(AllocError),
    }
}

/// How many rows a table has. It takes a step for each.
fn count_in(rows: &Rows, table: &Name) -> Result<u64, NoMemory>
    ensures count { IfOk result (λ count. count ≡ length (table_rows rows.now.rows table.now)) }
{
    let mut count = 0u64;
    let mut walk = rows.walk(table);
    'rows: while let Some(_) = walk.next() {
        count = sum(count, 1)?;
    }
    Ok(count)
}

/// How many rows these tables have together. It takes a step for each.
pub(crate) fn count_of(rows: &Rows, tables: &[Table]) -> Result<u64, NoMemory>
    ensures count { IfOk result (λ count. count ≡ count_of rows.now.rows tables.now) }
{
    let mut count = 0u64;
    let mut left = tables;
    'tables: while let Some((table, rest)) = left.split_first() {
        count = sum(count, count_in(rows, &table.name)?)?;
        left = rest;
    }
    Ok(count)
}
