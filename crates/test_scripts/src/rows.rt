//! The rows of a table, one after the other.

use crate::saying::{say_name, say_values};
use sr_base::{Name, NoMemory};
use sr_rows::Rows;
use std::alloc::Global;
use test_rows::say;

/// Appends a line for each row of a table, in the order of the keys: the table's name, and the values with `|` between them.
pub fn say_rows(
    alloc: Global,
    out: &mut Vec<u8>,
    rows: &Rows,
    table: &Name,
) -> Result<(), NoMemory> {
    let mut last = None;
    for _ in 0..u64::MAX {
        let Some((key, row)) = rows.next(table, last) else {
            return Ok(());
        };
        say_name(out, "row ", table)?;
        say(out, " ")?;
        say_values(alloc, out, row.values(), "|")?;
        say(out, "\n")?;
        last = Some(key);
    }
    Ok(())
}
