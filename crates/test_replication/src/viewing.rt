//! What users see of rows.

use crate::databases::{follow, script_of};
use crate::parts::row_of;
use sr_base::{Name, NoMemory, Row};
use sr_catalog::Catalog;
use sr_publish::sees;
use std::alloc::Global;
use test_rows::named;

/// Whether a catalog accepts the statements of a text, which it follows.
pub(crate) fn do_all(
    alloc: Global,
    catalog: &mut Catalog,
    statements: &str,
) -> Result<bool, NoMemory> {
    let script = script_of(alloc, statements)?;
    let done = follow(alloc, catalog, script.as_slice());
    drop(script);
    done
}

/// Whether the user sees of the row what is behind `sees`.
pub(crate) fn is_seen(alloc: Global, catalog: &Catalog, told: &str) -> Result<bool, NoMemory> {
    let (told, want) = told.split_once(" sees ").unwrap_or((told, ""));
    let (user, told) = told.split_once(" ").unwrap_or((told, ""));
    let (table, row) = told.split_once(" ").unwrap_or((told, ""));
    let user = named(alloc, user)?;
    let table = named(alloc, table)?;
    is_seen_so(alloc, catalog, &user, &table, row, want)
}

fn is_seen_so(
    alloc: Global,
    catalog: &Catalog,
    user: &Name,
    table: &Name,
    row: &str,
    want: &str,
) -> Result<bool, NoMemory> {
    let Some(row) = row_of(alloc, row)? else {
        return Ok(false);
    };
    is_row(alloc, &sees(alloc, catalog, user, table, &row)?, want)
}

/// Whether a row has these bytes, or there is none and no bytes.
fn is_row(alloc: Global, found: &Option<Row>, want: &str) -> Result<bool, NoMemory> {
    let wanted = row_of(alloc, want)?;
    Ok(match (found, &wanted) {
        (None, None) => true,
        (Some(found), Some(wanted)) => *found == *wanted,
        _ => false,
    })
}
