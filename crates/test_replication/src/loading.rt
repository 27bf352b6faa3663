//! A table of many rows.

ghost use Rattle.std.specs.Prelude.{OnOk};
ghost use Rattle.sr_exec_dml.specs.Fitting.{RowsFit};

use crate::databases::{run_all, script_of};
use sr_base::NoMemory;
use sr_catalog::Catalog;
use sr_rows::Rows;
use std::alloc::Global;

/// The table: two INTEGERs, of which the first is the key.
pub(crate) const TABLE: &str = "CREATE TABLE t (id INTEGER PRIMARY KEY, n INTEGER)";

/// Puts so many rows into the table, one a statement: those with the keys from 0 on, each with 0.
pub(crate) fn load(
    alloc: Global,
    catalog: &Catalog,
    rows: &mut Rows,
    count: u32,
) -> Result<(), NoMemory>
    requires rows { RowsFit catalog.now rows.old.rows }
    ensures rows { OnOk result (RowsFit catalog.now rows.new.rows) }
{
    let mut key = 0u32;
    'rows: while key < count {
        put_row(alloc, catalog, rows, key)?;
        key += 1;
    }
    Ok(())
}

fn put_row(alloc: Global, catalog: &Catalog, rows: &mut Rows, key: u32) -> Result<(), NoMemory>
    requires rows { RowsFit catalog.now rows.old.rows }
    ensures rows { OnOk result (RowsFit catalog.now rows.new.rows) }
{
    let text = format!(in alloc; "INSERT INTO t VALUES ({key}, 0)")?;
    let script = script_of(alloc, text.as_str())?;
    let done = run_all(alloc, catalog, rows, script.as_slice());
    drop(script);
    done
}
