//! Updates by key, that a partner below sent, judged on a table of many rows.

ghost use Rattle.sr_exec_dml.specs.Fitting.{RowsFit};

use crate::databases::{follow, new_catalog, no_rows, script_of};
use crate::loading::{TABLE, load};
use sr_base::{Name, NoMemory, Seq, Value};
use sr_catalog::Catalog;
use sr_logform::{Op, Outcome};
use sr_resolve::judge;
use sr_rows::Rows;
use std::alloc::Global;
use test_rows::{named, say, say_number};

/// Says how many of so many updates, spread over a table of so many rows, are plain.
pub(crate) fn say_updates(
    alloc: Global,
    size: u32,
    count: u32,
    out: &mut Vec<u8>,
) -> Result<(), NoMemory> {
    let mut catalog = new_catalog(alloc, "cons")?;
    let plain = plain_on(alloc, &mut catalog, size, count);
    drop(catalog);
    say_number(out, "", count as u64)?;
    say_number(out, " updates, ", plain? as u64)?;
    say(out, " of them plain")
}

/// Makes the table.
fn plain_on(alloc: Global, catalog: &mut Catalog, size: u32, count: u32) -> Result<u32, NoMemory> {
    let script = script_of(alloc, TABLE)?;
    let done = follow(alloc, catalog, script.as_slice());
    drop(script);
    match done {
        Ok(_) => plain_in(alloc, catalog, size, count),
        Err(refused) => Err(refused),
    }
}

/// Loads it.
fn plain_in(alloc: Global, catalog: &Catalog, size: u32, count: u32) -> Result<u32, NoMemory> {
    let mut rows = no_rows(alloc, catalog);
    let plain = match load(alloc, catalog, &mut rows, size) {
        Ok(()) => judge_each(alloc, catalog, &rows, size, count),
        Err(refused) => Err(refused),
    };
    drop(rows);
    plain
}

fn judge_each(
    alloc: Global,
    catalog: &Catalog,
    rows: &Rows,
    size: u32,
    count: u32,
) -> Result<u32, NoMemory>
    requires rows { RowsFit catalog.now rows.now.rows }
{
    let mut plain = 0u32;
    for number in 0..count {
        let key = number.wrapping_mul(7_919).checked_rem(size).unwrap_or(0);
        if is_plain(alloc, catalog, rows, key)? {
            plain = plain.saturating_add(1);
        }
    }
    Ok(plain)
}

/// Whether an update of a key from 0 to 1 is plain.
fn is_plain(alloc: Global, catalog: &Catalog, rows: &Rows, key: u32) -> Result<bool, NoMemory>
    requires rows { RowsFit catalog.now rows.now.rows }
{
    let op = update_of(alloc, key)?;
    let plain = match judge(alloc, catalog, rows, false, &op) {
        Ok(Outcome::Plain(_)) => Ok(true),
        Ok(_) => Ok(false),
        Err(refused) => Err(refused),
    };
    drop(op);
    plain
}

/// Set of n from 0 to 1, under a key.
fn update_of(alloc: Global, key: u32) -> Result<Op, NoMemory> {
    let mut columns = Vec::new(alloc);
    columns.push((named(alloc, "n")?, Value::Int(0), Value::Int(1)))?;
    Ok(Op::Set {
        table: named(alloc, "t")?,
        key: key_of(alloc, key)?,
        columns: Seq::from_vec(columns),
    })
}

fn key_of(alloc: Global, key: u32) -> Result<Seq<(Name, Value)>, NoMemory> {
    let mut columns = Vec::new(alloc);
    columns.push((named(alloc, "id")?, Value::Big(key as i64)))?;
    Ok(Seq::from_vec(columns))
}
