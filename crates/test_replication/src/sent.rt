//! Ops, written as what stands behind INSERT INTO: a table, columns and values. What is written otherwise counts as want of memory.

use crate::databases::script_of;
use sr_ast::{Dml, Expr, Insert, Stmt};
use sr_base::{Copied, Name, NoMemory, Seq, Text, Value};
use sr_logform::Op;
use std::alloc::{AllocError, Global};
use test_rows::named;

/// `insert COLUMNS`, `remove KEY`, `set KEY to COLUMNS` with their old values and then their new ones, `clear TABLE`, `exec TEXT`.
pub(crate) fn op_of(alloc: Global, written: &str) -> Result<Op, NoMemory> {
    let (kind, given) = written.split_once(" ").unwrap_or((written, ""));
    match kind {
        "clear" => clear(alloc, given),
        "exec" => exec(alloc, given),
        _ => of_inserts(alloc, kind, given),
    }
}

fn clear(alloc: Global, table: &str) -> Result<Op, NoMemory> {
    let table = named(alloc, table)?;
    Ok(Op::Clear { table })
}

fn exec(alloc: Global, text: &str) -> Result<Op, NoMemory> {
    let text = Text::from_str(alloc, text)?;
    Ok(Op::Exec { text })
}

/// The other kinds: one INSERT, or one of the key and one of the columns.
fn of_inserts(alloc: Global, kind: &str, given: &str) -> Result<Op, NoMemory> {
    let text = match given.split_once(" to ") {
        Some((key, columns)) => format!(in alloc; "INSERT INTO {key}; INSERT INTO {columns}"),
        None => format!(in alloc; "INSERT INTO {given}"),
    };
    let script = script_of(alloc, text?.as_str())?;
    match script.as_slice() {
        [Stmt::Dml(Dml::Insert(given))] => insert_or_remove(alloc, kind, given),
        [Stmt::Dml(Dml::Insert(key)), Stmt::Dml(Dml::Insert(columns))] => set(alloc, key, columns),
        _ => Err(AllocError),
    }
}

fn insert_or_remove(alloc: Global, kind: &str, given: &Insert) -> Result<Op, NoMemory> {
    let columns = values(alloc, given)?;
    let table = given.table.copy(alloc)?;
    if kind == "insert" {
        Ok(Op::Insert {
            table,
            values: columns,
        })
    } else {
        Ok(Op::Remove {
            table,
            key: columns,
        })
    }
}

fn set(alloc: Global, key: &Insert, columns: &Insert) -> Result<Op, NoMemory> {
    let table = key.table.copy(alloc)?;
    let key = values(alloc, key)?;
    let columns = both(alloc, columns)?;
    Ok(Op::Set {
        table,
        key,
        columns,
    })
}

/// The columns with the values of the first row.
fn values(alloc: Global, insert: &Insert) -> Result<Seq<(Name, Value)>, NoMemory> {
    let mut values = Vec::new(alloc);
    let first = row(insert, 0)?;
    for (place, name) in insert.columns.as_slice().iter().enumerate() {
        let name = name.copy(alloc)?;
        values.push((name, literal_at(alloc, first, place)?))?;
    }
    Ok(Seq::from_vec(values))
}

/// The columns with the values of the first row and of the second.
fn both(alloc: Global, insert: &Insert) -> Result<Seq<(Name, Value, Value)>, NoMemory> {
    let mut values = Vec::new(alloc);
    let first = row(insert, 0)?;
    let second = row(insert, 1)?;
    for (place, name) in insert.columns.as_slice().iter().enumerate() {
        let old = literal_at(alloc, first, place)?;
        let new = literal_at(alloc, second, place)?;
        values.push((name.copy(alloc)?, old, new))?;
    }
    Ok(Seq::from_vec(values))
}

fn row(insert: &Insert, place: usize) -> Result<&[Expr], NoMemory> {
    match insert.rows.as_slice().get(place) {
        Some(row) => Ok(row.as_slice()),
        None => Err(AllocError),
    }
}

fn literal_at(alloc: Global, row: &[Expr], place: usize) -> Result<Value, NoMemory> {
    match row.get(place) {
        Some(Expr::Literal(value)) => value.copy(alloc),
        _ => Err(AllocError),
    }
}
