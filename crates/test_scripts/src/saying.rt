//! What statements are answered, in words: the faults with their values, the changes with their rows.

use sr_base::{Name, NoMemory, Row, Value};
use sr_base_dates::write_literal;
use sr_catalog::{DdlFault, DmlFault};
use sr_exec_dml::Changes;
use std::alloc::{AllocError, Global};
use test_rows::{say, say_bytes, say_number};

/// Appends a word and a name.
pub fn say_name(out: &mut Vec<u8>, word: &str, name: &Name) -> Result<(), NoMemory> {
    say_bytes(out, word, name.bytes())
}

fn say_names(out: &mut Vec<u8>, word: &str, first: &Name, second: &Name) -> Result<(), NoMemory> {
    say_name(out, word, first)?;
    say_name(out, " ", second)
}

/// Appends values as literals, with this text between them.
pub fn say_values(
    alloc: Global,
    out: &mut Vec<u8>,
    values: &[Value],
    between: &str,
) -> Result<(), NoMemory> {
    let mut before = "";
    for value in values {
        say(out, before)?;
        write_literal(alloc, value, out)?;
        before = between;
    }
    Ok(())
}

/// Appends values in parentheses.
fn say_list(
    alloc: Global,
    out: &mut Vec<u8>,
    word: &str,
    values: &[Value],
) -> Result<(), NoMemory> {
    say(out, word)?;
    say(out, "(")?;
    say_values(alloc, out, values, ", ")?;
    say(out, ")")
}

fn say_row(
    alloc: Global,
    out: &mut Vec<u8>,
    sign: &str,
    row: &Option<Row>,
) -> Result<(), NoMemory> {
    match row {
        Some(row) => say_list(alloc, out, sign, row.values()),
        None => Ok(()),
    }
}

/// Appends the number of rows, and of each change the row before behind `-` and the row after behind `+`.
pub fn say_changes(alloc: Global, out: &mut Vec<u8>, changes: &Changes) -> Result<(), NoMemory> {
    say_number(out, "", changes.count)?;
    say(out, " rows")?;
    for change in changes.list.as_slice() {
        say_row(alloc, out, " -", &change.before)?;
        say_row(alloc, out, " +", &change.after)?;
    }
    Ok(())
}

/// Appends the number of rows that a SELECT answers, and each of them.
pub fn say_found(alloc: Global, out: &mut Vec<u8>, rows: &[Row]) -> Result<(), NoMemory> {
    say_number(out, "", rows.len() as u64)?;
    say(out, " rows")?;
    for row in rows {
        say_list(alloc, out, " ", row.values())?;
    }
    Ok(())
}

/// Appends why a statement that changes the catalog is refused.
pub fn say_ddl_fault(out: &mut Vec<u8>, fault: &DdlFault) -> Result<(), NoMemory> {
    say(out, "refused: ")?;
    match fault {
        DdlFault::Exists { name } => say_name(out, "Exists ", name),
        DdlFault::Missing { name } => say_name(out, "Missing ", name),
        DdlFault::BadType { name } => say_name(out, "BadType ", name),
        DdlFault::NoKey { table } => say_name(out, "NoKey ", table),
        DdlFault::KeyNotInArticle { table, column } => {
            say_names(out, "KeyNotInArticle ", table, column)
        }
        DdlFault::TwiceSubscribed { user, table } => {
            say_names(out, "TwiceSubscribed ", user, table)
        }
        DdlFault::InUse { name } => say_name(out, "InUse ", name),
        DdlFault::TooMany { limit } => say_number(out, "TooMany ", *limit),
        DdlFault::Memory => Err(AllocError),
    }
}

/// Appends why a statement on rows is refused.
pub fn say_dml_fault(alloc: Global, out: &mut Vec<u8>, fault: &DmlFault) -> Result<(), NoMemory> {
    say(out, "refused: ")?;
    match fault {
        DmlFault::NoTable { name } => say_name(out, "NoTable ", name),
        DmlFault::NoColumn { name } => say_name(out, "NoColumn ", name),
        DmlFault::BadValue { name } => say_name(out, "BadValue ", name),
        DmlFault::Null { name } => say_name(out, "Null ", name),
        DmlFault::Duplicate { key } => say_list(alloc, out, "Duplicate ", key.values()),
        DmlFault::Overflow => say(out, "Overflow"),
        DmlFault::Memory => Err(AllocError),
    }
}
