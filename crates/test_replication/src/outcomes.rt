//! What ops come to, in letters.

ghost use Rattle.sr_exec_dml.specs.Fitting.{RowsFit};

use sr_base::{NoMemory, Row};
use sr_base_dates::write_literal;
use sr_catalog::Catalog;
use sr_logform::{Change, Clash, Op, Outcome};
use sr_resolve::judge;
use sr_rows::Rows;
use std::alloc::Global;
use test_rows::{say, say_bytes};

/// Says what an op from above comes to, and behind it what it comes to from below, where that is something else.
pub(crate) fn say_outcomes(
    alloc: Global,
    catalog: &Catalog,
    rows: &Rows,
    op: &Op,
    out: &mut Vec<u8>,
) -> Result<(), NoMemory>
    requires rows { RowsFit catalog.now rows.now.rows }
{
    say_outcome(alloc, catalog, rows, true, op, out)?;
    let mut below = Vec::new(alloc);
    let said = match say_outcome(alloc, catalog, rows, false, op, &mut below) {
        Ok(()) => say_other(out, below.as_slice()),
        Err(refused) => Err(refused),
    };
    drop(below);
    said
}

fn say_other(out: &mut Vec<u8>, below: &[u8]) -> Result<(), NoMemory> {
    if out.as_slice() == below {
        return Ok(());
    }
    say_bytes(out, "; from below ", below)
}

fn say_outcome(
    alloc: Global,
    catalog: &Catalog,
    rows: &Rows,
    above: bool,
    op: &Op,
    out: &mut Vec<u8>,
) -> Result<(), NoMemory>
    requires rows { RowsFit catalog.now rows.now.rows }
{
    let outcome = judge(alloc, catalog, rows, above, op)?;
    let said = tell(alloc, out, &outcome);
    drop(outcome);
    said
}

/// `plain`, `conflict` or `clash` with what it has: changes as `table before>after`, a clash by its name.
fn tell(alloc: Global, out: &mut Vec<u8>, outcome: &Outcome) -> Result<(), NoMemory> {
    match outcome {
        Outcome::Plain(changes) => {
            say(out, "plain")?;
            tell_changes(alloc, out, changes.as_slice())
        }
        Outcome::Conflict {
            inserts,
            before,
            after,
        } => {
            say(out, "conflict")?;
            tell_changes(alloc, out, inserts.as_slice())?;
            say(out, " ")?;
            tell_row(alloc, out, before)?;
            say(out, ">")?;
            tell_row(alloc, out, after)
        }
        Outcome::Clash(clash) => {
            say(out, "clash ")?;
            say(out, name(clash))
        }
    }
}

fn name(clash: &Clash) -> &'static str {
    match clash {
        Clash::Duplicate => "Duplicate",
        Clash::NoRow => "NoRow",
        Clash::NoTable => "NoTable",
        Clash::NoColumn => "NoColumn",
        Clash::BadValue => "BadValue",
        Clash::Null => "Null",
        Clash::Trigger => "Trigger",
        Clash::Statement => "Statement",
    }
}

fn tell_changes(alloc: Global, out: &mut Vec<u8>, changes: &[Change]) -> Result<(), NoMemory> {
    for change in changes {
        say_bytes(out, " ", change.table.bytes())?;
        say(out, " ")?;
        tell_image(alloc, out, &change.before)?;
        say(out, ">")?;
        tell_image(alloc, out, &change.after)?;
    }
    Ok(())
}

fn tell_image(alloc: Global, out: &mut Vec<u8>, row: &Option<Row>) -> Result<(), NoMemory> {
    match row {
        None => say(out, "-"),
        Some(row) => tell_row(alloc, out, row),
    }
}

fn tell_row(alloc: Global, out: &mut Vec<u8>, row: &Row) -> Result<(), NoMemory> {
    let mut is_first = true;
    for value in row.values() {
        if !is_first {
            say(out, "|")?;
        }
        write_literal(alloc, value, out)?;
        is_first = false;
    }
    Ok(())
}
