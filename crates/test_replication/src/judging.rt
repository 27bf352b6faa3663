//! Ops that are judged on the database of a script.

ghost use Rattle.std.specs.List.{AllByRecursion};
ghost use Rattle.sr_ast.specs.NormalForms.{IsNormal};
ghost use Rattle.sr_exec_dml.specs.Fitting.{RowsFit};

use crate::databases::{follow, new_catalog, no_rows, run_all, script_of};
use crate::outcomes::say_outcomes;
use crate::sent::op_of;
use sr_ast::Stmt;
use sr_base::NoMemory;
use sr_catalog::Catalog;
use sr_rows::Rows;
use std::alloc::Global;
use test_rows::say;

/// Says what an op comes to, on the database of a script and with the triggers behind `under`.
pub(crate) fn say_judged(
    alloc: Global,
    setting: &str,
    given: &str,
    out: &mut Vec<u8>,
) -> Result<(), NoMemory> {
    let (written, triggers) = given.split_once(" under ").unwrap_or((given, ""));
    let text = format!(in alloc; "{setting}; {triggers}")?;
    let script = script_of(alloc, text.as_str())?;
    let said = say_on_script(alloc, script.as_slice(), written, out);
    drop(script);
    said
}

fn say_on_script(
    alloc: Global,
    script: &[Stmt],
    written: &str,
    out: &mut Vec<u8>,
) -> Result<(), NoMemory>
    requires normal { AllByRecursion IsNormal script.now }
{
    let mut catalog = new_catalog(alloc, "cons")?;
    let said = match follow(alloc, &mut catalog, script) {
        Ok(true) => say_on_catalog(alloc, &catalog, script, written, out),
        Ok(false) => say(out, "the script is refused"),
        Err(refused) => Err(refused),
    };
    drop(catalog);
    said
}

fn say_on_catalog(
    alloc: Global,
    catalog: &Catalog,
    script: &[Stmt],
    written: &str,
    out: &mut Vec<u8>,
) -> Result<(), NoMemory> {
    let mut rows = no_rows(alloc, catalog);
    let said = match run_all(alloc, catalog, &mut rows, script) {
        Ok(()) => say_on_rows(alloc, catalog, &rows, written, out),
        Err(refused) => Err(refused),
    };
    drop(rows);
    said
}

fn say_on_rows(
    alloc: Global,
    catalog: &Catalog,
    rows: &Rows,
    written: &str,
    out: &mut Vec<u8>,
) -> Result<(), NoMemory>
    requires rows { RowsFit catalog.now rows.now.rows }
{
    let op = op_of(alloc, written)?;
    let said = say_outcomes(alloc, catalog, rows, &op, out);
    drop(op);
    said
}
