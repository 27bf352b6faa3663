//! Databases that scripts make: a catalog, and rows that fit it.

ghost use Rattle.std.specs.Prelude.{◌≡◌, IfOk, OnOk, is_some};
ghost use Rattle.std.specs.List.{AllByRecursion};
ghost use Rattle.sr_ast.specs.NormalForms.{IsNormal};
ghost use Rattle.sr_catalog_change.specs.Changes.{refusal};
ghost use Rattle.sr_exec_dml.specs.Fitting.{RowsFit};

use sr_ast::{Dml, Script, Stmt};
use sr_base::{NoMemory, Text};
use sr_catalog::Catalog;
use sr_exec::{apply, exec};
use sr_exec_dml::rows_stay_fitting;
use sr_parse::{parse, what_prints_is_read_so};
use sr_rows::Rows;
use std::alloc::{AllocError, Global};
use test_rows::named;

/// The statements of a script, each in normal form. A text that is none counts as want of memory.
pub(crate) fn script_of(alloc: Global, text: &str) -> Result<Script, NoMemory>
    ensures normal { IfOk result (λ script. AllByRecursion IsNormal script) }
{
    what_prints_is_read_so();
    match parse(alloc, &Text::from_str(alloc, text)?) {
        Ok(script) => Ok(script),
        Err(_) => Err(AllocError),
    }
}

/// The catalog of a new database.
pub(crate) fn new_catalog(alloc: Global, publisher: &str) -> Result<Catalog, NoMemory> {
    Ok(Catalog::new(alloc, named(alloc, publisher)?))
}

/// Does what statements do to a catalog, as long as it accepts them; whether it accepted all. Those on rows change nothing of it.
pub(crate) fn follow(
    alloc: Global,
    catalog: &mut Catalog,
    script: &[Stmt],
) -> Result<bool, NoMemory>
    requires normal { AllByRecursion IsNormal script.now }
{
    let mut left = script;
    'statements: while let Some((statement, rest)) = left.split_first() {
        if is_refused(alloc, catalog, statement)? {
            return Ok(false);
        }
        catalog.apply(alloc, statement)?;
        left = rest;
    }
    Ok(true)
}

fn is_refused(alloc: Global, catalog: &Catalog, statement: &Stmt) -> Result<bool, NoMemory>
    ensures refused { IfOk result (λ told. told ≡ is_some (refusal catalog.now statement.now)) }
{
    let fault = catalog.refusal(alloc, statement)?;
    Ok(fault.is_some())
}

/// No rows, which fit any catalog.
pub(crate) fn no_rows(alloc: Global, catalog: &Catalog) -> Rows
    ensures rows { RowsFit catalog.now result.rows }
{
    rows_stay_fitting();
    let _catalog = catalog;
    Rows::new(alloc)
}

/// Runs the statements of a script that are on rows. One that is refused counts as want of memory.
pub(crate) fn run_all(
    alloc: Global,
    catalog: &Catalog,
    rows: &mut Rows,
    script: &[Stmt],
) -> Result<(), NoMemory>
    requires rows { RowsFit catalog.now rows.old.rows }
    ensures rows { OnOk result (RowsFit catalog.now rows.new.rows) }
{
    let mut left = script;
    'statements: while let Some((statement, rest)) = left.split_first() {
        run(alloc, catalog, rows, statement)?;
        left = rest;
    }
    Ok(())
}

/// Runs a statement where it is on rows, and sets the mark.
fn run(alloc: Global, catalog: &Catalog, rows: &mut Rows, statement: &Stmt) -> Result<(), NoMemory>
    requires rows { RowsFit catalog.now rows.old.rows }
    ensures rows { OnOk result (RowsFit catalog.now rows.new.rows) }
{
    match statement {
        Stmt::Dml(statement) => {
            change(alloc, catalog, rows, statement)?;
            rows.mark();
            Ok(())
        }
        _ => Ok(()),
    }
}

fn change(
    alloc: Global,
    catalog: &Catalog,
    rows: &mut Rows,
    statement: &Dml,
) -> Result<(), NoMemory>
    requires rows { RowsFit catalog.now rows.old.rows }
    ensures rows { OnOk result (RowsFit catalog.now rows.new.rows) }
{
    rows_stay_fitting();
    match exec(alloc, catalog, rows, statement) {
        Ok(changes) => apply(alloc, catalog, rows, changes.list.as_slice()),
        Err(_) => Err(AllocError),
    }
}
