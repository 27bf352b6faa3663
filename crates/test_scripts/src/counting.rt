//! How many rows the statements of a script insert, update, delete and answer.

ghost use Rattle.std.specs.Prelude.{OnOk};
ghost use Rattle.std.specs.List.{AllByRecursion};
ghost use Rattle.sr_ast.specs.NormalForms.{IsNormal};
ghost use Rattle.sr_exec_dml.specs.Fitting.{RowsFit};

use crate::database::{accept, change, go_back, keep, new_catalog, no_rows};
use sr_ast::{Dml, Select, Stmt};
use sr_catalog::{Catalog, DmlFault};
use sr_exec::exec_reusing;
use sr_logform::Change;
use sr_query::select;
use sr_rows::Rows;
use std::alloc::{AllocError, Global};
use std::mem;

/// Why a script did not run to its end.
#[derive(Clone, Copy)]
pub enum Stopped {
    /// A statement was refused.
    Refused,
    Memory,
}

impl From<AllocError> for Stopped {
    fn from(_refused: AllocError) -> Stopped {
        Stopped::Memory
    }
}

/// The count of a whole script, of statements in normal form, on a new database.
pub fn changed_rows(alloc: Global, script: &[Stmt]) -> Result<u64, Stopped>
    requires normal { AllByRecursion IsNormal script.now }
{
    match new_catalog(alloc) {
        Ok(mut catalog) => {
            let count = counted(alloc, &mut catalog, script);
            drop(catalog);
            count
        }
        Err(_) => Err(Stopped::Memory),
    }
}

/// The count of a script, where there are no rows at first.
fn counted(alloc: Global, catalog: &mut Catalog, script: &[Stmt]) -> Result<u64, Stopped>
    requires normal { AllByRecursion IsNormal script.now }
{
    let mut rows = no_rows(alloc, catalog);
    let count = count_each(alloc, catalog, &mut rows, script);
    drop(rows);
    count
}

fn count_each(
    alloc: Global,
    catalog: &mut Catalog,
    rows: &mut Rows,
    script: &[Stmt],
) -> Result<u64, Stopped>
    requires normal { AllByRecursion IsNormal script.now }
    requires rows { RowsFit catalog.old rows.old.rows }
    requires marked { RowsFit catalog.old rows.old.marked }
{
    let mut count = 0u64;
    let mut spare = Vec::new(alloc);
    let mut left = script;
    'statements: while let Some((statement, rest)) = left.split_first() {
        count = count.saturating_add(count_one(alloc, catalog, rows, statement, &mut spare)?);
        left = rest;
    }
    Ok(count)
}

/// Runs a statement: how many rows it changes or answers. The changes of one after the other stand in the same memory.
fn count_one(
    alloc: Global,
    catalog: &mut Catalog,
    rows: &mut Rows,
    statement: &Stmt,
    spare: &mut Vec<Change>,
) -> Result<u64, Stopped>
    requires normal { IsNormal statement.now }
    requires rows { RowsFit catalog.old rows.old.rows }
    requires marked { RowsFit catalog.old rows.old.marked }
    ensures rows { OnOk result (RowsFit catalog.new rows.new.rows) }
    ensures marked { OnOk result (RowsFit catalog.new rows.new.marked) }
{
    match statement {
        Stmt::Dml(statement) => count_changed(alloc, catalog, rows, statement, spare),
        Stmt::Select(statement) => count_selected(alloc, catalog, rows, statement),
        Stmt::Commit => {
            keep(catalog, rows);
            Ok(0)
        }
        Stmt::Rollback => {
            go_back(catalog, rows);
            Ok(0)
        }
        _ => count_accepted(alloc, catalog, rows, statement),
    }
}

/// Runs an INSERT, UPDATE or DELETE.
fn count_changed(
    alloc: Global,
    catalog: &Catalog,
    rows: &mut Rows,
    statement: &Dml,
    spare: &mut Vec<Change>,
) -> Result<u64, Stopped>
    requires rows { RowsFit catalog.now rows.old.rows }
    requires marked { RowsFit catalog.now rows.old.marked }
    ensures rows { OnOk result (RowsFit catalog.now rows.new.rows) }
    ensures marked { OnOk result (RowsFit catalog.now rows.new.marked) }
{
    let list = mem::replace(spare, Vec::new(alloc));
    match exec_reusing(alloc, catalog, rows, statement, list) {
        Ok(changes) => {
            let count = changes.count;
            let done = change(alloc, catalog, rows, statement, &changes);
            drop(mem::replace(spare, changes.list.into_vec()));
            spare.clear();
            done?;
            Ok(count)
        }
        Err(fault) => Err(stop_of(fault)),
    }
}

/// Runs a SELECT.
fn count_selected(
    alloc: Global,
    catalog: &Catalog,
    rows: &Rows,
    statement: &Select,
) -> Result<u64, Stopped>
    requires rows { RowsFit catalog.now rows.now.rows }
{
    match select(alloc, catalog, rows, statement) {
        Ok(found) => {
            let count = found.len() as u64;
            drop(found);
            Ok(count)
        }
        Err(fault) => Err(stop_of(fault)),
    }
}

/// Runs a statement on the catalog.
fn count_accepted(
    alloc: Global,
    catalog: &mut Catalog,
    rows: &mut Rows,
    statement: &Stmt,
) -> Result<u64, Stopped>
    requires normal { IsNormal statement.now }
    requires rows { RowsFit catalog.old rows.old.rows }
    ensures rows { OnOk result (RowsFit catalog.new rows.new.rows) }
    ensures marked { OnOk result (RowsFit catalog.new rows.new.marked) }
{
    match catalog.refusal(alloc, statement)? {
        None => {
            accept(alloc, catalog, rows, statement)?;
            Ok(0)
        }
        Some(fault) => {
            drop(fault);
            Err(Stopped::Refused)
        }
    }
}

fn stop_of(fault: DmlFault) -> Stopped {
    match fault {
        DmlFault::Memory => Stopped::Memory,
        _ => Stopped::Refused,
    }
}
