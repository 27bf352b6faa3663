//! What each statement of some scripts is answered. The scripts stand in sections, with a line `----` between them, and each begins
//! with a new database. A statement that is refused changes nothing, and the section goes on.

ghost use Rattle.std.specs.Prelude.{◌≡◌, Ok, OnOk};
ghost use Rattle.std.specs.List.{AllByRecursion};
ghost use Rattle.sr_ast.specs.NormalForms.{IsNormal};
ghost use Rattle.sr_exec_dml.specs.Fitting.{RowsFit};
ghost use Rattle.sr_exec_dml.specs.Statements.{done};

use crate::database::{accept, change, go_back, keep, new_catalog, no_rows};
use crate::rows::say_rows;
use crate::saying::{say_changes, say_ddl_fault, say_dml_fault, say_found};
use sr_ast::{Dml, Select, Stmt};
use sr_ast_print::print;
use sr_base::{NoMemory, Text};
use sr_catalog::Catalog;
use sr_exec::exec;
use sr_exec_dml::Changes;
use sr_parse::{ParseFault, parse, what_prints_is_read_so};
use sr_query::select;
use sr_rows::Rows;
use std::alloc::{AllocError, Global};
use test_rows::{say, say_number};

/// What stands between two sections.
const BETWEEN: &str = "\n----\n";

/// Appends the answers to all sections of a text, with the same lines between them.
pub fn answers(alloc: Global, out: &mut Vec<u8>, text: &str) -> Result<(), NoMemory> {
    let text = text.strip_suffix("\n").unwrap_or(text);
    let mut is_first = true;
    for section in text.split(BETWEEN) {
        if !is_first {
            say(out, "----\n")?;
        }
        say_section(alloc, out, section)?;
        is_first = false;
    }
    Ok(())
}

/// Appends the answers to a section.
fn say_section(alloc: Global, out: &mut Vec<u8>, section: &str) -> Result<(), NoMemory> {
    let script = Text::from_str(alloc, section)?;
    let said = say_script(alloc, out, &script);
    drop(script);
    said
}

/// Appends the answers to a script: a line for each statement, as it prints; or the script and the byte at which it is refused.
fn say_script(alloc: Global, out: &mut Vec<u8>, script: &Text) -> Result<(), NoMemory> {
    what_prints_is_read_so();
    match parse(alloc, script) {
        Ok(statements) => {
            let said = say_answers(alloc, out, statements.as_slice());
            drop(statements);
            said
        }
        Err(ParseFault::Refused { at }) => say_refused(out, script, at as u64),
        Err(ParseFault::Memory) => Err(AllocError),
    }
}

fn say_refused(out: &mut Vec<u8>, script: &Text, at: u64) -> Result<(), NoMemory> {
    say(out, script.as_str())?;
    say_number(out, " => script refused at byte ", at)?;
    say(out, "\n")
}

/// Appends the answers to statements on a new database, and what they leave.
fn say_answers(alloc: Global, out: &mut Vec<u8>, script: &[Stmt]) -> Result<(), NoMemory>
    requires normal { AllByRecursion IsNormal script.now }
{
    let mut catalog = new_catalog(alloc)?;
    let said = say_on(alloc, out, &mut catalog, script);
    drop(catalog);
    said
}

/// The same, where there are no rows at first.
fn say_on(
    alloc: Global,
    out: &mut Vec<u8>,
    catalog: &mut Catalog,
    script: &[Stmt],
) -> Result<(), NoMemory>
    requires normal { AllByRecursion IsNormal script.now }
{
    let mut rows = no_rows(alloc, catalog);
    let said = say_all(alloc, out, catalog, &mut rows, script);
    drop(rows);
    said
}

fn say_all(
    alloc: Global,
    out: &mut Vec<u8>,
    catalog: &mut Catalog,
    rows: &mut Rows,
    script: &[Stmt],
) -> Result<(), NoMemory>
    requires normal { AllByRecursion IsNormal script.now }
    requires rows { RowsFit catalog.old rows.old.rows }
    requires marked { RowsFit catalog.old rows.old.marked }
{
    say_each(alloc, out, catalog, rows, script)?;
    say_texts(alloc, out, catalog)?;
    for table in catalog.tables() {
        say_rows(alloc, out, rows, &table.name)?;
    }
    Ok(())
}

fn say_each(
    alloc: Global,
    out: &mut Vec<u8>,
    catalog: &mut Catalog,
    rows: &mut Rows,
    script: &[Stmt],
) -> Result<(), NoMemory>
    requires normal { AllByRecursion IsNormal script.now }
    requires rows { RowsFit catalog.old rows.old.rows }
    requires marked { RowsFit catalog.old rows.old.marked }
{
    let mut left = script;
    'statements: while let Some((statement, rest)) = left.split_first() {
        say_statement(alloc, out, statement)?;
        say_answer(alloc, out, catalog, rows, statement)?;
        say(out, "\n")?;
        left = rest;
    }
    Ok(())
}

fn say_statement(alloc: Global, out: &mut Vec<u8>, statement: &Stmt) -> Result<(), NoMemory> {
    let text = print(alloc, statement)?;
    let said = say(out, text.as_str());
    drop(text);
    said?;
    say(out, " => ")
}

/// Runs a statement, and appends its answer.
fn say_answer(
    alloc: Global,
    out: &mut Vec<u8>,
    catalog: &mut Catalog,
    rows: &mut Rows,
    statement: &Stmt,
) -> Result<(), NoMemory>
    requires normal { IsNormal statement.now }
    requires rows { RowsFit catalog.old rows.old.rows }
    requires marked { RowsFit catalog.old rows.old.marked }
    ensures rows { OnOk result (RowsFit catalog.new rows.new.rows) }
    ensures marked { OnOk result (RowsFit catalog.new rows.new.marked) }
{
    match statement {
        Stmt::Dml(statement) => say_changed(alloc, out, catalog, rows, statement),
        Stmt::Select(statement) => say_selected(alloc, out, catalog, rows, statement),
        Stmt::Commit => {
            keep(catalog, rows);
            say(out, "ok")
        }
        Stmt::Rollback => {
            go_back(catalog, rows);
            say(out, "rolled back")
        }
        _ => say_accepted(alloc, out, catalog, rows, statement),
    }
}

/// Runs an INSERT, UPDATE or DELETE.
fn say_changed(
    alloc: Global,
    out: &mut Vec<u8>,
    catalog: &Catalog,
    rows: &mut Rows,
    statement: &Dml,
) -> Result<(), NoMemory>
    requires rows { RowsFit catalog.now rows.old.rows }
    requires marked { RowsFit catalog.now rows.old.marked }
    ensures rows { OnOk result (RowsFit catalog.now rows.new.rows) }
    ensures marked { OnOk result (RowsFit catalog.now rows.new.marked) }
{
    match exec(alloc, catalog, rows, statement) {
        Ok(changes) => {
            let said = say_done(alloc, out, catalog, rows, statement, &changes);
            drop(changes);
            said
        }
        Err(fault) => {
            let said = say_dml_fault(alloc, out, &fault);
            drop(fault);
            said
        }
    }
}

/// Does what a statement changes, and says it.
fn say_done(
    alloc: Global,
    out: &mut Vec<u8>,
    catalog: &Catalog,
    rows: &mut Rows,
    statement: &Dml,
    changes: &Changes,
) -> Result<(), NoMemory>
    requires rows { RowsFit catalog.now rows.old.rows }
    requires marked { RowsFit catalog.now rows.old.marked }
    requires answer { done catalog.now rows.old.rows statement.now ≡ Ok changes.now }
    ensures rows { OnOk result (RowsFit catalog.now rows.new.rows) }
    ensures marked { OnOk result (RowsFit catalog.now rows.new.marked) }
{
    change(alloc, catalog, rows, statement, changes)?;
    say_changes(alloc, out, changes)
}

/// Runs a SELECT.
fn say_selected(
    alloc: Global,
    out: &mut Vec<u8>,
    catalog: &Catalog,
    rows: &Rows,
    statement: &Select,
) -> Result<(), NoMemory>
    requires rows { RowsFit catalog.now rows.now.rows }
{
    match select(alloc, catalog, rows, statement) {
        Ok(found) => {
            let said = say_found(alloc, out, found.as_slice());
            drop(found);
            said
        }
        Err(fault) => {
            let said = say_dml_fault(alloc, out, &fault);
            drop(fault);
            said
        }
    }
}

/// Runs a statement on the catalog.
fn say_accepted(
    alloc: Global,
    out: &mut Vec<u8>,
    catalog: &mut Catalog,
    rows: &mut Rows,
    statement: &Stmt,
) -> Result<(), NoMemory>
    requires normal { IsNormal statement.now }
    requires rows { RowsFit catalog.old rows.old.rows }
    requires marked { RowsFit catalog.old rows.old.marked }
    ensures rows { OnOk result (RowsFit catalog.new rows.new.rows) }
    ensures marked { OnOk result (RowsFit catalog.new rows.new.marked) }
{
    match catalog.refusal(alloc, statement)? {
        None => {
            accept(alloc, catalog, rows, statement)?;
            say(out, word_of(statement))
        }
        Some(fault) => {
            let said = say_ddl_fault(out, &fault);
            drop(fault);
            said
        }
    }
}

/// The answer to a statement on the catalog that is not refused.
fn word_of(statement: &Stmt) -> &'static str {
    match statement {
        Stmt::Passthrough(_) => "passthrough on",
        Stmt::PassthroughStop => "passthrough off",
        _ => "ok",
    }
}

/// Appends the catalog's statements.
fn say_texts(alloc: Global, out: &mut Vec<u8>, catalog: &Catalog) -> Result<(), NoMemory> {
    let texts = catalog.script(alloc)?;
    let said = say_lines(out, texts.as_slice());
    drop(texts);
    said
}

fn say_lines(out: &mut Vec<u8>, texts: &[Text]) -> Result<(), NoMemory> {
    for text in texts {
        say(out, "has ")?;
        say(out, text.as_str())?;
        say(out, "\n")?;
    }
    Ok(())
}
