//! Whether what an entry of a database's own says is so: a Sync has the rows of the view, and a Pass the changes of its statement.

ghost use Rattle.std.specs.Prelude.{◌≡◌, ◌≢◌, ◌↔◌, ◌++◌, List, Some, IfOk, IsTrue, OnOk, filter_map};
ghost use Rattle.std.specs.List.{AllByRecursion, cons_option};
ghost use Rattle.sr_base.specs.declared.value.Value.{Value as Cell};
ghost use Rattle.sr_database_fold.specs.Inner.Readings.{state_in};
ghost use Rattle.sr_exec_dml.specs.Fitting.{RowsFit};
ghost use Rattle.sr_exec_dml.specs.Statements.{done};
ghost use Rattle.sr_publish.specs.SubscribedTables.{subscribed_table_of};
ghost use Rattle.sr_publish.specs.Views.{shown_in};
ghost use Rattle.sr_rows.specs.Walks.{table_rows};
ghost use Rattle.sr_world.specs.Lawful.{AreChangesOf, ArePassedChanges, IsViewed};
ghost use Rattle.sr_world_entries.specs.Inner.Ends.{IsLocal};
ghost use Rattle.sr_world_entries.specs.Inner.Saying.{AreMade, PassSaysSo, TellsSo};

use crate::alike::{are_same_changes, are_same_rows};
use sr_ast::{Dml, Stmt};
use sr_base::{Name, NoMemory, Row, Seq, Text};
use sr_catalog::{Catalog, DmlFault};
use sr_exec::exec;
use sr_logform::{Change, Entry};
use sr_parse::printed_statement;
use sr_publish::TableView;
use sr_rows::Rows;
use std::alloc::{AllocError, Global};

/// Whether what an entry says is so that a database may make by itself, on its catalog and rows. A Sync costs a pass over the rows of its tables, and a
/// Pass the execution of its statement.
#[tactic(auto, using(crate::proofs::Sayings::own_says, crate::proofs::Sayings::ddl_says, crate::proofs::Sayings::sync_says, crate::proofs::Sayings::pass_says))]
pub fn says_so(
    alloc: Global,
    catalog: &Catalog,
    rows: &Rows,
    entry: &Entry,
) -> Result<bool, NoMemory>
    requires rows { RowsFit catalog.now rows.now.rows }
    requires local { IsLocal entry.now }
    ensures so { IfOk result (TellsSo (state_in catalog.now rows.now) entry.now) }
{
    match entry {
        Entry::Own(_) | Entry::Ddl(_) => Ok(true),
        Entry::Sync { user, tables } => {
            let viewed = are_viewed(alloc, catalog, rows, user, tables.as_slice())?;
            Ok(viewed)
        }
        Entry::Pass {
            only,
            text,
            changes,
            ..
        } => {
            let so = pass_says_so(alloc, catalog, rows, *only, text, changes.as_slice())?;
            Ok(so)
        }
        Entry::From { .. } | Entry::Note { .. } => Ok(false),
    }
}

/// Whether each table of a Sync has the rows that the user sees of it.
fn are_viewed(
    alloc: Global,
    catalog: &Catalog,
    rows: &Rows,
    user: &Name,
    tables: &[(Name, Seq<Row>)],
) -> Result<bool, NoMemory>
    ensures viewed { IfOk result (λ viewed. IsTrue viewed ↔ AllByRecursion (IsViewed (state_in catalog.now rows.now) user.now) tables.now) }
{
    let mut left = tables;
    'tables: while let Some(((table, shown), rest)) = left.split_first() {
        if !is_viewed(alloc, catalog, rows, user, table, shown.as_slice())? {
            return Ok(false);
        }
        left = rest;
    }
    Ok(true)
}

/// Whether these are the rows that a user sees of a table.
fn is_viewed(
    alloc: Global,
    catalog: &Catalog,
    rows: &Rows,
    user: &Name,
    table: &Name,
    shown: &[Row],
) -> Result<bool, NoMemory>
    ensures viewed { IfOk result (λ viewed. IsTrue viewed ↔ (shown.now ≡ filter_map (λ e. shown_in (subscribed_table_of catalog.now user.now table.now) e.1) (table_rows rows.now.rows table.now))) }
{
    let seen = rows_seen(alloc, catalog, rows, user, table)?;
    let same = are_same_rows(shown, seen.as_slice());
    drop(seen);
    Ok(same)
}

/// What a user sees of the rows of a table.
#[tactic(auto, using(crate::proofs::Sayings::nothing_seen))]
fn rows_seen(
    alloc: Global,
    catalog: &Catalog,
    rows: &Rows,
    user: &Name,
    table: &Name,
) -> Result<Seq<Row>, NoMemory>
    ensures seen { IfOk result (λ found. found ≡ filter_map (λ e. shown_in (subscribed_table_of catalog.now user.now table.now) e.1) (table_rows rows.now.rows table.now)) }
{
    match TableView::of(alloc, catalog, user, table)? {
        None => Ok(Seq::empty(alloc)),
        Some(view) => {
            let seen = rows_shown(alloc, rows, table, &view);
            drop(view);
            seen
        }
    }
}

/// What a subscribed table shows of the rows of a table, in the order of their keys.
fn rows_shown(
    alloc: Global,
    rows: &Rows,
    table: &Name,
    view: &TableView,
) -> Result<Seq<Row>, NoMemory>
    ensures shown { IfOk result (λ found. found ≡ filter_map (λ e. shown_in (Some view.now) e.1) (table_rows rows.now.rows table.now)) }
{
    let mut shown = Vec::new(alloc);
    let mut after = None;
    'rows: while let Some((key, row)) = rows.next(table, after) {
        show(alloc, view, row, &mut shown)?;
        after = Some(key);
    }
    Ok(Seq::from_vec(shown))
}

/// Adds what a subscribed table shows of a row.
fn show(alloc: Global, view: &TableView, row: &Row, shown: &mut Vec<Row>) -> Result<(), NoMemory>
    ensures added { OnOk result ((rest : List (List Cell)) → shown.old.items ++ cons_option (shown_in (Some view.now) row.now) rest ≡ shown.new.items ++ rest) }
{
    match view.sees(alloc, row)? {
        None => Ok(()),
        Some(found) => match shown.push(found) {
            Ok(()) => Ok(()),
            Err(_) => Err(AllocError),
        },
    }
}

/// Whether the changes of a Pass are those that its statement makes here: none where it is for others only.
#[tactic(auto, using(crate::proofs::Sayings::nothing_printed, crate::proofs::Sayings::printed_says))]
fn pass_says_so(
    alloc: Global,
    catalog: &Catalog,
    rows: &Rows,
    only: bool,
    text: &Text,
    changes: &[Change],
) -> Result<bool, NoMemory>
    requires rows { RowsFit catalog.now rows.now.rows }
    ensures so { IfOk result (PassSaysSo (state_in catalog.now rows.now) only text.now changes.now) }
{
    let Some(stmt) = printed_statement(alloc, text)? else {
        return Ok(false);
    };
    let made = only_or_made(alloc, catalog, rows, only, &stmt, changes);
    drop(stmt);
    let made = made?;
    Ok(made)
}

/// Whether there are no changes, where it is for others only; else whether the statement makes these.
fn only_or_made(
    alloc: Global,
    catalog: &Catalog,
    rows: &Rows,
    only: bool,
    stmt: &Stmt,
    changes: &[Change],
) -> Result<bool, NoMemory>
    requires rows { RowsFit catalog.now rows.now.rows }
    ensures made { IfOk result (λ made. IsTrue made ↔ ArePassedChanges only (state_in catalog.now rows.now) stmt.now changes.now) }
{
    if only {
        return Ok(changes.is_empty());
    }
    let made = makes(alloc, catalog, rows, stmt, changes)?;
    Ok(made)
}

/// Whether the changes are those that a statement makes: none of one on the catalog.
fn makes(
    alloc: Global,
    catalog: &Catalog,
    rows: &Rows,
    stmt: &Stmt,
    changes: &[Change],
) -> Result<bool, NoMemory>
    requires rows { RowsFit catalog.now rows.now.rows }
    ensures made { IfOk result (λ made. IsTrue made ↔ AreChangesOf (state_in catalog.now rows.now) stmt.now changes.now) }
{
    match stmt {
        Stmt::Dml(dml) => {
            let made = executes_to(alloc, catalog, rows, dml, changes)?;
            Ok(made)
        }
        Stmt::CreateTable(_)
        | Stmt::DropTable(_)
        | Stmt::CreatePublication(_)
        | Stmt::DropPublication(_)
        | Stmt::GrantRemote(_)
        | Stmt::GrantConsolidate(_)
        | Stmt::CreateSubscription(_)
        | Stmt::StartSubscription(_)
        | Stmt::StopSubscription(_)
        | Stmt::Synchronize(_)
        | Stmt::DropSubscription(_)
        | Stmt::CreateTrigger(_)
        | Stmt::DropTrigger(_)
        | Stmt::SetOption(_)
        | Stmt::Select(_)
        | Stmt::Commit
        | Stmt::Rollback
        | Stmt::Passthrough(_)
        | Stmt::PassthroughStop => Ok(changes.is_empty()),
    }
}

/// Whether an INSERT, UPDATE or DELETE makes these changes.
#[tactic(auto, using(crate::proofs::Sayings::made_where, crate::proofs::Sayings::refused_where))]
fn executes_to(
    alloc: Global,
    catalog: &Catalog,
    rows: &Rows,
    dml: &Dml,
    changes: &[Change],
) -> Result<bool, NoMemory>
    requires rows { RowsFit catalog.now rows.now.rows }
    ensures made { IfOk result (λ made. IsTrue made ↔ AreMade (done catalog.now rows.now.rows dml.now) changes.now) }
{
    match exec(alloc, catalog, rows, dml) {
        Ok(made) => {
            let same = are_same_changes(made.list.as_slice(), changes);
            drop(made);
            Ok(same)
        }
        Err(fault) => {
            let refused = refuses(&fault);
            drop(fault);
            refused?;
            Ok(false)
        }
    }
}

/// A fault refuses, unless it is want of memory.
fn refuses(fault: &DmlFault) -> Result<(), NoMemory>
    ensures refuses { OnOk result (fault.now ≢ DmlFault.Memory) }
{
    match fault {
        DmlFault::Memory => Err(AllocError),
        DmlFault::NoTable { .. }
        | DmlFault::NoColumn { .. }
        | DmlFault::BadValue { .. }
        | DmlFault::Null { .. }
        | DmlFault::Duplicate { .. }
        | DmlFault::Overflow => Ok(()),
    }
}
