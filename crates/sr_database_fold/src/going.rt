//! Whether a log's next entry fits, by its kind, and the state behind it.

ghost use Rattle.std.specs.Prelude.{◌≡◌, IfOk};
ghost use Rattle.std.specs.List.{AllByRecursion};
ghost use Rattle.sr_ast.specs.NormalForms.{IsNormal};
ghost use Rattle.sr_base.specs.declared.offset.Offset.{Offset as Place};
ghost use Rattle.sr_exec_dml.specs.Fitting.{RowsFit};
ghost use Rattle.sr_database_history.specs.Folds.{next};
ghost use Rattle.sr_logform.specs.declared.entry.Entry.{Entry as Body};
ghost use Rattle.sr_logform.specs.Entries.{IsEntry};
ghost use Rattle.sr_rows.specs.Inner.Steps.{at_mark};
ghost use Rattle.sr_database_fold.specs.Inner.Answers.{TellsOne};
ghost use Rattle.sr_database_fold.specs.Inner.Movements.{Differs, OutcomeDiffers};
ghost use Rattle.sr_database_fold.specs.Inner.Readings.{state_in, FitsAs};
ghost use Rattle.sr_database_fold.specs.Inner.Told.{StatementTold, EntryTold};

use crate::changes::go_on_changes;
use crate::ops::{go_on_ops, go_on_passed, is_passed_on};
use crate::statements::{accepts, ddl_statement, do_statement};
use crate::users::{knows, knows_all};
use sr_ast::Stmt;
use sr_base::{Name, NoMemory, Text};
use sr_catalog::Catalog;
use sr_logform::{Change, Entry, Op, Outcome};
use sr_rows::Rows;
use std::alloc::Global;

/// Whether an entry that was read from a log fits the state that the log before it comes to, and if so the catalog and the rows behind it.
///
/// It fits where both rows of each change have one key, each row before is the one that is held, each row after fits its table, the text of
/// a Ddl is that of one statement on the catalog and the text of a Pass and of an Exec that ran that of one statement which passthrough carries, just as
/// it prints, such a statement is accepted where it runs here (by the catalog, and an INSERT, UPDATE or DELETE by the rows that it meets too), each user is
/// granted, a Pass has changes only where its statement is one on rows that ran here, and a conflict stands beside a Set alone, with rows under the key that
/// the Set names. Otherwise it does not, and then catalog and rows are good for nothing; nor are they where there was no memory.
///
/// Changes of one table that follow one another take one look-up of it, and each a key, a look-up of its row and a change of the rows, in logarithmic
/// time; a text the time of reading it, and an INSERT, UPDATE or DELETE that runs here that of executing it.
/// The mark goes along, so no way back is kept.
#[tactic(auto, unfolding(crate::specs::Inner::Told::EntryTold))]
pub fn go_on(
    alloc: Global,
    catalog: &mut Catalog,
    rows: &mut Rows,
    entry: &Entry,
) -> Result<bool, NoMemory>
    // Each row fits its table, as behind every history that may stand in a log, and the mark stands at the rows.
    requires rows { RowsFit catalog.old rows.old.rows }
    requires fresh { rows.old ≡ at_mark rows.old.rows }
    // The entry was read.
    requires spelled { IsEntry entry.now }
    // It is that of a recorded entry which fits, and the state is the one behind this; or it is that of none.
    ensures told { IfOk result (λ told. TellsOne (FitsAs (state_in catalog.old rows.old) entry.now) (next (state_in catalog.old rows.old)) (state_in catalog.new rows.new) told) }
    ensures fresh { rows.new ≡ at_mark rows.new.rows }
{
    go_on_entry(alloc, catalog, rows, entry)
}

/// An entry, by its kind.
#[tactic(auto, using(crate::proofs::Told::taken_differs, crate::proofs::Told::pass_differs, crate::proofs::Told::sync_ok, crate::proofs::Told::note_ok))]
fn go_on_entry(
    alloc: Global,
    catalog: &mut Catalog,
    rows: &mut Rows,
    entry: &Entry,
) -> Result<bool, NoMemory>
    requires rows { RowsFit catalog.old rows.old.rows }
    requires fresh { rows.old ≡ at_mark rows.old.rows }
    requires spelled { IsEntry entry.now }
    ensures told { IfOk result (λ told. EntryTold (state_in catalog.old rows.old) entry.now (state_in catalog.new rows.new) told) }
    ensures fresh { rows.new ≡ at_mark rows.new.rows }
{
    match entry {
        Entry::Own(changes) => go_on_own(alloc, catalog, rows, changes.as_slice()),
        Entry::From { user, at: _, ops } => {
            go_on_taken(alloc, catalog, rows, user, ops.as_slice())
        }
        Entry::Ddl(text) => go_on_ddl(alloc, catalog, rows, text),
        Entry::Sync { user, .. } => Ok(knows(catalog, user)),
        Entry::Pass {
            users,
            only,
            text,
            changes,
        } => go_on_pass(
            alloc,
            catalog,
            rows,
            users.as_slice(),
            *only,
            text,
            changes.as_slice(),
        ),
        Entry::Note { user, .. } => Ok(knows(catalog, user)),
    }
}

/// An Own: its changes fit.
#[tactic(auto, using(crate::proofs::Told::own_ok, crate::proofs::Told::own_differs))]
fn go_on_own(
    alloc: Global,
    catalog: &Catalog,
    rows: &mut Rows,
    changes: &[Change],
) -> Result<bool, NoMemory>
    requires rows { RowsFit catalog.now rows.old.rows }
    requires fresh { rows.old ≡ at_mark rows.old.rows }
    requires spelled { IsEntry (Body.Own changes.now) }
    ensures told { IfOk result (λ told. EntryTold (state_in catalog.now rows.old) (Body.Own changes.now) (state_in catalog.now rows.new) told) }
    ensures fresh { rows.new ≡ at_mark rows.new.rows }
{
    go_on_changes(alloc, catalog, rows, changes)
}

/// A From: its user is granted, and its ops fit one after the other.
#[tactic(auto, using(crate::proofs::Told::taken_ok, crate::proofs::Told::taken_by_unknown))]
fn go_on_taken(
    alloc: Global,
    catalog: &mut Catalog,
    rows: &mut Rows,
    user: &Name,
    ops: &[(Op, Outcome)],
) -> Result<bool, NoMemory>
    requires rows { RowsFit catalog.old rows.old.rows }
    requires fresh { rows.old ≡ at_mark rows.old.rows }
    requires differ { AllByRecursion (λ p. OutcomeDiffers p.1) ops.now }
    ensures told { (at : Place) → IfOk result (λ told. EntryTold (state_in catalog.old rows.old) (Body.From user.now at ops.now)
        (state_in catalog.new rows.new) told) }
    ensures fresh { rows.new ≡ at_mark rows.new.rows }
{
    if !knows(catalog, user) {
        return Ok(false);
    }
    go_on_ops(alloc, catalog, rows, ops)
}

/// A Ddl: its text is that of a statement on the catalog, and this is accepted.
#[tactic(auto, using(crate::proofs::Told::ddl_wrong, crate::proofs::Told::ddl_ok))]
fn go_on_ddl(
    alloc: Global,
    catalog: &mut Catalog,
    rows: &mut Rows,
    text: &Text,
) -> Result<bool, NoMemory>
    requires rows { RowsFit catalog.old rows.old.rows }
    requires fresh { rows.old ≡ at_mark rows.old.rows }
    ensures told { IfOk result (λ told. EntryTold (state_in catalog.old rows.old) (Body.Ddl text.now) (state_in catalog.new rows.new) told) }
    ensures fresh { rows.new ≡ at_mark rows.new.rows }
{
    let Some(stmt) = ddl_statement(alloc, text)? else {
        return Ok(false);
    };
    let told = go_on_statement(alloc, catalog, rows, &stmt);
    drop(stmt);
    told
}

/// A statement on the catalog: it is accepted.
#[tactic(auto, using(crate::proofs::Told::statement_done, crate::proofs::Told::statement_unfit))]
fn go_on_statement(
    alloc: Global,
    catalog: &mut Catalog,
    rows: &mut Rows,
    stmt: &Stmt,
) -> Result<bool, NoMemory>
    requires rows { RowsFit catalog.old rows.old.rows }
    requires fresh { rows.old ≡ at_mark rows.old.rows }
    requires normal { IsNormal stmt.now }
    ensures told { IfOk result (λ told. StatementTold (state_in catalog.old rows.old) stmt.now (state_in catalog.new rows.new) told) }
    ensures fresh { rows.new ≡ at_mark rows.new.rows }
{
    if !accepts(alloc, catalog, rows, stmt)? {
        return Ok(false);
    }
    do_statement(alloc, catalog, rows, stmt)?;
    Ok(true)
}

/// A Pass: its users are granted, and what is passed on fits.
#[tactic(auto, using(crate::proofs::Told::run_passed_ok, crate::proofs::Told::only_passed_ok, crate::proofs::Told::passed_to_unknown))]
fn go_on_pass(
    alloc: Global,
    catalog: &mut Catalog,
    rows: &mut Rows,
    users: &[Name],
    only: bool,
    text: &Text,
    changes: &[Change],
) -> Result<bool, NoMemory>
    requires rows { RowsFit catalog.old rows.old.rows }
    requires fresh { rows.old ≡ at_mark rows.old.rows }
    requires differ { AllByRecursion Differs changes.now }
    ensures told { IfOk result (λ told. EntryTold (state_in catalog.old rows.old) (Body.Pass users.now only text.now changes.now)
        (state_in catalog.new rows.new) told) }
    ensures fresh { rows.new ≡ at_mark rows.new.rows }
{
    if !knows_all(catalog, users) {
        return Ok(false);
    }
    if only {
        return is_passed_on(alloc, text, changes);
    }
    go_on_passed(alloc, catalog, rows, text, changes)
}
