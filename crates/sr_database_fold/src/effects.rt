//! The state behind an entry that is known to fit, for one that this database commits itself. Nothing is checked again.
//!
//! What memory can lack for comes first and by steps that lead back, so that want of it leaves catalog and rows as they were.

ghost use Rattle.std.specs.Prelude.{◌≡◌, List, None, OnOk, OnErr};
ghost use Rattle.sr_ast.specs.NormalForms.{IsNormal};
ghost use Rattle.sr_base.specs.declared.offset.Offset.{Offset as Place};
ghost use Rattle.sr_book.specs.Entries.{Name as AName};
ghost use Rattle.sr_catalog_change.specs.Changes.{refusal};
ghost use Rattle.sr_exec_dml.specs.Fitting.{RowsFit};
ghost use Rattle.sr_database_history.specs.Folds.{next};
ghost use Rattle.sr_database_history.specs.Recorded.{Recorded};
ghost use Rattle.sr_logform.specs.declared.entry.Entry.{Entry as Body};
ghost use Rattle.sr_rows.specs.Inner.Steps.{at_mark};
ghost use Rattle.sr_database_fold.specs.Inner.Parts.{after_run};
ghost use Rattle.sr_database_fold.specs.Inner.Reached.{EntryFits, EntryReaches, OpsFit, PassFits};
ghost use Rattle.sr_database_fold.specs.Inner.Readings.{state_in, FitsAs};

use crate::statements::{carried_statement, ddl_statement, do_statement, drop_rows};
use crate::steps::do_ops;
use sr_ast::Stmt;
use sr_base::{NoMemory, Text};
use sr_catalog::Catalog;
use sr_exec::apply;
use sr_logform::{Change, Entry, Op, Outcome};
use sr_rows::Rows;
use std::alloc::Global;

/// Makes of a catalog and rows, whose mark stands at the rows, what they are behind an entry that fits them. The mark goes along. Want of memory leaves
/// both as they were.
///
/// A change takes logarithmic time, a text the time of reading it. A catalog is copied only for a transaction of several ops of which one is a statement.
#[tactic(auto, unfolding(crate::specs::Inner::Reached::EntryFits, crate::specs::Inner::Reached::EntryReaches))]
pub fn takes_effect(
    alloc: Global,
    catalog: &mut Catalog,
    rows: &mut Rows,
    entry: &Entry,
) -> Result<(), NoMemory>
    requires rows { RowsFit catalog.old rows.old.rows }
    requires fresh { rows.old ≡ at_mark rows.old.rows }
    // The entry is that of a recorded one which fits; this is the only one that it is of.
    requires fits { (r : Recorded) × FitsAs (state_in catalog.old rows.old) entry.now r }
    ensures effect { OnOk result ((r : Recorded) → FitsAs (state_in catalog.old rows.old) entry.now r
        → state_in catalog.new rows.new ≡ next (state_in catalog.old rows.old) r) }
    ensures fresh { rows.new ≡ at_mark rows.new.rows }
    ensures catalog { OnErr result (catalog.new ≡ catalog.old) }
    ensures rows { OnErr result (rows.new ≡ rows.old) }
{
    take_entry(alloc, catalog, rows, entry)
}

/// An entry, by its kind.
#[tactic(auto, using(crate::proofs::Behind::taken_fits, crate::proofs::Behind::pass_fits, crate::proofs::Behind::sync_reached, crate::proofs::Behind::note_reached))]
fn take_entry(
    alloc: Global,
    catalog: &mut Catalog,
    rows: &mut Rows,
    entry: &Entry,
) -> Result<(), NoMemory>
    requires rows { RowsFit catalog.old rows.old.rows }
    requires fresh { rows.old ≡ at_mark rows.old.rows }
    requires fits { EntryFits (state_in catalog.old rows.old) entry.now }
    ensures effect { OnOk result (EntryReaches (state_in catalog.old rows.old) entry.now (state_in catalog.new rows.new)) }
    ensures fresh { rows.new ≡ at_mark rows.new.rows }
    ensures catalog { OnErr result (catalog.new ≡ catalog.old) }
    ensures rows { OnErr result (rows.new ≡ rows.old) }
{
    match entry {
        Entry::Own(changes) => take_own(alloc, catalog, rows, changes.as_slice()),
        Entry::From { ops, .. } => take_ops(alloc, catalog, rows, ops.as_slice()),
        Entry::Ddl(text) => take_ddl(alloc, catalog, rows, text),
        Entry::Sync { .. } => Ok(()),
        Entry::Pass {
            only,
            text,
            changes,
            ..
        } => take_pass(alloc, catalog, rows, *only, text, changes.as_slice()),
        Entry::Note { .. } => Ok(()),
    }
}

/// An Own: its changes.
#[tactic(auto, using(crate::proofs::Marking::marked_here))]
fn take_own(
    alloc: Global,
    catalog: &Catalog,
    rows: &mut Rows,
    changes: &[Change],
) -> Result<(), NoMemory>
    requires fresh { rows.old ≡ at_mark rows.old.rows }
    ensures effect { OnOk result (EntryReaches (state_in catalog.now rows.old) (Body.Own changes.now) (state_in catalog.now rows.new)) }
    ensures fresh { rows.new ≡ at_mark rows.new.rows }
    ensures err { OnErr result (rows.new ≡ rows.old) }
{
    apply(alloc, catalog, rows, changes)?;
    rows.mark();
    Ok(())
}

/// A Ddl: its statement.
#[tactic(auto, using(crate::proofs::Behind::ddl_never))]
fn take_ddl(
    alloc: Global,
    catalog: &mut Catalog,
    rows: &mut Rows,
    text: &Text,
) -> Result<(), NoMemory>
    requires fresh { rows.old ≡ at_mark rows.old.rows }
    requires fits { EntryFits (state_in catalog.old rows.old) (Body.Ddl text.now) }
    ensures effect { OnOk result (EntryReaches (state_in catalog.old rows.old) (Body.Ddl text.now) (state_in catalog.new rows.new)) }
    ensures fresh { rows.new ≡ at_mark rows.new.rows }
    ensures catalog { OnErr result (catalog.new ≡ catalog.old) }
    ensures rows { OnErr result (rows.new ≡ rows.old) }
{
    let Some(stmt) = ddl_statement(alloc, text)? else {
        return Ok(());
    };
    let done = do_statement(alloc, catalog, rows, &stmt);
    drop(stmt);
    done
}

/// A Pass: what is passed on, where it runs here too.
#[tactic(auto, using(crate::proofs::Behind::pass_never, crate::proofs::Behind::only_passed))]
fn take_pass(
    alloc: Global,
    catalog: &mut Catalog,
    rows: &mut Rows,
    only: bool,
    text: &Text,
    changes: &[Change],
) -> Result<(), NoMemory>
    requires fresh { rows.old ≡ at_mark rows.old.rows }
    requires fits { PassFits (state_in catalog.old rows.old) only text.now changes.now }
    ensures effect { (users : List AName) → OnOk result (EntryReaches (state_in catalog.old rows.old) (Body.Pass users only text.now changes.now)
        (state_in catalog.new rows.new)) }
    ensures fresh { rows.new ≡ at_mark rows.new.rows }
    ensures catalog { OnErr result (catalog.new ≡ catalog.old) }
    ensures rows { OnErr result (rows.new ≡ rows.old) }
{
    if only {
        return Ok(());
    }
    let Some(stmt) = carried_statement(alloc, text)? else {
        return Ok(());
    };
    let done = take_run(alloc, catalog, rows, &stmt, changes);
    drop(stmt);
    done
}

/// Changes, and then a statement.
#[tactic(auto, using(crate::proofs::Marking::undone, crate::proofs::Marking::marked_here, crate::proofs::Marking::at_mark_of))]
fn take_run(
    alloc: Global,
    catalog: &mut Catalog,
    rows: &mut Rows,
    stmt: &Stmt,
    changes: &[Change],
) -> Result<(), NoMemory>
    requires fresh { rows.old ≡ at_mark rows.old.rows }
    requires normal { IsNormal stmt.now }
    requires accepted { refusal catalog.old stmt.now ≡ None }
    ensures ok { OnOk result (state_in catalog.new rows.new ≡ after_run (state_in catalog.old rows.old) changes.now stmt.now) }
    ensures fresh { rows.new ≡ at_mark rows.new.rows }
    ensures catalog { OnErr result (catalog.new ≡ catalog.old) }
    ensures rows { OnErr result (rows.new ≡ rows.old) }
{
    apply(alloc, catalog, rows, changes)?;
    match catalog.apply(alloc, stmt) {
        Ok(()) => {
            rows.mark();
            drop_rows(rows, stmt);
            Ok(())
        }
        Err(refused) => {
            rows.undo();
            Err(refused)
        }
    }
}

/// A From: its ops, one after the other.
#[tactic(auto, using(crate::proofs::Marking::undone, crate::proofs::Marking::marked_here, crate::proofs::Behind::taken_reached))]
fn take_ops(
    alloc: Global,
    catalog: &mut Catalog,
    rows: &mut Rows,
    ops: &[(Op, Outcome)],
) -> Result<(), NoMemory>
    requires rows { RowsFit catalog.old rows.old.rows }
    requires fresh { rows.old ≡ at_mark rows.old.rows }
    requires fits { OpsFit (state_in catalog.old rows.old) ops.now }
    ensures effect { (user : AName) (at : Place) → OnOk result (EntryReaches (state_in catalog.old rows.old) (Body.From user at ops.now)
        (state_in catalog.new rows.new)) }
    ensures fresh { rows.new ≡ at_mark rows.new.rows }
    ensures catalog { OnErr result (catalog.new ≡ catalog.old) }
    ensures rows { OnErr result (rows.new ≡ rows.old) }
{
    match do_ops(alloc, catalog, rows, ops) {
        Ok(()) => {
            rows.mark();
            Ok(())
        }
        Err(refused) => {
            rows.undo();
            Err(refused)
        }
    }
}
