//! What an entry does to the value, before any device is called.

ghost use Rattle.std.specs.Prelude.{OnOk, OnErr};
ghost use Rattle.std.specs.FinMap as map;
ghost use Rattle.sr_exec_dml.specs.Fitting.{RowsFit};
ghost use Rattle.sr_database.specs.Inner.Commits.{FollowsAsSome};
ghost use Rattle.sr_database.specs.Databases.{ArePending};
ghost use Rattle.sr_database.specs.Inner.Taking.{at_last_commit, IsNoOwn, StaysAll, StaysState, Takes, TakesBooks, TakesState};

use sr_base::{Name, NoMemory};
use sr_book::Book;
use sr_catalog::Catalog;
use sr_database_fold::takes_effect;
use sr_database_replay::Books;
use sr_logform::{Change, Entry};
use sr_rows::Rows;
use std::alloc::Global;

/// Makes of catalog, rows and books what they are behind an entry that may follow. Want of memory leaves all as it was.
///
/// The changes of an Own stand in the rows already: there the mark goes along.
pub(crate) fn settle(
    alloc: Global,
    catalog: &mut Catalog,
    rows: &mut Rows,
    books: &mut Books,
    pending: &[Change],
    entry: &Entry,
) -> Result<(), NoMemory>
    requires fit { RowsFit catalog.old rows.old.marked }
    requires pending { ArePending catalog.old rows.old pending.now }
    requires entry { FollowsAsSome (at_last_commit catalog.old rows.old) pending.now entry.now }
    ensures takes { OnOk result (Takes catalog.old catalog.new rows.old rows.new books.old books.new pending.now entry.now) }
    ensures stays { OnErr result (StaysAll catalog.old catalog.new rows.old rows.new books.old books.new) }
{
    match entry {
        Entry::Own(_) => {
            rows.mark();
            Ok(())
        }
        Entry::From { user, at, .. } => {
            let book = books.get(user).took(*at);
            take_with_book(alloc, catalog, rows, books, pending, entry, user, book)
        }
        Entry::Note { user, note } => {
            let book = books.get(user).after(note);
            take_with_book(alloc, catalog, rows, books, pending, entry, user, book)
        }
        Entry::Ddl(_) => take_alone(alloc, catalog, rows, books, pending, entry),
        Entry::Sync { .. } => take_alone(alloc, catalog, rows, books, pending, entry),
        Entry::Pass { .. } => take_alone(alloc, catalog, rows, books, pending, entry),
    }
}

/// The state behind an entry of another kind than Own, with a partner's book behind it.
fn take_with_book(
    alloc: Global,
    catalog: &mut Catalog,
    rows: &mut Rows,
    books: &mut Books,
    pending: &[Change],
    entry: &Entry,
    user: &Name,
    book: Book,
) -> Result<(), NoMemory>
    requires fit { RowsFit catalog.old rows.old.marked }
    requires pending { ArePending catalog.old rows.old pending.now }
    requires entry { FollowsAsSome (at_last_commit catalog.old rows.old) pending.now entry.now }
    requires other { IsNoOwn entry.now }
    requires books { TakesBooks books.old (map.insert books.old user.now book) entry.now }
    ensures takes { OnOk result (Takes catalog.old catalog.new rows.old rows.new books.old books.new pending.now entry.now) }
    ensures stays { OnErr result (StaysAll catalog.old catalog.new rows.old rows.new books.old books.new) }
{
    let before = books.held(user);
    books.put(alloc, user, book)?;
    match take_other(alloc, catalog, rows, pending, entry) {
        Ok(()) => Ok(()),
        Err(refused) => {
            books.set_back(user, before);
            Err(refused)
        }
    }
}

/// The state behind an entry of another kind than Own, which is in no book.
fn take_alone(
    alloc: Global,
    catalog: &mut Catalog,
    rows: &mut Rows,
    _books: &Books,
    pending: &[Change],
    entry: &Entry,
) -> Result<(), NoMemory>
    requires fit { RowsFit catalog.old rows.old.marked }
    requires pending { ArePending catalog.old rows.old pending.now }
    requires entry { FollowsAsSome (at_last_commit catalog.old rows.old) pending.now entry.now }
    requires other { IsNoOwn entry.now }
    requires books { TakesBooks _books.now _books.now entry.now }
    ensures takes { OnOk result (Takes catalog.old catalog.new rows.old rows.new _books.now _books.now pending.now entry.now) }
    ensures stays { OnErr result (StaysAll catalog.old catalog.new rows.old rows.new _books.now _books.now) }
{
    take_other(alloc, catalog, rows, pending, entry)?;
    Ok(())
}

/// The state behind an entry of another kind than Own.
fn take_other(
    alloc: Global,
    catalog: &mut Catalog,
    rows: &mut Rows,
    _pending: &[Change],
    entry: &Entry,
) -> Result<(), NoMemory>
    requires fit { RowsFit catalog.old rows.old.marked }
    requires pending { ArePending catalog.old rows.old _pending.now }
    requires entry { FollowsAsSome (at_last_commit catalog.old rows.old) _pending.now entry.now }
    requires other { IsNoOwn entry.now }
    ensures takes { OnOk result (TakesState catalog.old catalog.new rows.old rows.new _pending.now entry.now) }
    ensures stays { OnErr result (StaysState catalog.old catalog.new rows.old rows.new) }
{
    takes_effect(alloc, catalog, rows, entry)?;
    Ok(())
}
