ghost use Rattle.std.specs.Prelude.{◌≡◌, [], ◌∷◌, ◌++◌, true, List, IfOk, OnOk, OnErr, option_map};
ghost use Rattle.std.specs.List.{AllByRecursion};
ghost use Rattle.sr_database_files.specs.Books.{book_in};
ghost use Rattle.sr_exec_dml.specs.Applying.{applied};
ghost use Rattle.sr_exec_dml.specs.FittingChanges.{ChangesFit};
ghost use Rattle.sr_database_history.specs.Inner.Laws.{Holds};
ghost use Rattle.sr_logform.specs.Outcomes.{IsShortChange};
ghost use Rattle.sr_rows.specs.Inner.Steps.{at_mark};
ghost use Rattle.sr_catalog_schema.specs.Members.{user_name};
ghost use Rattle.sr_catalog_schema.specs.Names.{named};
ghost use Rattle.sr_database.specs.Advances.{Advances};
ghost use Rattle.sr_database.specs.Inner.Sound.{IsSound};
ghost use Rattle.sr_database.specs.Inner.Views.{present};

use sr_base::{Copied, Name, NoMemory, Offset};
use sr_book::Book;
use sr_catalog::Catalog;
use sr_database_replay::Books;
use sr_exec::apply;
use sr_exec_dml::Changes;
use sr_logfile::LogFile;
use sr_logform::Change;
use sr_rows::Rows;
use std::alloc::Global;
use std::marker::Model;
use std::mem;

/// A database that was opened: the catalog, the rows and the books that its history comes to, the changes that are pending, and its log.
///
/// Its five files are to stand, at each call, as the calls of this value left them. After `commit` or `restart_log` answered `Disk` the value is not used
/// again: the database is opened anew. No list of entries is kept: they are read again from the log.
#[derive(Drop)]
pub struct Database {
    pub(crate) catalog: Catalog,
    pub(crate) base_catalog: Catalog,
    pub(crate) rows: Rows,
    pub(crate) pending: Vec<Change>,
    pub(crate) books: Books,
    pub(crate) log: LogFile,
}

impl Model for Database {
    ghost use Rattle.std.specs.Prelude.{IsTrue};
    ghost use Rattle.std.specs.Coded.{codes};
    ghost use Rattle.sr_ast.specs.Inner.Terms.{term_code};
    ghost use Rattle.sr_ast.specs.Inner.Chains.{chain_code};
    ghost use Rattle.sr_rows.specs.Inner.Marks.{coded_marked};
    ghost use Rattle.sr_database_replay.specs.Inner.Books.{coded_books};
    ghost use Rattle.sr_database.specs.Views.{View};

    ghost Value = { View };

    ghost coded = { Prim.hlevel (codes, term_code, chain_code, coded_marked, coded_books) };

    ghost use Rattle.sr_database.specs.Inner.Sound.{IsSound};

    ghost view = { λ d. record { catalog = d.catalog; base_catalog = d.base_catalog; rows = d.rows; pending = d.pending.items; books = d.books; log = d.log } };

    ghost invariant = { λ d. IsTrue d.log.usable → IsSound (record { catalog = d.catalog; base_catalog = d.base_catalog; rows = d.rows; pending = d.pending.items; books = d.books; log = d.log }) };
}

impl Database {
    /// Whether the value can be used: not after `commit` or `restart_log` answered `Disk`. One that can be used is sound.
    pub fn usable(&self) -> bool
        ensures usable { result ≡ self.now.log.usable }
        ensures sound { self.now.log.usable ≡ true → IsSound self.now }
    {
        self.log.usable()
    }

    /// The catalog.
    pub fn catalog(&self) -> &Catalog
        requires usable { self.now.log.usable ≡ true }
        ensures catalog { result.now ≡ self.now.catalog }
        ensures holds { Holds (present self.now) }
    {
        &self.catalog
    }

    /// The catalog as it was at the base of the log.
    pub fn base_catalog(&self) -> &Catalog
        requires usable { self.now.log.usable ≡ true }
        ensures catalog { result.now ≡ self.now.base_catalog }
    {
        &self.base_catalog
    }

    /// The rows, with the pending changes in them.
    pub fn rows(&self) -> &Rows
        requires usable { self.now.log.usable ≡ true }
        ensures rows { result.now ≡ self.now.rows }
        ensures holds { Holds (present self.now) }
    {
        &self.rows
    }

    /// The book of a user. `None` comes exactly where there is no user of this name. It takes logarithmic time.
    pub fn book(&self, user: &Name) -> Option<Book>
        requires usable { self.now.log.usable ≡ true }
        ensures book { result ≡ option_map (λ _. book_in self.now.books user.now) (named user_name user.now self.now.catalog.users) }
    {
        match self.catalog.user(user) {
            Some(_) => Some(self.books.get(user)),
            None => None,
        }
    }

    /// The base of the log: the offset, in bytes, behind which its entries stand.
    pub fn base(&self) -> Offset
        requires usable { self.now.log.usable ≡ true }
        ensures base { result.0 ≡ self.now.log.base }
    {
        self.log.base()
    }

    /// The end of the history: the offset, in bytes, of its last entry.
    pub fn end(&self) -> Offset
        requires usable { self.now.log.usable ≡ true }
        ensures end { result.0 ≡ self.now.log.end }
    {
        self.log.end()
    }

    /// The changes that are pending, in order.
    pub fn pending(&self) -> &[Change]
        requires usable { self.now.log.usable ≡ true }
        ensures pending { result.now ≡ self.now.pending }
        ensures short { AllByRecursion IsShortChange self.now.pending }
    {
        self.pending.as_slice()
    }

    /// Puts changes into the rows, as pending ones behind those that are pending.
    ///
    /// They keep the rules of changes, and each fits the rows that those before it leave. For want of memory all is as it was. It takes
    /// logarithmic time for each change.
    pub fn apply(&mut self, alloc: Global, changes: &Changes) -> Result<(), NoMemory>
        requires usable { self.old.log.usable ≡ true }
        requires short { AllByRecursion IsShortChange changes.now.list }
        requires fit { ChangesFit self.old.catalog self.old.rows.rows changes.now.list }
        ensures rows { OnOk result (self.new.rows.rows ≡ applied self.old.catalog changes.now.list self.old.rows.rows) }
        ensures pending { OnOk result (self.new.pending ≡ self.old.pending ++ changes.now.list) }
        ensures value { Advances self.old self.new [] }
        ensures database { OnOk result ((self.new.catalog ≡ self.old.catalog) × (self.new.log ≡ self.old.log)) }
        ensures err { OnErr result (self.new ≡ self.old) }
    {
        let copies = changes.copy(alloc)?;
        self.take_in(alloc, copies)
    }

    /// Puts changes into the rows as `apply` does, and does not copy them.
    pub fn take_in(&mut self, alloc: Global, changes: Changes) -> Result<(), NoMemory>
        requires usable { self.old.log.usable ≡ true }
        requires short { AllByRecursion IsShortChange changes.list }
        requires fit { ChangesFit self.old.catalog self.old.rows.rows changes.list }
        ensures rows { OnOk result (self.new.rows.rows ≡ applied self.old.catalog changes.list self.old.rows.rows) }
        ensures pending { OnOk result (self.new.pending ≡ self.old.pending ++ changes.list) }
        ensures value { Advances self.old self.new [] }
        ensures database { OnOk result ((self.new.catalog ≡ self.old.catalog) × (self.new.log ≡ self.old.log)) }
        ensures err { OnErr result (self.new ≡ self.old) }
    {
        if changes.list.as_slice().is_empty() {
            return Ok(());
        }
        put_in(
            alloc,
            &self.catalog,
            &mut self.rows,
            &mut self.pending,
            changes.list.into_vec(),
        )?;
        Ok(())
    }

    /// A list that is not needed any more, for the changes of a statement: that of the pending changes, where none is pending.
    pub fn spare(&mut self, alloc: Global) -> Vec<Change>
        ensures same { self.new ≡ self.old }
    {
        if self.pending.is_empty() {
            return mem::replace(&mut self.pending, Vec::new(alloc));
        }
        Vec::new(alloc)
    }

    /// Takes the pending changes back. It takes no memory.
    pub fn rollback(&mut self)
        ensures back { self.new ≡ record self.old { rows = at_mark self.old.rows.marked; pending = [] } }
        ensures value { Advances self.old self.new [] }
    {
        self.pending.clear();
        self.rows.undo();
    }
}

/// Puts changes into rows and behind those that are pending. For want of memory both are as they were.
fn put_in(
    alloc: Global,
    catalog: &Catalog,
    rows: &mut Rows,
    pending: &mut Vec<Change>,
    changes: Vec<Change>,
) -> Result<(), NoMemory>
    ensures rows { OnOk result (rows.new.rows ≡ applied catalog.now changes.items rows.old.rows) }
    ensures marked { OnOk result (rows.new.marked ≡ rows.old.marked) }
    ensures pending { OnOk result (pending.new.items ≡ pending.old.items ++ changes.items) }
    ensures rows_stay { OnErr result (rows.new ≡ rows.old) }
    ensures pending_stays { OnErr result (pending.new.items ≡ pending.old.items) }
{
    let before = pending.len();
    add_behind(pending, changes)?;
    let (_, added) = pending.as_slice().split_at(before);
    match apply(alloc, catalog, rows, added) {
        Ok(()) => Ok(()),
        Err(refused) => {
            pending.truncate(before);
            Err(refused)
        }
    }
}

/// Adds changes behind others. Behind none they stay in their own memory. For want of memory the list is as it was.
fn add_behind(list: &mut Vec<Change>, changes: Vec<Change>) -> Result<(), NoMemory>
    ensures ok { OnOk result (list.new.items ≡ list.old.items ++ changes.items) }
    ensures err { OnErr result (list.new.items ≡ list.old.items) }
{
    if list.is_empty() {
        drop(mem::replace(list, changes));
        return Ok(());
    }
    let mut changes = changes;
    let added = list.append(&mut changes);
    drop(changes);
    added
}
