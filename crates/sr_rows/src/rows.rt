ghost use Rattle.std.specs.Prelude.{◌≡◌, ◌∷◌, [], length, is_some, IfOk, OnOk, OnErr, MatchOption};
ghost use Rattle.std.specs.Option.{option_copied};
ghost use Rattle.std.specs.FinMap as map;
ghost use Rattle.sr_rows.specs.Inner.Filling.{FillsRows};
ghost use Rattle.sr_rows.specs.Inner.Gathered.{gathered, filled};
ghost use Rattle.sr_rows.specs.Marks.{rows_of_table};
ghost use Rattle.sr_rows.specs.Inner.Marks.{IsNext, IsLast};
ghost use Rattle.sr_rows.specs.Steps.{without_table};
ghost use Rattle.sr_rows.specs.Inner.Steps.{at_mark, back, GoesOn};
ghost use Rattle.sr_rows.specs.Walks.{table_rows};
ghost use Rattle.sr_rows.specs.Inner.Walks.{past};

use crate::tables::{
    Tables, empty_at, fill_at, insert_at, place_at, remove_at, replace_at, take_at,
};
use crate::undo::{Undo, note_change, shared, take_back};
use crate::walk::{Left, Walk};
use sr_base::{Copied, Key, Name, NoMemory, Row};
use std::alloc::Global;
use std::collections::BTreeMap;
use std::marker::Model;

/// Rows by table and key, with a mark. Contracts see finite maps: the rows, the rows at the mark, and those before each step that
/// was made since.
///
/// The rows of a table stand in a list while each new key comes past all others, and in a tree from then on. A call at one key takes
/// constant time past all keys of a list, and else logarithmic time; the call that makes the tree takes the time of all rows of the
/// table, once. `mark`, `undo` and `back_to` take logarithmic time for each change since the mark, and not for each row; but a place
/// that goes from a list takes a step for each place behind it.
#[derive(Drop)]
pub struct Rows {
    pub(crate) tables: Tables,
    pub(crate) changes: Vec<Undo>,
}

impl Model for Rows {
    ghost use Rattle.sr_rows.specs.Marks.{Marked};
    ghost use Rattle.sr_rows.specs.Inner.Marks.{coded_marked};

    ghost Value = { Marked };

    ghost coded = { coded_marked };

    ghost use Rattle.sr_rows.specs.Inner.Gathered.{gathered};
    ghost use Rattle.sr_rows.specs.Inner.Undoing.{seen, Undoable};

    ghost view = { λ r. seen r.changes.items (gathered r.tables.entries) };

    ghost invariant = { λ r. Undoable r.changes.items (gathered r.tables.entries) };
}

impl Rows {
    /// No rows, also at the mark. It takes no memory.
    pub fn new(alloc: Global) -> Rows
        ensures rows { result.rows ≡ map.empty }
        ensures marked { result.marked ≡ map.empty }
        ensures trail { result.trail ≡ [] }
    {
        Rows {
            tables: BTreeMap::new(alloc),
            changes: Vec::new(alloc),
        }
    }

    /// The row under a key of a table.
    pub fn get(&self, table: &Name, key: &Key) -> Option<&Row>
        ensures row { option_copied result ≡ map.get self.now.rows (table.now, key.now) }
    {
        let place = place_at(&self.tables, table, key)?;
        place.as_ref()
    }

    /// Of the rows of a table whose keys come after a key, the one with the least key, with that key. All keys come after `None`.
    /// So going on from `None`, each time after the key before, lists the rows of the table in the order of their keys.
    ///
    /// It takes logarithmic time, and a step for each place on the way that was emptied since the mark.
    pub fn next(&self, table: &Name, after: Option<&Key>) -> Option<(&Key, &Row)>
        ensures next { MatchOption result (IsLast (rows_of_table self.now.rows table.now) (option_copied after.entry))
            (λ x. IsNext (rows_of_table self.now.rows table.now) (option_copied after.entry) x.0.now x.1.now) }
        ensures walk { MatchOption result (past (option_copied after.entry) (table_rows self.now.rows table.now) ≡ [])
            (λ x. past (option_copied after.entry) (table_rows self.now.rows table.now) ≡ (x.0.now, x.1.now) ∷ past (Some x.0.now) (table_rows self.now.rows table.now)) }
    {
        let held = self.tables.get(table)?;
        held.next(after)
    }

    /// A walk along all rows of a table, in the order of their keys.
    pub fn walk(&self, table: &Name) -> Walk<'_>
        ensures rows { result ≡ table_rows self.now.rows table.now }
    {
        match self.tables.get(table) {
            None => Walk::new(Left::Nothing),
            Some(held) => Walk::new(held.all()),
        }
    }

    /// Puts a row under a key of a table, and answers the row before.
    pub fn put(
        &mut self,
        alloc: Global,
        table: &Name,
        key: Key,
        row: Row,
    ) -> Result<Option<Row>, NoMemory>
        ensures before { IfOk result (λ before. before ≡ map.get self.old.rows (table.now, key)) }
        ensures rows { OnOk result (self.new.rows ≡ map.insert self.old.rows (table.now, key) row) }
        ensures marked { self.new.marked ≡ self.old.marked }
        ensures on { GoesOn self.old self.new }
        ensures err { OnErr result (self.new ≡ self.old) }
    {
        let before = copied_row(alloc, self.get(table, &key))?;
        self.set(alloc, table, key, row)?;
        Ok(before)
    }

    /// Takes the row under a key of a table away, and answers it. Its place stays until the next `mark`.
    pub fn take(&mut self, alloc: Global, table: &Name, key: &Key) -> Result<Option<Row>, NoMemory>
        ensures before { IfOk result (λ before. before ≡ map.get self.old.rows (table.now, key.now)) }
        ensures rows { OnOk result (self.new.rows ≡ map.remove self.old.rows (table.now, key.now)) }
        ensures marked { self.new.marked ≡ self.old.marked }
        ensures on { GoesOn self.old self.new }
        ensures err { OnErr result (self.new ≡ self.old) }
    {
        let before = copied_row(alloc, self.get(table, key))?;
        self.unset(alloc, table, key.copy(alloc)?)?;
        Ok(before)
    }

    /// Puts a row under a key of a table. The row before is kept for the way back, and not copied. A new key between others makes a
    /// tree of a list.
    pub fn set(&mut self, alloc: Global, table: &Name, key: Key, row: Row) -> Result<(), NoMemory>
        ensures rows { OnOk result (self.new.rows ≡ map.insert self.old.rows (table.now, key) row) }
        ensures on { GoesOn self.old self.new }
        ensures err { OnErr result (self.new ≡ self.old) }
    {
        let at = key.copy(alloc)?;
        let name = shared(alloc, self.changes.as_slice(), table)?;
        let place = insert_at(alloc, &mut self.tables, table, key, Some(row))?;
        let change = Undo {
            table: name,
            key: at,
            place,
            emptied: false,
        };
        note_change(&mut self.tables, &mut self.changes, change)?;
        Ok(())
    }

    /// Puts a row under a key of a table, as `set` does. Where a row stands there, its place is found at once and the key is not copied.
    /// In a list, rows that are replaced in the order of their keys are found in constant time.
    #[inline(always)]
    pub fn replace(
        &mut self,
        alloc: Global,
        table: &Name,
        key: Key,
        row: Row,
    ) -> Result<(), NoMemory>
        ensures rows { OnOk result (self.new.rows ≡ map.insert self.old.rows (table.now, key) row) }
        ensures on { GoesOn self.old self.new }
        ensures err { OnErr result (self.new ≡ self.old) }
    {
        let name = shared(alloc, self.changes.as_slice(), table)?;
        let place = match replace_at(&mut self.tables, table, &key, row) {
            Ok(place) => place,
            Err(row) => {
                drop(name);
                return self.set(alloc, table, key, row);
            }
        };
        let change = Undo {
            table: name,
            key,
            place: Some(place),
            emptied: false,
        };
        note_change(&mut self.tables, &mut self.changes, change)?;
        Ok(())
    }

    /// Takes the row under a key of a table away. The row is kept for the way back, and its place until the next `mark`. A list becomes a tree
    /// first, where there is memory for it.
    pub fn unset(&mut self, alloc: Global, table: &Name, key: Key) -> Result<(), NoMemory>
        ensures rows { OnOk result (self.new.rows ≡ map.remove self.old.rows (table.now, key)) }
        ensures on { GoesOn self.old self.new }
        ensures err { OnErr result (self.new ≡ self.old) }
    {
        if !is_place(&self.tables, table, &key) {
            return Ok(());
        }
        let name = shared(alloc, self.changes.as_slice(), table)?;
        let place = empty_at(alloc, &mut self.tables, table, &key);
        let change = Undo {
            table: name,
            key,
            place: Some(place),
            emptied: true,
        };
        note_change(&mut self.tables, &mut self.changes, change)?;
        Ok(())
    }

    /// Puts a row under a key of a table, at the mark too. No step has been made since the mark, and none is made: this is how rows
    /// are read in that nothing will take back.
    pub fn put_at_mark(
        &mut self,
        alloc: Global,
        table: &Name,
        key: Key,
        row: Row,
    ) -> Result<(), NoMemory>
        requires fresh { self.old.trail ≡ [] }
        ensures ok { OnOk result (self.new ≡ at_mark (map.insert self.old.rows (table.now, key) row)) }
        ensures err { OnErr result (self.new ≡ self.old) }
    {
        insert_at(alloc, &mut self.tables, table, key, Some(row))?;
        Ok(())
    }

    /// Puts a row under a key of a table where none stands, at the mark too, and answers whether none did; else nothing changes. No step
    /// has been made since the mark, and none is made. The table is looked up once.
    pub fn put_new_at_mark(
        &mut self,
        alloc: Global,
        table: &Name,
        key: Key,
        row: Row,
    ) -> Result<bool, NoMemory>
        requires fresh { self.old.trail ≡ [] }
        ensures told { IfOk result (λ free. FillsRows self.old (table.now, key) row self.new free) }
        ensures err { OnErr result (self.new ≡ self.old) }
    {
        fill_at(alloc, &mut self.tables, table, key, row)
    }

    /// Takes the row under a key of a table away, at the mark too, where no step has been made since the mark. A list of which it is
    /// not the last row becomes a tree first. Where there is no memory for the tree, the list closes up behind the row.
    pub fn take_at_mark(&mut self, alloc: Global, table: &Name, key: &Key)
        requires fresh { self.old.trail ≡ [] }
        ensures taken { self.new ≡ at_mark (map.remove self.old.rows (table.now, key.now)) }
    {
        if is_place(&self.tables, table, key) {
            take_at(alloc, &mut self.tables, table, key);
        }
    }

    /// Takes all rows of a table away, at the mark too, where no step has been made since the mark. It takes no memory.
    pub fn clear(&mut self, table: &Name)
        requires fresh { self.old.trail ≡ [] }
        ensures cleared { self.new ≡ at_mark (without_table self.old.rows table.now) }
    {
        self.tables.remove(table);
    }

    /// Sets the mark here: `undo` goes back to these rows.
    pub fn mark(&mut self)
        ensures rows { self.new.rows ≡ self.old.rows }
        ensures marked { self.new.marked ≡ self.old.rows }
        ensures trail { self.new.trail ≡ [] }
    {
        while let Some(change) = self.changes.pop() {
            if change.emptied {
                sweep(&mut self.tables, change);
            }
        }
    }

    /// Goes back to the rows of the mark. It takes no memory.
    pub fn undo(&mut self)
        ensures rows { self.new.rows ≡ self.old.marked }
        ensures marked { self.new.marked ≡ self.old.marked }
        ensures trail { self.new.trail ≡ [] }
    {
        while let Some(change) = self.changes.pop() {
            take_back(&mut self.tables, change);
        }
    }

    /// How many steps lead from the mark to these rows: one for each call that put a row or took one away.
    pub fn steps(&self) -> usize
        ensures steps { result ≡ length self.now.trail }
    {
        self.changes.as_slice().len()
    }

    /// Goes back to the rows as they were when so many steps had been made. It takes no memory.
    pub fn back_to(&mut self, steps: usize)
        ensures back { self.new ≡ back steps self.old }
    {
        'changes: while self.changes.as_slice().len() > steps {
            let Some(change) = self.changes.pop() else {
                return;
            };
            take_back(&mut self.tables, change);
        }
    }
}

fn copied_row(alloc: Global, row: Option<&Row>) -> Result<Option<Row>, NoMemory>
    ensures equal { IfOk result (λ copy. copy ≡ option_copied row.entry) }
{
    match row {
        Some(row) => Ok(Some(row.copy(alloc)?)),
        None => Ok(None),
    }
}

fn is_place(tables: &Tables, table: &Name, key: &Key) -> bool
    ensures there { result ≡ is_some (map.get (gathered tables.now.entries) (table.now, key.now)) }
{
    place_at(tables, table, key).is_some()
}

/// Removes the place of a change if it is empty.
fn sweep(tables: &mut Tables, change: Undo)
    ensures same { filled (gathered tables.new.entries) ≡ filled (gathered tables.old.entries) }
{
    let table = change.table.as_ref();
    if let Some(None) = place_at(tables, table, &change.key) {
        remove_at(tables, table, &change.key);
    }
}
