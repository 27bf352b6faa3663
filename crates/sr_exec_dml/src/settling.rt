ghost use Rattle.std.specs.Prelude.{◌≡◌, ◌++◌, ◌∷◌, [], Err, None, Some, IfOk, OnOk, List, Result};
ghost use Rattle.std.specs.Option.{option_copied};
ghost use Rattle.sr_logform.specs.declared.change.Change.{Change as AChange};
ghost use Rattle.sr_exec_dml.specs.Inner.Conditions.{Answers};
ghost use Rattle.sr_exec_dml.specs.Inner.Edits.{Notes, settled, with_edit};
ghost use Rattle.sr_exec_dml.specs.Holding.{with_change};
ghost use Rattle.sr_logform.specs.Outcomes.{is_same_row};
ghost use Rattle.sr_exec_where.specs.Keys.{key_of};
ghost use Rattle.sr_exec_dml.specs.declared.edit.Edit.TheVariants.{New};
ghost use Rattle.sr_rows.specs.Marks.{rows_of_table};

use crate::edit::{Edit, Edits};
use crate::lists::emptied;
use sr_base::{Copied, Key, Name, NoMemory, Row, Seq};
use sr_catalog_schema::{DmlFault, Table};
use sr_exec_where::{key_of, push};
use sr_logform::Change;
use sr_rows::Rows;
use std::alloc::Global;

/// The changes that edits come to, ascending, or the least key that two rows would hold. Each edit takes logarithmic time.
pub(crate) fn settle(
    alloc: Global,
    table: &Name,
    rows: &Rows,
    edits: Edits,
) -> Result<Seq<Change>, DmlFault>
    ensures answer { Answers result (settled table.now (rows_of_table rows.now.rows table.now) edits.entries) }
{
    let mut left = edits;
    let mut changes = Vec::with_capacity(alloc, left.len())?;
    'edits: while let Some((key, edit)) = left.pop_first() {
        settle_one(alloc, table, rows, key, edit, &mut changes)?;
    }
    Ok(Seq::from_vec(changes))
}

/// Adds what one edit comes to, by the row that stands at its key.
fn settle_one(
    alloc: Global,
    table: &Name,
    rows: &Rows,
    key: Key,
    edit: Edit,
    changes: &mut Vec<Change>,
) -> Result<(), DmlFault>
    ensures noted { Notes result changes.old.items (with_edit table.now key (rows_of_table rows.now.rows table.now key) edit) changes.new.items }
{
    let held = rows.get(table, &key);
    match edit {
        Edit::Gone => note(alloc, changes, table, held, None)?,
        Edit::Moved(row) => note(alloc, changes, table, held, Some(row))?,
        Edit::New(row) => {
            if held.is_some() {
                return Err(DmlFault::Duplicate { key });
            }
            note(alloc, changes, table, None, Some(row))?
        }
        Edit::Twice => return Err(DmlFault::Duplicate { key }),
    }
    Ok(())
}

/// The change where one row is put, which takes logarithmic time; a key that is held is named.
pub(crate) fn put_row(
    alloc: Global,
    table: &Table,
    rows: &Rows,
    row: Row,
    spare: Vec<Change>,
) -> Result<Seq<Change>, DmlFault>
    ensures answer { Answers result (settled table.now.name (rows_of_table rows.now.rows table.now.name) ((key_of table.now.key row, New row) ∷ [])) }
{
    let key = key_of(alloc, table.key.as_slice(), row.values())?;
    if rows.get(&table.name, &key).is_some() {
        return Err(DmlFault::Duplicate { key });
    }
    drop(key);
    Ok(only_change(alloc, &table.name, row, spare)?)
}

/// The change where a row is put, alone.
fn only_change(
    alloc: Global,
    table: &Name,
    row: Row,
    spare: Vec<Change>,
) -> Result<Seq<Change>, NoMemory>
    ensures put { IfOk result (λ changes. changes ≡ record { table = table.now; before = None; after = Some row } ∷ []) }
{
    let change = Change {
        table: table.copy(alloc)?,
        before: None,
        after: Some(row),
    };
    let mut changes = emptied(spare);
    push(&mut changes, change)?;
    Ok(Seq::from_vec(changes))
}

/// Adds a change where the rows before and after differ.
#[inline(always)]
pub(crate) fn note(
    alloc: Global,
    changes: &mut Vec<Change>,
    table: &Name,
    before: Option<&Row>,
    after: Option<Row>,
) -> Result<(), NoMemory>
    ensures noted { OnOk result ((later : List AChange) → changes.old.items ++ with_change table.now (option_copied before.entry) after later ≡ changes.new.items ++ later) }
{
    if is_same_row(before, &after) {
        return Ok(());
    }
    let change = Change {
        table: table.copy(alloc)?,
        before: copied_row(alloc, before)?,
        after,
    };
    push(changes, change)
}

/// Adds the change where a row comes in the place of another one, if they differ.
#[inline(always)]
pub(crate) fn note_updated(
    alloc: Global,
    changes: &mut Vec<Change>,
    table: &Name,
    old: Row,
    new: Row,
) -> Result<(), NoMemory>
    ensures noted { OnOk result ((later : List AChange) → changes.old.items ++ with_change table.now (Some old) (Some new) later ≡ changes.new.items ++ later) }
{
    if old == new {
        return Ok(());
    }
    let change = Change {
        table: table.copy(alloc)?,
        before: Some(old),
        after: Some(new),
    };
    push(changes, change)
}

fn copied_row(alloc: Global, row: Option<&Row>) -> Result<Option<Row>, NoMemory>
    ensures equal { IfOk result (λ copy. copy ≡ option_copied row.entry) }
{
    match row {
        Some(row) => Ok(Some(row.copy(alloc)?)),
        None => Ok(None),
    }
}

fn is_same_row(before: Option<&Row>, after: &Option<Row>) -> bool
    ensures { result ≡ is_same_row (option_copied before.entry) after.now }
{
    match before {
        None => after.is_none(),
        Some(before) => match after {
            None => false,
            Some(after) => *before == *after,
        },
    }
}
