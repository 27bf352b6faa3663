ghost use Rattle.std.specs.Prelude.{◌≡◌, ◌++◌, ◌∷◌, [], Option, Some, None, IsSome, IfOk, OnOk, OnErr};
ghost use Rattle.std.specs.FinMap as map;
ghost use Rattle.sr_rows.specs.Inner.Gathered.{gathered};
ghost use Rattle.sr_rows.specs.Inner.Undoing.{put_back};

use crate::tables::{Tables, remove_at, set_at};
use sr_base::{Copied, Key, Name, NoMemory, Row};
use std::alloc::{AllocError, AllocFailed, Global};
use std::rc::Rc;

/// What stood at a place before a change: a row, nothing, or no place at all; and whether the change left it empty. Changes of one
/// table that follow one another share its name.
#[derive(Drop)]
pub(crate) struct Undo {
    pub(crate) table: Rc<Name>,
    pub(crate) key: Key,
    pub(crate) place: Option<Option<Row>>,
    pub(crate) emptied: bool,
}

/// The name of a table: the one that the last change keeps, where that is of the same table, or else a copy.
#[inline(always)]
pub(crate) fn shared(alloc: Global, changes: &[Undo], table: &Name) -> Result<Rc<Name>, NoMemory>
    ensures equal { IfOk result (λ name. name.value ≡ table.now) }
{
    if let Some(last) = changes.last() {
        let name = last.table.as_ref();
        if name.bytes() == table.bytes() {
            return last.table.clone();
        }
    }
    Ok(Rc::new(alloc, table.copy(alloc)?)?)
}

/// Puts back what stood at a place that is there.
pub(crate) fn take_back(tables: &mut Tables, change: Undo)
    requires there { IsSome (map.get (gathered tables.old.entries) (change.table.value, change.key)) }
    ensures back { gathered tables.new.entries ≡ put_back (gathered tables.old.entries) change }
{
    let Undo {
        table,
        key,
        place,
        ..
    } = change;
    match place {
        Some(row) => {
            set_at(tables, table.as_ref(), &key, row);
        }
        None => remove_at(tables, table.as_ref(), &key),
    }
}

/// Notes a change that was made. For want of memory it takes the change back.
pub(crate) fn note_change(
    tables: &mut Tables,
    changes: &mut Vec<Undo>,
    change: Undo,
) -> Result<(), NoMemory>
    requires there { IsSome (map.get (gathered tables.old.entries) (change.table.value, change.key)) }
    ensures ok { OnOk result (changes.new.items ≡ changes.old.items ++ change ∷ []) }
    ensures same { OnOk result (gathered tables.new.entries ≡ gathered tables.old.entries) }
    ensures err { OnErr result (changes.new.items ≡ changes.old.items) }
    ensures back { OnErr result (gathered tables.new.entries ≡ put_back (gathered tables.old.entries) change) }
{
    match changes.push(change) {
        Ok(()) => Ok(()),
        Err(refused) => {
            let AllocFailed { value, .. } = refused;
            take_back(tables, value);
            Err(AllocError)
        }
    }
}
