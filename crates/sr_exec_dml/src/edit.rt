ghost use Rattle.std.specs.Prelude.{◌≡◌, List, Some, cond, OnOk};
ghost use Rattle.std.specs.BTreeMap as tree;
ghost use Rattle.std.specs.BTreeMap.{is_at};
ghost use Rattle.sr_base.specs.declared.value.Value.{Value as Cell};
ghost use Rattle.sr_base.specs.Order.{key_cmp};
ghost use Rattle.sr_exec_dml.specs.Inner.Edits.{with_put, with_taken};

use sr_base::{Key, NoMemory, Row};
use std::alloc::AllocError;
use std::collections::BTreeMap;

/// What comes to stand at a key.
#[derive(Drop)]
pub(crate) enum Edit {
    /// The row that stood there is taken, and none is put.
    Gone,
    /// A row is put, and none is taken.
    New(Row),
    /// A row is put where one is taken.
    Moved(Row),
    /// Two rows are put.
    Twice,
}

/// What comes to stand at the keys that a statement touches.
pub(crate) type Edits = BTreeMap<Key, Edit>;

/// Puts a row under a key.
pub(crate) fn put(edits: &mut Edits, key: Key, row: Row) -> Result<(), NoMemory>
    ensures ordered { OnOk result (tree.IsOrdered key_cmp edits.new) }
    ensures put { OnOk result ((q : List Cell) → tree.get key_cmp edits.new q ≡ cond (is_at (key_cmp key) q) (Some (with_put (tree.get key_cmp edits.old key) row)) (tree.get key_cmp edits.old q)) }
{
    let edit = with_put(edits.remove(&key), row);
    match edits.insert(key, edit) {
        Ok(_) => Ok(()),
        Err(_) => Err(AllocError),
    }
}

/// Takes the row that stands under a key.
pub(crate) fn take(edits: &mut Edits, key: Key) -> Result<(), NoMemory>
    ensures ordered { OnOk result (tree.IsOrdered key_cmp edits.new) }
    ensures taken { OnOk result ((q : List Cell) → tree.get key_cmp edits.new q ≡ cond (is_at (key_cmp key) q) (Some (with_taken (tree.get key_cmp edits.old key))) (tree.get key_cmp edits.old q)) }
{
    let edit = with_taken(edits.remove(&key));
    match edits.insert(key, edit) {
        Ok(_) => Ok(()),
        Err(_) => Err(AllocError),
    }
}

fn with_put(held: Option<Edit>, row: Row) -> Edit
    ensures { result ≡ with_put held row }
{
    match held {
        None => Edit::New(row),
        Some(Edit::Gone) => Edit::Moved(row),
        Some(Edit::New(_)) => Edit::Twice,
        Some(Edit::Moved(_)) => Edit::Twice,
        Some(Edit::Twice) => Edit::Twice,
    }
}

fn with_taken(held: Option<Edit>) -> Edit
    ensures { result ≡ with_taken held }
{
    match held {
        None => Edit::Gone,
        Some(Edit::Gone) => Edit::Gone,
        Some(Edit::New(row)) => Edit::Moved(row),
        Some(Edit::Moved(row)) => Edit::Moved(row),
        Some(Edit::Twice) => Edit::Twice,
    }
}
