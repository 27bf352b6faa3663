ghost use Rattle.std.specs.Prelude.{◌≡◌, OnOk, OnErr};
ghost use Rattle.sr_rows.specs.Inner.Steps.{GoesOn};
ghost use Rattle.sr_exec_dml.specs.Applying.{applied};

use sr_base::NoMemory;
use sr_catalog::Catalog;
use sr_exec_dml::{apply_in, apply_same};
use sr_logform::Change;
use sr_rows::Rows;
use std::alloc::Global;

/// Applies changes to rows, one after the other: of each, the row before goes and the row after comes. Each takes logarithmic time.
///
/// The mark stays where it is, so that `undo` takes the changes back. Where there was no memory for all of them, the rows are as they
/// were, and so is the way back.
pub fn apply(
    alloc: Global,
    catalog: &Catalog,
    rows: &mut Rows,
    changes: &[Change],
) -> Result<(), NoMemory>
    ensures rows { OnOk result (rows.new.rows ≡ applied catalog.now changes.now rows.old.rows) }
    ensures marked { rows.new.marked ≡ rows.old.marked }
    ensures on { GoesOn rows.old rows.new }
    ensures err { OnErr result (rows.new ≡ rows.old) }
{
    let steps = rows.steps();
    match apply_each(alloc, catalog, rows, changes) {
        Ok(()) => Ok(()),
        Err(refused) => {
            rows.back_to(steps);
            Err(refused)
        }
    }
}

/// Applies changes, up to the first for which there is no memory.
fn apply_each(
    alloc: Global,
    catalog: &Catalog,
    rows: &mut Rows,
    changes: &[Change],
) -> Result<(), NoMemory>
    ensures rows { OnOk result (rows.new.rows ≡ applied catalog.now changes.now rows.old.rows) }
    ensures on { GoesOn rows.old rows.new }
{
    let mut left = changes;
    'changes: while let Some((change, rest)) = left.split_first() {
        let table = catalog.table(&change.table);
        apply_in(alloc, table, rows, change)?;
        left = apply_same(alloc, table, &change.table, rows, rest)?;
    }
    Ok(())
}
