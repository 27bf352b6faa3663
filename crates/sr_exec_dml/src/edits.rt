ghost use Rattle.std.specs.Prelude.{◌≡◌, [], map, List, IfOk};
ghost use Rattle.std.specs.BTreeMap as tree;
ghost use Rattle.sr_base.specs.Order.{key_cmp};
ghost use Rattle.sr_exec_dml.specs.Inner.Edits.{AreEdits, put_of, taken_of};
ghost use Rattle.sr_exec_dml.specs.Statements.{entry_of};

use crate::edit::{Edits, put, take};
use sr_base::{Key, NoMemory, Row};
use sr_catalog_schema::Table;
use sr_exec_where::key_of;
use std::alloc::Global;
use std::collections::BTreeMap;

/// The edits of rows that are put. Each takes logarithmic time.
pub(crate) fn edits_of_rows(alloc: Global, table: &Table, rows: Vec<Row>) -> Result<Edits, NoMemory>
    ensures ordered { IfOk result (λ edits. tree.IsOrdered key_cmp edits) }
    ensures edits { IfOk result (λ edits. AreEdits (tree.get key_cmp edits) [] (map (entry_of table.now) rows.items)) }
{
    let mut edits = BTreeMap::new(alloc);
    let mut left = rows;
    'rows: while let Some(row) = left.pop() {
        let key = key_of(alloc, table.key.as_slice(), row.values())?;
        put(&mut edits, key, row)?;
    }
    Ok(edits)
}

/// The edits of rows that are taken, and of those that they become. Each takes logarithmic time.
pub(crate) fn edits_of_picks(
    alloc: Global,
    table: &Table,
    picks: Vec<(Key, Option<Row>)>,
) -> Result<Edits, NoMemory>
    ensures ordered { IfOk result (λ edits. tree.IsOrdered key_cmp edits) }
    ensures edits { IfOk result (λ edits. AreEdits (tree.get key_cmp edits) (taken_of picks.items) (put_of table.now picks.items)) }
{
    let mut edits = BTreeMap::new(alloc);
    let mut left = picks;
    'picks: while let Some((key, row)) = left.pop() {
        take(&mut edits, key)?;
        if let Some(row) = row {
            let key = key_of(alloc, table.key.as_slice(), row.values())?;
            put(&mut edits, key, row)?;
        }
    }
    Ok(edits)
}
