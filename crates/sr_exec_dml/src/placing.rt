//! UPDATE and DELETE where each row that is selected keeps its key: one walk, and no key is built or looked up.

ghost use Rattle.std.specs.Prelude.{◌≡◌, Ok, IfOk, OnOk, IsTrue};
ghost use Rattle.std.specs.Option.{option_copied};
ghost use Rattle.sr_exec_dml.specs.Inner.Conditions.{MayAnswer};
ghost use Rattle.sr_exec_dml.specs.Fitting.{TableFits};
ghost use Rattle.sr_exec_where.specs.Inner.Preparing.{IsPrepared};
ghost use Rattle.sr_exec_dml.specs.Statements.{moved_selected};
ghost use Rattle.sr_exec_dml.specs.Inner.Unmoving.{Counted, and_change, with_effect, behind, KeepsKey};
ghost use Rattle.sr_rows.specs.Walks.{table_rows};

use crate::applying::is_same_key;
use crate::changes::Changes;
use crate::effect::RowEffect;
use crate::lists::emptied;
use crate::moving::effect_of;
use crate::settling::note;
use crate::together::{rows_together, unmoved_together};
use sr_base::{Name, NoMemory, Row, Seq};
use sr_catalog_schema::{DmlFault, Table};
use sr_exec_where::Prepared;
use sr_logform::Change;
use sr_rows::Rows;
use std::alloc::{AllocError, Global};

/// What is known of the rows that were looked at: their changes, and how many are selected.
#[derive(Drop)]
pub(crate) struct Found {
    pub(crate) list: Vec<Change>,
    pub(crate) count: u64,
}

/// The changes where each selected row keeps its key, as a DELETE and most UPDATEs have it; nothing where one gets another key.
///
/// Each row takes the time of its condition and, where it is selected, of its assignments and its copies. An UPDATE of small rows makes several
/// new ones at a time.
pub(crate) fn unmoved(
    alloc: Global,
    table: &Table,
    rows: &Rows,
    prepared: &Prepared,
    spare: Vec<Change>,
) -> Result<Option<Changes>, DmlFault>
    requires prepared { IsPrepared table.now prepared.now }
    requires rows { TableFits table.now rows.now.rows }
    ensures answer { MayAnswer result (moved_selected table.now (option_copied prepared.now.sets) prepared.now.condition.now (table_rows rows.now.rows table.now.name)) }
{
    if prepared.sets.is_some() {
        let together = rows_together(table.columns.as_slice());
        if together > 1 {
            return unmoved_together(alloc, table, rows, prepared, together, spare);
        }
    }
    unmoved_alone(alloc, table, rows, prepared, spare)
}

/// The same, with each new row for itself.
fn unmoved_alone(
    alloc: Global,
    table: &Table,
    rows: &Rows,
    prepared: &Prepared,
    spare: Vec<Change>,
) -> Result<Option<Changes>, DmlFault>
    requires prepared { IsPrepared table.now prepared.now }
    requires rows { TableFits table.now rows.now.rows }
    ensures answer { MayAnswer result (moved_selected table.now (option_copied prepared.now.sets) prepared.now.condition.now (table_rows rows.now.rows table.now.name)) }
{
    let mut found = Found {
        list: emptied(spare),
        count: 0,
    };
    let mut walk = rows.walk(&table.name);
    'rows: while let Some((_key, row)) = walk.next() {
        let effect = effect_of(alloc, table, prepared, row.values())?;
        if !note_effect(alloc, table, &mut found, row, effect)? {
            return Ok(None);
        }
    }
    let Found { list, count } = found;
    Ok(Some(Changes {
        list: Seq::from_vec(list),
        count,
    }))
}

/// Notes what becomes of a row, and answers whether it keeps its key.
fn note_effect(
    alloc: Global,
    table: &Table,
    found: &mut Found,
    row: &Row,
    effect: RowEffect,
) -> Result<bool, NoMemory>
    ensures noted { IfOk result (λ is_kept. IsTrue is_kept → (rest : Counted) → behind found.old.list.items found.old.count (with_effect table.now.name row.now (Ok effect) rest) ≡ behind found.new.list.items found.new.count rest) }
    ensures keeps { IfOk result (λ is_kept. IsTrue is_kept → KeepsKey table.now row.now effect) }
{
    match effect {
        RowEffect::Stays => Ok(true),
        RowEffect::Goes => {
            note_one(alloc, &table.name, found, row, None)?;
            Ok(true)
        }
        RowEffect::Becomes(new) => {
            if !is_same_key(table.key.as_slice(), row.values(), new.values()) {
                return Ok(false);
            }
            note_one(alloc, &table.name, found, row, Some(new))?;
            Ok(true)
        }
    }
}

/// Notes the change of a row that is selected.
#[tactic(auto, using(crate::proofs::Placed::noted))]
fn note_one(
    alloc: Global,
    table: &Name,
    found: &mut Found,
    row: &Row,
    after: Option<Row>,
) -> Result<(), NoMemory>
    ensures noted { OnOk result ((rest : Counted) → behind found.old.list.items found.old.count (and_change table.now row.now after rest) ≡ behind found.new.list.items found.new.count rest) }
{
    let Some(count) = found.count.checked_add(1) else {
        return Err(AllocError);
    };
    note(alloc, &mut found.list, table, Some(row), after)?;
    found.count = count;
    Ok(())
}
