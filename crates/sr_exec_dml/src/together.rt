//! UPDATE where each row that is selected keeps its key, of rows that are small: they are noted several at a time, and the new ones of a time
//! share a block of memory.

ghost use Rattle.std.specs.Prelude.{◌≡◌, ◌≢◌, [], length, Ok, Err, IsSome, OnOk, IsTrue, MatchResult, map};
ghost use Rattle.std.specs.Option.{option_copied};
ghost use Rattle.sr_exec_dml.specs.Inner.Conditions.{MayAnswer, Tells};
ghost use Rattle.sr_exec_dml.specs.Fitting.{TableFits};
ghost use Rattle.sr_exec_dml.specs.Inner.Edits.{prefixed};
ghost use Rattle.sr_exec_dml.specs.Inner.Pending.{pended, Adds, AreWhole, Awaits};
ghost use Rattle.sr_exec_where.specs.Inner.Preparing.{IsPrepared, resolution_in};
ghost use Rattle.sr_exec_dml.specs.Inner.Making.{new_row, effect_by};
ghost use Rattle.sr_exec_dml.specs.Statements.{effect_of, moved_selected};
ghost use Rattle.sr_exec_where.specs.Keys.{key_of};
ghost use Rattle.sr_exec_dml.specs.Inner.Unmoving.{Counted, and_change, behind};
ghost use Rattle.sr_rows.specs.Walks.{table_rows};

use crate::applying::is_same_key;
use crate::changes::Changes;
use crate::lists::emptied;
use crate::moving::selected;
use crate::pending::Pending;
use crate::placing::Found;
use crate::settling::note_updated;
use crate::updating::new_value;
use sr_base::{Copied, Kind, Name, NoMemory, Row, RowBlock, Seq, Value};
use sr_catalog_schema::{Column, DmlFault, Table};
use sr_eval::Resolved;
use sr_exec_where::{Prepared, push};
use sr_logform::Change;
use sr_rows::Rows;
use std::alloc::{AllocError, Global};
use std::mem;

/// The bytes of the values of a block, by what the columns may hold: a row that outlives the others of its block keeps as many of theirs.
const BLOCK: usize = 256;
/// The bytes of a value, beside those of a text.
const VALUE: usize = 16;

/// How many rows of these columns share a block: as many as it holds, and at least one.
pub(crate) fn rows_together(columns: &[Column]) -> usize {
    let mut size = 0usize;
    for column in columns {
        size = size.saturating_add(size_of(column.kind));
    }
    match BLOCK.checked_div(size) {
        Some(count) if count > 1 => count,
        _ => 1,
    }
}

/// The bytes of a value of a column, at most.
fn size_of(kind: Kind) -> usize {
    match kind {
        Kind::Int | Kind::Big | Kind::Date => VALUE,
        Kind::Varchar(limit) => VALUE + limit as usize,
    }
}

/// The changes of an UPDATE where each selected row keeps its key, with so many new rows in a block; nothing where one gets another key.
///
/// Each row takes the time of its condition and, where it is selected, of its assignments and its copies.
pub(crate) fn unmoved_together(
    alloc: Global,
    table: &Table,
    rows: &Rows,
    prepared: &Prepared,
    together: usize,
    spare: Vec<Change>,
) -> Result<Option<Changes>, DmlFault>
    requires prepared { IsPrepared table.now prepared.now }
    requires rows { TableFits table.now rows.now.rows }
    requires sets { IsSome (option_copied prepared.now.sets) }
    ensures answer { MayAnswer result (moved_selected table.now (option_copied prepared.now.sets) prepared.now.condition.now (table_rows rows.now.rows table.now.name)) }
{
    let mut found = Found {
        list: emptied(spare),
        count: 0,
    };
    let mut pending = Pending {
        olds: Vec::new(alloc),
        values: Vec::new(alloc),
    };
    let mut walk = rows.walk(&table.name);
    'rows: while let Some((_key, row)) = walk.next() {
        if !await_row(alloc, table, prepared, &mut pending, row)? {
            return Ok(None);
        }
        note_full(alloc, table, together, &mut found, &mut pending)?;
    }
    note_all(alloc, table, 0, &mut found, &mut pending)?;
    let Found { list, count } = found;
    Ok(Some(Changes {
        list: Seq::from_vec(list),
        count,
    }))
}

/// Adds what becomes of a row to what is pending, and answers whether it keeps its key.
#[inline(always)]
fn await_row(
    alloc: Global,
    table: &Table,
    prepared: &Prepared,
    pending: &mut Pending,
    row: &Row,
) -> Result<bool, DmlFault>
    requires prepared { IsPrepared table.now prepared.now }
    requires sets { IsSome (option_copied prepared.now.sets) }
    requires whole { AreWhole (length table.now.columns) pending.old.olds.items pending.old.values.items }
    ensures answer { Tells result (λ is_kept. IsTrue is_kept → Awaits table.now row.now (effect_by table.now prepared.now row.now) pending.old pending.new)
        (effect_by table.now prepared.now row.now) }
{
    let start = pending.values.len();
    if !add_effect(alloc, table, prepared, row.values(), &mut pending.values)? {
        return Ok(true);
    }
    let (_, new) = pending.values.as_slice().split_at(start);
    if !is_kept(table, row.values(), new) {
        return Ok(false);
    }
    push(&mut pending.olds, row.copy(alloc)?)?;
    Ok(true)
}

/// Whether a row is one of a table, under the same key as another one.
#[inline(always)]
fn is_kept(table: &Table, row: &[Value], new: &[Value]) -> bool
    ensures kept { IsTrue result → (key_of table.now.key row.now ≡ key_of table.now.key new.now) × (length new.now ≡ length table.now.columns) }
{
    new.len() == table.columns.as_slice().len() && is_same_key(table.key.as_slice(), row, new)
}

/// Adds the values of what a row becomes, and answers whether it is updated.
#[tactic(auto, using(crate::proofs::Readied::by_names))]
#[inline(always)]
fn add_effect(
    alloc: Global,
    table: &Table,
    prepared: &Prepared,
    row: &[Value],
    values: &mut Vec<Value>,
) -> Result<bool, DmlFault>
    requires prepared { IsPrepared table.now prepared.now }
    requires sets { IsSome (option_copied prepared.now.sets) }
    ensures answer { MatchResult result (Adds (effect_of table.now (option_copied prepared.now.sets) prepared.now.condition.now row.now) values.old.items values.new.items)
        (λ fault. fault ≢ DmlFault.Memory → effect_of table.now (option_copied prepared.now.sets) prepared.now.condition.now row.now ≡ Err fault) }
{
    if !selected(&prepared.resolved_condition, row)? {
        return Ok(false);
    }
    add_updated(
        alloc,
        row,
        prepared.resolved_sets.as_slice(),
        table.columns.as_slice(),
        values,
    )?;
    Ok(true)
}

/// Adds the values of the row that an UPDATE makes of a row, by what each column takes.
#[inline(always)]
fn add_updated(
    alloc: Global,
    row: &[Value],
    sets: &[Option<Resolved>],
    columns: &[Column],
    values: &mut Vec<Value>,
) -> Result<(), DmlFault>
    ensures answer { Tells result (λ _. prefixed values.old.items (new_row row.now columns.now row.now (map resolution_in sets.now)) ≡ Ok values.new.items)
        (new_row row.now columns.now row.now (map resolution_in sets.now)) }
{
    let mut left = columns;
    let mut olds = row;
    let mut sets_left = sets;
    'columns: while let Some((column, rest)) = left.split_first() {
        let Some((old, olds_rest)) = olds.split_first() else {
            return Ok(());
        };
        let Some((set, sets_rest)) = sets_left.split_first() else {
            return Ok(());
        };
        let value = new_value(alloc, row, column, old, set)?;
        push(values, value)?;
        left = rest;
        olds = olds_rest;
        sets_left = sets_rest;
    }
    Ok(())
}

/// Notes what is pending, where it fills a block.
#[inline(always)]
fn note_full(
    alloc: Global,
    table: &Table,
    together: usize,
    found: &mut Found,
    pending: &mut Pending,
) -> Result<(), NoMemory>
    requires whole { AreWhole (length table.now.columns) pending.old.olds.items pending.old.values.items }
    ensures noted { OnOk result ((rest : Counted) → behind found.old.list.items found.old.count (pended table.now pending.old rest) ≡ behind found.new.list.items found.new.count (pended table.now pending.new rest)) }
    ensures whole { OnOk result (AreWhole (length table.now.columns) pending.new.olds.items pending.new.values.items) }
{
    if pending.olds.len() < together {
        return Ok(());
    }
    note_all(alloc, table, together, found, pending)
}

/// Notes all that is pending. There is room for so many rows then.
fn note_all(
    alloc: Global,
    table: &Table,
    room: usize,
    found: &mut Found,
    pending: &mut Pending,
) -> Result<(), NoMemory>
    requires whole { AreWhole (length table.now.columns) pending.old.olds.items pending.old.values.items }
    ensures noted { OnOk result ((rest : Counted) → behind found.old.list.items found.old.count (pended table.now pending.old rest) ≡ behind found.new.list.items found.new.count rest) }
    ensures olds { OnOk result (pending.new.olds.items ≡ []) }
    ensures values { OnOk result (pending.new.values.items ≡ []) }
{
    let width = table.columns.as_slice().len();
    let olds = mem::replace(&mut pending.olds, Vec::with_capacity(alloc, room)?);
    let room = room.saturating_mul(width);
    let values = mem::replace(&mut pending.values, Vec::with_capacity(alloc, room)?);
    let mut block = RowBlock::new(alloc, values)?;
    let mut left = olds.into_iter();
    'olds: while let Some(old) = left.next() {
        let new = block.row(width)?;
        note_one(alloc, &table.name, found, old, new)?;
    }
    Ok(())
}

/// Notes the change of a row that is selected.
#[tactic(auto, using(crate::proofs::Placed::noted))]
#[inline(always)]
fn note_one(
    alloc: Global,
    table: &Name,
    found: &mut Found,
    old: Row,
    new: Row,
) -> Result<(), NoMemory>
    ensures noted { OnOk result ((rest : Counted) → behind found.old.list.items found.old.count (and_change table.now old (Some new) rest) ≡ behind found.new.list.items found.new.count rest) }
{
    let Some(count) = found.count.checked_add(1) else {
        return Err(AllocError);
    };
    note_updated(alloc, &mut found.list, table, old, new)?;
    found.count = count;
    Ok(())
}
