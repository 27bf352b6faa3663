//! What changes give.

ghost use Rattle.std.specs.Prelude.{◌≡◌, ◌++◌, ◌∷◌, [], Some, None, IfOk, OnOk};
ghost use Rattle.std.specs.BTreeMap as tree;
ghost use Rattle.std.specs.Option.{option_copied};
ghost use Rattle.sr_base.specs.Order.{name_cmp};
ghost use Rattle.sr_exec_where.specs.Keys.{key_of};
ghost use Rattle.sr_logform.specs.declared.op.Op.TheVariants.{Insert, Remove};
ghost use Rattle.sr_publish.specs.Views.{shown};
ghost use Rattle.sr_scan.specs.Inner.Images.{images_told, change_told, changes_told};
ghost use Rattle.sr_catalog_schema.specs.Members.{key_names};
ghost use Rattle.sr_scan.specs.Ops.{columns_told, key_columns, outside_key, present_columns, update_of};

use crate::columns::{differing_at, outside_key_at, present_at};
use crate::keys::key_of_row;
use crate::views::Views;
use sr_base::{Copied, Name, NoMemory, Row, Seq, Value};
use sr_catalog_schema::{Table, key_names};
use sr_exec_fits::is_row;
use sr_logform::{Change, Op};
use sr_publish::TableView;
use std::alloc::{AllocError, Global};

/// Adds an op.
pub(crate) fn push(ops: &mut Vec<Op>, op: Op) -> Result<(), NoMemory>
    ensures ok { OnOk result (ops.new.items ≡ ops.old.items ++ op ∷ []) }
{
    match ops.push(op) {
        Ok(()) => Ok(()),
        Err(refused) => {
            drop(refused);
            Err(AllocError)
        }
    }
}

/// Adds what changes give. Each costs by its own two rows.
pub(crate) fn tell_changes(
    alloc: Global,
    views: &Views,
    changes: &[Change],
    ops: &mut Vec<Op>,
) -> Result<(), NoMemory>
    ensures told { OnOk result (ops.new.items ≡ ops.old.items ++ changes_told (tree.get name_cmp views.now) changes.now) }
{
    let mut left = changes;
    'changes: while let Some((change, rest)) = left.split_first() {
        tell_change(alloc, views.get(&change.table), change, ops)?;
        left = rest;
    }
    Ok(())
}

/// Adds what a change gives: nothing of a table that the user has not.
pub(crate) fn tell_change(
    alloc: Global,
    view: Option<&TableView>,
    change: &Change,
    ops: &mut Vec<Op>,
) -> Result<(), NoMemory>
    ensures told { OnOk result (ops.new.items ≡ ops.old.items ++ change_told (option_copied view.entry) change.now) }
{
    let Some(view) = view else {
        return Ok(());
    };
    match (&change.before, &change.after) {
        (None, None) => Ok(()),
        (None, Some(after)) => tell_new(alloc, view, after, ops),
        (Some(before), None) => tell_gone(alloc, view, before, ops),
        (Some(before), Some(after)) => tell_update(alloc, view, before, after, ops),
    }
}

/// Adds what a new row gives: an Insert where the user sees it.
fn tell_new(alloc: Global, view: &TableView, after: &Row, ops: &mut Vec<Op>) -> Result<(), NoMemory>
    ensures told { OnOk result (ops.new.items ≡ ops.old.items ++ images_told view.now None (Some after.now)) }
{
    if !view.has(after.values()) {
        return Ok(());
    }
    add_insert(alloc, view, after, ops)
}

/// Adds what the loss of a row gives: a Remove where the user saw it.
fn tell_gone(
    alloc: Global,
    view: &TableView,
    before: &Row,
    ops: &mut Vec<Op>,
) -> Result<(), NoMemory>
    ensures told { OnOk result (ops.new.items ≡ ops.old.items ++ images_told view.now (Some before.now) None) }
{
    if !view.has(before.values()) {
        return Ok(());
    }
    add_removal(alloc, view.table(), before, ops)
}

/// Adds what an update of a row gives: a Set where the user sees it before and after, and else what came or went for him.
pub(crate) fn tell_update(
    alloc: Global,
    view: &TableView,
    before: &Row,
    after: &Row,
    ops: &mut Vec<Op>,
) -> Result<(), NoMemory>
    ensures told { OnOk result (ops.new.items ≡ ops.old.items ++ images_told view.now (Some before.now) (Some after.now)) }
{
    let columns = view.table().columns.as_slice();
    if !is_row(columns, before.values()) || !is_row(columns, after.values()) {
        return Ok(());
    }
    match (view.has(before.values()), view.has(after.values())) {
        (false, false) => Ok(()),
        (false, true) => add_insert(alloc, view, after, ops),
        (true, false) => add_removal(alloc, view.table(), before, ops),
        (true, true) => tell_differing(alloc, view, before, after, ops),
    }
}

/// Adds the Set of two rows, where they differ, with the columns that it lists.
fn tell_differing(
    alloc: Global,
    view: &TableView,
    before: &Row,
    after: &Row,
    ops: &mut Vec<Op>,
) -> Result<(), NoMemory>
    ensures told { OnOk result (ops.new.items ≡ ops.old.items ++ update_of view.now.table (key_of view.now.table.key before.now)
        (columns_told view.now (shown view.now before.now) (shown view.now after.now))) }
{
    let columns = columns_told(alloc, view, before.values(), after.values())?;
    tell_columns(alloc, view.table(), before, columns, ops)
}

/// The columns that the Set of two rows lists, where they differ: those that do, or all outside the key for one who verifies them.
fn columns_told(
    alloc: Global,
    view: &TableView,
    before: &[Value],
    after: &[Value],
) -> Result<Vec<(Name, Value, Value)>, NoMemory>
    ensures told { IfOk result (λ found. found.items ≡ columns_told view.now (shown view.now before.now) (shown view.now after.now)) }
{
    let differing = differing_at(alloc, view.columns(), view.places(), before, after)?;
    if differing.is_empty() || !view.verifies() {
        return Ok(differing);
    }
    drop(differing);
    outside_columns(alloc, view.table(), view, before, after)
}

/// The columns of two rows of a table outside its key, each with both values, as a user has them.
pub(crate) fn outside_columns(
    alloc: Global,
    table: &Table,
    view: &TableView,
    before: &[Value],
    after: &[Value],
) -> Result<Vec<(Name, Value, Value)>, NoMemory>
    ensures outside { IfOk result (λ found. found.items ≡ outside_key (key_names table.now) view.now.columns (shown view.now before.now) (shown view.now after.now)) }
{
    let key = key_names(alloc, table)?;
    let found = outside_key_at(
        alloc,
        key.as_slice(),
        view.columns(),
        view.places(),
        before,
        after,
    );
    drop(key);
    found
}

/// Adds the Insert of a row.
fn add_insert(alloc: Global, view: &TableView, row: &Row, ops: &mut Vec<Op>) -> Result<(), NoMemory>
    ensures added { OnOk result (ops.new.items ≡ ops.old.items ++ Insert view.now.table.name (present_columns view.now.columns (shown view.now row.now)) ∷ []) }
{
    let op = insert_of(alloc, view, row)?;
    push(ops, op)
}

/// Adds the Remove of a row.
pub(crate) fn add_removal(
    alloc: Global,
    table: &Table,
    row: &Row,
    ops: &mut Vec<Op>,
) -> Result<(), NoMemory>
    ensures added { OnOk result (ops.new.items ≡ ops.old.items ++ Remove table.now.name (key_columns table.now (key_of table.now.key row.now)) ∷ []) }
{
    let op = removal_of(alloc, table, row)?;
    push(ops, op)
}

/// The Insert of a row, with the columns of the user's article that are not NULL.
fn insert_of(alloc: Global, view: &TableView, row: &Row) -> Result<Op, NoMemory>
    ensures op { IfOk result (λ op. op ≡ Insert view.now.table.name (present_columns view.now.columns (shown view.now row.now))) }
{
    Ok(Op::Insert {
        table: view.table().name.copy(alloc)?,
        values: present_at(alloc, view.columns(), view.places(), row.values())?,
    })
}

/// The Remove of a row, with its key.
fn removal_of(alloc: Global, table: &Table, row: &Row) -> Result<Op, NoMemory>
    ensures op { IfOk result (λ op. op ≡ Remove table.now.name (key_columns table.now (key_of table.now.key row.now))) }
{
    let key = key_of_row(alloc, table, row)?;
    Ok(Op::Remove {
        table: table.name.copy(alloc)?,
        key,
    })
}

/// Adds the Set of columns of a row, where there are any.
pub(crate) fn tell_columns(
    alloc: Global,
    table: &Table,
    row: &Row,
    columns: Vec<(Name, Value, Value)>,
    ops: &mut Vec<Op>,
) -> Result<(), NoMemory>
    ensures told { OnOk result (ops.new.items ≡ ops.old.items ++ update_of table.now (key_of table.now.key row.now) columns.items) }
{
    if columns.is_empty() {
        return Ok(());
    }
    let op = Op::Set {
        table: table.name.copy(alloc)?,
        key: key_of_row(alloc, table, row)?,
        columns: Seq::from_vec(columns),
    };
    push(ops, op)
}
