//! What an op gives that was taken from a partner.

ghost use Rattle.std.specs.Prelude.{◌≡◌, ◌++◌, ◌∷◌, [], Some, OnOk};
ghost use Rattle.std.specs.BTreeMap as tree;
ghost use Rattle.sr_base.specs.Order.{name_cmp};
ghost use Rattle.sr_exec_dml.specs.Statements.{table_named};
ghost use Rattle.sr_publish.specs.SubscribedTables.{subscribed_table_of};
ghost use Rattle.sr_scan.specs.Inner.Images.{changes_told, images_told, change_told, row_changed, rows_told, conflict_told, op_told};
ghost use Rattle.sr_scan.specs.Inner.Views.{AreViews};

use crate::changes::{tell_changes, tell_update};
use crate::keys::are_rows_of;
use crate::returns::tell_back;
use crate::views::Views;
use sr_base::{Name, NoMemory, Row, Value};
use sr_catalog::Catalog;
use sr_catalog_schema::Table;
use sr_logform::{Change, Op, Outcome};
use std::alloc::Global;

/// Adds what an op gives, with what became of it: to another user its changes; to its origin nothing, but for an op that met another value.
pub(crate) fn tell_op(
    alloc: Global,
    catalog: &Catalog,
    views: &Views,
    user: &Name,
    is_origin: bool,
    op: &Op,
    outcome: &Outcome,
    ops: &mut Vec<Op>,
) -> Result<(), NoMemory>
    requires { AreViews catalog.now user.now views.now }
    ensures told { OnOk result (ops.new.items ≡ ops.old.items ++ op_told is_origin catalog.now user.now op.now outcome.now) }
{
    match outcome {
        Outcome::Clash(_) => Ok(()),
        Outcome::Plain(_) if is_origin => Ok(()),
        Outcome::Plain(changes) => tell_changes(alloc, views, changes.as_slice(), ops),
        Outcome::Conflict {
            inserts,
            before,
            after,
        } => match op {
            Op::Set { table, key, .. } => {
                let Some(table_there) = catalog.table(table) else {
                    return Ok(());
                };
                if !are_rows_of(alloc, table_there, key.as_slice(), before, after)? {
                    return Ok(());
                }
                tell_rows(
                    alloc,
                    views,
                    is_origin,
                    table_there,
                    table,
                    inserts.as_slice(),
                    before,
                    after,
                    ops,
                )
            }
            Op::Insert { .. } | Op::Remove { .. } | Op::Clear { .. } | Op::Exec { .. } => Ok(()),
        },
    }
}

/// Adds what the rows of an op give that met another value: what the triggers inserted, and then the row of its key.
fn tell_rows(
    alloc: Global,
    views: &Views,
    is_origin: bool,
    table: &Table,
    name: &Name,
    inserts: &[Change],
    before: &Row,
    after: &Row,
    ops: &mut Vec<Op>,
) -> Result<(), NoMemory>
    ensures told { OnOk result (ops.new.items ≡ ops.old.items ++ rows_told is_origin (tree.get name_cmp views.now) table.now name.now inserts.now before.now after.now) }
{
    tell_changes(alloc, views, inserts, ops)?;
    let view = views.get(name);
    if is_origin {
        return tell_back(alloc, table, view, before, after, ops);
    }
    match view {
        None => Ok(()),
        Some(view) => tell_update(alloc, view, before, after, ops),
    }
}
