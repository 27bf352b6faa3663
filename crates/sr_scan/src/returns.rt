//! What an op that met another value gives to its origin.

ghost use Rattle.std.specs.Prelude.{◌≡◌, ◌++◌, Some, OnOk};
ghost use Rattle.std.specs.Option.{option_copied};
ghost use Rattle.sr_exec_where.specs.Keys.{key_of};
ghost use Rattle.sr_publish.specs.Views.{shown, shown_row};
ghost use Rattle.sr_catalog_schema.specs.Members.{key_names};
ghost use Rattle.sr_scan.specs.Ops.{outside_key, told_back, update_of};

use crate::changes::{add_removal, outside_columns, tell_columns};
use sr_base::{NoMemory, Row};
use sr_catalog_schema::Table;
use sr_logform::Op;
use sr_publish::TableView;
use std::alloc::Global;

/// Adds what tells the origin of an op how its key is now: a Remove where he does not see the row, and else a Set of all columns that he
/// sees outside the key, equal ones too; nothing where he sees the row and has key columns alone.
pub(crate) fn tell_back(
    alloc: Global,
    table: &Table,
    view: Option<&TableView>,
    before: &Row,
    after: &Row,
    ops: &mut Vec<Op>,
) -> Result<(), NoMemory>
    ensures told { OnOk result (ops.new.items ≡ ops.old.items ++ told_back table.now (option_copied view.entry) (key_of table.now.key before.now)
        before.now (shown_row (option_copied view.entry) (Some after.now))) }
{
    let Some(view) = view else {
        return add_removal(alloc, table, before, ops);
    };
    if !view.has(after.values()) {
        return add_removal(alloc, table, before, ops);
    }
    tell_outside_key(alloc, table, view, before, after, ops)
}

/// Adds the Set of all columns that the origin sees outside the key.
fn tell_outside_key(
    alloc: Global,
    table: &Table,
    view: &TableView,
    before: &Row,
    after: &Row,
    ops: &mut Vec<Op>,
) -> Result<(), NoMemory>
    ensures told { OnOk result (ops.new.items ≡ ops.old.items ++ update_of table.now (key_of table.now.key before.now)
        (outside_key (key_names table.now) view.now.columns (shown view.now before.now) (shown view.now after.now))) }
{
    let columns = outside_columns(alloc, table, view, before.values(), after.values())?;
    tell_columns(alloc, table, before, columns, ops)
}
