//! What a view that was recorded row by row gives.

ghost use Rattle.std.specs.Prelude.{◌≡◌, ◌++◌, OnOk, flat_map};
ghost use Rattle.std.specs.BTreeMap as tree;
ghost use Rattle.std.specs.Option.{option_copied};
ghost use Rattle.sr_base.specs.Order.{name_cmp};
ghost use Rattle.sr_scan.specs.Given.{row_synced, table_synced};
ghost use Rattle.sr_scan.specs.Inner.Views.{AreViews};

use crate::changes::push;
use crate::columns::present_columns;
use crate::views::Views;
use sr_base::{Copied, Name, NoMemory, Row, Seq};
use sr_catalog::Catalog;
use sr_exec_fits::is_row;
use sr_logform::Op;
use sr_publish::TableView;
use std::alloc::Global;

/// Adds, for each table, a Clear, and an Insert for each of its rows.
pub(crate) fn tell_tables(
    alloc: Global,
    catalog: &Catalog,
    user: &Name,
    views: &Views,
    tables: &[(Name, Seq<Row>)],
    ops: &mut Vec<Op>,
) -> Result<(), NoMemory>
    requires { AreViews catalog.now user.now views.now }
    ensures told { OnOk result (ops.new.items ≡ ops.old.items ++ flat_map (table_synced catalog.now user.now) tables.now) }
{
    let mut left = tables;
    'tables: while let Some((table, rest)) = left.split_first() {
        push(
            ops,
            Op::Clear {
                table: table.0.copy(alloc)?,
            },
        )?;
        tell_rows(
            alloc,
            views.get(&table.0),
            &table.0,
            table.1.as_slice(),
            ops,
        )?;
        left = rest;
    }
    Ok(())
}

/// Adds an Insert for each row that has a fitting value for each column of the article by which the user has the table.
fn tell_rows(
    alloc: Global,
    view: Option<&TableView>,
    table: &Name,
    rows: &[Row],
    ops: &mut Vec<Op>,
) -> Result<(), NoMemory>
    ensures told { OnOk result (ops.new.items ≡ ops.old.items ++ flat_map (row_synced (option_copied view.entry) table.now) rows.now) }
{
    let mut left = rows;
    'rows: while let Some((row, rest)) = left.split_first() {
        tell_row(alloc, view, table, row, ops)?;
        left = rest;
    }
    Ok(())
}

fn tell_row(
    alloc: Global,
    view: Option<&TableView>,
    table: &Name,
    row: &Row,
    ops: &mut Vec<Op>,
) -> Result<(), NoMemory>
    ensures told { OnOk result (ops.new.items ≡ ops.old.items ++ row_synced (option_copied view.entry) table.now row.now) }
{
    let Some(view) = view else {
        return Ok(());
    };
    if !is_row(view.columns(), row.values()) {
        return Ok(());
    }
    let values = present_columns(alloc, view.columns(), row.values())?;
    push(
        ops,
        Op::Insert {
            table: table.copy(alloc)?,
            values,
        },
    )
}
