//! How far a database below differs from what the consolidated one has for it.

ghost use Rattle.std.specs.Prelude.{◌≡◌, true, filter, length, IfOk};
ghost use Rattle.std.specs.Option.{option_copied};
ghost use Rattle.dbremote_demo_draws.specs.Agreement.{differing, differs_above, differs_below, is_same};
ghost use Rattle.sr_publish.specs.SubscribedTables.{subscribed_table_of};
ghost use Rattle.sr_publish.specs.Views.{shown_in};
ghost use Rattle.sr_rows.specs.Walks.{table_rows};

use crate::keys::Keys;
use crate::sums::sum;
use sr_base::{Name, NoMemory, Row};
use sr_catalog::Catalog;
use sr_publish::TableView;
use sr_rows::Rows;
use std::alloc::Global;

/// How many rows a table has.
pub fn count_rows(rows: &Rows, table: &Name) -> Result<u64, NoMemory>
    ensures count { IfOk result (λ count. count ≡ length (table_rows rows.now.rows table.now)) }
{
    let mut count = 0u64;
    let mut walk = rows.walk(table);
    'rows: while let Some(_) = walk.next() {
        count = sum(count, 1)?;
    }
    Ok(count)
}

/// At how many keys of a table, of those that are not among `own`, the rows below are not what the view of this user shows of those above.
pub fn differing(
    alloc: Global,
    catalog: &Catalog,
    above: &Rows,
    below: &Rows,
    user: &Name,
    table: &Name,
    own: &Keys,
) -> Result<u64, NoMemory>
    ensures differ { IfOk result (λ count. count ≡ differing (subscribed_table_of catalog.now user.now table.now) above.now.rows below.now.rows table.now own.now) }
{
    let view = TableView::of(alloc, catalog, user, table)?;
    let seen = differing_above(alloc, &view, above, below, table, own);
    drop(view);
    sum(seen?, differing_below(above, below, table, own)?)
}

/// At how many keys that are held above.
fn differing_above(
    alloc: Global,
    view: &Option<TableView>,
    above: &Rows,
    below: &Rows,
    table: &Name,
    own: &Keys,
) -> Result<u64, NoMemory>
    ensures differ { IfOk result (λ count. count ≡ length (filter (differs_above view.now below.now.rows table.now own.now) (table_rows above.now.rows table.now))) }
{
    let mut count = 0u64;
    let mut walk = above.walk(table);
    'rows: while let Some((key, row)) = walk.next() {
        if !own.has(key) && !shows_same(alloc, view, row, below.get(table, key))? {
            count = sum(count, 1)?;
        }
    }
    Ok(count)
}

/// At how many keys that are held below alone.
fn differing_below(above: &Rows, below: &Rows, table: &Name, own: &Keys) -> Result<u64, NoMemory>
    ensures differ { IfOk result (λ count. count ≡ length (filter (differs_below above.now.rows table.now own.now) (table_rows below.now.rows table.now))) }
{
    let mut count = 0u64;
    let mut walk = below.walk(table);
    'rows: while let Some((key, _)) = walk.next() {
        if !own.has(key) && above.get(table, key).is_none() {
            count = sum(count, 1)?;
        }
    }
    Ok(count)
}

/// Whether a view shows a row as the other one is, which may not be there.
fn shows_same(
    alloc: Global,
    view: &Option<TableView>,
    row: &Row,
    other: Option<&Row>,
) -> Result<bool, NoMemory>
    ensures same { IfOk result (λ same. same ≡ is_same (shown_in view.now row.now) (option_copied other.entry)) }
{
    let shown = shown(alloc, view, row)?;
    let same = is_same(&shown, other);
    drop(shown);
    Ok(same)
}

/// What a user has of a row.
fn shown(alloc: Global, view: &Option<TableView>, row: &Row) -> Result<Option<Row>, NoMemory>
    ensures shown { IfOk result (λ shown. shown ≡ shown_in view.now row.now) }
{
    match view {
        None => Ok(None),
        Some(view) => view.sees(alloc, row),
    }
}

/// Whether two rows are the same, or neither is there.
fn is_same(one: &Option<Row>, other: Option<&Row>) -> bool
    ensures { result ≡ is_same one.now (option_copied other.entry) }
{
    match (one, other) {
        (None, None) => true,
        (Some(one), Some(other)) => *one == *other,
        (None, Some(_)) => false,
        (Some(_), None) => false,
    }
}
