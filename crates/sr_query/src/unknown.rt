ghost use Rattle.std.specs.Prelude.{◌≡◌, ◌++◌, map, IfOk};
ghost use Rattle.std.specs.Option.{option_copied};
ghost use Rattle.sr_exec_where.specs.Checks.{unknown_in};
ghost use Rattle.sr_catalog_schema.specs.Firsts.{first_among};
ghost use Rattle.sr_query.specs.Checks.{unknown_in_item, unknown_in_items, unknown_in_order, unknown_in_select};
ghost use Rattle.sr_query.specs.Sources.{conditions_of};

use sr_ast::{Columns, Item, Items, OrderBy, Scope, Select, unknown_in};
use sr_base::{Copied, Name, NoMemory};
use std::alloc::Global;

/// The leftmost unknown column of a SELECT. Each expression is looked at once.
pub(crate) fn unknown_in_select(
    alloc: Global,
    scope: &Scope,
    select: &Select,
) -> Result<Option<Name>, NoMemory>
    ensures unknown { IfOk result (λ found. found ≡ unknown_in_select scope.now select.now) }
{
    if let Some(unknown) = unknown_in_items(alloc, scope, &select.items)? {
        return Ok(Some(unknown));
    }
    if let Some(unknown) = unknown_in_conditions(alloc, scope, select)? {
        return Ok(Some(unknown));
    }
    unknown_in_orders(alloc, scope, select.order.as_slice())
}

fn unknown_in_items(alloc: Global, scope: &Scope, items: &Items) -> Result<Option<Name>, NoMemory>
    ensures unknown { IfOk result (λ found. found ≡ unknown_in_items scope.now items.now) }
{
    match items {
        Items::All => Ok(None),
        Items::Each(list) => unknown_in_list(alloc, scope, list.as_slice()),
    }
}

fn unknown_in_list(alloc: Global, scope: &Scope, items: &[Item]) -> Result<Option<Name>, NoMemory>
    ensures unknown { IfOk result (λ found. found ≡ first_among (unknown_in_item scope.now) items.now) }
{
    let mut left = items;
    'items: while let Some((item, rest)) = left.split_first() {
        if let Some(unknown) = unknown_in_item(alloc, scope, item)? {
            return Ok(Some(unknown));
        }
        left = rest;
    }
    Ok(None)
}

fn unknown_in_item(alloc: Global, scope: &Scope, item: &Item) -> Result<Option<Name>, NoMemory>
    ensures unknown { IfOk result (λ found. found ≡ unknown_in_item scope.now item.now) }
{
    match item {
        Item::Value(expr) => unknown_in(alloc, scope, expr),
        Item::Count => Ok(None),
        Item::Sum(expr) => unknown_in(alloc, scope, expr),
        Item::Min(expr) => unknown_in(alloc, scope, expr),
        Item::Max(expr) => unknown_in(alloc, scope, expr),
    }
}

fn unknown_in_conditions(
    alloc: Global,
    scope: &Scope,
    select: &Select,
) -> Result<Option<Name>, NoMemory>
    ensures unknown { IfOk result (λ found. found ≡ first_among (unknown_in scope.now) (conditions_of select.now)) }
{
    let mut left = select.joins.as_slice();
    'joins: while let Some((join, rest)) = left.split_first() {
        if let Some(unknown) = unknown_in(alloc, scope, &join.condition)? {
            return Ok(Some(unknown));
        }
        left = rest;
    }
    match &select.condition {
        None => Ok(None),
        Some(condition) => unknown_in(alloc, scope, condition),
    }
}

fn unknown_in_orders(
    alloc: Global,
    scope: &Scope,
    order: &[OrderBy],
) -> Result<Option<Name>, NoMemory>
    ensures unknown { IfOk result (λ found. found ≡ first_among (unknown_in_order scope.now) order.now) }
{
    let mut left = order;
    'order: while let Some((by, rest)) = left.split_first() {
        if scope.kind_of(&by.table, &by.column).is_none() {
            return Ok(Some(by.column.copy(alloc)?));
        }
        left = rest;
    }
    Ok(None)
}
