ghost use Rattle.std.specs.Prelude.{◌≡◌, ◌++◌, map, IfOk};
ghost use Rattle.std.specs.List.{list_any};
ghost use Rattle.sr_ast.specs.declared.query.Item.TheVariants.{Value};
ghost use Rattle.sr_query.specs.Checks.{all_pass, is_good_item, are_good_items, is_good_condition, is_good_order, is_aggregate, is_single};
ghost use Rattle.sr_query.specs.Checks.{are_together, is_good};
ghost use Rattle.sr_query.specs.Sources.{conditions_of};

use crate::classes::gives_number;
use crate::names::{are_distinct, is_ambiguous, means_two};
use sr_ast::{Expr, Item, Items, Join, OrderBy, Scope, Select, class_in, gives_truth, gives_value};
use sr_base::NoMemory;
use std::alloc::Global;

/// Whether nothing is wrong with a SELECT whose columns are all there.
pub(crate) fn is_good(alloc: Global, scope: &Scope, select: &Select) -> Result<bool, NoMemory>
    ensures good { IfOk result (λ good. good ≡ is_good scope.now select.now) }
{
    if !are_distinct(select) {
        return Ok(false);
    }
    if !are_good_items(alloc, scope, &select.items, select.joins.as_slice())? {
        return Ok(false);
    }
    if !are_good_conditions(alloc, scope, select)? {
        return Ok(false);
    }
    Ok(is_good_order(scope, select.order.as_slice()))
}

fn are_good_items(
    alloc: Global,
    scope: &Scope,
    items: &Items,
    joins: &[Join],
) -> Result<bool, NoMemory>
    ensures good { IfOk result (λ good. good ≡ are_good_items scope.now items.now joins.now) }
{
    match items {
        Items::All => Ok(true),
        Items::Each(list) => {
            if !are_together(list.as_slice(), joins) {
                return Ok(false);
            }
            is_good_list(alloc, scope, list.as_slice())
        }
    }
}

/// Whether an item is an aggregate.
fn is_aggregate(item: &Item) -> bool
    ensures { result ≡ is_aggregate item.now }
{
    match item {
        Item::Value(_) => false,
        Item::Count => true,
        Item::Sum(_) => true,
        Item::Min(_) => true,
        Item::Max(_) => true,
    }
}

/// Whether one of the items is an aggregate.
pub(crate) fn has_aggregate(items: &[Item]) -> bool
    ensures { result ≡ list_any is_aggregate items.now }
{
    let mut left = items;
    'items: while let Some((item, rest)) = left.split_first() {
        if is_aggregate(item) {
            return true;
        }
        left = rest;
    }
    false
}

fn are_aggregates(items: &[Item]) -> bool
    ensures { result ≡ all_pass is_aggregate items.now }
{
    let mut left = items;
    'items: while let Some((item, rest)) = left.split_first() {
        if !is_aggregate(item) {
            return false;
        }
        left = rest;
    }
    true
}

fn is_single(joins: &[Join]) -> bool
    ensures { result ≡ is_single joins.now }
{
    match joins {
        [] => true,
        [_, ..] => false,
    }
}

fn are_together(items: &[Item], joins: &[Join]) -> bool
    ensures { result ≡ are_together items.now joins.now }
{
    !has_aggregate(items) || (are_aggregates(items) && is_single(joins))
}

fn is_good_list(alloc: Global, scope: &Scope, items: &[Item]) -> Result<bool, NoMemory>
    ensures good { IfOk result (λ good. good ≡ all_pass (is_good_item scope.now) items.now) }
{
    let mut left = items;
    'items: while let Some((item, rest)) = left.split_first() {
        if !is_good_item(alloc, scope, item)? {
            return Ok(false);
        }
        left = rest;
    }
    Ok(true)
}

fn is_good_item(alloc: Global, scope: &Scope, item: &Item) -> Result<bool, NoMemory>
    ensures good { IfOk result (λ good. good ≡ is_good_item scope.now item.now) }
{
    match item {
        Item::Value(expr) => is_good_value(alloc, scope, expr),
        Item::Count => Ok(true),
        Item::Sum(expr) => {
            if is_ambiguous(scope.as_slice(), expr) {
                return Ok(false);
            }
            Ok(gives_number(class_in(alloc, scope, expr)?))
        }
        Item::Min(expr) => is_good_value(alloc, scope, expr),
        Item::Max(expr) => is_good_value(alloc, scope, expr),
    }
}

fn is_good_value(alloc: Global, scope: &Scope, expr: &Expr) -> Result<bool, NoMemory>
    ensures good { IfOk result (λ good. good ≡ is_good_item scope.now (Value expr.now)) }
{
    if is_ambiguous(scope.as_slice(), expr) {
        return Ok(false);
    }
    Ok(gives_value(class_in(alloc, scope, expr)?))
}

fn are_good_conditions(alloc: Global, scope: &Scope, select: &Select) -> Result<bool, NoMemory>
    ensures good { IfOk result (λ good. good ≡ all_pass (is_good_condition scope.now) (conditions_of select.now)) }
{
    let mut left = select.joins.as_slice();
    'joins: while let Some((join, rest)) = left.split_first() {
        if !is_good_condition(alloc, scope, &join.condition)? {
            return Ok(false);
        }
        left = rest;
    }
    match &select.condition {
        None => Ok(true),
        Some(condition) => is_good_condition(alloc, scope, condition),
    }
}

fn is_good_condition(alloc: Global, scope: &Scope, expr: &Expr) -> Result<bool, NoMemory>
    ensures good { IfOk result (λ good. good ≡ is_good_condition scope.now expr.now) }
{
    if is_ambiguous(scope.as_slice(), expr) {
        return Ok(false);
    }
    Ok(gives_truth(class_in(alloc, scope, expr)?))
}

fn is_good_order(scope: &Scope, order: &[OrderBy]) -> bool
    ensures { result ≡ all_pass (is_good_order scope.now) order.now }
{
    let mut left = order;
    'order: while let Some((by, rest)) = left.split_first() {
        if means_two(scope.as_slice(), &by.table, &by.column) {
            return false;
        }
        left = rest;
    }
    true
}
