ghost use Rattle.std.specs.Prelude.{◌≡◌, Some, IfOk, slice_get};
ghost use Rattle.sr_ast.specs.Exprs.{term_of};
ghost use Rattle.sr_ast.specs.Classes.{is_meant};
ghost use Rattle.sr_exec_where.specs.Inner.Fixing.{fixed_side, fixed_in, fixed_column, fixed_key, only_key};

use crate::lists::push;
use crate::names::{is_column, is_same};
use sr_ast::{Binary, Expr, Operand, is_plain};
use sr_base::{Copied, Key, Name, NoMemory, Seq, Value};
use sr_base_dates::fitted;
use sr_catalog_schema::{Column, Table};
use std::alloc::Global;

/// The key of the only row that can be selected: where a condition without arithmetic fixes it.
pub fn only_key(
    alloc: Global,
    table: &Table,
    condition: &Option<Expr>,
) -> Result<Option<Key>, NoMemory>
    ensures key { IfOk result (λ found. found ≡ only_key table.now condition.now) }
{
    let Some(condition) = condition else {
        return Ok(None);
    };
    if !is_plain(condition) {
        return Ok(None);
    }
    fixed_key(alloc, table, condition)
}

/// The key that a condition fixes: each of its columns is equal to a constant that fits it, alone or in a conjunction. It goes over the
/// condition once for each column of the key.
fn fixed_key(alloc: Global, table: &Table, condition: &Expr) -> Result<Option<Key>, NoMemory>
    ensures key { IfOk result (λ found. found ≡ fixed_key table.now (term_of condition.now) table.now.key) }
{
    match table.key.as_slice() {
        [place] => match fixed_column(alloc, table, *place, condition)? {
            Some(value) => Ok(Some(Key::one(value))),
            None => Ok(None),
        },
        places => fixed_columns(alloc, table, places, condition),
    }
}

/// The key of several columns that a condition fixes.
fn fixed_columns(
    alloc: Global,
    table: &Table,
    places: &[usize],
    condition: &Expr,
) -> Result<Option<Key>, NoMemory>
    ensures key { IfOk result (λ found. found ≡ fixed_key table.now (term_of condition.now) places.now) }
{
    let mut values = Vec::new(alloc);
    let mut left = places;
    'places: while let Some((place, rest)) = left.split_first() {
        let Some(value) = fixed_column(alloc, table, *place, condition)? else {
            return Ok(None);
        };
        push(&mut values, value)?;
        left = rest;
    }
    Ok(Some(Key::new(alloc, Seq::from_vec(values))?))
}

/// The value of the column at a place, where it is the first of its name. It looks at each column before it.
fn fixed_column(
    alloc: Global,
    table: &Table,
    place: usize,
    condition: &Expr,
) -> Result<Option<Value>, NoMemory>
    ensures value { IfOk result (λ found. found ≡ fixed_column table.now place (term_of condition.now) (slice_get table.now.columns place)) }
{
    let columns = table.columns.as_slice();
    let Some(column) = columns.get(place) else {
        return Ok(None);
    };
    if is_column(&columns[..place], &column.name) {
        return Ok(None);
    }
    fixed_in(alloc, &table.name, column, condition)
}

/// The value of a column that a condition fixes. It looks at each equation of the conjunction.
#[cycle(fixing)]
fn fixed_in(
    alloc: Global,
    table: &Name,
    column: &Column,
    expr: &Expr,
) -> Result<Option<Value>, NoMemory>
    ensures value { IfOk result (λ found. found ≡ fixed_in table.now column.now (term_of expr.now)) }
{
    match expr {
        Expr::Binary(Binary::And, left, right) => {
            match fixed_in_operand(alloc, table, column, left)? {
                Some(value) => Ok(Some(value)),
                None => fixed_in_operand(alloc, table, column, right),
            }
        }
        Expr::Binary(Binary::Equal, left, right) => {
            match fixed_side(alloc, table, column, left.expr(), right.expr())? {
                Some(value) => Ok(Some(value)),
                None => fixed_side(alloc, table, column, right.expr(), left.expr()),
            }
        }
        Expr::Binary(_, _, _) => Ok(None),
        Expr::Unary(_, _) => Ok(None),
        Expr::Column(_, _) => Ok(None),
        Expr::Literal(_) => Ok(None),
    }
}

#[cycle(fixing)]
fn fixed_in_operand(
    alloc: Global,
    table: &Name,
    column: &Column,
    operand: &Operand,
) -> Result<Option<Value>, NoMemory>
    ensures value { IfOk result (λ found. found ≡ fixed_in table.now column.now operand.now) }
{
    fixed_in(alloc, table, column, operand.expr())
}

fn fixed_side(
    alloc: Global,
    table: &Name,
    column: &Column,
    reference: &Expr,
    constant: &Expr,
) -> Result<Option<Value>, NoMemory>
    ensures value { IfOk result (λ found. found ≡ fixed_side table.now column.now (term_of reference.now) (term_of constant.now)) }
{
    match reference {
        Expr::Column(alias, name) => match constant {
            Expr::Literal(value) => {
                if !is_meant(table, &column.name, alias, name) {
                    return Ok(None);
                }
                Ok(fitted(value.copy(alloc)?, column.kind))
            }
            Expr::Column(_, _) => Ok(None),
            Expr::Unary(_, _) => Ok(None),
            Expr::Binary(_, _, _) => Ok(None),
        },
        Expr::Literal(_) => Ok(None),
        Expr::Unary(_, _) => Ok(None),
        Expr::Binary(_, _, _) => Ok(None),
    }
}

fn is_meant(table: &Name, column: &Name, alias: &Option<Name>, name: &Name) -> bool
    ensures { result ≡ is_meant (Some table.now) column.now alias.now name.now }
{
    if !is_same(column, name) {
        return false;
    }
    match alias {
        None => true,
        Some(alias) => is_same(table, alias),
    }
}
