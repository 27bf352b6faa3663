//! INSERT.

ghost use Rattle.std.specs.Prelude.{◌≡◌, map, IfOk, OnOk};
ghost use Rattle.std.specs.Option.{option_copied, option_map};
ghost use Rattle.sr_ast.specs.Exprs.{term_of};
ghost use Rattle.sr_exec_where.specs.Naming.{names_of};
ghost use Rattle.sr_resolve_triggers.specs.Actions.{after_insert, given, row_made, term_for, value_in, with_inserted};
ghost use Rattle.sr_resolve_triggers.specs.Inner.Running.{update_conflict_of, IsReady, Went};
ghost use Rattle.sr_resolve_triggers.specs.Bindings.{UpdateConflictFits, BindingsFits};

use crate::bindings::Bindings;
use crate::columns::held_by;
use crate::conflict::Conflict;
use crate::running::{Running, value};
use sr_ast::Expr;
use sr_base::{Name, NoMemory, Row, Seq, Value};
use sr_catalog::{HasName, Table};
use sr_exec_where::key_of;
use std::alloc::Global;

/// INSERT into a table. It fails where a value passes its type's end, does not fit, or is a NULL that may not stand, and where the key is
/// held: by a row from before the update, that of the update too, or by one that a trigger has inserted.
#[tactic(auto, unfolding(crate::specs::Actions::after_insert))]
pub(crate) fn insert(
    alloc: Global,
    running: &Running,
    bindings: &mut Bindings,
    table: &Name,
    columns: &[Name],
    exprs: &[Expr],
) -> Result<bool, NoMemory>
    requires ready { IsReady running.now }
    requires base { UpdateConflictFits (update_conflict_of running.now.conflict) }
    requires bindings { BindingsFits (update_conflict_of running.now.conflict) running.now.trigger.now.variables bindings.old }
    ensures inserted { IfOk result (λ went. Went went bindings.new (after_insert (update_conflict_of running.now.conflict) running.now.trigger.now table.now columns.now
        (map term_of exprs.now) bindings.old)) }
    ensures bindings { OnOk result (BindingsFits (update_conflict_of running.now.conflict) running.now.trigger.now.variables bindings.new) }
{
    let Some(into) = running.conflict.catalog.table(table) else {
        return Ok(false);
    };
    match row_made(alloc, running, bindings, into, columns, exprs)? {
        Some(row) => put(alloc, &running.conflict, bindings, into, row),
        None => Ok(false),
    }
}

/// Puts a row under its key, unless that is held. It takes logarithmic time.
fn put(
    alloc: Global,
    conflict: &Conflict,
    bindings: &mut Bindings,
    table: &Table,
    row: Row,
) -> Result<bool, NoMemory>
    ensures put { IfOk result (λ went. Went went bindings.new (with_inserted (update_conflict_of conflict.now) table.now row bindings.old)) }
    ensures new { OnOk result (bindings.new.new ≡ bindings.old.new) }
    ensures variables { OnOk result (bindings.new.variables ≡ bindings.old.variables) }
{
    let key = key_of(alloc, table.key.as_slice(), row.values())?;
    if conflict.rows.get(&table.name, &key).is_some() || bindings.holds(&table.name, &key) {
        return Ok(false);
    }
    bindings.insert(alloc, table, key, row)?;
    Ok(true)
}

/// The row that an INSERT makes. Each column of the table looks through the columns that are named.
fn row_made(
    alloc: Global,
    running: &Running,
    bindings: &Bindings,
    table: &Table,
    columns: &[Name],
    exprs: &[Expr],
) -> Result<Option<Row>, NoMemory>
    requires ready { IsReady running.now }
    requires base { UpdateConflictFits (update_conflict_of running.now.conflict) }
    requires bindings { BindingsFits (update_conflict_of running.now.conflict) running.now.trigger.now.variables bindings.now }
    ensures row { IfOk result (λ row. row ≡ row_made (value_in (update_conflict_of running.now.conflict) running.now.trigger.now bindings.now)
        (names_of table.now.columns columns.now) (map term_of exprs.now) table.now.columns) }
{
    let mut values = Vec::new(alloc);
    let mut left = table.columns.as_slice();
    'columns: while let Some((column, rest)) = left.split_first() {
        let expr = expr_of(table, columns, exprs, &column.name);
        let value = given(alloc, running, bindings, expr)?;
        let Some(held) = held_by(column, value) else {
            return Ok(None);
        };
        values.push(held)?;
        left = rest;
    }
    Ok(Some(Row::new(alloc, Seq::from_vec(values))?))
}

/// The value of the expression that stands for a column; NULL where none does.
fn given(
    alloc: Global,
    running: &Running,
    bindings: &Bindings,
    expr: Option<&Expr>,
) -> Result<Option<Value>, NoMemory>
    requires ready { IsReady running.now }
    requires base { UpdateConflictFits (update_conflict_of running.now.conflict) }
    requires bindings { BindingsFits (update_conflict_of running.now.conflict) running.now.trigger.now.variables bindings.now }
    ensures given { IfOk result (λ v. v ≡ given (value_in (update_conflict_of running.now.conflict) running.now.trigger.now bindings.now)
        (option_map term_of (option_copied expr.entry))) }
{
    match expr {
        None => Ok(Some(Value::Null)),
        Some(expr) => value(alloc, running, bindings, expr),
    }
}

/// The expression that stands for a column, of the columns that are named, or of all where none is.
fn expr_of<'a>(
    table: &Table,
    columns: &[Name],
    exprs: &'a [Expr],
    column: &Name,
) -> Option<&'a Expr>
    ensures { option_map term_of (option_copied result) ≡ term_for (names_of table.now.columns columns.now) (map term_of exprs.now) column.now }
{
    match columns {
        [] => expr_for(table.columns.as_slice(), exprs, column),
        [_, ..] => expr_for(columns, exprs, column),
    }
}

/// The expression that stands for a column. It looks at each name up to the column's.
fn expr_for<'a, T: HasName>(named: &[T], exprs: &'a [Expr], column: &Name) -> Option<&'a Expr>
    ensures { option_map term_of (option_copied result) ≡ term_for (map T.name_of named.now) (map term_of exprs.now) column.now }
{
    let mut names_left = named;
    let mut left = exprs;
    'names: while let Some((item, names_rest)) = names_left.split_first() {
        let Some((expr, rest)) = left.split_first() else {
            return None;
        };
        if item.name().bytes() == column.bytes() {
            return Some(expr);
        }
        names_left = names_rest;
        left = rest;
    }
    None
}
