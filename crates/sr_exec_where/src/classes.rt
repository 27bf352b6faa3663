ghost use Rattle.std.specs.Prelude.{◌≡◌, IfOk};
ghost use Rattle.sr_catalog_schema.specs.Members.{scope_of};
ghost use Rattle.sr_exec_where.specs.Checks.{unknown_condition, bad_value, bad_condition};

use sr_ast::{Columns, Expr, class_among, gives_truth, gives_value, unknown_among};
use sr_base::{Copied, Name, NoMemory};
use sr_catalog_schema::Table;
use std::alloc::Global;

/// The leftmost column of a condition that is not there, where there is a condition.
pub fn unknown_condition(
    alloc: Global,
    table: &Table,
    condition: &Option<Expr>,
) -> Result<Option<Name>, NoMemory>
    ensures unknown { IfOk result (λ found. found ≡ unknown_condition (scope_of table.now) condition.now) }
{
    match condition {
        None => Ok(None),
        Some(expr) => unknown_among(alloc, table, expr),
    }
}

/// The column, where an expression that is assigned to it has no class or is a truth.
pub(crate) fn bad_value<C: Columns>(
    alloc: Global,
    columns: &C,
    column: &Name,
    expr: &Expr,
) -> Result<Option<Name>, NoMemory>
    ensures bad { IfOk result (λ found. found ≡ bad_value (C.scope columns.now) column.now expr.now) }
{
    if gives_value(class_among(alloc, columns, expr)?) {
        return Ok(None);
    }
    Ok(Some(column.copy(alloc)?))
}

/// The table, where a condition has no class or is no truth.
pub fn bad_condition(
    alloc: Global,
    table: &Table,
    condition: &Option<Expr>,
) -> Result<Option<Name>, NoMemory>
    ensures bad { IfOk result (λ found. found ≡ bad_condition (scope_of table.now) table.now.name condition.now) }
{
    let Some(expr) = condition else {
        return Ok(None);
    };
    if gives_truth(class_among(alloc, table, expr)?) {
        return Ok(None);
    }
    Ok(Some(table.name.copy(alloc)?))
}
