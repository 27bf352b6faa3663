ghost use Rattle.std.specs.Prelude.{Some};
ghost use Rattle.sr_base_dates.specs.Fitting.{fitted};
ghost use Rattle.sr_eval.specs.Inner.Resolutions.{meaning_at};
ghost use Rattle.sr_eval.specs.Inner.Resolving.{resolution_of};
ghost use Rattle.sr_exec_dml.specs.Inner.Conditions.{Answers};
ghost use Rattle.sr_exec_dml.specs.Storing.{allowed, constant, fitting, stored};

use sr_ast::Expr;
use sr_base::{Copied, Kind, Value};
use sr_base_dates::fit;
use sr_catalog_schema::{Column, DmlFault};
use sr_eval::{EvalFault, Resolved, resolved_value, value_over};
use std::alloc::Global;

/// A value that fits its column, where NULL may be forbidden.
fn allowed(alloc: Global, column: &Column, value: Value) -> Result<Value, DmlFault>
    ensures answer { Answers result (allowed column.now value) }
{
    match value {
        Value::Null => {
            if column.not_null {
                return Err(DmlFault::Null {
                    name: column.name.copy(alloc)?,
                });
            }
            Ok(Value::Null)
        }
        Value::Int(number) => Ok(Value::Int(number)),
        Value::Big(number) => Ok(Value::Big(number)),
        Value::Str(text) => Ok(Value::Str(text)),
        Value::Date(day) => Ok(Value::Date(day)),
    }
}

/// What a column holds for a value: `BadValue` where it does not fit, and then `Null` where NULL may not stand.
#[inline(always)]
pub(crate) fn fitting(alloc: Global, column: &Column, value: Value) -> Result<Value, DmlFault>
    ensures answer { Answers result (fitting column.now (fitted value column.now.kind)) }
{
    if let (Value::Int(number), Kind::Int) = (&value, column.kind) {
        return Ok(Value::Int(*number));
    }
    match fit(value, column.kind) {
        Ok(held) => allowed(alloc, column, held),
        Err(_) => Err(DmlFault::BadValue {
            name: column.name.copy(alloc)?,
        }),
    }
}

/// What a column holds for the value of a constant, NULL in the place of a truth: `Overflow` where there is none, and then as `fitting`.
#[tactic(auto, using(crate::proofs::Readied::stored_value))]
pub(crate) fn stored(alloc: Global, column: &Column, expr: &Expr) -> Result<Value, DmlFault>
    ensures answer { Answers result (stored column.now (constant (Some expr.now))) }
{
    match value_over(alloc, expr, &[]) {
        Ok(value) => fitting(alloc, column, value),
        Err(EvalFault::Overflow) => Err(DmlFault::Overflow),
        Err(EvalFault::Memory) => Err(DmlFault::Memory),
    }
}

/// The same of an expression over a row, its names resolved.
#[inline(always)]
pub(crate) fn stored_at(
    alloc: Global,
    column: &Column,
    row: &[Value],
    resolved: &Resolved,
) -> Result<Value, DmlFault>
    ensures answer { Answers result (stored column.now (meaning_at row.now (resolution_of resolved.now))) }
{
    match resolved_value(alloc, resolved, &row) {
        Ok(value) => fitting(alloc, column, value),
        Err(EvalFault::Overflow) => Err(DmlFault::Overflow),
        Err(EvalFault::Memory) => Err(DmlFault::Memory),
    }
}
