//! Expressions of whatever class: what they give where a value is needed, and where a truth is.

ghost use Rattle.std.specs.Prelude.{Some};
ghost use Rattle.sr_ast.specs.Exprs.{term_of};
ghost use Rattle.sr_eval.specs.Inner.Bounds.{AreRows, columns_of, values_of};
ghost use Rattle.sr_eval.specs.Meanings.{meaning};
ghost use Rattle.sr_eval.specs.Inner.Meanings.{IsValued, IsHeld};
ghost use Rattle.sr_eval.specs.Meanings.Meaning.{value as a_value};

use crate::bound::Bound;
use crate::evaluation::held;
use crate::fault::EvalFault;
use crate::judging::judged;
use crate::meaning::meaning;
use crate::truth::Truth;
use crate::worth::Worth;
use sr_ast::Expr;
use sr_base::Value;
use std::alloc::Global;

/// The value of an expression over several sources, NULL in the place of a truth. `Overflow` exactly where a number passes the end of
/// its type anywhere in the expression.
pub fn value_over(alloc: Global, expr: &Expr, sources: &[Bound]) -> Result<Value, EvalFault>
    requires fit { AreRows sources.now }
    ensures value { IsValued result (meaning (columns_of sources.now) (values_of sources.now) (term_of expr.now)) }
{
    match meaning(expr, sources) {
        Some(Worth::Held(value)) => copied(alloc, value),
        Some(Worth::Made(value)) => Ok(value),
        Some(Worth::Judged(_)) => Ok(Value::Null),
        None => Err(EvalFault::Overflow),
    }
}

/// A copy of a value.
pub(crate) fn copied(alloc: Global, value: &Value) -> Result<Value, EvalFault>
    ensures value { IsValued result (Some (a_value value.now)) }
{
    match held(alloc, value) {
        Ok(copy) => Ok(copy),
        Err(EvalFault::Overflow) => Err(EvalFault::Overflow),
        Err(EvalFault::Memory) => Err(EvalFault::Memory),
    }
}

/// Whether an expression is true over several sources: not where it is false or unknown, and not where it is no truth. `Overflow`
/// exactly where a number passes the end of its type anywhere in it. It takes no memory.
pub fn is_true_over(expr: &Expr, sources: &[Bound]) -> Result<bool, EvalFault>
    requires fit { AreRows sources.now }
    ensures held { IsHeld result (meaning (columns_of sources.now) (values_of sources.now) (term_of expr.now)) }
{
    match judged(expr, sources) {
        Some(truth) => Ok(truth == Truth::True),
        None => Err(EvalFault::Overflow),
    }
}
