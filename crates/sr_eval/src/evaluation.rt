ghost use Rattle.std.specs.Prelude.{◌≡◌, IsTrue};
ghost use Rattle.sr_ast.specs.Exprs.{term_of};
ghost use Rattle.sr_ast.specs.Classes.{class_in};
ghost use Rattle.sr_ast.specs.Uses.{gives_value, gives_truth};
ghost use Rattle.sr_eval.specs.Bounds.{IsRowOf};
ghost use Rattle.sr_eval.specs.Inner.Bounds.{AreRows, columns_of, values_of};
ghost use Rattle.sr_eval.specs.Meanings.{meaning, is_true};
ghost use Rattle.sr_eval.specs.Inner.Meanings.{IsEvaluated, IsHeld};
ghost use Rattle.sr_eval.specs.Inner.Worths.{meant};
ghost use Rattle.sr_eval.specs.Meanings.Meaning.{value as a_value};

use crate::bound::Bound;
use crate::fault::EvalFault;
use crate::judging::judged;
use crate::meaning::meaning;
use crate::truth::Truth;
use crate::worth::Worth;
use sr_ast::Expr;
use sr_base::{Copied, Value};
use std::alloc::Global;
use std::slice;

/// The value of an expression over a row.
///
/// It is NULL where an operand of arithmetic is. `Overflow` exactly where a number passes the end of its type anywhere in the
/// expression. A text is copied; nothing else takes memory. Each column that is named takes one pass over the scope.
#[tactic(auto, using(crate::proofs::Sources::of_one_source))]
pub fn eval(alloc: Global, expr: &Expr, row: &Bound) -> Result<Value, EvalFault>
    requires typed { IsTrue (gives_value (class_in row.now.scope.now (term_of expr.now))) }
    requires fits { IsRowOf row.now.scope.now row.now.values.now }
    ensures value { IsEvaluated result (meaning row.now.scope.now row.now.values.now (term_of expr.now)) }
{
    eval_over(alloc, expr, slice::from_ref(row))
}

/// The value of an expression over several sources, each with a row: as `eval` says, over the columns of all.
///
/// No value is copied but a text that is the answer.
fn eval_over(alloc: Global, expr: &Expr, sources: &[Bound]) -> Result<Value, EvalFault>
    requires typed { IsTrue (gives_value (class_in (columns_of sources.now) (term_of expr.now))) }
    requires fit { AreRows sources.now }
    ensures value { IsEvaluated result (meaning (columns_of sources.now) (values_of sources.now) (term_of expr.now)) }
{
    match meaning(expr, sources) {
        Some(Worth::Held(value)) => held(alloc, value),
        Some(Worth::Made(value)) => Ok(value),
        Some(Worth::Judged(_)) => Ok(Value::Null),
        None => Err(EvalFault::Overflow),
    }
}

/// A copy of a value. Only a text takes memory.
pub(crate) fn held(alloc: Global, value: &Value) -> Result<Value, EvalFault>
    ensures value { IsEvaluated result (Some (a_value value.now)) }
{
    match value {
        Value::Null => Ok(Value::Null),
        Value::Int(number) => Ok(Value::Int(*number)),
        Value::Big(number) => Ok(Value::Big(*number)),
        Value::Str(text) => Ok(Value::Str(text.copy(alloc)?)),
        Value::Date(day) => Ok(Value::Date(*day)),
    }
}

/// Whether a condition is true over a row: not where it is false or unknown.
///
/// `Overflow` exactly where a number passes the end of its type anywhere in the condition, whatever the rest of it is. It
/// takes no memory. Each column that is named takes one pass over the scope.
#[tactic(auto, using(crate::proofs::Sources::of_one_source))]
pub fn holds(_alloc: Global, expr: &Expr, row: &Bound) -> Result<bool, EvalFault>
    requires typed { IsTrue (gives_truth (class_in row.now.scope.now (term_of expr.now))) }
    requires fits { IsRowOf row.now.scope.now row.now.values.now }
    ensures held { IsHeld result (meaning row.now.scope.now row.now.values.now (term_of expr.now)) }
{
    holds_over(expr, slice::from_ref(row))
}

/// Whether a condition is true over several sources, each with a row: as `holds` says, over the columns of all.
fn holds_over(expr: &Expr, sources: &[Bound]) -> Result<bool, EvalFault>
    requires typed { IsTrue (gives_truth (class_in (columns_of sources.now) (term_of expr.now))) }
    requires fit { AreRows sources.now }
    ensures held { IsHeld result (meaning (columns_of sources.now) (values_of sources.now) (term_of expr.now)) }
{
    match judged(expr, sources) {
        Some(truth) => Ok(truth == Truth::True),
        None => Err(EvalFault::Overflow),
    }
}

/// Whether a condition is true over a row: not where it is false or unknown. It is asked of conditions without arithmetic, which always
/// have a value; of another one it is not true where it has none.
///
/// It takes no memory. Each column that is named takes one pass over the scope.
#[tactic(auto, using(crate::proofs::Sources::of_one_source))]
pub fn holds_plain(expr: &Expr, row: &Bound) -> bool
    requires { IsRowOf row.now.scope.now row.now.values.now }
    ensures held { result ≡ is_true (meaning row.now.scope.now row.now.values.now (term_of expr.now)) }
{
    match judged(expr, slice::from_ref(row)) {
        Some(truth) => truth == Truth::True,
        None => false,
    }
}
