//! What resolved expressions give over a row, or over a combination of rows.

ghost use Rattle.std.specs.Prelude.{◌≡◌, Some, IfSome, slice_get, unwrap_or};
ghost use Rattle.std.specs.Option.{option_map, option_copied};
ghost use Rattle.sr_eval.specs.Comparisons.{comparison};
ghost use Rattle.sr_eval.specs.Inner.Comparisons.{test_of};
ghost use Rattle.sr_eval.specs.Meanings.{Meaning, binary_meaning, of_both, cell_of, truth_of};
ghost use Rattle.sr_eval.specs.Inner.Meanings.{IsValued, IsHeld};
ghost use Rattle.sr_eval.specs.Meanings.Meaning.{value as a_value, truth as a_truth};
ghost use Rattle.sr_eval.specs.Numbers.{arithmetic};
ghost use Rattle.sr_eval.specs.Inner.Numbers.{function_of};
ghost use Rattle.sr_eval.specs.Inner.Resolutions.{meaning_at};
ghost use Rattle.sr_eval.specs.Inner.Resolving.{resolution_of};
ghost use Rattle.sr_eval.specs.Inner.Worths.{meant};
ghost use Rattle.sr_base.specs.declared.value.Value.TheVariants.{Null};

use crate::comparison::{Sign, comparison};
use crate::fault::EvalFault;
use crate::meaning::{binary_worth, unary_worth};
use crate::number::{Arithmetic, calculated};
use crate::resolved::{Boxed, Operation, Resolved};
use crate::truth::Truth;
use crate::untyped::copied;
use crate::values::Values;
use crate::worth::Worth;
use sr_ast::{Binary, Unary};
use sr_base::Value;
use std::alloc::Global;

/// The value of a resolved expression over these values, NULL in the place of a truth. `Overflow` exactly where a number passes the
/// end of its type anywhere in the expression. A text is copied; nothing else takes memory.
#[inline(always)]
pub fn resolved_value<V: Values>(
    alloc: Global,
    resolved: &Resolved,
    values: &V,
) -> Result<Value, EvalFault>
    ensures value { IsValued result (meaning_at (V.values values.now) (resolution_of resolved.now)) }
{
    if let Some(number) = calculated_at(resolved, values) {
        return number.ok_or(EvalFault::Overflow);
    }
    match meaning_at(resolved, values) {
        Some(Worth::Held(value)) => copied(alloc, value),
        Some(Worth::Made(value)) => Ok(value),
        Some(Worth::Judged(_)) => Ok(Value::Null),
        None => Err(EvalFault::Overflow),
    }
}

/// Whether a resolved expression is true over these values: not where it is false or unknown, and not where it is no truth. `Overflow`
/// exactly where a number passes the end of its type anywhere in it. It takes no memory.
pub fn is_resolved_true<V: Values>(resolved: &Resolved, values: &V) -> Result<bool, EvalFault>
    ensures held { IsHeld result (meaning_at (V.values values.now) (resolution_of resolved.now)) }
{
    match judged_at(resolved, values) {
        Some(truth) => Ok(truth == Truth::True),
        None => Err(EvalFault::Overflow),
    }
}

/// What a resolved expression gives over these values. `None` where a number passes the end of its type.
#[cycle(meaning_at)]
fn meaning_at<'a, V: Values>(resolved: &'a Resolved, values: &'a V) -> Option<Worth<'a>>
    ensures meaning { option_map meant result ≡ meaning_at (V.values values.now) (resolution_of resolved.now) }
{
    match resolved {
        Resolved::Literal(value) => Some(Worth::Held(value)),
        Resolved::Place(place) => Some(place_worth(values, *place)),
        Resolved::Operated(boxed) => operated_meaning(boxed, values),
    }
}

/// What an operator gives of its operands.
#[cycle(meaning_at)]
fn operated_meaning<'a, V: Values>(boxed: &'a Boxed, values: &'a V) -> Option<Worth<'a>>
    ensures meaning { option_map meant result ≡ meaning_at (V.values values.now) boxed.now }
{
    match boxed.operation() {
        Operation::Unary(operator, operand) => {
            let operand = meaning_at(operand, values)?;
            unary_worth(*operator, operand)
        }
        Operation::Binary(operator, left, right) => {
            if let Some(number) = calculated_lying(*operator, left, right, values) {
                return Some(Worth::Made(number?));
            }
            let left = meaning_at(left, values)?;
            let right = meaning_at(right, values)?;
            binary_worth(*operator, left, right)
        }
    }
}

/// What an expression gives that is arithmetic of two values that lie in it or in a row, as most assignments have it. Other expressions are not
/// reckoned here.
#[inline(always)]
fn calculated_at<'a, V: Values>(resolved: &'a Resolved, values: &'a V) -> Option<Option<Value>>
    ensures number { IfSome result (λ number. option_map a_value number ≡ meaning_at (V.values values.now) (resolution_of resolved.now)) }
{
    let Resolved::Operated(boxed) = resolved else {
        return None;
    };
    let Operation::Binary(operator, left, right) = boxed.operation() else {
        return None;
    };
    calculated_lying(*operator, left, right, values)
}

/// What arithmetic gives of two values that lie in the expression or in a row. Other operators, and other operands, are not reckoned here.
#[inline(always)]
fn calculated_lying<'a, V: Values>(
    operator: Binary,
    left: &'a Resolved,
    right: &'a Resolved,
    values: &'a V,
) -> Option<Option<Value>>
    ensures number { IfSome result (λ number. option_map a_value number ≡ of_both (binary_meaning operator) (meaning_at (V.values values.now) (resolution_of left.now)) (meaning_at (V.values values.now) (resolution_of right.now))) }
{
    let operator = arithmetic_of(operator)?;
    let value = lying_at(left, values)?;
    let other = lying_at(right, values)?;
    Some(calculated(operator, value, other))
}

/// The arithmetic that an operator is, if it is any.
fn arithmetic_of(operator: Binary) -> Option<Arithmetic>
    ensures arithmetic { IfSome result (λ found. (a b : Meaning) → binary_meaning operator a b ≡ option_map a_value (arithmetic (function_of found) (cell_of a) (cell_of b))) }
{
    match operator {
        Binary::Add => Some(Arithmetic::Add),
        Binary::Subtract => Some(Arithmetic::Subtract),
        Binary::Multiply => Some(Arithmetic::Multiply),
        Binary::Or
        | Binary::And
        | Binary::Equal
        | Binary::Unequal
        | Binary::Less
        | Binary::AtMost
        | Binary::Greater
        | Binary::AtLeast => None,
    }
}

/// The value at a place, or NULL.
fn place_worth<'a, V: Values>(values: &'a V, place: usize) -> Worth<'a>
    ensures { meant result ≡ a_value (unwrap_or (slice_get (V.values values.now) place) Null) }
{
    match values.value_at(place) {
        Some(value) => Worth::Held(value),
        None => Worth::Made(Value::Null),
    }
}

/// The value of a literal or at a place, where it lies. Other expressions have none that lies anywhere.
fn lying_at<'a, V: Values>(resolved: &'a Resolved, values: &'a V) -> Option<&'a Value>
    ensures value { IfSome (option_copied result) (λ v. meaning_at (V.values values.now) (resolution_of resolved.now) ≡ Some (a_value v)) }
{
    match resolved {
        Resolved::Literal(value) => Some(value),
        Resolved::Place(place) => values.value_at(*place),
        Resolved::Operated(_) => None,
    }
}

/// The truth of a resolved expression over these values; of a value it is unknown. `None` where a number passes the end of its type.
///
/// Values that lie in the expression or in a row are compared there.
#[cycle(judging_at)]
fn judged_at<'a, V: Values>(resolved: &'a Resolved, values: &'a V) -> Option<Truth>
    ensures truth { result ≡ option_map truth_of (meaning_at (V.values values.now) (resolution_of resolved.now)) }
{
    match resolved {
        Resolved::Literal(_) => Some(Truth::Unknown),
        Resolved::Place(_) => Some(Truth::Unknown),
        Resolved::Operated(boxed) => judged_operation(boxed, values),
    }
}

/// The truth of what an operator gives of its operands.
#[cycle(judging_at)]
#[tactic(auto, using(crate::proofs::Judgements::not_judged, crate::proofs::Judgements::and_judged, crate::proofs::Judgements::or_judged))]
fn judged_operation<'a, V: Values>(boxed: &'a Boxed, values: &'a V) -> Option<Truth>
    ensures truth { result ≡ option_map truth_of (meaning_at (V.values values.now) boxed.now) }
{
    match boxed.operation() {
        Operation::Unary(Unary::Not, operand) => {
            let truth = judged_at(operand, values)?;
            Some(truth.negation())
        }
        Operation::Unary(_, _) => judged_whole(boxed, values),
        Operation::Binary(Binary::And, left, right) => {
            let left = judged_at(left, values)?;
            let right = judged_at(right, values)?;
            Some(left.and(right))
        }
        Operation::Binary(Binary::Or, left, right) => {
            let left = judged_at(left, values)?;
            let right = judged_at(right, values)?;
            Some(left.or(right))
        }
        Operation::Binary(Binary::Equal, left, right) => {
            compared(Sign::Equal, left, right, values)
        }
        Operation::Binary(Binary::Unequal, left, right) => {
            compared(Sign::Unequal, left, right, values)
        }
        Operation::Binary(Binary::Less, left, right) => compared(Sign::Less, left, right, values),
        Operation::Binary(Binary::AtMost, left, right) => {
            compared(Sign::AtMost, left, right, values)
        }
        Operation::Binary(Binary::Greater, left, right) => {
            compared(Sign::Greater, left, right, values)
        }
        Operation::Binary(Binary::AtLeast, left, right) => {
            compared(Sign::AtLeast, left, right, values)
        }
        Operation::Binary(_, _, _) => judged_whole(boxed, values),
    }
}

/// The truth of what an operator gives that is no truth by itself.
fn judged_whole<'a, V: Values>(boxed: &'a Boxed, values: &'a V) -> Option<Truth>
    ensures truth { result ≡ option_map truth_of (meaning_at (V.values values.now) boxed.now) }
{
    let worth = operated_meaning(boxed, values)?;
    Some(worth.truth())
}

/// How two operands compare.
fn compared<'a, V: Values>(
    sign: Sign,
    left: &'a Resolved,
    right: &'a Resolved,
    values: &'a V,
) -> Option<Truth>
    ensures truth { result ≡ option_map truth_of (of_both (λ a b. Some (a_truth (comparison (test_of sign) (cell_of a) (cell_of b)))) (meaning_at (V.values values.now) (resolution_of left.now)) (meaning_at (V.values values.now) (resolution_of right.now))) }
{
    if let Some(value) = lying_at(left, values) {
        if let Some(other) = lying_at(right, values) {
            return Some(comparison(sign, value, other));
        }
    }
    let null = Value::Null;
    let value = meaning_at(left, values)?;
    let other = meaning_at(right, values)?;
    Some(comparison(sign, value.cell(&null), other.cell(&null)))
}
