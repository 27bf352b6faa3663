//! Expressions where a truth is needed.

ghost use Rattle.std.specs.Prelude.{◌≡◌, Some};
ghost use Rattle.std.specs.Option.{option_map};
ghost use Rattle.sr_ast.specs.Exprs.{term_of};
ghost use Rattle.sr_eval.specs.Inner.Bounds.{AreRows, columns_of, values_of};
ghost use Rattle.sr_eval.specs.Comparisons.{comparison};
ghost use Rattle.sr_eval.specs.Inner.Comparisons.{test_of};
ghost use Rattle.sr_eval.specs.Meanings.{meaning, truth_of, of_both, cell_of};
ghost use Rattle.sr_eval.specs.Meanings.Meaning.{truth as a_truth};

use crate::bound::Bound;
use crate::comparison::{Sign, comparison};
use crate::meaning::{lying, meaning};
use crate::truth::Truth;
use sr_ast::{Binary, Expr, Operand, Unary};
use sr_base::Value;

/// The truth of an expression over these sources; of a value it is unknown. `None` where a number passes the end of its type.
///
/// Values that lie in the expression or in a row are compared there.
#[cycle(judging)]
#[tactic(auto, using(crate::proofs::Judgements::not_judged, crate::proofs::Judgements::and_judged, crate::proofs::Judgements::or_judged))]
pub fn judged<'a>(expr: &'a Expr, sources: &[Bound<'a>]) -> Option<Truth>
    requires { AreRows sources.now }
    ensures truth { result ≡ option_map truth_of (meaning (columns_of sources.now) (values_of sources.now) (term_of expr.now)) }
{
    match expr {
        Expr::Literal(_) => Some(Truth::Unknown),
        Expr::Column(_, _) => Some(Truth::Unknown),
        Expr::Unary(Unary::Not, operand) => {
            let truth = judged_operand(operand, sources)?;
            Some(truth.negation())
        }
        Expr::Unary(_, _) => judged_whole(expr, sources),
        Expr::Binary(Binary::And, left, right) => {
            let left = judged_operand(left, sources)?;
            let right = judged_operand(right, sources)?;
            Some(left.and(right))
        }
        Expr::Binary(Binary::Or, left, right) => {
            let left = judged_operand(left, sources)?;
            let right = judged_operand(right, sources)?;
            Some(left.or(right))
        }
        Expr::Binary(Binary::Equal, left, right) => compared(Sign::Equal, left, right, sources),
        Expr::Binary(Binary::Unequal, left, right) => compared(Sign::Unequal, left, right, sources),
        Expr::Binary(Binary::Less, left, right) => compared(Sign::Less, left, right, sources),
        Expr::Binary(Binary::AtMost, left, right) => compared(Sign::AtMost, left, right, sources),
        Expr::Binary(Binary::Greater, left, right) => compared(Sign::Greater, left, right, sources),
        Expr::Binary(Binary::AtLeast, left, right) => compared(Sign::AtLeast, left, right, sources),
        Expr::Binary(_, _, _) => judged_whole(expr, sources),
    }
}

#[cycle(judging)]
fn judged_operand<'a>(operand: &'a Operand, sources: &[Bound<'a>]) -> Option<Truth>
    requires { AreRows sources.now }
    ensures truth { result ≡ option_map truth_of (meaning (columns_of sources.now) (values_of sources.now) operand.now) }
{
    judged(operand.expr(), sources)
}

/// The truth of what an expression gives.
fn judged_whole<'a>(expr: &'a Expr, sources: &[Bound<'a>]) -> Option<Truth>
    requires { AreRows sources.now }
    ensures truth { result ≡ option_map truth_of (meaning (columns_of sources.now) (values_of sources.now) (term_of expr.now)) }
{
    let worth = meaning(expr, sources)?;
    Some(worth.truth())
}

/// How two operands compare.
fn compared<'a>(
    sign: Sign,
    left: &'a Operand,
    right: &'a Operand,
    sources: &[Bound<'a>],
) -> Option<Truth>
    requires { AreRows sources.now }
    ensures truth { result ≡ option_map truth_of (of_both (λ a b. Some (a_truth (comparison (test_of sign) (cell_of a) (cell_of b)))) (meaning (columns_of sources.now) (values_of sources.now) left.now) (meaning (columns_of sources.now) (values_of sources.now) right.now)) }
{
    if let Some(value) = lying(left.expr(), sources) {
        if let Some(other) = lying(right.expr(), sources) {
            return Some(comparison(sign, value, other));
        }
    }
    let null = Value::Null;
    let value = meaning(left.expr(), sources)?;
    let other = meaning(right.expr(), sources)?;
    Some(comparison(sign, value.cell(&null), other.cell(&null)))
}
