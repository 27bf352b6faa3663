ghost use Rattle.std.specs.Prelude.{◌≡◌, Some, IfSome, unwrap_or};
ghost use Rattle.std.specs.Option.{option_map, option_copied};
ghost use Rattle.sr_ast.specs.Exprs.{term_of};
ghost use Rattle.sr_eval.specs.Inner.Bounds.{AreRows, columns_of, values_of};
ghost use Rattle.sr_eval.specs.Meanings.{meaning, unary_meaning, binary_meaning, cell_of, value_meant, found_at};
ghost use Rattle.sr_eval.specs.Meanings.Meaning.{value as a_value, truth as a_truth};
ghost use Rattle.sr_eval.specs.Comparisons.{comparison};
ghost use Rattle.sr_eval.specs.Inner.Comparisons.{test_of};
ghost use Rattle.sr_eval.specs.Numbers.{arithmetic};
ghost use Rattle.sr_eval.specs.Inner.Numbers.{function_of};
ghost use Rattle.sr_eval.specs.Inner.Worths.{meant};

use crate::bound::Bound;
use crate::comparison::{Sign, comparison, is_null};
use crate::number::{Arithmetic, calculated, negated};
use crate::truth::Truth;
use crate::worth::Worth;
use sr_ast::{Binary, Expr, Operand, Unary, is_meant};
use sr_base::{Name, Value};

/// What the expression gives over these sources. `None` where a number passes the end of its type.
#[cycle(meaning)]
pub fn meaning<'a>(expr: &'a Expr, sources: &[Bound<'a>]) -> Option<Worth<'a>>
    requires { AreRows sources.now }
    ensures meaning { option_map meant result ≡ meaning (columns_of sources.now) (values_of sources.now) (term_of expr.now) }
{
    match expr {
        Expr::Literal(value) => Some(Worth::Held(value)),
        Expr::Column(table, name) => Some(column_worth(sources, table, name)),
        Expr::Unary(operator, operand) => {
            let operand = operand_meaning(operand, sources)?;
            unary_worth(*operator, operand)
        }
        Expr::Binary(operator, left, right) => {
            let left = operand_meaning(left, sources)?;
            let right = operand_meaning(right, sources)?;
            binary_worth(*operator, left, right)
        }
    }
}

#[cycle(meaning)]
fn operand_meaning<'a>(operand: &'a Operand, sources: &[Bound<'a>]) -> Option<Worth<'a>>
    requires { AreRows sources.now }
    ensures meaning { option_map meant result ≡ meaning (columns_of sources.now) (values_of sources.now) operand.now }
{
    meaning(operand.expr(), sources)
}

/// The value of the first column that a name means; NULL where none is meant.
fn column_worth<'a>(sources: &[Bound<'a>], table: &Option<Name>, name: &Name) -> Worth<'a>
    requires { AreRows sources.now }
    ensures { meant result ≡ a_value (value_meant (columns_of sources.now) (values_of sources.now) table.now name.now) }
{
    match column_value(sources, table, name) {
        Some(value) => Worth::Held(value),
        None => Worth::Made(Value::Null),
    }
}

/// The value of the first column that a name means, where it lies: one pass over the columns.
fn column_value<'a>(sources: &[Bound<'a>], table: &Option<Name>, name: &Name) -> Option<&'a Value>
    requires { AreRows sources.now }
    ensures value { value_meant (columns_of sources.now) (values_of sources.now) table.now name.now ≡ unwrap_or (option_copied result) Value.Null }
{
    let Some((source, after)) = sources.split_first() else {
        return None;
    };
    match value_in(source, table, name) {
        Some(value) => Some(value),
        None => column_value(after, table, name),
    }
}

/// The value of a literal or of a column, where it lies. Other expressions have none that lies anywhere.
pub fn lying<'a>(expr: &'a Expr, sources: &[Bound<'a>]) -> Option<&'a Value>
    requires { AreRows sources.now }
    ensures value { IfSome (option_copied result) (λ v. meaning (columns_of sources.now) (values_of sources.now) (term_of expr.now) ≡ Some (a_value v)) }
{
    match expr {
        Expr::Literal(value) => Some(value),
        Expr::Column(table, name) => column_value(sources, table, name),
        Expr::Unary(_, _) => None,
        Expr::Binary(_, _, _) => None,
    }
}

/// The value of the first column of a source that a name means.
fn value_in<'a>(source: &Bound<'a>, table: &Option<Name>, name: &Name) -> Option<&'a Value>
    ensures found { option_copied result ≡ found_at source.now.scope.now source.now.values.now table.now name.now }
{
    let mut columns_left = source.scope.as_slice();
    let mut values_left = source.values;
    'columns: while let Some((column, columns_after)) = columns_left.split_first() {
        let Some((value, values_after)) = values_left.split_first() else {
            return None;
        };
        if is_meant(&column.0, &column.1, table, name) {
            return Some(value);
        }
        columns_left = columns_after;
        values_left = values_after;
    }
    None
}

pub(crate) fn unary_worth<'a>(operator: Unary, operand: Worth<'a>) -> Option<Worth<'a>>
    ensures { option_map meant result ≡ unary_meaning operator (meant operand.entry) }
{
    let null = Value::Null;
    match operator {
        Unary::Not => Some(Worth::Judged(operand.truth().negation())),
        Unary::IsNull => Some(Worth::Judged(Truth::known(is_null(operand.cell(&null))))),
        Unary::IsNotNull => Some(Worth::Judged(Truth::known(!is_null(operand.cell(&null))))),
        Unary::Negate => Some(Worth::Made(negated(operand.cell(&null))?)),
    }
}

pub(crate) fn binary_worth<'a>(
    operator: Binary,
    left: Worth<'a>,
    right: Worth<'a>,
) -> Option<Worth<'a>>
    ensures { option_map meant result ≡ binary_meaning operator (meant left.entry) (meant right.entry) }
{
    match operator {
        Binary::Or => Some(Worth::Judged(left.truth().or(right.truth()))),
        Binary::And => Some(Worth::Judged(left.truth().and(right.truth()))),
        Binary::Equal => Some(compared(Sign::Equal, left, right)),
        Binary::Unequal => Some(compared(Sign::Unequal, left, right)),
        Binary::Less => Some(compared(Sign::Less, left, right)),
        Binary::AtMost => Some(compared(Sign::AtMost, left, right)),
        Binary::Greater => Some(compared(Sign::Greater, left, right)),
        Binary::AtLeast => Some(compared(Sign::AtLeast, left, right)),
        Binary::Add => made(Arithmetic::Add, left, right),
        Binary::Subtract => made(Arithmetic::Subtract, left, right),
        Binary::Multiply => made(Arithmetic::Multiply, left, right),
    }
}

fn compared<'a>(sign: Sign, left: Worth<'a>, right: Worth<'a>) -> Worth<'a>
    ensures { meant result ≡ a_truth (comparison (test_of sign) (cell_of (meant left.entry)) (cell_of (meant right.entry))) }
{
    let null = Value::Null;
    Worth::Judged(comparison(sign, left.cell(&null), right.cell(&null)))
}

fn made<'a>(operator: Arithmetic, left: Worth<'a>, right: Worth<'a>) -> Option<Worth<'a>>
    ensures { option_map meant result ≡ option_map a_value (arithmetic (function_of operator) (cell_of (meant left.entry)) (cell_of (meant right.entry))) }
{
    let null = Value::Null;
    let number = calculated(operator, left.cell(&null), right.cell(&null))?;
    Some(Worth::Made(number))
}
