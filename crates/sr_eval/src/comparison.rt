ghost use Rattle.std.specs.Prelude.{◌≡◌};
ghost use Rattle.sr_eval.specs.Comparisons.{is_null, comparison};
ghost use Rattle.sr_eval.specs.Inner.Comparisons.{test_of};

use crate::truth::Truth;
use sr_base::{Value, compare};
use std::cmp::Ordering;

/// A sign between two values.
#[derive(Clone, Copy)]
pub enum Sign {
    Equal,
    Unequal,
    Less,
    AtMost,
    Greater,
    AtLeast,
}

/// Whether a value is NULL.
pub fn is_null(value: &Value) -> bool
    ensures null { result ≡ is_null value.now }
{
    match value {
        Value::Null => true,
        Value::Int(_) | Value::Big(_) | Value::Str(_) | Value::Date(_) => false,
    }
}

/// Numbers as numbers, texts by bytes, dates by day. NULL compares with nothing, which is unknown.
pub fn comparison(sign: Sign, left: &Value, right: &Value) -> Truth
    ensures truth { result ≡ comparison (test_of sign) left.now right.now }
{
    if let (Value::Int(left), Value::Int(right)) = (left, right) {
        return Truth::known(passes(sign, left.cmp(right)));
    }
    match compare(left, right) {
        Some(order) => Truth::known(passes(sign, order)),
        None => Truth::Unknown,
    }
}

fn passes(sign: Sign, order: Ordering) -> bool
    ensures { result ≡ test_of sign order }
{
    match sign {
        Sign::Equal => order.is_eq(),
        Sign::Unequal => order.is_ne(),
        Sign::Less => order.is_lt(),
        Sign::AtMost => order.is_le(),
        Sign::Greater => order.is_gt(),
        Sign::AtLeast => order.is_ge(),
    }
}
