ghost use Rattle.std.specs.Prelude.{◌≡◌};
ghost use Rattle.sr_eval.specs.Numbers.{int_of, big_of, negated, arithmetic};
ghost use Rattle.sr_eval.specs.Inner.Numbers.{function_of};

use sr_base::Value;

/// An operator between two numbers.
#[derive(Clone, Copy)]
pub enum Arithmetic {
    Add,
    Subtract,
    Multiply,
}

/// The value with its sign turned. `None` where the number passes the end of its type; NULL of what is no number.
pub fn negated(value: &Value) -> Option<Value>
    ensures negated { result ≡ negated value.now }
{
    match value {
        Value::Int(number) => Some(Value::Int(number.checked_neg()?)),
        Value::Big(number) => Some(Value::Big(number.checked_neg()?)),
        Value::Null | Value::Str(_) | Value::Date(_) => Some(Value::Null),
    }
}

/// Two INTEGERs give an INTEGER, and with a BIGINT it is a BIGINT. `None` where the number passes the end of its type; NULL
/// where an operand is NULL.
#[inline(always)]
pub fn calculated(operator: Arithmetic, left: &Value, right: &Value) -> Option<Value>
    ensures value { result ≡ arithmetic (function_of operator) left.now right.now }
{
    match (left, right) {
        (Value::Int(a), Value::Int(b)) => int_result(operator, *a, *b),
        (Value::Int(a), Value::Big(b)) => big_result(operator, *a as i64, *b),
        (Value::Big(a), Value::Int(b)) => big_result(operator, *a, *b as i64),
        (Value::Big(a), Value::Big(b)) => big_result(operator, *a, *b),
        _ => Some(Value::Null),
    }
}

#[inline(always)]
fn int_result(operator: Arithmetic, left: i32, right: i32) -> Option<Value>
    ensures value { result ≡ int_of (function_of operator left right) }
{
    let number = match operator {
        Arithmetic::Add => left.checked_add(right),
        Arithmetic::Subtract => left.checked_sub(right),
        Arithmetic::Multiply => left.checked_mul(right),
    };
    Some(Value::Int(number?))
}

fn big_result(operator: Arithmetic, left: i64, right: i64) -> Option<Value>
    ensures value { result ≡ big_of (function_of operator left right) }
{
    let number = match operator {
        Arithmetic::Add => left.checked_add(right),
        Arithmetic::Subtract => left.checked_sub(right),
        Arithmetic::Multiply => left.checked_mul(right),
    };
    Some(Value::Big(number?))
}
