ghost use Rattle.std.specs.Prelude.{◌≡◌};
ghost use Rattle.std.specs.Option.{ok_or};
ghost use Rattle.sr_base_dates.specs.Fitting.{fitted, fitted_number, fitted_text, fitted_date};

use crate::day_reading::day_of;
use sr_base::{Day, Kind, Text, Value};

/// What a column of this type holds for the value: a number in range of a number column, a text of at most so many bytes,
/// a date or a text `YYYY-MM-DD` that names one; NULL fits every type. `Err` gives back a value that does not fit.
pub fn fit(value: Value, kind: Kind) -> Result<Value, Value>
    ensures fits { result ≡ ok_or (fitted value kind) value }
{
    match value {
        Value::Null => Ok(Value::Null),
        Value::Int(number) => number_in(number as i64, kind).ok_or(Value::Int(number)),
        Value::Big(number) => number_in(number, kind).ok_or(Value::Big(number)),
        Value::Str(text) => text_in(text, kind),
        Value::Date(day) => date_in(day, kind),
    }
}

/// What a column or variable of this type holds for the value, if it fits.
#[tactic(auto, using(crate::proofs::OkOr::given_rules))]
pub fn fitted(value: Value, kind: Kind) -> Option<Value>
    ensures { result ≡ fitted value kind }
{
    match fit(value, kind) {
        Ok(held) => Some(held),
        Err(_) => None,
    }
}

fn number_in(number: i64, kind: Kind) -> Option<Value>
    ensures fits { result ≡ fitted_number number kind }
{
    match kind {
        Kind::Int => match i32::try_from(number) {
            Ok(small) => Some(Value::Int(small)),
            Err(_) => None,
        },
        Kind::Big => Some(Value::Big(number)),
        Kind::Varchar(_) => None,
        Kind::Date => None,
    }
}

fn text_in(text: Text, kind: Kind) -> Result<Value, Value>
    ensures fits { result ≡ ok_or (fitted_text text kind) (Value.Str text) }
{
    match kind {
        Kind::Varchar(limit) => {
            if text.bytes().len() <= limit as usize {
                Ok(Value::Str(text))
            } else {
                Err(Value::Str(text))
            }
        }
        Kind::Date => match day_of(text.bytes()) {
            Some(day) => Ok(Value::Date(day)),
            None => Err(Value::Str(text)),
        },
        Kind::Int => Err(Value::Str(text)),
        Kind::Big => Err(Value::Str(text)),
    }
}

fn date_in(day: Day, kind: Kind) -> Result<Value, Value>
    ensures fits { result ≡ ok_or (fitted_date day kind) (Value.Date day) }
{
    match kind {
        Kind::Date => Ok(Value::Date(day)),
        Kind::Int => Err(Value::Date(day)),
        Kind::Big => Err(Value::Date(day)),
        Kind::Varchar(_) => Err(Value::Date(day)),
    }
}
