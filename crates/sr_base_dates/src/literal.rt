ghost use Rattle.std.specs.Prelude.{◌≡◌, ◌+◌, ◌%◌, ◌++◌, ◌∷◌, [], pos, ◌+ℤ◌, unsigned_abs, IfOk, OnOk, OnErr};
ghost use Rattle.sr_base_dates.specs.Calendar.{civil, date_at, date_text};
ghost use Rattle.std.specs.Fmt.{signed_decimal};
ghost use Rattle.sr_base_dates.specs.Literals.{literal, quotes_doubled};

use jiff_core::civil::Date;
use sr_base::{Day, NoMemory, Value};
use std::alloc::Global;

/// Appends a value as SQL writes it: `NULL`, a decimal number, a text in quotes with each quote in it twice, a date as
/// `YYYY-MM-DD`.
pub fn write_literal(alloc: Global, value: &Value, out: &mut Vec<u8>) -> Result<(), NoMemory>
    ensures ok { OnOk result (out.new.items ≡ out.old.items ++ literal value.now) }
    ensures err { OnErr result (out.new.items ≡ out.old.items) }
{
    match value {
        Value::Null => out.extend_from_slice(b"NULL"),
        Value::Int(number) => write_number(alloc, *number as i64, out),
        Value::Big(number) => write_number(alloc, *number, out),
        Value::Str(text) => {
            let quoted = quoted(alloc, text.bytes())?;
            out.extend_from_slice(quoted.as_slice())
        }
        Value::Date(day) => out.extend_from_slice(&date_bytes(*day)),
    }
}

fn write_number(alloc: Global, number: i64, out: &mut Vec<u8>) -> Result<(), NoMemory>
    ensures ok { OnOk result (out.new.items ≡ out.old.items ++ signed_decimal number) }
    ensures err { OnErr result (out.new.items ≡ out.old.items) }
{
    let digits = number.to_string(alloc)?;
    out.extend_from_slice(digits.as_bytes())
}

fn quoted(alloc: Global, bytes: &[u8]) -> Result<Vec<u8>, NoMemory>
    ensures quoted { IfOk result (λ q. q.items ≡ 39 ∷ quotes_doubled bytes.now ++ 39 ∷ []) }
{
    let mut quoted = Vec::new(alloc);
    quoted.push(b'\'')?;
    'bytes: for byte in bytes {
        if *byte == b'\'' {
            quoted.push(b'\'')?;
        }
        quoted.push(*byte)?;
    }
    quoted.push(b'\'')?;
    Ok(quoted)
}

fn date_bytes(day: Day) -> [u8; 10]
    ensures text { result ≡ date_text day }
{
    let (year, month, day) = date_parts(day);
    let century = year / 100;
    [
        digit(century / 10),
        digit(century),
        digit(year / 10),
        digit(year),
        b'-',
        digit(month as u16 / 10),
        digit(month as u16),
        b'-',
        digit(day as u16 / 10),
        digit(day as u16),
    ]
}

fn digit(number: u16) -> u8
    ensures digit { result ≡ 48 + number % 10 }
{
    b'0' + (number % 10) as u8
}

fn date_parts(day: Day) -> (u16, u8, u8)
    ensures date { civil result.0 result.1 result.2 ≡ date_at (unsigned_abs (day +ℤ pos 719162)) }
{
    let date = Date::from_days_since_min((day.days() + 4_371_587) as u32);
    (date.year as u16, date.month, date.day)
}
