ghost use Rattle.std.specs.Prelude.{◌≡◌, ℤ, ◌≤◌, ◌&&◌, if◌then◌else◌, pos, IfSome, Some, None, IsTrue};
ghost use Rattle.std.specs.Option.{SomeIff};
ghost use Rattle.sr_base_dates.specs.Calendar.{civil, is_date, number_of_two, day_named, date_text};
ghost use Rattle.sr_base.specs.Days.{IsDay};
ghost use Rattle.sr_base.specs.Names.{is_digit};
ghost use Rattle.jiff_core.specs.Calendar.{days_from_civil};

use jiff_core::civil::Date;
use sr_base::Day;

/// The day that a text `YYYY-MM-DD` names. `None` where the text is not of this form, where the calendar has no such date,
/// and in the year 0.
#[tactic(auto, using(crate::proofs::DateTexts::reading))]
pub fn day_of(bytes: &[u8]) -> Option<Day>
    ensures day { result ≡ day_named bytes.now }
    ensures text { IfSome result (λ day. date_text day ≡ bytes.now) }
    ensures only { (day : ℤ) → IsDay day → date_text day ≡ bytes.now → result ≡ Some day }
{
    named(bytes)
}

fn named(bytes: &[u8]) -> Option<Day>
    ensures day { result ≡ day_named bytes.now }
{
    let &[a, b, c, d, dash, e, f, later_dash, g, h] = bytes else {
        return None;
    };
    let century = two_digits(a, b)?;
    let year = two_digits(c, d)?;
    let month = two_digits(e, f)?;
    let day = two_digits(g, h)?;
    if dash != b'-' {
        return None;
    }
    if later_dash != b'-' {
        return None;
    }
    calendar_day(100 * (century as u16) + year as u16, month, day)
}

fn two_digits(tens: u8, ones: u8) -> Option<u8>
    ensures number { SomeIff result (IsTrue (is_digit tens && is_digit ones)) (number_of_two tens ones) }
    ensures small { IfSome result (λ number. number ≤ 99) }
{
    if tens.is_ascii_digit() && ones.is_ascii_digit() {
        Some(10 * (tens - b'0') + (ones - b'0'))
    } else {
        None
    }
}

fn calendar_day(year: u16, month: u8, day: u8) -> Option<Day>
    requires year { year ≤ 9999 }
    requires month { month ≤ 99 }
    requires day { day ≤ 99 }
    ensures day { result ≡ (if is_date (civil year month day) then Some (days_from_civil (pos year) month day) else None) }
{
    if year < 1 {
        return None;
    }
    let Ok(date) = Date::new(year as i16, month as i8, day as i8) else {
        return None;
    };
    Day::new(date.to_unix_epoch_day())
}
