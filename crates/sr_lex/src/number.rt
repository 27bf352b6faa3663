ghost use Rattle.std.specs.Prelude.{◌≡◌, ◌+◌, ◌-◌, ◌*◌, ◌≤◌, min};
ghost use Rattle.sr_lex.specs.Tokens.{number};

/// 2^63, the greatest number of a script.
pub const TOP: u64 = 9223372036854775808;

/// The first number past it.
pub const PAST: u64 = 9223372036854775809;

/// From here on ten times a number is past 2^63.
const LARGE: u64 = 1000000000000000000;

/// The number that the digits spell, or `PAST` where it is past 2^63.
pub fn number_up_to_past(digits: &[u8]) -> u64
    ensures { result ≡ min (number digits.now) PAST }
{
    let mut so_far: u64 = 0;
    for digit in digits {
        so_far = with_digit(so_far, *digit);
    }
    so_far
}

/// The number with one more digit.
fn with_digit(so_far: u64, digit: u8) -> u64
    requires { so_far ≤ PAST }
    ensures { result ≡ min (10 * so_far + (digit - 48)) PAST }
{
    let value = if digit < b'0' { 0 } else { digit - b'0' };
    if so_far > LARGE {
        return PAST;
    }
    let more = 10 * so_far + u64::from(value);
    if more > PAST { PAST } else { more }
}
