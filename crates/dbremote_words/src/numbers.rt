//! A number among the words.

ghost use Rattle.std.specs.Prelude.{◌≡◌, ◌≤◌};
ghost use Rattle.dbremote_words.specs.Numbers.{is_digit, number_within};
ghost use Rattle.dbremote_words.specs.Inner.Numbers.{with_digit};

/// Whether a byte is a decimal digit.
fn is_digit(byte: u8) -> bool
    ensures { result ≡ is_digit byte }
{
    b'0' <= byte && byte <= b'9'
}

/// A number with one more digit, where it is no more than `most`.
fn with_digit(most: u64, number: u64, byte: u8) -> Option<u64>
    requires within { number ≤ most }
    ensures more { result ≡ with_digit most number byte }
{
    if !is_digit(byte) || number > most / 10 {
        return None;
    }
    let tens = number * 10;
    let digit = u64::from(byte - b'0');
    if digit > most - tens {
        return None;
    }
    Some(tens + digit)
}

/// The number that a word is in decimal digits, without a sign and without a leading zero, 0 itself aside, where it is from `least` to `most`.
#[tactic(auto, using(crate::proofs::Digits::of_digits))]
pub(crate) fn number_within(least: u64, most: u64, word: &[u8]) -> Option<u64>
    ensures number { result ≡ number_within least most word.now }
{
    let Some((first, rest)) = word.split_first() else {
        return None;
    };
    if *first == b'0' && rest.len() > 0 {
        return None;
    }
    let mut number = 0;
    let mut left = word;
    'digits: while let Some((byte, more)) = left.split_first() {
        let Some(next) = with_digit(most, number, *byte) else {
            return None;
        };
        number = next;
        left = more;
    }
    if number < least {
        return None;
    }
    Some(number)
}
