ghost use Rattle.std.specs.Prelude.{◌≡◌};
ghost use Rattle.sr_lex.specs.Tokens.{is_blank, is_start, is_part, is_digit, is_quote, is_dash, begins};

/// White space: space, tab, carriage return or line feed.
pub fn is_blank(byte: u8) -> bool
    ensures { result ≡ is_blank byte }
{
    byte == b' ' || byte == b'\t' || byte == b'\r' || byte == b'\n'
}

/// What a word begins with.
pub fn is_start(byte: u8) -> bool
    ensures { result ≡ is_start byte }
{
    (b'a' <= byte && byte <= b'z') || (b'A' <= byte && byte <= b'Z') || byte == b'_'
}

/// What goes on a word.
pub fn is_part(byte: u8) -> bool
    ensures { result ≡ is_part byte }
{
    is_start(byte) || is_digit(byte)
}

/// A digit.
pub fn is_digit(byte: u8) -> bool
    ensures { result ≡ is_digit byte }
{
    b'0' <= byte && byte <= b'9'
}

/// Whether a `-` comes first.
pub fn begins_dash(bytes: &[u8]) -> bool
    ensures { result ≡ begins is_dash bytes.now }
{
    match bytes.split_first() {
        None => false,
        Some((first, _rest)) => *first == b'-',
    }
}
