ghost use Rattle.std.specs.Prelude.{◌≡◌, ◌≤◌, length};
ghost use Rattle.sr_lex.specs.Inner.Reading.{after_gap, after_line};

use crate::bytes::{begins_dash, is_blank};

/// What follows the white space and comments at the front. A comment begins with `--` and ends before the line's end.
pub fn after_gap(bytes: &[u8]) -> &[u8]
    ensures { result.now ≡ after_gap bytes.now }
{
    let mut rest = bytes;
    'bytes: while let Some((byte, after)) = rest.split_first() {
        if is_blank(*byte) {
            rest = after;
        } else if *byte == b'-' && begins_dash(after) {
            rest = line_end(after);
        } else {
            return rest;
        }
    }
    rest
}

/// The bytes from the first line feed on, none where there is no line feed.
fn line_end(bytes: &[u8]) -> &[u8]
    ensures same { after_gap result.now ≡ after_line bytes.now }
    ensures shorter { length result.now ≤ length bytes.now }
{
    let mut rest = bytes;
    'bytes: while let Some((byte, after)) = rest.split_first() {
        if *byte == b'\n' {
            return rest;
        }
        rest = after;
    }
    rest
}
