ghost use Rattle.std.specs.Prelude.{◌≡◌, ◌≤◌, length, IfOk, IfSome, option_map};
ghost use Rattle.sr_lex.specs.Inner.Reading.{text_rest};

use sr_base::NoMemory;
use std::alloc::Global;

/// The text meant by the bytes behind an opening quote, and how many bytes are left behind its closing quote. `None` where it is
/// never closed.
pub fn text_rest(alloc: Global, bytes: &[u8]) -> Result<Option<(Vec<u8>, usize)>, NoMemory>
    ensures found { IfOk result (λ found. option_map (λ x. (x.0.items, x.1)) found ≡ text_rest bytes.now) }
    ensures left { IfOk result (λ found. IfSome found (λ x. x.1 ≤ length bytes.now)) }
{
    let mut content = Vec::new(alloc);
    let mut rest = bytes;
    'bytes: while let Some((byte, after)) = rest.split_first() {
        if *byte == b'\'' {
            match after.split_first() {
                Some((next, more)) if *next == b'\'' => {
                    content.push(b'\'')?;
                    rest = more;
                    continue 'bytes;
                }
                _ => return Ok(Some((content, after.len()))),
            }
        }
        content.push(*byte)?;
        rest = after;
    }
    Ok(None)
}
