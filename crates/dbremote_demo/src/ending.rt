//! How a run inside the demonstration ended.

ghost use Rattle.std.specs.Prelude.{◌≡◌, ◌⊎◌, true, IfErr, IfNone, IfSome, OnOk};
ghost use Rattle.dbremote_demo.specs.Runs.{IsPrefix, IsLast, ends_line, is_one_line};
ghost use Rattle.dbremote_demo.specs.Inner.Runs.{EndsWith};

use crate::stop::Stop;
use std::alloc::Global;

/// How a run ended that answered this status and wrote these lines.
pub(crate) fn ended(alloc: Global, status: u8, lines: &[u8]) -> Result<(), Stop>
    ensures well { OnOk result ((status ≡ 0) ⊎ (status ≡ 1)) }
    ensures stop { IfErr result (EndsWith status lines.now) }
{
    match status {
        0 | 1 => Ok(()),
        5 | 7 | 8 => Err(Stop::Memory),
        _ => Err(Stop::Run {
            status,
            line: Vec::from_slice(alloc, last_line(lines))?,
        }),
    }
}

/// The last of lines.
#[tactic(auto, using(crate::proofs::Lines::all_left, crate::proofs::Lines::line_less, crate::proofs::Lines::is_last, crate::proofs::Lines::prefix_shorter))]
fn last_line(lines: &[u8]) -> &[u8]
    ensures last { IsLast lines.now result.now }
{
    let mut line = lines;
    'lines: while let Some(rest) = behind_first_line(line) {
        line = rest;
    }
    line
}

/// What stands behind the first line, where there is more than one.
#[tactic(auto, using(crate::proofs::Lines::none_seen, crate::proofs::Lines::byte_less, crate::proofs::Lines::prefix_at, crate::proofs::Lines::all_one))]
fn behind_first_line(lines: &[u8]) -> Option<&[u8]>
    ensures one { IfNone result (is_one_line lines.now ≡ true) }
    ensures more { IfSome result (λ rest. IsPrefix lines.now rest.now) }
{
    let mut left = lines;
    'bytes: while let Some((byte, rest)) = left.split_first() {
        if ends_line(*byte, rest) {
            return Some(rest);
        }
        left = rest;
    }
    None
}

/// Whether a byte is a line feed that something follows.
fn ends_line(byte: u8, rest: &[u8]) -> bool
    ensures { result ≡ ends_line byte rest.now }
{
    match rest.split_first() {
        Some(_) => byte == b'\n',
        None => false,
    }
}
