ghost use Rattle.std.specs.Prelude.{◌≡◌, ◌≤◌, ◌<◌, [], length, IsTrue, IfOk, IfErr, OnOk, IsErrOf};
ghost use Rattle.sr_site.specs.Streams.{InputStays};
ghost use Rattle.dbremote_command.specs.Inner.Streams.{InputCause};
ghost use Rattle.dbremote_command.specs.declared.stream.InputFault.TheVariants.{Memory as memory, TooLong as too_long};
ghost use Rattle.dbremote_command.specs.Limits.{most_script};

use sr_site::{Failed, Source};
use std::alloc::{AllocError, AllocFailed, Global};

/// The longest script, in bytes: 64 MiB.
const LONGEST_SCRIPT: usize = 67108864;

/// Why no script was read.
#[derive(Clone, Copy)]
pub enum InputFault {
    Source,
    /// The source has more than the longest script.
    TooLong,
    Memory,
}

impl From<AllocError> for InputFault {
    ghost from_gives = { λ _ e. e ≡ memory };

    fn from(_refused: AllocError) -> InputFault {
        InputFault::Memory
    }
}

impl<T: Drop> From<AllocFailed<T>> for InputFault {
    ghost from_gives = { λ _ e. e ≡ memory };

    fn from(_refused: AllocFailed<T>) -> InputFault {
        InputFault::Memory
    }
}

/// Reads the source to its end, in pieces of 64 KiB.
///
/// `TooLong` comes where it gave more than the longest script.
pub fn read_all<I: Source>(alloc: Global, source: &mut I) -> Result<Vec<u8>, InputFault>
    ensures all { IsTrue ((I.seen source.old).observable) → IfOk result (λ text. ((I.seen source.old).left ≡ text.items) × ((I.seen source.new).left ≡ [])) }
    ensures short { IfOk result (λ text. length text.items ≤ most_script) }
    ensures long { IsTrue ((I.seen source.old).observable) → IsErrOf result too_long → most_script < length ((I.seen source.old).left) }
    ensures stays { InputStays (I.seen source.old) (I.seen source.new) }
    ensures steady { OnOk result ((I.seen source.new).faults ≡ (I.seen source.old).faults) }
    ensures cause { IfErr result (InputCause ((I.seen source.old).faults) ((I.seen source.new).faults)) }
{
    let mut text = Vec::new(alloc);
    let mut buffer = Vec::with_capacity(alloc, 65536)?;
    buffer.resize(65536, 0u8)?;
    'pieces: for _ in 0..=LONGEST_SCRIPT {
        let count = match source.read(buffer.as_mut_slice()) {
            Ok(count) => count,
            Err(Failed) => return Err(InputFault::Source),
        };
        if count == 0 {
            return Ok(text);
        }
        let (piece, _) = buffer.as_slice().split_at(count);
        if piece.len() > LONGEST_SCRIPT - text.len() {
            return Err(InputFault::TooLong);
        }
        text.extend_from_slice(piece)?;
    }
    Err(InputFault::TooLong)
}
