ghost use Rattle.std.specs.Prelude.{◌≡◌, IfOk};
ghost use Rattle.sr_logfile.specs.Records.{IsBody, IsFramed, body_of};

use sr_base::NoMemory;
use std::alloc::Global;

/// The bytes of a record as `LogFile::commit` takes them: the body's length as four bytes, the body, and one byte 0, a closed gate.
/// A body has 1 byte to 64 MiB.
pub fn frame(alloc: Global, body: &[u8]) -> Result<Vec<u8>, NoMemory>
    requires body { IsBody body.now }
    ensures framed { IfOk result (λ framed. IsFramed framed.items) }
    ensures body { IfOk result (λ framed. body_of framed.items ≡ body.now) }
{
    let mut framed = Vec::with_capacity(alloc, body.len() + 5)?;
    framed.extend_from_slice(&(body.len() as u32).to_be_bytes())?;
    framed.extend_from_slice(body)?;
    framed.push(0)?;
    Ok(framed)
}
