//! Standard output as the lines' sink. It keeps no bytes back, so what it says that it took, the system took.
ghost use Rattle.std.specs.Prelude.{◌-◌, ◌≤◌, ◌<◌, [], false, length, IfOk};

use crate::telling::told;
use crate::waiting::pause;
use sr_site::{Failed, Sink};
use std::io::{self, ErrorKind, Print};
use std::rt::Runtime;

/// Standard output.
#[derive(Drop)]
pub struct HostSink<R: Runtime> {
    rt: R,
    /// How many of its writes have failed; it stands still at its end.
    faults: u64,
}

impl<R: Runtime> HostSink<R> {
    /// Standard output, where each write is a call of the system.
    pub fn new(rt: R) -> HostSink<R> {
        HostSink { rt, faults: 0 }
    }
}

impl<R: Runtime> Sink for HostSink<R> {
    ghost seen = { λ s. record { observable = false; taken = []; faults = s.faults } };

    fn write(&mut self, bytes: &[u8]) -> Result<usize, Failed> {
        match told(&self.rt, "standard output", write_some(&self.rt, bytes)) {
            Ok(count) => Ok(count),
            Err(_) => {
                self.faults = self.faults.saturating_add(1);
                Err(Failed)
            }
        }
    }
}

/// Writes once, and takes at least a byte of a piece that is not empty. Where the output would have to be waited for and does not wait itself,
/// the write is made again behind a pause.
fn write_some<R: Runtime>(rt: &R, bytes: &[u8]) -> io::Result<usize>
    ensures within { IfOk result (λ n. n ≤ length bytes.now) }
    ensures some { 0 < length bytes.now → IfOk result (λ n. 0 < n) }
{
    let mut length = 1;
    for _ in 0..u64::MAX {
        match rt.write_some(bytes) {
            Ok(count) if 0 < count || bytes.is_empty() => return Ok(count),
            Ok(_) => return Err(io::Error::from(ErrorKind::WriteZero)),
            Err(fault) => match fault.kind() {
                ErrorKind::WouldBlock => length = pause(rt, length),
                ErrorKind::Interrupted => {}
                _ => return Err(fault),
            },
        }
    }
    Err(io::Error::from(ErrorKind::Interrupted))
}
