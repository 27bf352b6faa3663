//! Standard input as the script's source. It keeps no bytes back: each read is a call of the system.
ghost use Rattle.std.specs.Prelude.{◌-◌, ◌≤◌, [], false, length, IfOk};

use crate::telling::told;
use crate::waiting::pause;
use sr_site::{Failed, Source};
use std::io::{self, ErrorKind, Read};
use std::rt::{Clock, Runtime};

/// Standard input.
#[derive(Drop)]
pub struct HostSource<R: Runtime> {
    rt: R,
    reader: R::Reader,
    /// How many of its reads have failed; it stands still at its end.
    faults: u64,
}

impl<R: Runtime> HostSource<R> {
    /// Standard input, read from where it stands.
    pub fn new(rt: R) -> HostSource<R> {
        let reader = rt.reader();
        HostSource {
            rt,
            reader,
            faults: 0,
        }
    }
}

/// Reads once. A read that a signal broke off is made again; so is one that would have to wait for its input and does not, behind a pause.
fn read_some<C: Clock, T: Read>(clock: &C, reader: &mut T, buffer: &mut [u8]) -> io::Result<usize>
    ensures within { IfOk result (λ n. n ≤ length buffer.old) }
{
    let mut length = 1;
    for _ in 0..u64::MAX {
        match reader.read(buffer) {
            Err(fault) if fault.kind() == ErrorKind::Interrupted => {}
            Err(fault) if fault.kind() == ErrorKind::WouldBlock => length = pause(clock, length),
            answer => return answer,
        }
    }
    Err(io::Error::from(ErrorKind::Interrupted))
}

impl<R: Runtime> Source for HostSource<R> {
    ghost seen = { λ s. record { observable = false; left = []; faults = s.faults } };

    fn read(&mut self, buffer: &mut [u8]) -> Result<usize, Failed> {
        let answer = read_some(&self.rt, &mut self.reader, buffer);
        match told(&self.rt, "standard input", answer) {
            Ok(count) => Ok(count),
            Err(_) => {
                self.faults = self.faults.saturating_add(1);
                Err(Failed)
            }
        }
    }
}
