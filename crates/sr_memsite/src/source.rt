ghost use Rattle.std.specs.Prelude.{◌≤◌, length};

use crate::bytes::fill;
use crate::turns::Turns;
use sr_base::NoMemory;
use sr_site::{Failed, Source};
use std::alloc::Global;

/// A script in memory, read from front to back.
#[derive(Drop)]
pub struct MemorySource {
    bytes: Vec<u8>,
    given: usize,
    turns: Turns,
    faults: u64,
    ghost within: { given ≤ length bytes.items },
}

impl MemorySource {
    ghost use Rattle.sr_memsite.specs.Inner.Numbering.{failing_at};
    ghost use Rattle.std.specs.Prelude.{◌≡◌, [], true, OnOk, OnErr};
    ghost use Rattle.sr_memsite.specs.Inner.Streams.{input_of, source_numbering};

    /// A source that has these bytes left. No call fails.
    pub fn new(bytes: Vec<u8>) -> MemorySource
        ensures seen { input_of result ≡ record { observable = true; left = bytes.items; faults = 0 } }
        ensures numbering { source_numbering result ≡ failing_at [] }
    {
        let turns = Turns::new(*bytes.allocator());
        MemorySource {
            bytes,
            given: 0,
            turns,
            faults: 0,
        }
    }

    /// Makes the calls with these numbers fail. From now on each call of `read` counts one, the first one is 1.
    /// For want of memory all stays as it was.
    pub fn fail_calls(&mut self, alloc: Global, calls: &[u64]) -> Result<(), NoMemory>
        ensures numbering { OnOk result (source_numbering self.new ≡ failing_at calls.now) }
        ensures err { OnErr result (source_numbering self.new ≡ source_numbering self.old) }
        ensures seen { input_of self.new ≡ input_of self.old }
    {
        self.turns = Turns::failing(alloc, calls)?;
        Ok(())
    }
}

impl Source for MemorySource {
    ghost use Rattle.std.specs.Prelude.{◌≡◌, ◌++◌, ◌<◌, [], take, min, IfOk, OnOk, OnErr, is_err};
    ghost use Rattle.sr_site.specs.Causes.{Rose};
    ghost use Rattle.sr_site.specs.Streams.{InputStays};
    ghost use Rattle.sr_memsite.specs.Inner.Streams.{input_of, left_of, source_numbering, source_faults};
    ghost use Rattle.sr_memsite.specs.Inner.Numbering.{fails, counted};

    ghost seen = { input_of };

    /// It gives what the buffer holds, or all that is left.
    fn read(&mut self, buffer: &mut [u8]) -> Result<usize, Failed>
        ensures within { IfOk result (λ n. n ≤ length buffer.old) }
        ensures count { IfOk result (λ n. n ≡ min (length buffer.old) (length (left_of self.old))) }
        ensures given { IfOk result (λ n. left_of self.old ≡ take n buffer.new ++ left_of self.new) }
        ensures end { IfOk result (λ n. 0 < length buffer.old → n ≡ 0 → left_of self.new ≡ []) }
        ensures err { OnErr result (left_of self.new ≡ left_of self.old) }
        ensures fails { is_err result ≡ fails (source_numbering self.old) }
        ensures numbering { source_numbering self.new ≡ counted (source_numbering self.old) }
        ensures stays { InputStays (input_of self.old) (input_of self.new) }
        ensures steady { OnOk result (source_faults self.new ≡ source_faults self.old) }
        ensures cause { OnErr result (Rose (source_faults self.old) (source_faults self.new)) }
    {
        if self.turns.next_fails() {
            self.faults = self.faults.saturating_add(1);
            return Err(Failed);
        }
        let (_, left) = self.bytes.as_slice().split_at(self.given);
        let count = fill(buffer, left);
        self.given += count;
        Ok(count)
    }
}
