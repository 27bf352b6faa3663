use crate::turns::Turns;
use sr_base::NoMemory;
use sr_site::{Failed, Sink};
use std::alloc::Global;

/// A sink for lines in memory.
#[derive(Drop)]
pub struct MemorySink {
    bytes: Vec<u8>,
    turns: Turns,
    faults: u64,
}

impl MemorySink {
    ghost use Rattle.sr_memsite.specs.Inner.Numbering.{failing_at};
    ghost use Rattle.std.specs.Prelude.{◌≡◌, [], true, OnOk, OnErr};
    ghost use Rattle.sr_memsite.specs.Inner.Streams.{output_of, taken_of, sink_numbering};

    /// A sink that took no byte so far. No call fails. It takes no memory.
    pub fn new(alloc: Global) -> MemorySink
        ensures seen { output_of result ≡ record { observable = true; taken = []; faults = 0 } }
        ensures numbering { sink_numbering result ≡ failing_at [] }
    {
        MemorySink {
            bytes: Vec::new(alloc),
            turns: Turns::new(alloc),
            faults: 0,
        }
    }

    /// The bytes that it took so far.
    pub fn bytes(&self) -> &[u8]
        ensures bytes { result.now ≡ taken_of self.now }
    {
        self.bytes.as_slice()
    }

    /// Makes the calls with these numbers fail. From now on each call of `write` counts one, the first one is 1.
    /// For want of memory all stays as it was.
    pub fn fail_calls(&mut self, alloc: Global, calls: &[u64]) -> Result<(), NoMemory>
        ensures numbering { OnOk result (sink_numbering self.new ≡ failing_at calls.now) }
        ensures err { OnErr result (sink_numbering self.new ≡ sink_numbering self.old) }
        ensures seen { output_of self.new ≡ output_of self.old }
    {
        self.turns = Turns::failing(alloc, calls)?;
        Ok(())
    }
}

impl Sink for MemorySink {
    ghost use Rattle.std.specs.Prelude.{◌≡◌, ◌⊎◌, ◌++◌, ◌<◌, ◌≤◌, take, length, IsTrue, IfOk, OnOk, OnErr, IsErr};
    ghost use Rattle.sr_site.specs.Causes.{Rose};
    ghost use Rattle.sr_site.specs.Streams.{OutputStays};
    ghost use Rattle.sr_memsite.specs.Inner.Streams.{output_of, taken_of, sink_numbering, sink_faults, IsFull};
    ghost use Rattle.sr_memsite.specs.Inner.Numbering.{fails, counted};

    ghost seen = { output_of };

    /// It takes the whole piece. It fails where it is to fail, and where there is no room for the piece and no memory for more.
    fn write(&mut self, bytes: &[u8]) -> Result<usize, Failed>
        ensures within { IfOk result (λ n. n ≤ length bytes.now) }
        ensures some { 0 < length bytes.now → IfOk result (λ n. 0 < n) }
        ensures whole { IfOk result (λ n. n ≡ length bytes.now) }
        ensures taken { IfOk result (λ n. taken_of self.new ≡ taken_of self.old ++ take n bytes.now) }
        ensures err { OnErr result (taken_of self.new ≡ taken_of self.old) }
        ensures fails { IsTrue (fails (sink_numbering self.old)) → IsErr result }
        ensures only { IsErr result → IsTrue (fails (sink_numbering self.old)) ⊎ IsFull self.old (length bytes.now) }
        ensures numbering { sink_numbering self.new ≡ counted (sink_numbering self.old) }
        ensures stays { OutputStays (output_of self.old) (output_of self.new) }
        ensures steady { OnOk result (sink_faults self.new ≡ sink_faults self.old) }
        ensures cause { OnErr result (Rose (sink_faults self.old) (sink_faults self.new)) }
    {
        if self.turns.next_fails() || self.bytes.extend_from_slice(bytes).is_err() {
            self.faults = self.faults.saturating_add(1);
            return Err(Failed);
        }
        Ok(bytes.len())
    }
}
