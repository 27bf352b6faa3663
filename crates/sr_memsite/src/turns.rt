ghost use Rattle.std.specs.Prelude.{◌≡◌, [], IfOk};
ghost use Rattle.sr_memsite.specs.Inner.Numbering.{failing_at, fails, counted, IsSetOf};

use sr_base::NoMemory;
use std::alloc::Global;
use std::collections::BTreeSet;
use std::marker::Model;

/// How many calls a device has had, and which of them fail.
#[derive(Drop)]
pub struct Turns {
    made: u64,
    calls: Vec<u64>,
    failing: BTreeSet<u64>,
    stop: u64,
}

impl Model for Turns {
    ghost use Rattle.std.specs.Prelude.{ℕ, ◌≡◌};
    ghost use Rattle.sr_memsite.specs.Inner.Numbering.{Numbering, IsSetOf};

    ghost Value = { Numbering };

    ghost view = { λ t. record { made = t.made; failing = t.calls.items; stop = t.stop } };

    ghost invariant = { λ t. IsSetOf t.failing t.calls.items };
}

impl Turns {
    /// No call so far, and none that fails. It takes no memory.
    pub fn new(alloc: Global) -> Turns
        ensures new { result ≡ failing_at [] }
    {
        Turns {
            made: 0,
            calls: Vec::new(alloc),
            failing: BTreeSet::new(alloc),
            stop: u64::MAX,
        }
    }

    /// No call so far; those with the numbers `calls` are to fail.
    pub fn failing(alloc: Global, calls: &[u64]) -> Result<Turns, NoMemory>
        ensures failing { IfOk result (λ turns. turns ≡ failing_at calls.now) }
    {
        Ok(Turns {
            made: 0,
            calls: Vec::from_slice(alloc, calls)?,
            failing: set_of(alloc, calls)?,
            stop: u64::MAX,
        })
    }

    /// No call is made from now on but so many more: all others fail, those that were to fail too.
    pub fn stop_after(&mut self, calls: u64)
        ensures stopped { self.new ≡ record self.old { made = 0; stop = calls } }
    {
        self.made = 0;
        self.stop = calls;
    }

    /// Counts one more call, and tells whether it fails.
    pub fn next_fails(&mut self) -> bool
        ensures fails { result ≡ fails self.old }
        ensures counted { self.new ≡ counted self.old }
    {
        self.made = self.made.saturating_add(1);
        self.failing.contains(&self.made) || self.made > self.stop
    }
}

/// The numbers as a set, so that a call looks its own number up in few steps.
fn set_of(alloc: Global, numbers: &[u64]) -> Result<BTreeSet<u64>, NoMemory>
    ensures set { IfOk result (λ set. IsSetOf set numbers.now) }
{
    let mut set = BTreeSet::new(alloc);
    for number in numbers {
        set.insert(*number)?;
    }
    Ok(set)
}
