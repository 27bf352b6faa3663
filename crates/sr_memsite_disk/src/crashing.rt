ghost use Rattle.std.specs.Prelude.{◌≡◌, OnOk};
ghost use Rattle.sr_memsite_disk.specs.Changes.{write, cut, cuts};
ghost use Rattle.sr_memsite_disk.specs.Picks.{next, crashed};

use crate::bytes::overwrite;
use crate::tear::{next_pick, part, tear_of, turned};
use sr_base::NoMemory;
use std::marker::Model;

/// A file on the way through a crash, and the pick for the changes that are left.
#[derive(Drop)]
pub struct Crashing {
    file: Vec<u8>,
    pick: u64,
}

impl Model for Crashing {
    ghost use Rattle.sr_memsite_disk.specs.Picks.{Crash};

    ghost Value = { Crash };

    ghost view = { λ c. record { file = c.file.items; pick = c.pick } };
}

impl Crashing {
    /// A file before its first change.
    pub fn of(file: Vec<u8>, pick: u64) -> Crashing
        ensures of { result ≡ record { file = file.items; pick = pick } }
    {
        Crashing { file, pick }
    }

    /// The file, and the pick that is left.
    pub fn apart(self) -> (Vec<u8>, u64)
        ensures file { result.0.items ≡ self.file }
        ensures pick { result.1 ≡ self.pick }
    {
        (self.file, self.pick)
    }

    /// Goes through a write.
    #[tactic(auto, using(crate::proofs::Tearing::tearing))]
    pub fn write(&mut self, place: usize, bytes: &[u8]) -> Result<(), NoMemory>
        ensures written { OnOk result (self.new ≡ next self.old (write place bytes.now)) }
    {
        if place <= self.file.len() {
            let there = part(*self.file.allocator(), tear_of(self.pick), bytes)?;
            overwrite(&mut self.file, place, there.as_slice())?;
        }
        self.pick = next_pick(self.pick);
        Ok(())
    }

    /// Goes through a cut.
    #[tactic(auto, using(crate::proofs::Tearing::tearing))]
    pub fn cut(&mut self, to: usize) -> Result<(), NoMemory>
        ensures cut { OnOk result (self.new ≡ next self.old (cut to)) }
    {
        let (_, off) = self.file.as_slice().split_at(to.min(self.file.len()));
        let there = part(*self.file.allocator(), turned(tear_of(self.pick)), off)?;
        self.file.truncate(to);
        self.file.extend_from_slice(there.as_slice())?;
        self.pick = next_pick(self.pick);
        Ok(())
    }

    /// Goes through a cut, if there was one.
    pub fn cut_if(&mut self, to: Option<usize>) -> Result<(), NoMemory>
        ensures cut { OnOk result (self.new ≡ crashed self.old (cuts to)) }
    {
        match to {
            Some(to) => self.cut(to),
            None => Ok(()),
        }
    }
}
