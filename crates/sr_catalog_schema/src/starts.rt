//! Counts under keys.

ghost use Rattle.std.specs.Prelude.{◌≡◌, ◌+◌, cond, [], vec_items, IfOk, OnOk, OnErr};
ghost use Rattle.sr_catalog_schema.specs.Inner.Keys.{count_under, IsChanged};

use indexmap::IndexMap;
use sr_base::NoMemory;
use std::alloc::{AllocError, Global};

/// How many started subscriptions there are under each key of a user and a publication. A look-up takes constant time.
#[derive(Drop)]
pub(crate) struct Starts {
    counts: IndexMap<Vec<u8>, usize>,
}

impl Starts {
    /// None under any key. It takes no memory.
    pub(crate) fn new(alloc: Global) -> Starts
        ensures { result.counts.entries ≡ [] }
    {
        Starts {
            counts: IndexMap::new(alloc),
        }
    }

    /// How many there are under a key.
    pub(crate) fn count(&self, key: &[u8]) -> usize
        ensures { result ≡ count_under vec_items self.now.counts.entries key.now }
    {
        match self.counts.get(key) {
            None => 0,
            Some(count) => *count,
        }
    }

    /// One more under a key where it now counts, and one less where it did. Where memory lacks nothing changes, and neither where
    /// none is there to be taken away.
    pub(crate) fn change(&mut self, key: Vec<u8>, was: bool, now: bool) -> Result<(), NoMemory>
        ensures ok { OnOk result (IsChanged vec_items self.old.counts.entries self.new.counts.entries key.items was now) }
        ensures err { OnErr result (self.new.counts.entries ≡ self.old.counts.entries) }
    {
        let before = self.count(key.as_slice());
        let after = changed(before, was, now)?;
        self.counts.insert(key, after)?;
        Ok(())
    }
}

fn changed(count: usize, was: bool, now: bool) -> Result<usize, NoMemory>
    ensures { IfOk result (λ after. after + cond was 1 0 ≡ count + cond now 1 0) }
{
    let others = if was { less(count)? } else { count };
    if now { more(others) } else { Ok(others) }
}

fn less(count: usize) -> Result<usize, NoMemory>
    ensures { IfOk result (λ after. after + 1 ≡ count) }
{
    if count == 0 {
        return Err(AllocError);
    }
    Ok(count - 1)
}

fn more(count: usize) -> Result<usize, NoMemory>
    ensures { IfOk result (λ after. after ≡ count + 1) }
{
    if count == usize::MAX {
        return Err(AllocError);
    }
    Ok(count + 1)
}
