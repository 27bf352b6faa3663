//! Names of which none stands twice.

ghost use Rattle.std.specs.Prelude.{◌≡◌, map, IfOk};
ghost use Rattle.sr_logform.specs.Inner.Rules.{are_distinct, is_absent};

use sr_base::{Copied, Name, NoMemory};
use std::alloc::Global;
use std::collections::BTreeSet;

/// What has a name.
pub(crate) trait Named {
    ghost use Rattle.std.specs.Prelude.{ℕ, List};

    ghost name_of: { Self → List ℕ };

    fn name(&self) -> &Name
        ensures { result.now ≡ name_of self.now };
}

impl Named for Name {
    ghost name_of = { λ name. name };

    fn name(&self) -> &Name {
        self
    }
}

impl<T> Named for (Name, T) {
    ghost name_of = { λ pair. pair.0 };

    fn name(&self) -> &Name {
        &self.0
    }
}

impl<T, U> Named for (Name, T, U) {
    ghost name_of = { λ triple. triple.0 };

    fn name(&self) -> &Name {
        &self.0
    }
}

/// How many names are compared pair by pair: a tree of them takes longer up to here.
const FEW_NAMES: usize = 8;

/// Whether no name stands twice. A few are compared pair by pair, and each of more is looked up in a tree of those before it.
pub(crate) fn are_distinct<T: Named>(alloc: Global, items: &[T]) -> Result<bool, NoMemory>
    ensures { IfOk result (λ told. told ≡ are_distinct (map T.name_of items.now)) }
{
    if items.len() <= FEW_NAMES {
        Ok(are_few_distinct(items))
    } else {
        are_many_distinct(alloc, items)
    }
}

/// Whether no name stands twice, each looked up in a tree of those before it.
fn are_many_distinct<T: Named>(alloc: Global, items: &[T]) -> Result<bool, NoMemory>
    ensures { IfOk result (λ told. told ≡ are_distinct (map T.name_of items.now)) }
{
    let mut seen = BTreeSet::new(alloc);
    let mut left = items;
    'items: while let Some((item, after)) = left.split_first() {
        let name = item.name().copy(alloc)?;
        if !seen.insert(name)? {
            return Ok(false);
        }
        left = after;
    }
    Ok(true)
}

/// Whether no name stands twice, each compared with those behind it.
fn are_few_distinct<T: Named>(items: &[T]) -> bool
    ensures { result ≡ are_distinct (map T.name_of items.now) }
{
    let mut left = items;
    'items: while let Some((item, after)) = left.split_first() {
        if !is_absent(item.name(), after) {
            return false;
        }
        left = after;
    }
    true
}

/// Whether a name is none of others.
fn is_absent<T: Named>(name: &Name, others: &[T]) -> bool
    ensures { result ≡ is_absent name.now (map T.name_of others.now) }
{
    let mut left = others;
    'others: while let Some((other, after)) = left.split_first() {
        if name.bytes() == other.name().bytes() {
            return false;
        }
        left = after;
    }
    true
}
