//! Whether names are one, and whether they are distinct.

ghost use Rattle.std.specs.Prelude.{◌≡◌, ◌↔◌, IsTrue};
ghost use Rattle.std.specs.List.{AllByRecursion};
ghost use Rattle.sr_logform.specs.Rules.{AreDistinct};

use sr_base::Name;

/// Whether no name stands twice. Each is compared with those behind it: users of a catalog, of which there are 1,024 at most.
pub fn are_distinct(names: &[Name]) -> bool
    ensures distinct { IsTrue result ↔ AreDistinct names.now }
{
    let mut left = names;
    'names: while let Some((name, rest)) = left.split_first() {
        if !is_lacking(name, rest) {
            return false;
        }
        left = rest;
    }
    true
}

/// Whether a name is none of these.
fn is_lacking(name: &Name, others: &[Name]) -> bool
    ensures lacking { IsTrue result ↔ AllByRecursion (λ other. ¬ (name.now ≡ other)) others.now }
{
    let mut left = others;
    'others: while let Some((other, rest)) = left.split_first() {
        if is_same(name, other) {
            return false;
        }
        left = rest;
    }
    true
}

/// Whether two names are one.
pub fn is_same(name: &Name, other: &Name) -> bool
    ensures same { IsTrue result ↔ (name.now ≡ other.now) }
{
    name.bytes() == other.bytes()
}
