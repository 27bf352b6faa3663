ghost use Rattle.std.specs.Prelude.{◌≡◌, refl, IfOk};
ghost use Rattle.std.specs.Ordering.{eq_by_cmp, as_partial_cmp};
ghost use Rattle.std.specs.Cmp.{partial_equiv_from_equiv, eq_by_cmp_equiv, po};
ghost use Rattle.std.proofs.Common.{rules};
ghost use Rattle.std.specs.Cmp.Rules.{comparing};

use sr_base::{Copied, Name, NoMemory, Text};
use std::alloc::Global;
use std::cmp::Ordering;
use std::collections::btree_map::Comparable;

/// Where a message file lies: the address names its folder. Places stand in byte order, the address first.
#[derive(Drop)]
pub struct Place {
    pub address: Name,
    pub name: Text,
}

impl Place {
    ghost use Rattle.std.specs.Prelude.{IfOk};

    /// The file of this name in the folder of `address`.
    pub fn of(alloc: Global, address: &Name, name: &Text) -> Result<Place, NoMemory>
        ensures place { IfOk result (λ place. place ≡ record { address = address.now; name = name.now }) }
    {
        Ok(Place {
            address: address.copy(alloc)?,
            name: name.copy(alloc)?,
        })
    }
}

impl PartialEq for Place {
    ghost use Rattle.sr_memsite_mail.specs.Places.{place_cmp};
    ghost use Rattle.sr_memsite_mail.specs.Inner.Places.{place_cmp_total};

    ghost eq = { eq_by_cmp place_cmp };

    ghost laws = { partial_equiv_from_equiv (eq_by_cmp_equiv place_cmp_total) };

    fn eq(&self, other: &Place) -> bool {
        self.cmp(other).is_eq()
    }
}

impl Eq for Place {
    ghost use Rattle.sr_memsite_mail.specs.Inner.Places.{place_cmp_total};

    ghost laws = { eq_by_cmp_equiv place_cmp_total };
}

impl PartialOrd for Place {
    ghost use Rattle.sr_memsite_mail.specs.Places.{place_cmp};
    ghost use Rattle.sr_memsite_mail.specs.Inner.Places.{place_cmp_total};

    ghost partial_cmp = { as_partial_cmp place_cmp };

    ghost laws = { po place_cmp_total (λ x y. refl) };

    fn partial_cmp(&self, other: &Place) -> Option<Ordering> {
        Some(self.cmp(other))
    }
}

impl Ord for Place {
    ghost use Rattle.sr_memsite_mail.specs.Places.{place_cmp};
    ghost use Rattle.sr_memsite_mail.specs.Inner.Places.{place_cmp_total};

    ghost cmp = { place_cmp };

    ghost total = { place_cmp_total };

    ghost matches_partial_cmp = { Prim.search (comparing, rules) };

    ghost matches_eq = { Prim.search (comparing, rules) };

    fn cmp(&self, other: &Place) -> Ordering {
        self.address
            .bytes()
            .cmp(other.address.bytes())
            .then(self.name.bytes().cmp(other.name.bytes()))
    }
}

/// A place that is looked for: the address and the name are lent, so that it takes no memory.
#[derive(Clone, Copy)]
pub struct Sought<'a> {
    pub address: &'a Name,
    pub name: &'a Text,
}

impl Comparable<Place> for Sought<'_> {
    ghost use Rattle.std.specs.BTreeMap.Comparable.{le_lt_trans};
    ghost use Rattle.sr_memsite_mail.specs.Folders.{place};
    ghost use Rattle.sr_memsite_mail.specs.Places.{place_cmp};
    ghost use Rattle.sr_memsite_mail.specs.Inner.Places.{place_cmp_total};

    ghost compare = { λ q. place_cmp (place q.address.now q.name.now) };

    ghost respects_cmp = { λ q. place_cmp_total.congr (place q.address.now q.name.now) };

    ghost below_greater = { λ q. le_lt_trans place_cmp_total (place q.address.now q.name.now) };

    fn compare(&self, key: &Place) -> Ordering {
        self.address
            .bytes()
            .cmp(key.address.bytes())
            .then(self.name.bytes().cmp(key.name.bytes()))
    }
}
