ghost use Rattle.std.specs.Prelude.{◌≡◌, ◌∷◌, [], refl};
ghost use Rattle.std.proofs.Common.{rules};
ghost use Rattle.std.specs.Cmp.{po, eq_by_cmp_equiv, partial_equiv_from_equiv};
ghost use Rattle.std.specs.Cmp.Rules.{comparing};
ghost use Rattle.std.specs.Ordering.{eq_by_cmp, as_partial_cmp};
ghost use Rattle.std.specs.Cmp.Lexicographic.{slice_cmp};
ghost use Rattle.sr_query.specs.Orders.{rank_cmp, listed_cmp};
ghost use Rattle.sr_query.specs.Inner.Orders.{rank_cmp_total, listed_cmp_total};

use sr_base::{Row, Seq, Value};
use std::cmp::Ordering;
use std::marker::Model;
use std::slice;

const NULL: Value = Value::Null;

/// A value under a column of ORDER BY, which is descending or not.
#[derive(Drop)]
pub(crate) struct Rank {
    pub descending: bool,
    pub value: Value,
}

/// The ranks of a row, one for each column of ORDER BY: contracts see their list.
#[derive(Drop)]
pub(crate) struct Ranks {
    held: Held,
}

/// One rank or two, as most statements have, lie where the row lies, so that two rows are compared where they lie. Others have a list.
#[derive(Drop)]
enum Held {
    One(Rank),
    Two([Rank; 2]),
    Many(Seq<Rank>),
}

impl Model for Ranks {
    ghost use Rattle.std.specs.Prelude.{List};
    ghost use Rattle.sr_query.specs.declared.rank.Rank.{Rank as OneRank};
    ghost use Rattle.sr_query.specs.Inner.Held.{held_ranks};

    ghost Value = { List OneRank };

    ghost view = { λ r. held_ranks r.held };
}

/// A row with the ranks of its combination, by which it is put in order.
#[derive(Drop)]
pub(crate) struct Listed {
    pub ranks: Ranks,
    pub row: Row,
}

impl Ranks {
    /// One rank. It takes no memory.
    pub(crate) fn one(rank: Rank) -> Ranks
        ensures ranks { result ≡ rank ∷ [] }
    {
        Ranks {
            held: Held::One(rank),
        }
    }

    /// Two ranks. They take no memory.
    pub(crate) fn two(pair: [Rank; 2]) -> Ranks
        ensures ranks { result ≡ pair }
    {
        Ranks {
            held: Held::Two(pair),
        }
    }

    /// The ranks of a list.
    pub(crate) fn many(ranks: Seq<Rank>) -> Ranks
        ensures ranks { result ≡ ranks }
    {
        Ranks {
            held: Held::Many(ranks),
        }
    }

    /// The ranks, in order.
    pub(crate) fn as_slice(&self) -> &[Rank]
        ensures ranks { result.now ≡ self.now }
    {
        match &self.held {
            Held::One(rank) => slice::from_ref(rank),
            Held::Two(pair) => pair.as_slice(),
            Held::Many(ranks) => ranks.as_slice(),
        }
    }
}

impl PartialEq for Rank {
    ghost eq = { eq_by_cmp rank_cmp };

    ghost laws = { partial_equiv_from_equiv (eq_by_cmp_equiv rank_cmp_total) };

    fn eq(&self, other: &Rank) -> bool {
        self.cmp(other).is_eq()
    }
}

impl Eq for Rank {
    ghost laws = { eq_by_cmp_equiv rank_cmp_total };
}

impl PartialOrd for Rank {
    ghost partial_cmp = { as_partial_cmp rank_cmp };

    ghost laws = { po rank_cmp_total (λ x y. refl) };

    fn partial_cmp(&self, other: &Rank) -> Option<Ordering> {
        Some(self.cmp(other))
    }
}

impl Ord for Rank {
    ghost cmp = { rank_cmp };

    ghost total = { rank_cmp_total };

    ghost matches_partial_cmp = { Prim.search (comparing, rules) };

    ghost matches_eq = { Prim.search (comparing, rules) };

    fn cmp(&self, other: &Rank) -> Ordering {
        match (self.descending, other.descending) {
            (false, false) => self.value.cmp(&other.value).then(Ordering::Equal),
            (true, true) => other.value.cmp(&self.value),
            (false, true) => self.value.cmp(&NULL).then(other.value.cmp(&NULL)),
            (true, false) => NULL.cmp(&other.value).then(NULL.cmp(&self.value)),
        }
    }
}

impl PartialEq for Listed {
    ghost eq = { eq_by_cmp listed_cmp };

    ghost laws = { partial_equiv_from_equiv (eq_by_cmp_equiv listed_cmp_total) };

    fn eq(&self, other: &Listed) -> bool {
        self.cmp(other).is_eq()
    }
}

impl Eq for Listed {
    ghost laws = { eq_by_cmp_equiv listed_cmp_total };
}

impl PartialOrd for Listed {
    ghost partial_cmp = { as_partial_cmp listed_cmp };

    ghost laws = { po listed_cmp_total (λ x y. refl) };

    fn partial_cmp(&self, other: &Listed) -> Option<Ordering> {
        Some(self.cmp(other))
    }
}

impl Ord for Listed {
    ghost cmp = { listed_cmp };

    ghost total = { listed_cmp_total };

    ghost matches_partial_cmp = { Prim.search (comparing, rules) };

    ghost matches_eq = { Prim.search (comparing, rules) };

    fn cmp(&self, other: &Listed) -> Ordering {
        match (&self.ranks.held, &other.ranks.held) {
            (Held::One(rank), Held::One(other_rank)) => rank.cmp(other_rank),
            (Held::Two(pair), Held::Two(other_pair)) => pair_order(pair, other_pair),
            _ => self.ranks.as_slice().cmp(other.ranks.as_slice()),
        }
    }
}

/// The order of two pairs of ranks, by the first ones, then the second ones.
fn pair_order(pair: &[Rank; 2], other: &[Rank; 2]) -> Ordering
    ensures order { result ≡ slice_cmp rank_cmp pair.now other.now }
{
    match (pair.as_slice(), other.as_slice()) {
        ([first, second], [other_first, other_second]) => match first.cmp(other_first) {
            Ordering::Equal => second.cmp(other_second),
            order => order,
        },
        (ranks, other_ranks) => ranks.cmp(other_ranks),
    }
}
