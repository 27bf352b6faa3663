//! The rows of the only source of a statement that may meet its conditions.

ghost use Rattle.std.specs.Prelude.{◌≡◌, ◌∷◌, [], IfOk, MatchOption};
ghost use Rattle.sr_query.specs.Combinations.{combinations, kept};
ghost use Rattle.sr_query.specs.Inner.Candidates.{rows_left};
ghost use Rattle.sr_query.specs.Inner.Preparing.{IsPrepared};
ghost use Rattle.sr_query.specs.Inner.Walks.{IsJoined, seen};
ghost use Rattle.sr_query.specs.Sources.{conditions_of};

use crate::fixing::equated_key;
use crate::joined::Joined;
use crate::prepared::Prepared;
use sr_base::{NoMemory, Row};
use sr_eval::and_holds_where_both_hold;
use sr_rows::{Rows, Walk};
use std::alloc::Global;

/// The rows of a source that are left to look at.
#[derive(Drop)]
pub(crate) enum Candidates<'a> {
    /// All of them, in the order of their keys.
    All(Walk<'a>),
    /// The one under the key that the conditions fix, if it is there.
    One(Option<&'a Row>),
}

impl<'a> Candidates<'a> {
    /// The next row, if one is left.
    #[inline(always)]
    pub(crate) fn next(&mut self) -> Option<&'a Row>
        ensures next { MatchOption result (rows_left self.old ≡ []) (λ row. rows_left self.old ≡ row.now ∷ rows_left self.new) }
    {
        match self {
            Candidates::All(walk) => match walk.next() {
                Some((_key, row)) => Some(row),
                None => None,
            },
            Candidates::One(row) => row.take(),
        }
    }
}

/// The rows of a source that may meet the conditions of a statement that has no other source.
///
/// Where the conditions fix its key, the row under it is looked up, in logarithmic time: no other row meets them.
pub(crate) fn candidates_of<'a>(
    alloc: Global,
    rows: &'a Rows,
    prepared: &Prepared,
    joined: &Joined,
) -> Result<Candidates<'a>, NoMemory>
    requires source { IsJoined rows.now.rows joined.now }
    requires prepared { IsPrepared prepared.now }
    ensures rows { IfOk result (λ found. kept prepared.now.scope.now (conditions_of prepared.now.select.now)
        (combinations [] (seen rows.now.rows joined.now ∷ [])) ≡ kept prepared.now.scope.now (conditions_of prepared.now.select.now) (rows_left found)) }
{
    and_holds_where_both_hold();
    match equated_key(alloc, prepared, &[], joined)? {
        Some(key) => Ok(Candidates::One(rows.get(&joined.table.name, &key))),
        None => Ok(Candidates::All(rows.walk(&joined.table.name))),
    }
}
