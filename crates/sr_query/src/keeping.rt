//! The rows of the only source of a statement that meet its conditions: each is tested, and kept, where it is come to.

ghost use Rattle.std.specs.Prelude.{◌∷◌, []};
ghost use Rattle.sr_exec_dml.specs.Inner.Conditions.{AnswersBy};
ghost use Rattle.sr_query.specs.Inner.Combinations.{Keeps};
ghost use Rattle.sr_query.specs.Inner.Preparing.{IsPrepared};
ghost use Rattle.sr_query.specs.Inner.Walks.{IsJoined, found, seen};
ghost use Rattle.sr_query.specs.Selecting.{kept_from};
ghost use Rattle.sr_query.specs.Sources.{conditions_of};

use crate::candidates::candidates_of;
use crate::combining::meets;
use crate::joined::{Combination, Joined};
use crate::lists::push;
use crate::prepared::Prepared;
use sr_base::Row;
use sr_catalog::DmlFault;
use sr_eval::Bound;
use sr_rows::Rows;
use std::alloc::Global;

/// The combinations of the only source that meet the conditions: a row each.
#[tactic(auto, using(crate::proofs::Alone::none_before))]
pub(crate) fn kept_rows<'a>(
    alloc: Global,
    rows: &'a Rows,
    prepared: &Prepared,
    joined: &'a Joined<'a>,
) -> Result<Vec<Combination<'a>>, DmlFault>
    requires source { IsJoined rows.now.rows joined.now }
    requires prepared { IsPrepared prepared.now }
    ensures answer { AnswersBy result (λ found_now. found found_now.items) (kept_from prepared.now.scope.now prepared.now.select.now (seen rows.now.rows joined.now ∷ [])) }
{
    let mut kept = Vec::new(alloc);
    let mut left = candidates_of(alloc, rows, prepared, joined)?;
    'rows: while let Some(row) = left.next() {
        keep_met(prepared, joined, row, &mut kept)?;
    }
    Ok(kept)
}

/// Keeps a row where it meets the conditions.
#[tactic(auto, using(crate::proofs::Alone::row_kept))]
fn keep_met<'a>(
    prepared: &Prepared,
    joined: &'a Joined<'a>,
    row: &'a Row,
    kept: &mut Vec<Combination<'a>>,
) -> Result<(), DmlFault>
    requires prepared { IsPrepared prepared.now }
    ensures kept { Keeps result prepared.now.scope.now (conditions_of prepared.now.select.now) (found kept.old.items) (row.now ∷ []) (found kept.new.items) }
{
    let values = row.values();
    if !meets(prepared, &values)? {
        return Ok(());
    }
    let bound = Bound {
        scope: &joined.scope,
        values,
    };
    push(kept, Combination::One(bound))?;
    Ok(())
}
