ghost use Rattle.std.specs.Prelude.{◌∷◌, [], map};
ghost use Rattle.sr_exec_dml.specs.Inner.Conditions.{Answers, AnswersBy};
ghost use Rattle.sr_exec_dml.specs.Sequences.{each, followed};
ghost use Rattle.sr_query.specs.Combinations.{combinations};
ghost use Rattle.sr_query.specs.Inner.Preparing.{IsPrepared};
ghost use Rattle.sr_query.specs.Inner.Tallies.{Takes, TakesAll, told_of};
ghost use Rattle.sr_query.specs.Inner.Walks.{IsJoined, seen};
ghost use Rattle.sr_query.specs.Rows.{aggregate, alone};
ghost use Rattle.sr_query.specs.Selecting.{kept_from};
ghost use Rattle.sr_query.specs.Sources.{conditions_of};

use crate::candidates::candidates_of;
use crate::combining::meets;
use crate::joined::Joined;
use crate::lists::push;
use crate::prepared::Prepared;
use crate::rank::{Listed, Ranks};
use crate::tallies::{Tally, take_row, tallies_of, values_of};
use sr_ast::Item;
use sr_base::{Row, Seq, Value};
use sr_catalog::DmlFault;
use sr_rows::Rows;
use std::alloc::Global;

/// The row of aggregates over those rows of the only source that meet the conditions. It has no ranks.
#[tactic(auto, using(crate::proofs::Tallied::one_alone))]
pub(crate) fn aggregated(
    alloc: Global,
    rows: &Rows,
    prepared: &Prepared,
    items: &[Item],
    joined: &Joined,
) -> Result<Vec<Listed>, DmlFault>
    requires source { IsJoined rows.now.rows joined.now }
    requires prepared { IsPrepared prepared.now }
    ensures answer { AnswersBy result (λ found. found.items)
        (followed (kept_from prepared.now.scope.now prepared.now.select.now (seen rows.now.rows joined.now ∷ [])) (λ rows_kept. alone (each (aggregate prepared.now.scope.now rows_kept) items.now))) }
{
    let row = aggregates(alloc, rows, prepared, items, joined)?;
    let mut listed = Vec::new(alloc);
    let ranks = Ranks::many(Seq::empty(alloc));
    push(&mut listed, Listed { ranks, row })?;
    Ok(listed)
}

/// The values of aggregates over those rows of the only source that meet the conditions. It goes over the rows once, and keeps none of them.
#[tactic(auto, using(crate::proofs::Tallied::begun))]
fn aggregates(
    alloc: Global,
    rows: &Rows,
    prepared: &Prepared,
    items: &[Item],
    joined: &Joined,
) -> Result<Row, DmlFault>
    requires source { IsJoined rows.now.rows joined.now }
    requires prepared { IsPrepared prepared.now }
    ensures answer { Answers result
        (followed (kept_from prepared.now.scope.now prepared.now.select.now (seen rows.now.rows joined.now ∷ [])) (λ rows_kept. each (aggregate prepared.now.scope.now rows_kept) items.now)) }
{
    let mut tallies = tallies_of(alloc, prepared.scope, items)?;
    take_rows(alloc, rows, prepared, joined, tallies.as_mut_slice())?;
    values_of(alloc, tallies.as_slice())
}

/// Takes those rows of the only source into tallies that meet the conditions.
fn take_rows(
    alloc: Global,
    rows: &Rows,
    prepared: &Prepared,
    joined: &Joined,
    tallies: &mut [Tally],
) -> Result<(), DmlFault>
    requires source { IsJoined rows.now.rows joined.now }
    requires prepared { IsPrepared prepared.now }
    ensures answer { TakesAll result prepared.now.scope.now (conditions_of prepared.now.select.now) (map told_of tallies.old)
        (combinations [] (seen rows.now.rows joined.now ∷ [])) (map told_of tallies.new) }
{
    let mut left = candidates_of(alloc, rows, prepared, joined)?;
    'rows: while let Some(row) = left.next() {
        take_met(alloc, prepared, row.values(), tallies)?;
    }
    Ok(())
}

/// Takes a row into tallies where it meets the conditions.
#[tactic(auto, using(crate::proofs::Tallied::taking))]
fn take_met(
    alloc: Global,
    prepared: &Prepared,
    row: &[Value],
    tallies: &mut [Tally],
) -> Result<(), DmlFault>
    requires prepared { IsPrepared prepared.now }
    ensures takes { Takes result prepared.now.scope.now (conditions_of prepared.now.select.now) (map told_of tallies.old) row.now (map told_of tallies.new) }
{
    if meets(prepared, &row)? {
        take_row(alloc, tallies, row)?;
    }
    Ok(())
}
