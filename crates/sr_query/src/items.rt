ghost use Rattle.std.specs.Prelude.{◌≡◌, ◌≢◌, ◌++◌, map, Ok, Err, IfOk, OnOk, MatchResult};
ghost use Rattle.sr_eval.specs.Inner.Bounds.{values_of};
ghost use Rattle.sr_eval.specs.Inner.Resolving.{resolution_of};
ghost use Rattle.sr_exec_dml.specs.Inner.Conditions.{Answers};
ghost use Rattle.sr_exec_dml.specs.Sequences.{each};
ghost use Rattle.sr_query.specs.Orders.{rank_of};
ghost use Rattle.sr_query.specs.Inner.Orders.{at_place, ranks_at};
ghost use Rattle.sr_query.specs.Inner.Preparing.{placed_row, resolutions_of, row_by, value_by};
ghost use Rattle.sr_query.specs.Rows.{listed_row};
ghost use Rattle.sr_query.specs.Inner.Walks.{bounds_of, found};

use crate::joined::Combination;
use crate::lists::push;
use crate::parts::{Parts, parts_of};
use crate::placing::{Placed, places_of};
use crate::rank::{Listed, Rank, Ranks};
use sr_ast::{Items, OrderBy, Scope};
use sr_base::{Copied, NoMemory, Row, Seq, Value};
use sr_catalog::DmlFault;
use sr_eval::{Bound, EvalFault, Resolved, resolved_value, value_at_place};
use std::alloc::Global;

/// The rows of combinations, with the ranks of each. The names of items, and those of ORDER BY's columns, are looked for once, and not for
/// each row.
#[tactic(auto, using(crate::proofs::Readied::listed_by))]
pub(crate) fn listed_rows(
    alloc: Global,
    scope: &Scope,
    items: &Items,
    order: &[OrderBy],
    kept: &[Combination],
) -> Result<Vec<Listed>, DmlFault>
    ensures answer { MatchResult result (λ rows. each (listed_row scope.now items.now order.now) (found kept.now) ≡ Ok rows.items)
        (λ fault. fault ≢ DmlFault.Memory → each (listed_row scope.now items.now order.now) (found kept.now) ≡ Err fault) }
{
    let parts = parts_of(alloc, scope, items)?;
    let places = places_of(alloc, scope, order)?;
    placed_rows(alloc, &parts, places.as_slice(), kept)
}

/// The same by resolved items and the places of ORDER BY's columns: each combination takes the time of its items.
fn placed_rows(
    alloc: Global,
    parts: &Parts,
    places: &[Placed],
    kept: &[Combination],
) -> Result<Vec<Listed>, DmlFault>
    ensures answer { MatchResult result (λ rows. each (placed_row (resolutions_of parts.now) places.now) (found kept.now) ≡ Ok rows.items)
        (λ fault. fault ≢ DmlFault.Memory → each (placed_row (resolutions_of parts.now) places.now) (found kept.now) ≡ Err fault) }
{
    let mut rows = Vec::with_capacity(alloc, kept.len())?;
    'kept: for combination in kept {
        let row = placed_row(alloc, parts, places, combination)?;
        push(&mut rows, row)?;
    }
    Ok(rows)
}

/// The row of a combination with its ranks.
fn placed_row(
    alloc: Global,
    parts: &Parts,
    places: &[Placed],
    combination: &Combination,
) -> Result<Listed, DmlFault>
    ensures answer { Answers result (placed_row (resolutions_of parts.now) places.now (values_of (bounds_of combination.now))) }
{
    let row = row_by(alloc, parts, combination)?;
    let ranks = ranks_of(alloc, places, combination.rows())?;
    Ok(Listed { ranks, row })
}

/// The row of a combination: all of its values, or those of the items. A row of two items takes one block of memory.
fn row_by(alloc: Global, parts: &Parts, combination: &Combination) -> Result<Row, DmlFault>
    ensures answer { Answers result (row_by (resolutions_of parts.now) (values_of (bounds_of combination.now))) }
{
    match parts {
        Parts::All(count) => {
            let mut values = Vec::with_capacity(alloc, *count)?;
            all_values(alloc, &mut values, combination.rows())?;
            Ok(Row::new(alloc, Seq::from_vec(values))?)
        }
        Parts::Each(list) => part_values(alloc, list.as_slice(), combination),
    }
}

/// All values of a combination, copied behind others. There are eight sources at most.
#[tactic(auto, using(crate::proofs::Combined::joined_lists))]
fn all_values(alloc: Global, values: &mut Vec<Value>, combination: &[Bound]) -> Result<(), NoMemory>
    ensures ok { OnOk result (values.new.items ≡ values.old.items ++ values_of combination.now) }
{
    let Some((source, after)) = combination.split_first() else {
        return Ok(());
    };
    add_values(alloc, values, source.values)?;
    all_values(alloc, values, after)
}

fn add_values(alloc: Global, values: &mut Vec<Value>, more: &[Value]) -> Result<(), NoMemory>
    ensures ok { OnOk result (values.new.items ≡ values.old.items ++ more.now) }
{
    let mut left = more;
    'values: while let Some((value, rest)) = left.split_first() {
        push(values, value.copy(alloc)?)?;
        left = rest;
    }
    Ok(())
}

/// The values of resolved items on a combination.
fn part_values(
    alloc: Global,
    parts: &[Resolved],
    combination: &Combination,
) -> Result<Row, DmlFault>
    ensures answer { Answers result (each (λ r. value_by r (values_of (bounds_of combination.now))) (map resolution_of parts.now)) }
{
    match parts {
        [part, next] => {
            let value = value_by(alloc, part, combination)?;
            let next_value = value_by(alloc, next, combination)?;
            Ok(Row::two(alloc, [value, next_value])?)
        }
        _ => values_of_several(alloc, parts, combination),
    }
}

/// The values of more items than two, or of one.
fn values_of_several(
    alloc: Global,
    parts: &[Resolved],
    combination: &Combination,
) -> Result<Row, DmlFault>
    ensures answer { Answers result (each (λ r. value_by r (values_of (bounds_of combination.now))) (map resolution_of parts.now)) }
{
    let mut values = Vec::with_capacity(alloc, parts.len())?;
    'parts: for part in parts {
        let value = value_by(alloc, part, combination)?;
        push(&mut values, value)?;
    }
    Ok(Row::new(alloc, Seq::from_vec(values))?)
}

/// The value of a resolved expression on a combination. No name is looked for, and only a text is copied.
fn value_by(
    alloc: Global,
    resolved: &Resolved,
    combination: &Combination,
) -> Result<Value, DmlFault>
    ensures answer { Answers result (value_by (resolution_of resolved.now) (values_of (bounds_of combination.now))) }
{
    match resolved_value(alloc, resolved, &combination.rows()) {
        Ok(value) => Ok(value),
        Err(EvalFault::Overflow) => Err(DmlFault::Overflow),
        Err(EvalFault::Memory) => Err(DmlFault::Memory),
    }
}

/// The ranks of a combination: a value for each column of ORDER BY. Up to two columns take no memory but that of texts.
fn ranks_of(alloc: Global, places: &[Placed], combination: &[Bound]) -> Result<Ranks, NoMemory>
    ensures ranks { IfOk result (λ ranks. ranks ≡ ranks_at places.now (values_of combination.now)) }
{
    match places {
        [by] => Ok(Ranks::one(rank_of(alloc, by, combination)?)),
        [by, then] => {
            let rank = rank_of(alloc, by, combination)?;
            let next = rank_of(alloc, then, combination)?;
            Ok(Ranks::two([rank, next]))
        }
        _ => Ok(Ranks::many(rank_list(alloc, places, combination)?)),
    }
}

fn rank_list(alloc: Global, places: &[Placed], combination: &[Bound]) -> Result<Seq<Rank>, NoMemory>
    ensures ranks { IfOk result (λ ranks. ranks ≡ ranks_at places.now (values_of combination.now)) }
{
    let mut ranks = Vec::with_capacity(alloc, places.len())?;
    let mut left = places;
    'places: while let Some((by, rest)) = left.split_first() {
        push(&mut ranks, rank_of(alloc, by, combination)?)?;
        left = rest;
    }
    Ok(Seq::from_vec(ranks))
}

/// The rank of a combination under a column of ORDER BY.
fn rank_of(alloc: Global, by: &Placed, combination: &[Bound]) -> Result<Rank, NoMemory>
    ensures rank { IfOk result (λ rank. rank ≡ rank_of by.now.descending (at_place (values_of combination.now) by.now.place)) }
{
    Ok(Rank {
        descending: by.descending,
        value: at_place(alloc, by.place, combination)?,
    })
}

/// The value at a place among the values of a combination, or NULL. Only a text is copied.
fn at_place(alloc: Global, place: Option<usize>, combination: &[Bound]) -> Result<Value, NoMemory>
    ensures value { IfOk result (λ value. value ≡ at_place (values_of combination.now) place) }
{
    let Some(place) = place else {
        return Ok(Value::Null);
    };
    match value_at_place(combination, place) {
        Some(value) => value.copy(alloc),
        None => Ok(Value::Null),
    }
}
