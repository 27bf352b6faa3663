ghost use Rattle.std.specs.Prelude.{◌≡◌, ◌++◌, ◌∷◌, [], map, OnOk};
ghost use Rattle.sr_eval.specs.Bounds.{IsRowOf};
ghost use Rattle.sr_eval.specs.Inner.Bounds.{AreRows, columns_of, values_of};
ghost use Rattle.sr_eval.specs.Inner.Resolutions.{meaning_at};
ghost use Rattle.sr_eval.specs.Inner.Resolving.{resolution_of};
ghost use Rattle.sr_exec_dml.specs.Inner.Conditions.{Answers};
ghost use Rattle.sr_exec_dml.specs.Statements.{tested};
ghost use Rattle.sr_query.specs.Combinations.{combinations, meets, over_each};
ghost use Rattle.sr_query.specs.Inner.Combinations.{Keeps};
ghost use Rattle.sr_query.specs.Inner.Lookups.{over_one};
ghost use Rattle.sr_query.specs.Inner.Preparing.{IsPrepared, meets_at};
ghost use Rattle.sr_query.specs.Sources.{conditions_of, rows_by_key};
ghost use Rattle.sr_query.specs.Inner.Walks.{IsJoined, AreJoined, columns_left, found, seen};
ghost use Rattle.sr_rows.specs.Marks.{rows_of_table};

use crate::fixing::equated_key;
use crate::joined::{Combination, Joined};
use crate::lists::push;
use crate::prepared::Prepared;
use sr_base::{Key, Row};
use sr_catalog::DmlFault;
use sr_eval::{Bound, EvalFault, Resolved, Values, and_holds_where_both_hold, is_resolved_true};
use sr_rows::Rows;
use std::alloc::Global;

/// Keeps those of the combinations that begin with this one and meet the conditions.
///
/// Where the conditions fix the key of the first source left, its row is looked up, in logarithmic time: its other rows stand in no
/// combination that meets them. Else it goes over all rows of that source. Behind each row it does so for the sources behind.
#[cycle(walking)]
pub(crate) fn walk<'a>(
    alloc: Global,
    rows: &'a Rows,
    prepared: &Prepared,
    left: &'a [Joined<'a>],
    combination: &mut Vec<Bound<'a>>,
    kept: &mut Vec<Combination<'a>>,
) -> Result<(), DmlFault>
    requires scope { columns_of combination.old.items ++ columns_left left.now ≡ prepared.now.scope.now }
    requires fit { AreRows combination.old.items }
    requires joined { AreJoined rows.now.rows left.now }
    requires prepared { IsPrepared prepared.now }
    ensures same { OnOk result (combination.new.items ≡ combination.old.items) }
    ensures kept { Keeps result prepared.now.scope.now (conditions_of prepared.now.select.now) (found kept.old.items)
        (combinations (values_of combination.old.items) (map (seen rows.now.rows) left.now)) (found kept.new.items) }
{
    let Some((joined, after)) = left.split_first() else {
        return keep(alloc, prepared, combination.as_slice(), kept);
    };
    and_holds_where_both_hold();
    match equated_key(alloc, prepared, combination.as_slice(), joined)? {
        Some(key) => walk_at(
            alloc,
            rows,
            prepared,
            joined,
            &key,
            after,
            combination,
            kept,
        ),
        None => walk_along(alloc, rows, prepared, joined, after, combination, kept),
    }
}

/// Keeps those of the combinations that begin with this one and the row of the next source under a key, if it is there.
#[cycle(walking)]
fn walk_at<'a>(
    alloc: Global,
    rows: &'a Rows,
    prepared: &Prepared,
    joined: &'a Joined<'a>,
    key: &Key,
    after: &'a [Joined<'a>],
    combination: &mut Vec<Bound<'a>>,
    kept: &mut Vec<Combination<'a>>,
) -> Result<(), DmlFault>
    requires scope { columns_of combination.old.items ++ (joined.now.scope ++ columns_left after.now) ≡ prepared.now.scope.now }
    requires fit { AreRows combination.old.items }
    requires source { IsJoined rows.now.rows joined.now }
    requires joined { AreJoined rows.now.rows after.now }
    requires prepared { IsPrepared prepared.now }
    ensures same { OnOk result (combination.new.items ≡ combination.old.items) }
    ensures kept { Keeps result prepared.now.scope.now (conditions_of prepared.now.select.now) (found kept.old.items)
        (over_one (λ row. combinations (values_of combination.old.items ++ row) (map (seen rows.now.rows) after.now))
        (rows_of_table rows.now.rows joined.now.table.now.name key.now)) (found kept.new.items) }
{
    let Some(row) = rows.get(&joined.table.name, key) else {
        return Ok(());
    };
    walk_row(alloc, rows, prepared, joined, row, after, combination, kept)
}

/// Keeps those of the combinations that begin with this one and a row of the next source: it goes over each of its rows.
#[cycle(walking)]
fn walk_along<'a>(
    alloc: Global,
    rows: &'a Rows,
    prepared: &Prepared,
    joined: &'a Joined<'a>,
    after: &'a [Joined<'a>],
    combination: &mut Vec<Bound<'a>>,
    kept: &mut Vec<Combination<'a>>,
) -> Result<(), DmlFault>
    requires scope { columns_of combination.old.items ++ (joined.now.scope ++ columns_left after.now) ≡ prepared.now.scope.now }
    requires fit { AreRows combination.old.items }
    requires source { IsJoined rows.now.rows joined.now }
    requires joined { AreJoined rows.now.rows after.now }
    requires prepared { IsPrepared prepared.now }
    ensures same { OnOk result (combination.new.items ≡ combination.old.items) }
    ensures kept { Keeps result prepared.now.scope.now (conditions_of prepared.now.select.now) (found kept.old.items)
        (over_each (λ row. combinations (values_of combination.old.items ++ row) (map (seen rows.now.rows) after.now))
        (rows_by_key rows.now.rows joined.now.table.now)) (found kept.new.items) }
{
    let mut source = rows.walk(&joined.table.name);
    'rows: while let Some((_key, row)) = source.next() {
        walk_row(alloc, rows, prepared, joined, row, after, combination, kept)?;
    }
    Ok(())
}

/// Keeps those of the combinations that begin with this one and a row of the next source.
#[cycle(walking)]
#[tactic(auto, using(crate::proofs::Combined::on_rules))]
fn walk_row<'a>(
    alloc: Global,
    rows: &'a Rows,
    prepared: &Prepared,
    joined: &'a Joined<'a>,
    row: &'a Row,
    after: &'a [Joined<'a>],
    combination: &mut Vec<Bound<'a>>,
    kept: &mut Vec<Combination<'a>>,
) -> Result<(), DmlFault>
    requires scope { columns_of combination.old.items ++ (joined.now.scope ++ columns_left after.now) ≡ prepared.now.scope.now }
    requires fit { AreRows combination.old.items }
    requires row { IsRowOf joined.now.scope row.now }
    requires joined { AreJoined rows.now.rows after.now }
    requires prepared { IsPrepared prepared.now }
    ensures same { OnOk result (combination.new.items ≡ combination.old.items) }
    ensures kept { Keeps result prepared.now.scope.now (conditions_of prepared.now.select.now) (found kept.old.items)
        (combinations (values_of combination.old.items ++ row.now) (map (seen rows.now.rows) after.now)) (found kept.new.items) }
{
    let depth = combination.len();
    let bound = Bound {
        scope: &joined.scope,
        values: row.values(),
    };
    push(combination, bound)?;
    walk(alloc, rows, prepared, after, combination, kept)?;
    combination.truncate(depth);
    Ok(())
}

/// Keeps a combination where it meets the conditions. That of one source takes no memory of its own.
fn keep<'a>(
    alloc: Global,
    prepared: &Prepared,
    combination: &[Bound<'a>],
    kept: &mut Vec<Combination<'a>>,
) -> Result<(), DmlFault>
    requires prepared { IsPrepared prepared.now }
    ensures kept { Keeps result prepared.now.scope.now (conditions_of prepared.now.select.now) (found kept.old.items) (values_of combination.now ∷ [])
        (found kept.new.items) }
{
    if meets(prepared, &combination)? {
        push(kept, Combination::of(alloc, combination)?)?;
    }
    Ok(())
}

/// Whether values meet the conditions: those of a combination, or of the row of the only source.
#[tactic(auto, using(crate::proofs::Readied::met_by))]
pub(crate) fn meets<V: Values>(prepared: &Prepared, values: &V) -> Result<bool, DmlFault>
    requires prepared { IsPrepared prepared.now }
    ensures answer { Answers result (meets prepared.now.scope.now (conditions_of prepared.now.select.now) (V.values values.now)) }
{
    meets_at(prepared.conditions.as_slice(), values)
}

/// The same by resolved conditions: they are tested in order, up to the first that is not true. No name is looked for.
fn meets_at<V: Values>(conditions: &[Resolved], values: &V) -> Result<bool, DmlFault>
    ensures answer { Answers result (meets_at (V.values values.now) (map resolution_of conditions.now)) }
{
    let mut left = conditions;
    'conditions: while let Some((condition, rest)) = left.split_first() {
        if !tested(condition, values)? {
            return Ok(false);
        }
        left = rest;
    }
    Ok(true)
}

/// Whether values meet a condition. It takes no memory.
fn tested<V: Values>(condition: &Resolved, values: &V) -> Result<bool, DmlFault>
    ensures answer { Answers result (tested (meaning_at (V.values values.now) (resolution_of condition.now))) }
{
    match is_resolved_true(condition, values) {
        Ok(held) => Ok(held),
        Err(EvalFault::Overflow) => Err(DmlFault::Overflow),
        Err(EvalFault::Memory) => Err(DmlFault::Memory),
    }
}
