ghost use Rattle.std.specs.Prelude.{◌≡◌, map, None};
ghost use Rattle.sr_exec_dml.specs.Inner.Conditions.{AnswersBy, Tells};
ghost use Rattle.sr_exec_dml.specs.Fitting.{RowsFit};
ghost use Rattle.sr_catalog_schema.specs.Firsts.{first_among};
ghost use Rattle.sr_exec_dml.specs.Sequences.{each, followed};
ghost use Rattle.sr_query.specs.Inner.Preparing.{IsPrepared};
ghost use Rattle.sr_query.specs.Checks.{is_good, unknown_in_order, unknown_in_select};
ghost use Rattle.sr_query.specs.Rows.{listed, listed_row};
ghost use Rattle.sr_query.specs.Selecting.{kept_from, selected, Answered};
ghost use Rattle.sr_query.specs.Inner.Walks.{AreJoined, IsAlone, columns_left, found, seen};

use crate::aggregates::aggregated;
use crate::checks::{has_aggregate, is_good};
use crate::combining::walk;
use crate::equations::equations_of;
use crate::items::listed_rows;
use crate::joined::{Combination, Joined};
use crate::joining::{joined_sources, scope_of};
use crate::keeping::kept_rows;
use crate::ordering::ordered;
use crate::prepared::{Prepared, conditions_of};
use crate::rank::Listed;
use crate::unknown::unknown_in_select;
use sr_ast::{Items, Scope, Select};
use sr_base::{Copied, Row};
use sr_catalog::{Catalog, DmlFault};
use sr_rows::Rows;
use std::alloc::Global;

/// The rows that a SELECT answers over these rows, each of which fits its table.
///
/// The refusals, of which the first in this order is answered: `NoTable` at the first source whose table is not there; `NoColumn` at the
/// leftmost unknown column of items, conditions and ORDER BY; `BadValue` of the first table where two sources have one alias, two sources
/// have a column that is named without an alias, a class is wrong, or an aggregate stands beside an item that is none or in a statement
/// with JOIN; `Overflow` where a test of a combination has no value, an item of one that meets all tests, or a whole sum or count passes
/// BIGINT.
pub fn select(
    alloc: Global,
    catalog: &Catalog,
    rows: &Rows,
    stmt: &Select,
) -> Result<Vec<Row>, DmlFault>
    requires rows { RowsFit catalog.now rows.now.rows }
    ensures answer { Tells result (λ found. Answered (selected catalog.now rows.now.rows stmt.now) found.items)
        (selected catalog.now rows.now.rows stmt.now) }
{
    let listed = selected(alloc, catalog, rows, stmt)?;
    Ok(ordered(alloc, listed)?)
}

/// The rows with their ranks, or the first refusal.
fn selected(
    alloc: Global,
    catalog: &Catalog,
    rows: &Rows,
    stmt: &Select,
) -> Result<Vec<Listed>, DmlFault>
    requires rows { RowsFit catalog.now rows.now.rows }
    ensures answer { AnswersBy result (λ listed. listed.items) (selected catalog.now rows.now.rows stmt.now) }
{
    let joined = joined_sources(alloc, catalog, rows, stmt)?;
    let scope = scope_of(alloc, joined.as_slice())?;
    if let Some(name) = unknown_in_select(alloc, &scope, stmt)? {
        return Err(DmlFault::NoColumn { name });
    }
    if !is_good(alloc, &scope, stmt)? {
        return Err(DmlFault::BadValue {
            name: stmt.source.table.copy(alloc)?,
        });
    }
    answered(alloc, rows, stmt, &scope, joined.as_slice())
}

/// The rows with their ranks of a statement in which nothing is wrong. The names of its conditions are resolved once.
#[tactic(auto, using(crate::proofs::Whole::by_items))]
fn answered<'a>(
    alloc: Global,
    rows: &'a Rows,
    select: &Select,
    scope: &Scope,
    joined: &'a [Joined<'a>],
) -> Result<Vec<Listed>, DmlFault>
    requires scope { columns_left joined.now ≡ scope.now }
    requires joined { AreJoined rows.now.rows joined.now }
    requires alone { IsAlone select.now.items joined.now }
    ensures answer { AnswersBy result (λ found. found.items)
        (followed (kept_from scope.now select.now (map (seen rows.now.rows) joined.now)) (listed scope.now select.now.items select.now.order)) }
{
    let prepared = Prepared {
        select,
        scope,
        conditions: conditions_of(alloc, scope, select)?,
        equations: equations_of(alloc, scope, select)?,
    };
    let Items::Each(list) = &select.items else {
        return each_listed(alloc, rows, &prepared, joined);
    };
    if !has_aggregate(list.as_slice()) {
        return each_listed(alloc, rows, &prepared, joined);
    }
    match joined {
        [one] => aggregated(alloc, rows, &prepared, list.as_slice(), one),
        _ => unreachable!(),
    }
}

/// A row with its ranks of each combination that meets the conditions.
fn each_listed<'a>(
    alloc: Global,
    rows: &'a Rows,
    prepared: &Prepared,
    joined: &'a [Joined<'a>],
) -> Result<Vec<Listed>, DmlFault>
    requires scope { columns_left joined.now ≡ prepared.now.scope.now }
    requires joined { AreJoined rows.now.rows joined.now }
    requires prepared { IsPrepared prepared.now }
    ensures answer { AnswersBy result (λ found. found.items)
        (followed (kept_from prepared.now.scope.now prepared.now.select.now (map (seen rows.now.rows) joined.now)) (each (listed_row prepared.now.scope.now prepared.now.select.now.items prepared.now.select.now.order))) }
{
    let kept = kept(alloc, rows, prepared, joined)?;
    listed_rows(
        alloc,
        prepared.scope,
        &prepared.select.items,
        prepared.select.order.as_slice(),
        kept.as_slice(),
    )
}

/// The combinations that meet the conditions.
fn kept<'a>(
    alloc: Global,
    rows: &'a Rows,
    prepared: &Prepared,
    joined: &'a [Joined<'a>],
) -> Result<Vec<Combination<'a>>, DmlFault>
    requires scope { columns_left joined.now ≡ prepared.now.scope.now }
    requires joined { AreJoined rows.now.rows joined.now }
    requires prepared { IsPrepared prepared.now }
    ensures answer { AnswersBy result (λ found_now. found found_now.items) (kept_from prepared.now.scope.now prepared.now.select.now (map (seen rows.now.rows) joined.now)) }
{
    match joined {
        [one] => kept_rows(alloc, rows, prepared, one),
        _ => kept_of_several(alloc, rows, prepared, joined),
    }
}

/// Those of several sources.
fn kept_of_several<'a>(
    alloc: Global,
    rows: &'a Rows,
    prepared: &Prepared,
    joined: &'a [Joined<'a>],
) -> Result<Vec<Combination<'a>>, DmlFault>
    requires scope { columns_left joined.now ≡ prepared.now.scope.now }
    requires joined { AreJoined rows.now.rows joined.now }
    requires prepared { IsPrepared prepared.now }
    ensures answer { AnswersBy result (λ found_now. found found_now.items) (kept_from prepared.now.scope.now prepared.now.select.now (map (seen rows.now.rows) joined.now)) }
{
    let mut combination = Vec::new(alloc);
    let mut kept = Vec::new(alloc);
    walk(alloc, rows, prepared, joined, &mut combination, &mut kept)?;
    Ok(kept)
}
