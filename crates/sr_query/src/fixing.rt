ghost use Rattle.std.specs.Prelude.{◌≡◌, ◌+◌, IfOk, length, map, nat_eq, slice_get};
ghost use Rattle.std.specs.Option.{option_copied};
ghost use Rattle.sr_eval.specs.Inner.Bounds.{values_of};
ghost use Rattle.sr_query.specs.Inner.Equations.{equation_of, equations, side_of};
ghost use Rattle.sr_query.specs.Inner.Lookups.{equated, equated_one, equated_key, fixed_value, fitted_or_given, known_value};
ghost use Rattle.sr_query.specs.Inner.Preparing.{IsPrepared};
ghost use Rattle.sr_query.specs.Sources.{conditions_of};

use crate::equations::{Equation, Side};
use crate::joined::Joined;
use crate::lists::push;
use crate::prepared::Prepared;
use sr_ast::Scope;
use sr_base::{Copied, Key, Kind, NoMemory, Seq, Value};
use sr_base_dates::fit;
use sr_eval::{Bound, value_at_place};
use std::alloc::Global;

/// The key that the conditions fix for a source, once those before it have their rows. It goes over the equations once for each column of
/// the key. No name is looked for.
#[tactic(auto, using(crate::proofs::Readied::fixed_by))]
pub(crate) fn equated_key(
    alloc: Global,
    prepared: &Prepared,
    before: &[Bound],
    joined: &Joined,
) -> Result<Option<Key>, NoMemory>
    requires prepared { IsPrepared prepared.now }
    ensures key { IfOk result (λ found. found ≡ equated_key (values_of before.now) joined.now.scope
        (equations prepared.now.scope.now (conditions_of prepared.now.select.now)) joined.now.table.now.key) }
{
    let equations = prepared.equations.as_slice();
    let mut values = Vec::new(alloc);
    let mut left = joined.table.key.as_slice();
    'places: while let Some((place, others)) = left.split_first() {
        let Some(value) = fixed_value(alloc, equations, before, &joined.scope, *place)? else {
            return Ok(None);
        };
        push(&mut values, value)?;
        left = others;
    }
    Ok(Some(Key::new(alloc, Seq::from_vec(values))?))
}

/// The value that the equations fix for the column at a place. Only a text is copied.
fn fixed_value<'a>(
    alloc: Global,
    equations: &[Equation<'a>],
    before: &[Bound<'a>],
    columns: &Scope,
    place: usize,
) -> Result<Option<Value>, NoMemory>
    ensures value { IfOk result (λ found. found ≡ fixed_value (values_of before.now) (map equation_of equations.now) place
        (slice_get columns.now place)) }
{
    let Some(column) = columns.as_slice().get(place) else {
        return Ok(None);
    };
    let Some(value) = equated(equations, before, place) else {
        return Ok(None);
    };
    Ok(Some(fitted_or_given(column.2, value.copy(alloc)?)))
}

/// What a column of a type holds that is equal to a value. A value that does not fit it is given back: no row has an equal one.
fn fitted_or_given(kind: Kind, value: Value) -> Value
    ensures { result ≡ fitted_or_given kind value }
{
    match fit(value, kind) {
        Ok(held) => held,
        Err(given) => given,
    }
}

/// What the first of the equations makes the column at a place equal to that does. It looks at each up to that one, and copies nothing.
fn equated<'a>(equations: &[Equation<'a>], before: &[Bound<'a>], place: usize) -> Option<&'a Value>
    ensures { option_copied result ≡ equated (values_of before.now) place (map equation_of equations.now) }
{
    let Some((equation, rest)) = equations.split_first() else {
        return None;
    };
    match equated_one(equation, before, place) {
        Some(value) => Some(value),
        None => equated(rest, before, place),
    }
}

/// What an equation makes the column at a place equal to, if it is of this column and the other side is known.
fn equated_one<'a>(equation: &Equation<'a>, before: &[Bound<'a>], place: usize) -> Option<&'a Value>
    ensures { option_copied result ≡ equated_one (values_of before.now) place (equation_of equation.now) }
{
    if !is_column(before, equation.place, place) {
        return None;
    }
    known_value(equation.other, before)
}

/// Whether a place among the columns of all sources is the one at a place of the next source. It passes over the sources before.
#[tactic(auto, using(crate::proofs::Places::next_rules))]
fn is_column(before: &[Bound], among_all: usize, place: usize) -> bool
    ensures { result ≡ nat_eq among_all (length (values_of before.now) + place) }
{
    let Some((source, after)) = before.split_first() else {
        return among_all == place;
    };
    let count = source.values.len();
    if among_all < count {
        return false;
    }
    is_column(after, among_all - count, place)
}

/// A value that the sources before give, or a literal. It passes over the sources before a column's own.
fn known_value<'a>(side: Side<'a>, before: &[Bound<'a>]) -> Option<&'a Value>
    ensures { option_copied result ≡ known_value (values_of before.now) (side_of side.entry) }
{
    match side {
        Side::Literal(value) => Some(value),
        Side::Place(place) => value_at_place(before, place),
    }
}
