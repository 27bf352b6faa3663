//! Aggregates on the way along rows: each row is taken into all of them where it is met, so none is kept.

ghost use Rattle.std.specs.Prelude.{◌≡◌, ◌≢◌, [], map, pos, Ok, Err, IfOk, MatchResult};
ghost use Rattle.sr_eval.specs.Inner.Resolving.{resolution_of};
ghost use Rattle.sr_exec_dml.specs.Inner.Conditions.{Answers};
ghost use Rattle.sr_exec_dml.specs.Sequences.{each};
ghost use Rattle.sr_query.specs.Inner.Preparing.{value_by};
ghost use Rattle.sr_query.specs.Inner.Tallies.{each_over, started, told_of, told_over, with_row};
ghost use Rattle.sr_query.specs.Rows.{as_big, as_sum, is_better, is_greater, is_less, number_in, plus};

use crate::lists::push;
use sr_ast::{Item, Scope};
use sr_base::{Copied, NoMemory, Row, Seq, Value};
use sr_catalog::DmlFault;
use sr_eval::{EvalFault, Resolved, resolve, resolved_value};
use std::alloc::{AllocError, Global};

/// An item of a statement with aggregates, and what is told of it by the rows so far. Its names are resolved once.
#[derive(Drop)]
pub(crate) enum Tally {
    /// An item that is no aggregate.
    Nothing,
    /// How many rows there were.
    Count(usize),
    /// The sum of the numbers, if there was one.
    Sum(Resolved, Option<i128>),
    /// The least value, or NULL.
    Least(Resolved, Value),
    /// The greatest value, or NULL.
    Greatest(Resolved, Value),
}

/// The items before the first row. Each name looks at the columns of the source up to its own, once for a statement.
#[tactic(auto, using(crate::proofs::Readied::one_more))]
pub(crate) fn tallies_of(
    alloc: Global,
    scope: &Scope,
    items: &[Item],
) -> Result<Vec<Tally>, NoMemory>
    ensures tallies { IfOk result (λ tallies. map told_of tallies.items ≡ map (started scope.now) items.now) }
{
    let mut tallies = Vec::with_capacity(alloc, items.len())?;
    let mut left = items;
    'items: while let Some((item, rest)) = left.split_first() {
        let tally = started(alloc, scope, item)?;
        push(&mut tallies, tally)?;
        left = rest;
    }
    Ok(tallies)
}

/// An item before the first row.
fn started(alloc: Global, scope: &Scope, item: &Item) -> Result<Tally, NoMemory>
    ensures tally { IfOk result (λ tally. told_of tally ≡ started scope.now item.now) }
{
    match item {
        Item::Value(_) => Ok(Tally::Nothing),
        Item::Count => Ok(Tally::Count(0)),
        Item::Sum(expr) => {
            let resolved = resolve(alloc, expr, scope)?;
            Ok(Tally::Sum(resolved, None))
        }
        Item::Min(expr) => {
            let resolved = resolve(alloc, expr, scope)?;
            Ok(Tally::Least(resolved, Value::Null))
        }
        Item::Max(expr) => {
            let resolved = resolve(alloc, expr, scope)?;
            Ok(Tally::Greatest(resolved, Value::Null))
        }
    }
}

/// Takes a row into all tallies. It takes no memory but that of texts.
pub(crate) fn take_row(alloc: Global, tallies: &mut [Tally], row: &[Value]) -> Result<(), DmlFault>
    ensures answer { MatchResult result (λ _. each (with_row row.now) (map told_of tallies.old) ≡ Ok (map told_of tallies.new))
        (λ fault. fault ≢ DmlFault.Memory → each (with_row row.now) (map told_of tallies.old) ≡ Err fault) }
{
    let Some((tally, rest)) = tallies.split_first_mut() else {
        return Ok(());
    };
    take_into(alloc, tally, row)?;
    take_row(alloc, rest, row)?;
    Ok(())
}

/// Takes a row into a tally. More rows than a count holds lie in no memory.
fn take_into(alloc: Global, tally: &mut Tally, row: &[Value]) -> Result<(), DmlFault>
    ensures answer { MatchResult result (λ _. with_row row.now (told_of tally.old) ≡ Ok (told_of tally.new))
        (λ fault. fault ≢ DmlFault.Memory → with_row row.now (told_of tally.old) ≡ Err fault) }
{
    match tally {
        Tally::Nothing => Ok(()),
        Tally::Count(count) => {
            let Some(more) = count.checked_add(1) else {
                return Err(DmlFault::Memory);
            };
            *count = more;
            Ok(())
        }
        Tally::Sum(resolved, total) => {
            let value = value_over(alloc, resolved, row)?;
            let sum = added(*total, number_in(&value))?;
            *total = sum;
            Ok(())
        }
        Tally::Least(resolved, best) => {
            let value = value_over(alloc, resolved, row)?;
            if is_less(&value, best) {
                *best = value;
            }
            Ok(())
        }
        Tally::Greatest(resolved, best) => {
            let value = value_over(alloc, resolved, row)?;
            if is_greater(&value, best) {
                *best = value;
            }
            Ok(())
        }
    }
}

/// The value of a resolved expression on a row. No name is looked for, and only a text is copied.
fn value_over(alloc: Global, resolved: &Resolved, row: &[Value]) -> Result<Value, DmlFault>
    ensures answer { Answers result (value_by (resolution_of resolved.now) row.now) }
{
    match resolved_value(alloc, resolved, &row) {
        Ok(value) => Ok(value),
        Err(EvalFault::Overflow) => Err(DmlFault::Overflow),
        Err(EvalFault::Memory) => Err(DmlFault::Memory),
    }
}

/// The values of all tallies, once no row is left.
pub(crate) fn values_of(alloc: Global, tallies: &[Tally]) -> Result<Row, DmlFault>
    ensures answer { Answers result (each_over (map told_of tallies.now) []) }
{
    let mut values = Vec::with_capacity(alloc, tallies.len())?;
    let mut left = tallies;
    'tallies: while let Some((tally, rest)) = left.split_first() {
        let value = value_of(alloc, tally)?;
        push(&mut values, value)?;
        left = rest;
    }
    Ok(Row::new(alloc, Seq::from_vec(values))?)
}

fn value_of(alloc: Global, tally: &Tally) -> Result<Value, DmlFault>
    ensures answer { Answers result (told_over (told_of tally.now) []) }
{
    match tally {
        Tally::Nothing => Ok(Value::Null),
        Tally::Count(count) => as_big(*count),
        Tally::Sum(_, total) => as_sum(*total),
        Tally::Least(_, best) => Ok(best.copy(alloc)?),
        Tally::Greatest(_, best) => Ok(best.copy(alloc)?),
    }
}

/// A number of rows as a BIGINT.
fn as_big(count: usize) -> Result<Value, DmlFault>
    ensures answer { Answers result (as_big (pos count)) }
{
    match i64::try_from(count) {
        Ok(count) => Ok(Value::Big(count)),
        Err(_) => Err(DmlFault::Overflow),
    }
}

/// Whether a value takes the place of another one in MIN. NULL is passed over.
fn is_less(value: &Value, best: &Value) -> bool
    ensures { result ≡ is_better is_less value.now best.now }
{
    match best {
        Value::Null => true,
        Value::Int(_) | Value::Big(_) | Value::Str(_) | Value::Date(_) => match value {
            Value::Null => false,
            Value::Int(_) | Value::Big(_) | Value::Str(_) | Value::Date(_) => {
                value.cmp(best).is_lt()
            }
        },
    }
}

/// Whether a value takes the place of another one in MAX. NULL is passed over.
fn is_greater(value: &Value, best: &Value) -> bool
    ensures { result ≡ is_better is_greater value.now best.now }
{
    match best {
        Value::Null => true,
        Value::Int(_) | Value::Big(_) | Value::Str(_) | Value::Date(_) => match value {
            Value::Null => false,
            Value::Int(_) | Value::Big(_) | Value::Str(_) | Value::Date(_) => {
                best.cmp(value).is_lt()
            }
        },
    }
}

/// The number that a value is, if it is one.
fn number_in(value: &Value) -> Option<i64>
    ensures { result ≡ number_in value.now }
{
    match value {
        Value::Int(number) => Some(*number as i64),
        Value::Big(number) => Some(*number),
        Value::Null | Value::Str(_) | Value::Date(_) => None,
    }
}

/// A whole sum as a BIGINT, or NULL of no number.
fn as_sum(total: Option<i128>) -> Result<Value, DmlFault>
    ensures answer { Answers result (as_sum total) }
{
    let Some(total) = total else {
        return Ok(Value::Null);
    };
    match i64::try_from(total) {
        Ok(sum) => Ok(Value::Big(sum)),
        Err(_) => Err(DmlFault::Overflow),
    }
}

/// The sum of some numbers, and one more, if there is one. It is held in 128 bits: more numbers than it takes to pass them lie in no memory.
fn added(total: Option<i128>, number: Option<i64>) -> Result<Option<i128>, NoMemory>
    ensures sum { IfOk result (λ sum. sum ≡ plus total number) }
{
    let Some(number) = number else {
        return Ok(total);
    };
    let Some(total) = total else {
        return Ok(Some(number as i128));
    };
    match total.checked_add(number as i128) {
        Some(sum) => Ok(Some(sum)),
        None => Err(AllocError),
    }
}
