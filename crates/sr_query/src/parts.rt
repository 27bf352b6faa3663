//! The items of a statement, made ready once: over combinations of rows no name is looked for.

ghost use Rattle.std.specs.Prelude.{◌≡◌, map, IfOk};
ghost use Rattle.sr_eval.specs.Inner.Resolving.{resolution_of};
ghost use Rattle.sr_query.specs.Inner.Preparing.{resolved_item, resolved_items, resolutions_of};

use crate::lists::push;
use sr_ast::{Item, Items, Scope};
use sr_base::{NoMemory, Seq, Value};
use sr_eval::{Resolved, resolve};
use std::alloc::Global;

/// What the rows of a statement are made of.
#[derive(Drop)]
pub(crate) enum Parts {
    /// All values of a combination, and how many there are.
    All(usize),
    /// A value for each item: a plain column is the value at its place.
    Each(Seq<Resolved>),
}

/// The items, their names resolved. Each name looks at the columns of all sources up to its own, once for a statement.
pub(crate) fn parts_of(alloc: Global, scope: &Scope, items: &Items) -> Result<Parts, NoMemory>
    ensures parts { IfOk result (λ parts. resolutions_of parts ≡ resolved_items scope.now items.now) }
{
    match items {
        Items::All => Ok(Parts::All(scope.as_slice().len())),
        Items::Each(list) => Ok(Parts::Each(part_list(alloc, scope, list.as_slice())?)),
    }
}

/// The items of a list, their names resolved. Each operator takes a box.
#[tactic(auto, using(crate::proofs::Readied::one_more))]
fn part_list(alloc: Global, scope: &Scope, items: &[Item]) -> Result<Seq<Resolved>, NoMemory>
    ensures parts { IfOk result (λ parts. map resolution_of parts ≡ map (resolved_item scope.now) items.now) }
{
    let mut parts = Vec::with_capacity(alloc, items.len())?;
    let mut left = items;
    'items: while let Some((item, rest)) = left.split_first() {
        let part = resolved_item(alloc, scope, item)?;
        push(&mut parts, part)?;
        left = rest;
    }
    Ok(Seq::from_vec(parts))
}

/// An item, its names resolved: NULL in the place of an aggregate, which no combination has.
fn resolved_item(alloc: Global, scope: &Scope, item: &Item) -> Result<Resolved, NoMemory>
    ensures part { IfOk result (λ part. resolution_of part ≡ resolved_item scope.now item.now) }
{
    match item {
        Item::Value(expr) => resolve(alloc, expr, scope),
        Item::Count => Ok(Resolved::Literal(Value::Null)),
        Item::Sum(_) => Ok(Resolved::Literal(Value::Null)),
        Item::Min(_) => Ok(Resolved::Literal(Value::Null)),
        Item::Max(_) => Ok(Resolved::Literal(Value::Null)),
    }
}
