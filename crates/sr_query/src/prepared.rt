//! The conditions of a statement, made ready once: over combinations of rows no name is looked for.

ghost use Rattle.std.specs.Prelude.{◌≡◌, map, IfOk};
ghost use Rattle.sr_eval.specs.Inner.Resolving.{resolution_of};
ghost use Rattle.sr_query.specs.Inner.Preparing.{resolved_in};
ghost use Rattle.sr_query.specs.Sources.{conditions_of};

use crate::equations::Equation;
use crate::lists::push;
use sr_ast::{Scope, Select};
use sr_base::{NoMemory, Seq};
use sr_eval::{Resolved, resolve};
use std::alloc::Global;

/// A statement, the columns of all of its sources, and its conditions in the order of their tests, their names resolved: each as it is
/// tested, and the equations that they make.
#[derive(Drop)]
pub(crate) struct Prepared<'a> {
    pub select: &'a Select,
    pub scope: &'a Scope,
    pub conditions: Seq<Resolved>,
    pub equations: Seq<Equation<'a>>,
}

/// The conditions of a statement: each ON and then WHERE. Each name looks at the columns of all sources up to its own, once for a statement;
/// each operator takes a box.
#[tactic(auto, using(crate::proofs::Readied::one_more))]
pub(crate) fn conditions_of(
    alloc: Global,
    scope: &Scope,
    select: &Select,
) -> Result<Seq<Resolved>, NoMemory>
    ensures conditions { IfOk result (λ made. map resolution_of made ≡ map (resolved_in scope.now) (conditions_of select.now)) }
{
    let mut made = Vec::with_capacity(alloc, select.joins.as_slice().len() + 1)?;
    let mut left = select.joins.as_slice();
    'joins: while let Some((join, rest)) = left.split_first() {
        let condition = resolve(alloc, &join.condition, scope)?;
        push(&mut made, condition)?;
        left = rest;
    }
    if let Some(condition) = &select.condition {
        let condition = resolve(alloc, condition, scope)?;
        push(&mut made, condition)?;
    }
    Ok(Seq::from_vec(made))
}
