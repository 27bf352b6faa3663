//! The condition and the assignments of a statement, and the places of an INSERT's values, made ready once: over rows no name is looked for.

ghost use Rattle.std.specs.Prelude.{◌≡◌, ◌<◌, length, map, IfOk, IfSome};
ghost use Rattle.std.specs.Option.{option_copied};
ghost use Rattle.sr_catalog_schema.specs.Members.{scope_of};
ghost use Rattle.sr_exec_where.specs.Naming.{set_for};
ghost use Rattle.sr_exec_where.specs.Inner.Preparing.{IsPrepared, place_among, places_in, resolution_in, resolved_in, sets_in};

use crate::lists::push;
use crate::names::is_same;
use sr_ast::Expr;
use sr_base::{Name, NoMemory, Seq};
use sr_catalog_schema::{Column, Table};
use sr_eval::{Resolved, resolve};
use std::alloc::Global;

/// The assignments of an UPDATE, or none of a DELETE, and the condition of the one or the other; and the condition and what each column takes,
/// in the order of the columns, with their names resolved.
#[derive(Drop)]
pub struct Prepared<'a> {
    pub sets: Option<&'a [(Name, Expr)]>,
    pub condition: &'a Option<Expr>,
    pub resolved_condition: Option<Resolved>,
    pub resolved_sets: Seq<Option<Resolved>>,
}

/// Makes a statement ready. Each column looks through the assignments, and each name through the columns, once.
pub fn prepare<'a>(
    alloc: Global,
    table: &Table,
    sets: Option<&'a [(Name, Expr)]>,
    condition: &'a Option<Expr>,
) -> Result<Prepared<'a>, NoMemory>
    ensures prepared { IfOk result (IsPrepared table.now) }
    ensures sets { IfOk result (λ prepared. option_copied prepared.sets ≡ option_copied sets.entry) }
    ensures condition { IfOk result (λ prepared. prepared.condition.now ≡ condition.now) }
{
    let resolved_condition = resolved_in(alloc, table, condition.as_ref())?;
    let resolved_sets = match sets {
        None => Seq::empty(alloc),
        Some(sets) => sets_in(alloc, table, sets)?,
    };
    Ok(Prepared {
        sets,
        condition,
        resolved_condition,
        resolved_sets,
    })
}

/// An expression that is there or not, its names resolved.
fn resolved_in(
    alloc: Global,
    table: &Table,
    expr: Option<&Expr>,
) -> Result<Option<Resolved>, NoMemory>
    ensures resolved { IfOk result (λ made. resolution_in made ≡ resolved_in (scope_of table.now) (option_copied expr.entry)) }
{
    match expr {
        None => Ok(None),
        Some(expr) => Ok(Some(resolve(alloc, expr, table)?)),
    }
}

/// What each column takes of the assignments of an UPDATE.
#[tactic(auto, using(crate::proofs::Readied::one_more))]
fn sets_in(
    alloc: Global,
    table: &Table,
    sets: &[(Name, Expr)],
) -> Result<Seq<Option<Resolved>>, NoMemory>
    ensures sets { IfOk result (λ made. map resolution_in made ≡ sets_in (scope_of table.now) sets.now table.now.columns) }
{
    let columns = table.columns.as_slice();
    let mut made = Vec::with_capacity(alloc, columns.len())?;
    let mut left = columns;
    'columns: while let Some((column, rest)) = left.split_first() {
        let set = resolved_in(alloc, table, set_for(sets, &column.name))?;
        push(&mut made, set)?;
        left = rest;
    }
    Ok(Seq::from_vec(made))
}

/// The expression that is assigned to a column. It looks at each assignment up to the column's.
fn set_for<'a>(sets: &'a [(Name, Expr)], column: &Name) -> Option<&'a Expr>
    ensures { option_copied result ≡ set_for sets.now column.now }
{
    let mut left = sets;
    'sets: while let Some((set, rest)) = left.split_first() {
        if is_same(&set.0, column) {
            return Some(&set.1);
        }
        left = rest;
    }
    None
}

/// The place of each column's value in the rows of an INSERT. Each column looks through the columns that are named.
#[tactic(auto, using(crate::proofs::Readied::one_more))]
pub fn places_in(
    alloc: Global,
    names: &[Name],
    columns: &[Column],
) -> Result<Vec<Option<usize>>, NoMemory>
    ensures places { IfOk result (λ places. places.items ≡ places_in names.now columns.now) }
{
    let mut places = Vec::with_capacity(alloc, columns.len())?;
    let mut left = columns;
    'columns: while let Some((column, rest)) = left.split_first() {
        push(&mut places, place_among(names, &column.name))?;
        left = rest;
    }
    Ok(places)
}

/// The place of a column among those that are named. It looks at each up to it.
fn place_among(names: &[Name], column: &Name) -> Option<usize>
    ensures place { result ≡ place_among names.now column.now }
    ensures within { IfSome result (λ place. place < length names.now) }
{
    names.iter().position(|name| is_same(name, column))
}
