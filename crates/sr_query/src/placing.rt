ghost use Rattle.std.specs.Prelude.{◌≡◌, map, IfOk};
ghost use Rattle.sr_query.specs.Inner.Orders.{placed_in};

use crate::lists::push;
use sr_ast::{OrderBy, Places, Scope};
use sr_base::NoMemory;
use std::alloc::Global;

/// A column of ORDER BY: whether it is descending, and the place of its value among those of a combination.
#[derive(Clone, Copy)]
pub(crate) struct Placed {
    pub descending: bool,
    pub place: Option<usize>,
}

/// The columns of ORDER BY by their places. Each is looked for by its name among all columns, once for a statement.
pub(crate) fn places_of(
    alloc: Global,
    scope: &Scope,
    order: &[OrderBy],
) -> Result<Vec<Placed>, NoMemory>
    ensures places { IfOk result (λ found. found.items ≡ map (placed_in scope.now) order.now) }
{
    let mut found = Vec::with_capacity(alloc, order.len())?;
    let mut left = order;
    'order: while let Some((by, rest)) = left.split_first() {
        push(&mut found, placed_in(scope, by))?;
        left = rest;
    }
    Ok(found)
}

fn placed_in(scope: &Scope, by: &OrderBy) -> Placed
    ensures { result ≡ placed_in scope.now by.now }
{
    Placed {
        descending: by.descending,
        place: scope.place_of(&by.table, &by.column),
    }
}
