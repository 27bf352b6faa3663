ghost use Rattle.std.specs.Prelude.{◌≡◌, IfOk};
ghost use Rattle.sr_query.specs.Inner.Walks.{bounds_of};

use sr_ast::Scope;
use sr_base::NoMemory;
use sr_catalog::Table;
use sr_eval::Bound;
use std::alloc::Global;
use std::slice;

/// A source of a SELECT: its columns behind its alias, and its table.
#[derive(Drop)]
pub(crate) struct Joined<'a> {
    pub scope: Scope,
    pub table: &'a Table,
}

/// A row of each source. No value is copied. The row of one source lies in place, and those of more have a list.
#[derive(Drop)]
pub(crate) enum Combination<'a> {
    One(Bound<'a>),
    Many(Vec<Bound<'a>>),
}

impl<'a> Combination<'a> {
    /// The combination of these rows. That of one row takes no memory.
    pub(crate) fn of(alloc: Global, rows: &[Bound<'a>]) -> Result<Combination<'a>, NoMemory>
        ensures rows { IfOk result (λ combination. bounds_of combination ≡ rows.now) }
    {
        match rows {
            [row] => Ok(Combination::One(*row)),
            _ => Ok(Combination::Many(Vec::from_slice(alloc, rows)?)),
        }
    }

    /// The rows, in the order of their sources.
    pub(crate) fn rows(&self) -> &[Bound<'a>]
        ensures rows { result.now ≡ bounds_of self.now }
    {
        match self {
            Combination::One(row) => slice::from_ref(row),
            Combination::Many(rows) => rows.as_slice(),
        }
    }
}
