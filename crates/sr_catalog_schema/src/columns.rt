//! The columns of a table: their names, those of its key, and the scope that they make for an expression.

ghost use Rattle.std.specs.Prelude.{◌≡◌, Some, option_map, slice_get, IfOk};
ghost use Rattle.std.specs.Option.{option_copied};
ghost use Rattle.sr_ast.specs.Classes.{is_alias};
ghost use Rattle.sr_catalog_schema.specs.Firsts.{first_absent};
ghost use Rattle.sr_catalog_schema.specs.Members.{column_name, has_column, column_names, key_names, scope_of};

use crate::firsts::{first_absent, item_named, owned, place_named};
use crate::named::item_at;
use crate::table::Table;
use sr_ast::{Columns, Places, Scope};
use sr_base::{Copied, Kind, Name, NoMemory, Seq};
use std::alloc::Global;

/// The first name that is no column of the table.
pub fn first_absent_column(
    alloc: Global,
    table: &Table,
    names: &[Name],
) -> Result<Option<Name>, NoMemory>
    ensures { IfOk result (λ found. found ≡ first_absent (has_column table.now) names.now) }
{
    owned(alloc, first_absent(&table.columns, names))
}

/// The names of a table's key columns, in key order.
pub fn key_names(alloc: Global, table: &Table) -> Result<Vec<Name>, NoMemory>
    ensures { IfOk result (λ names. names.items ≡ key_names table.now) }
{
    let mut names = Vec::new(alloc);
    let mut rest = table.key.as_slice();
    'key: while let Some((place, after)) = rest.split_first() {
        if let Some(name) = name_at(table, *place) {
            names.push(name.copy(alloc)?)?;
        }
        rest = after;
    }
    Ok(names)
}

fn name_at(table: &Table, place: usize) -> Option<&Name>
    ensures { option_copied result ≡ option_map column_name (slice_get table.now.columns place) }
{
    match item_at(table.columns.as_slice(), place) {
        None => None,
        Some(column) => Some(&column.name),
    }
}

/// The names of a table's columns, in order.
pub fn column_names(alloc: Global, table: &Table) -> Result<Seq<Name>, NoMemory>
    ensures { IfOk result (λ names. names ≡ column_names table.now) }
{
    let mut names = Vec::new(alloc);
    let mut rest = table.columns.as_slice();
    'columns: while let Some((column, after)) = rest.split_first() {
        names.push(column.name.copy(alloc)?)?;
        rest = after;
    }
    Ok(Seq::from_vec(names))
}

/// The columns of a table for an expression, which may name each behind the table's name and a dot.
pub fn scope_of(alloc: Global, table: &Table) -> Result<Scope, NoMemory>
    ensures { IfOk result (λ scope. scope ≡ scope_of table.now) }
{
    let mut scope = Vec::new(alloc);
    let mut rest = table.columns.as_slice();
    'columns: while let Some((column, after)) = rest.split_first() {
        let alias = Some(table.name.copy(alloc)?);
        scope.push((alias, column.name.copy(alloc)?, column.kind))?;
        rest = after;
    }
    Ok(Seq::from_vec(scope))
}

/// A table is its own scope: an expression may name each column, also behind the table's name and a dot. No list of them is made; a
/// look-up goes along the columns.
impl Columns for Table {
    ghost scope = { scope_of };

    #[tactic(auto, using(crate::proofs::Scoped::kind_own, crate::proofs::Scoped::kind_other))]
    fn kind_of(&self, table: &Option<Name>, name: &Name) -> Option<Kind> {
        if !is_own(&self.name, table) {
            return None;
        }
        match item_named(name, self.columns.as_slice()) {
            None => None,
            Some(column) => Some(column.kind),
        }
    }
}

impl Places for Table {
    ghost scope = { scope_of };

    #[tactic(auto, using(crate::proofs::Scoped::place_own, crate::proofs::Scoped::place_other))]
    fn place_of(&self, table: &Option<Name>, name: &Name) -> Option<usize> {
        if !is_own(&self.name, table) {
            return None;
        }
        place_named(name, self.columns.as_slice())
    }
}

/// Whether a reference with this name before its dot, or with none, may mean a column of the table.
fn is_own(name: &Name, table: &Option<Name>) -> bool
    ensures { result ≡ is_alias (Some name.now) table.now }
{
    match table {
        None => true,
        Some(table) => name.bytes() == table.bytes(),
    }
}
