ghost use Rattle.std.specs.Prelude.{◌≡◌, [], IfOk};
ghost use Rattle.sr_exec_where.specs.Checks.{unknown_in, unknown_set, bad_row, bad_sets, unknown_in_insert, bad_in_insert, unknown_in_update, bad_in_update};
ghost use Rattle.sr_catalog_schema.specs.Members.{scope_of};
ghost use Rattle.sr_catalog_schema.specs.Firsts.{first_among};
ghost use Rattle.sr_exec_where.specs.Naming.{names_of};

use crate::classes::{bad_condition, bad_value, unknown_condition};
use crate::lists::push;
use crate::names::{is_among, named_again, no_column, unknown_name};
use sr_ast::{Expr, Insert, Scope, Update, unknown_among, unknown_in};
use sr_base::{Copied, Name, NoMemory, Seq};
use sr_catalog_schema::Table;
use std::alloc::Global;

/// The leftmost unknown column of an INSERT.
pub fn unknown_in_insert(
    alloc: Global,
    table: &Table,
    insert: &Insert,
    constants: &Scope,
) -> Result<Option<Name>, NoMemory>
    requires constants { constants.now ≡ [] }
    ensures unknown { IfOk result (λ found. found ≡ unknown_in_insert table.now insert.now) }
{
    match unknown_name(alloc, table.columns.as_slice(), insert.columns.as_slice())? {
        Some(unknown) => Ok(Some(unknown)),
        None => unknown_in_rows(alloc, constants, insert.rows.as_slice()),
    }
}

/// Each expression is looked at once.
fn unknown_in_rows(
    alloc: Global,
    scope: &Scope,
    rows: &[Seq<Expr>],
) -> Result<Option<Name>, NoMemory>
    ensures unknown { IfOk result (λ found. found ≡ first_among (first_among (unknown_in scope.now)) rows.now) }
{
    let mut left = rows;
    'rows: while let Some((row, rest)) = left.split_first() {
        if let Some(unknown) = unknown_in_row(alloc, scope, row.as_slice())? {
            return Ok(Some(unknown));
        }
        left = rest;
    }
    Ok(None)
}

fn unknown_in_row(alloc: Global, scope: &Scope, row: &[Expr]) -> Result<Option<Name>, NoMemory>
    ensures unknown { IfOk result (λ found. found ≡ first_among (unknown_in scope.now) row.now) }
{
    let mut left = row;
    'values: while let Some((expr, rest)) = left.split_first() {
        if let Some(unknown) = unknown_in(alloc, scope, expr)? {
            return Ok(Some(unknown));
        }
        left = rest;
    }
    Ok(None)
}

/// The leftmost unknown column of the assignments of an UPDATE. Each name looks through the columns of the table.
fn unknown_in_sets(
    alloc: Global,
    table: &Table,
    sets: &[(Name, Expr)],
) -> Result<Option<Name>, NoMemory>
    ensures unknown { IfOk result (λ found. found ≡ first_among (unknown_set table.now) sets.now) }
{
    let mut left = sets;
    'sets: while let Some((set, rest)) = left.split_first() {
        if let Some(unknown) = no_column(alloc, table.columns.as_slice(), &set.0)? {
            return Ok(Some(unknown));
        }
        if let Some(unknown) = unknown_among(alloc, table, &set.1)? {
            return Ok(Some(unknown));
        }
        left = rest;
    }
    Ok(None)
}

/// The leftmost column named twice, wrong class or wrong count of an INSERT: a column, or the table.
pub fn bad_in_insert(
    alloc: Global,
    table: &Table,
    insert: &Insert,
    names: &[Name],
    constants: &Scope,
) -> Result<Option<Name>, NoMemory>
    requires constants { constants.now ≡ [] }
    requires names { names.now ≡ names_of table.now.columns insert.now.columns }
    ensures bad { IfOk result (λ found. found ≡ bad_in_insert table.now insert.now) }
{
    match named_again(alloc, insert.columns.as_slice())? {
        Some(again) => Ok(Some(again)),
        None => bad_rows(alloc, &table.name, names, insert.rows.as_slice(), constants),
    }
}

/// Each expression is looked at once.
fn bad_rows(
    alloc: Global,
    table: &Name,
    names: &[Name],
    rows: &[Seq<Expr>],
    constants: &Scope,
) -> Result<Option<Name>, NoMemory>
    requires constants { constants.now ≡ [] }
    ensures bad { IfOk result (λ found. found ≡ first_among (bad_row table.now names.now) rows.now) }
{
    let mut left = rows;
    'rows: while let Some((row, rest)) = left.split_first() {
        if let Some(bad) = bad_row(alloc, table, names, row.as_slice(), constants)? {
            return Ok(Some(bad));
        }
        left = rest;
    }
    Ok(None)
}

fn bad_row(
    alloc: Global,
    table: &Name,
    names: &[Name],
    row: &[Expr],
    constants: &Scope,
) -> Result<Option<Name>, NoMemory>
    requires constants { constants.now ≡ [] }
    ensures bad { IfOk result (λ found. found ≡ bad_row table.now names.now row.now) }
{
    let mut names_left = names;
    let mut left = row;
    'values: while let Some((expr, rest)) = left.split_first() {
        let Some((name, names_rest)) = names_left.split_first() else {
            return Ok(Some(table.copy(alloc)?));
        };
        if let Some(bad) = bad_value(alloc, constants, name, expr)? {
            return Ok(Some(bad));
        }
        names_left = names_rest;
        left = rest;
    }
    match names_left.split_first() {
        None => Ok(None),
        Some(_) => Ok(Some(table.copy(alloc)?)),
    }
}

/// The leftmost column of the assignments of an UPDATE that stands again, or that is given an expression of a wrong class. Each looks
/// at the names before it; there are as many as columns at most.
fn bad_sets(alloc: Global, table: &Table, sets: &[(Name, Expr)]) -> Result<Option<Name>, NoMemory>
    ensures bad { IfOk result (λ found. found ≡ bad_sets (scope_of table.now) [] sets.now) }
{
    let mut before = Vec::new(alloc);
    let mut left = sets;
    'sets: while let Some((set, rest)) = left.split_first() {
        if is_among(&set.0, before.as_slice()) {
            return Ok(Some(set.0.copy(alloc)?));
        }
        if let Some(bad) = bad_value(alloc, table, &set.0, &set.1)? {
            return Ok(Some(bad));
        }
        push(&mut before, set.0.copy(alloc)?)?;
        left = rest;
    }
    Ok(None)
}

/// The leftmost unknown column of an UPDATE.
pub fn unknown_in_update(
    alloc: Global,
    table: &Table,
    update: &Update,
) -> Result<Option<Name>, NoMemory>
    ensures unknown { IfOk result (λ found. found ≡ unknown_in_update table.now update.now) }
{
    match unknown_in_sets(alloc, table, update.sets.as_slice())? {
        Some(unknown) => Ok(Some(unknown)),
        None => unknown_condition(alloc, table, &update.condition),
    }
}

/// The leftmost column of an UPDATE that is named twice or given a wrong class, or the table where its condition is of a wrong one.
pub fn bad_in_update(
    alloc: Global,
    table: &Table,
    update: &Update,
) -> Result<Option<Name>, NoMemory>
    ensures bad { IfOk result (λ found. found ≡ bad_in_update table.now update.now) }
{
    match bad_sets(alloc, table, update.sets.as_slice())? {
        Some(bad) => Ok(Some(bad)),
        None => bad_condition(alloc, table, &update.condition),
    }
}
