ghost use Rattle.std.specs.Prelude.{◌≡◌, ◌≢◌, ◌++◌, map, Ok, Err, List, IfOk, OnOk, MatchResult};
ghost use Rattle.sr_exec_dml.specs.Inner.Conditions.{Answers};
ghost use Rattle.sr_exec_dml.specs.Fitting.{RowsFit};
ghost use Rattle.sr_query.specs.Sources.{scope_under, alias_of, sources_of, origins_of, table_of, as_origin};
ghost use Rattle.sr_query.specs.Inner.Walks.{AreJoined, IsJoined, columns_left, seen};

use crate::joined::Joined;
use crate::lists::push;
use crate::names::alias_of;
use sr_ast::{Scope, Select, Source};
use sr_base::{Copied, Kind, Name, NoMemory, Seq};
use sr_catalog::{Catalog, DmlFault, Table};
use sr_rows::Rows;
use std::alloc::Global;

/// The sources of a SELECT with their columns, or the first table that is not there.
#[tactic(auto, using(crate::proofs::Combined::joined_one))]
pub(crate) fn joined_sources<'a>(
    alloc: Global,
    catalog: &'a Catalog,
    rows: &Rows,
    select: &Select,
) -> Result<Vec<Joined<'a>>, DmlFault>
    requires rows { RowsFit catalog.now rows.now.rows }
    ensures fit { IfOk result (λ found. AreJoined rows.now.rows found.items) }
    ensures answer { MatchResult result (λ found. origins_of catalog.now rows.now.rows (sources_of select.now) ≡ Ok (map (seen rows.now.rows) found.items))
        (λ fault. fault ≢ DmlFault.Memory → origins_of catalog.now rows.now.rows (sources_of select.now) ≡ Err fault) }
{
    let mut found = Vec::new(alloc);
    push(&mut found, joined(alloc, catalog, rows, &select.source)?)?;
    let mut left = select.joins.as_slice();
    'joins: while let Some((join, rest)) = left.split_first() {
        push(&mut found, joined(alloc, catalog, rows, &join.source)?)?;
        left = rest;
    }
    Ok(found)
}

/// A source with its columns, or `NoTable`.
fn joined<'a>(
    alloc: Global,
    catalog: &'a Catalog,
    _rows: &Rows,
    source: &Source,
) -> Result<Joined<'a>, DmlFault>
    requires rows { RowsFit catalog.now _rows.now.rows }
    ensures fit { IfOk result (λ joined. IsJoined _rows.now.rows joined) }
    ensures answer { MatchResult result (λ joined. as_origin _rows.now.rows source.now (table_of catalog.now source.now) ≡ Ok (seen _rows.now.rows joined))
        (λ fault. fault ≢ DmlFault.Memory → as_origin _rows.now.rows source.now (table_of catalog.now source.now) ≡ Err fault) }
{
    let Some(table) = catalog.table(&source.table) else {
        return Err(DmlFault::NoTable {
            name: source.table.copy(alloc)?,
        });
    };
    let scope = scope_under(alloc, alias_of(source), table)?;
    Ok(Joined { scope, table })
}

/// The columns of a table behind an alias.
fn scope_under(alloc: Global, alias: &Name, table: &Table) -> Result<Scope, NoMemory>
    ensures scope { IfOk result (λ scope. scope ≡ scope_under alias.now table.now) }
{
    let mut scope = Vec::new(alloc);
    let mut left = table.columns.as_slice();
    'columns: while let Some((column, rest)) = left.split_first() {
        let alias = Some(alias.copy(alloc)?);
        push(&mut scope, (alias, column.name.copy(alloc)?, column.kind))?;
        left = rest;
    }
    Ok(Seq::from_vec(scope))
}

/// The columns of all sources, one source after the other, copied once for a statement.
pub(crate) fn scope_of(alloc: Global, joined: &[Joined]) -> Result<Scope, NoMemory>
    ensures scope { IfOk result (λ scope. scope ≡ columns_left joined.now) }
{
    let mut scope = Vec::new(alloc);
    add_scopes(alloc, &mut scope, joined)?;
    Ok(Seq::from_vec(scope))
}

/// There are eight sources at most.
#[tactic(auto, using(crate::proofs::Combined::joined_lists))]
fn add_scopes(
    alloc: Global,
    scope: &mut Vec<(Option<Name>, Name, Kind)>,
    joined: &[Joined],
) -> Result<(), NoMemory>
    ensures ok { OnOk result (scope.new.items ≡ scope.old.items ++ columns_left joined.now) }
{
    let Some((source, after)) = joined.split_first() else {
        return Ok(());
    };
    add_columns(alloc, scope, source.scope.as_slice())?;
    add_scopes(alloc, scope, after)
}

fn add_columns(
    alloc: Global,
    scope: &mut Vec<(Option<Name>, Name, Kind)>,
    columns: &[(Option<Name>, Name, Kind)],
) -> Result<(), NoMemory>
    ensures ok { OnOk result (scope.new.items ≡ scope.old.items ++ columns.now) }
{
    let mut left = columns;
    'columns: while let Some((column, rest)) = left.split_first() {
        push(scope, column.copy(alloc)?)?;
        left = rest;
    }
    Ok(())
}
