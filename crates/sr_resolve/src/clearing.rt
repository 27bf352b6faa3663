//! Clear.

ghost use Rattle.std.specs.Prelude.{◌≡◌, map, IfOk};
ghost use Rattle.sr_exec_dml.specs.Statements.{table_named};
ghost use Rattle.sr_logform.specs.declared.outcome.Clash.TheVariants as why;
ghost use Rattle.sr_resolve.specs.Judging.{clash_unless, judged_clear, removal};
ghost use Rattle.sr_rows.specs.Walks.{Entry, table_rows};

use crate::outcomes::removal;
use sr_base::{Name, NoMemory, Seq};
use sr_catalog::{Catalog, Table};
use sr_logform::{Change, Clash, Outcome};
use sr_rows::Rows;
use std::alloc::Global;

/// The outcome of a Clear of the table of a name.
pub(crate) fn judge_clear(
    alloc: Global,
    catalog: &Catalog,
    rows: &Rows,
    above: bool,
    table: &Name,
) -> Result<Outcome, NoMemory>
    ensures judged { IfOk result (λ o. o ≡ clash_unless (table_named catalog.now table.now) why.NoTable (judged_clear rows.now.rows above)) }
{
    match catalog.table(table) {
        None => Ok(Outcome::Clash(Clash::NoTable)),
        Some(table) => clear(alloc, rows, above, table),
    }
}

/// A Clear of a table: from above every row goes.
#[tactic(auto, unfolding(crate::specs::Judging::judged_clear))]
fn clear(alloc: Global, rows: &Rows, above: bool, table: &Table) -> Result<Outcome, NoMemory>
    ensures judged { IfOk result (λ o. o ≡ judged_clear rows.now.rows above table.now) }
{
    if !above {
        return Ok(Outcome::Clash(Clash::Statement));
    }
    let changes = removals(alloc, rows, table)?;
    Ok(Outcome::Plain(changes))
}

/// The changes that take every row of a table, by ascending key. Each takes logarithmic time.
fn removals(alloc: Global, rows: &Rows, table: &Table) -> Result<Seq<Change>, NoMemory>
    ensures removals { IfOk result (λ changes. changes ≡ map (λ (e : Entry). removal table.now.name e.1) (table_rows rows.now.rows table.now.name)) }
{
    let mut changes = Vec::new(alloc);
    let mut after = None;
    'rows: while let Some((key, row)) = rows.next(&table.name, after) {
        changes.push(removal(alloc, &table.name, row)?)?;
        after = Some(key);
    }
    Ok(Seq::from_vec(changes))
}
