//! Remove.

ghost use Rattle.std.specs.Prelude.{◌≡◌, IfOk};
ghost use Rattle.sr_exec_dml.specs.Statements.{table_named};
ghost use Rattle.sr_logform.specs.declared.outcome.Clash.TheVariants as why;
ghost use Rattle.sr_resolve.specs.Judging.{clash_unless, judged_remove, removed_at};

use crate::named::{fitted_key, has_any_null, names_key};
use crate::outcomes::removed;
use sr_base::{Key, Name, NoMemory, Value};
use sr_catalog::{Catalog, Table};
use sr_logform::{Clash, Outcome};
use sr_rows::Rows;
use std::alloc::Global;

/// The outcome of a Remove from the table of a name.
pub(crate) fn judge_remove(
    alloc: Global,
    catalog: &Catalog,
    rows: &Rows,
    table: &Name,
    key: &[(Name, Value)],
) -> Result<Outcome, NoMemory>
    ensures judged { IfOk result (λ o. o ≡ clash_unless (table_named catalog.now table.now) why.NoTable (judged_remove rows.now.rows key.now)) }
{
    match catalog.table(table) {
        None => Ok(Outcome::Clash(Clash::NoTable)),
        Some(table) => remove(alloc, rows, table, key),
    }
}

/// A Remove from a table: the row goes that is held under the named key. It takes logarithmic time.
#[tactic(auto, unfolding(crate::specs::Judging::judged_remove))]
fn remove(
    alloc: Global,
    rows: &Rows,
    table: &Table,
    key: &[(Name, Value)],
) -> Result<Outcome, NoMemory>
    ensures judged { IfOk result (λ o. o ≡ judged_remove rows.now.rows key.now table.now) }
{
    if !names_key(table, key) {
        return Ok(Outcome::Clash(Clash::NoColumn));
    }
    match fitted_key(alloc, table, key)? {
        None => Ok(Outcome::Clash(Clash::BadValue)),
        Some(place) => remove_at(alloc, rows, table, &place),
    }
}

/// The row of a key goes, if one is held there.
fn remove_at(alloc: Global, rows: &Rows, table: &Table, place: &Key) -> Result<Outcome, NoMemory>
    ensures removed { IfOk result (λ o. o ≡ removed_at rows.now.rows table.now place.now) }
{
    if has_any_null(place.values()) {
        return Ok(Outcome::Clash(Clash::Null));
    }
    match rows.get(&table.name, place) {
        None => Ok(Outcome::Clash(Clash::NoRow)),
        Some(row) => removed(alloc, &table.name, row),
    }
}
