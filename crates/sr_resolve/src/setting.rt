//! Set: an update of a row, and what triggers make of it where it met another value than it took for the stored one.

ghost use Rattle.std.specs.Prelude.{◌≡◌, Some, IfOk};
ghost use Rattle.sr_exec_dml.specs.Fitting.{RowsFit, TableFits};
ghost use Rattle.sr_exec_dml.specs.Statements.{table_named};
ghost use Rattle.sr_resolve_triggers.specs.Firing.{fired};
ghost use Rattle.sr_logform.specs.declared.outcome.Clash.TheVariants as why;
ghost use Rattle.sr_resolve.specs.Judging.{changed, clash_unless, ground_of, judged_set, judged_update, resolved, set_at, updated_at, where_met};
ghost use Rattle.sr_resolve.specs.Named.{new_values, with_news};
ghost use Rattle.sr_resolve.specs.Inner.Named.{CanTake};

use crate::named::{fitted_key, has_any_null, names_key};
use crate::outcomes::changed;
use crate::updates::{differing, has_no_target, new_values, old_row, sets_null, with_news};
use sr_base::{Copied, Key, Name, NoMemory, Row, Seq, Value};
use sr_catalog::{Catalog, Table};
use sr_logform::{Clash, Outcome};
use sr_resolve_triggers::{Conflict, Fired, fire};
use sr_rows::Rows;
use std::alloc::Global;

/// The outcome of a Set of a row in the table of a name.
pub(crate) fn judge_set(
    alloc: Global,
    catalog: &Catalog,
    rows: &Rows,
    above: bool,
    table: &Name,
    key: &[(Name, Value)],
    updates: &[(Name, Value, Value)],
) -> Result<Outcome, NoMemory>
    requires rows { RowsFit catalog.now rows.now.rows }
    ensures judged { IfOk result (λ o. o
        ≡ clash_unless (table_named catalog.now table.now) why.NoTable (judged_set catalog.now rows.now.rows above key.now updates.now)) }
{
    match catalog.table(table) {
        None => Ok(Outcome::Clash(Clash::NoTable)),
        Some(table) => set(alloc, catalog, rows, above, table, key, updates),
    }
}

/// A Set of a row in a table: the named key is the table's, the other columns are there and not of the key, each value fits, NULL stands
/// only where it may, and the key is held. It takes the columns times the names, and logarithmic time.
#[tactic(auto, unfolding(crate::specs::Judging::judged_set))]
fn set(
    alloc: Global,
    catalog: &Catalog,
    rows: &Rows,
    above: bool,
    table: &Table,
    key: &[(Name, Value)],
    updates: &[(Name, Value, Value)],
) -> Result<Outcome, NoMemory>
    requires rows { TableFits table.now rows.now.rows }
    ensures judged { IfOk result (λ o. o ≡ judged_set catalog.now rows.now.rows above key.now updates.now table.now) }
{
    if !names_key(table, key) {
        return Ok(Outcome::Clash(Clash::NoColumn));
    }
    if has_no_target(table, updates) {
        return Ok(Outcome::Clash(Clash::NoColumn));
    }
    match fitted_key(alloc, table, key)? {
        None => Ok(Outcome::Clash(Clash::BadValue)),
        Some(place) => set_at(alloc, catalog, rows, above, table, updates, &place),
    }
}

/// A Set of the row of a key, whose new values may not fit.
fn set_at(
    alloc: Global,
    catalog: &Catalog,
    rows: &Rows,
    above: bool,
    table: &Table,
    updates: &[(Name, Value, Value)],
    place: &Key,
) -> Result<Outcome, NoMemory>
    requires rows { TableFits table.now rows.now.rows }
    ensures set { IfOk result (λ o. o ≡ set_at catalog.now rows.now.rows above updates.now table.now place.now) }
{
    match new_values(alloc, above, updates, table.columns.as_slice())? {
        None => Ok(Outcome::Clash(Clash::BadValue)),
        Some(news) => update_at(
            alloc,
            catalog,
            rows,
            above,
            table,
            updates,
            place,
            news.as_slice(),
        ),
    }
}

/// An update of the row of a key, if it is held, with new values that fit.
fn update_at(
    alloc: Global,
    catalog: &Catalog,
    rows: &Rows,
    above: bool,
    table: &Table,
    updates: &[(Name, Value, Value)],
    place: &Key,
    news: &[Option<Value>],
) -> Result<Outcome, NoMemory>
    requires rows { TableFits table.now rows.now.rows }
    requires fit { new_values above updates.now table.now.columns ≡ Some news.now }
    ensures updated { IfOk result (λ o. o ≡ updated_at catalog.now rows.now.rows above updates.now table.now place.now news.now) }
{
    if has_any_null(place.values()) {
        return Ok(Outcome::Clash(Clash::Null));
    }
    if sets_null(table.columns.as_slice(), news) {
        return Ok(Outcome::Clash(Clash::Null));
    }
    match rows.get(&table.name, place) {
        None => Ok(Outcome::Clash(Clash::NoRow)),
        Some(stored) => update(alloc, catalog, rows, above, table, updates, stored, news),
    }
}

/// An update of a row that is stored. From above it is made; from below it is made where each stored value is equal to its old value, and
/// else it is a conflict.
#[tactic(auto, unfolding(crate::specs::Judging::judged_update))]
fn update(
    alloc: Global,
    catalog: &Catalog,
    rows: &Rows,
    above: bool,
    table: &Table,
    updates: &[(Name, Value, Value)],
    stored: &Row,
    news: &[Option<Value>],
) -> Result<Outcome, NoMemory>
    requires taken { CanTake table.now.columns updates.now stored.now news.now }
    ensures judged { IfOk result (λ o. o ≡ judged_update catalog.now rows.now.rows above updates.now table.now stored.now (with_news news.now stored.now)) }
{
    if above {
        return replace(alloc, table, stored, news);
    }
    let names = differing(alloc, updates, table.columns.as_slice(), stored.values())?;
    verified(
        alloc,
        catalog,
        rows,
        table,
        updates,
        stored,
        news,
        names.as_slice(),
    )
}

/// A row that is stored gets new values.
fn replace(
    alloc: Global,
    table: &Table,
    stored: &Row,
    news: &[Option<Value>],
) -> Result<Outcome, NoMemory>
    ensures changed { IfOk result (λ o. o ≡ changed table.now.name stored.now (with_news news.now stored.now)) }
{
    let new = with_news(alloc, news, stored.values())?;
    let row = Row::new(alloc, Seq::from_vec(new))?;
    changed(alloc, &table.name, stored, row)
}

/// An update of a row from below, of which the values in these columns differ from the old ones: it is made where there are none, and else
/// it is a conflict.
fn verified(
    alloc: Global,
    catalog: &Catalog,
    rows: &Rows,
    table: &Table,
    updates: &[(Name, Value, Value)],
    stored: &Row,
    news: &[Option<Value>],
    names: &[Name],
) -> Result<Outcome, NoMemory>
    requires taken { CanTake table.now.columns updates.now stored.now news.now }
    ensures verified { IfOk result (λ o. o ≡ where_met names.now (changed table.now.name stored.now (with_news news.now stored.now))
        (resolved stored.now (fired (ground_of catalog.now rows.now.rows updates.now table.now stored.now) names.now (with_news news.now stored.now)))) }
{
    match names.split_first() {
        None => replace(alloc, table, stored, news),
        Some(_) => resolve(alloc, catalog, rows, table, updates, stored, news, names),
    }
}

/// What the triggers make of a conflict in which these columns differ.
#[tactic(auto, using(crate::proofs::Rows::taken_fit, crate::proofs::Rows::old_row_fits))]
fn resolve(
    alloc: Global,
    catalog: &Catalog,
    rows: &Rows,
    table: &Table,
    updates: &[(Name, Value, Value)],
    stored: &Row,
    news: &[Option<Value>],
    names: &[Name],
) -> Result<Outcome, NoMemory>
    requires taken { CanTake table.now.columns updates.now stored.now news.now }
    ensures resolved { IfOk result (λ o. o
        ≡ resolved stored.now (fired (ground_of catalog.now rows.now.rows updates.now table.now stored.now) names.now (with_news news.now stored.now))) }
{
    let remote = old_row(alloc, updates, table.columns.as_slice())?;
    let before = stored.copy(alloc)?;
    let new = with_news(alloc, news, stored.values())?;
    let conflict = Conflict {
        catalog,
        rows,
        table,
        stored: stored.values(),
        remote: remote.values(),
    };
    let fired = fire(alloc, &conflict, names, new)?;
    Ok(outcome_of(before, fired))
}

/// The outcome that triggers leave, with the row that was stored.
fn outcome_of(before: Row, fired: Option<Fired>) -> Outcome
    ensures { result ≡ resolved before fired }
{
    match fired {
        None => {
            drop(before);
            Outcome::Clash(Clash::Trigger)
        }
        Some(fired) => Outcome::Conflict {
            inserts: fired.inserts,
            before,
            after: fired.new,
        },
    }
}
