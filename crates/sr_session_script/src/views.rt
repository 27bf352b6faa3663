//! What SYNCHRONIZE records: the tables of a publication, with what a user sees of their rows.

ghost use Rattle.std.specs.Prelude.{◌≡◌, ◌++◌, IfOk, OnOk, List, Some, map, filter_map};
ghost use Rattle.std.specs.List.{cons_option};
ghost use Rattle.sr_base.specs.declared.value.Value.{Value as Cell};
ghost use Rattle.sr_publish.specs.SubscribedTables.{subscribed_table_of};
ghost use Rattle.sr_publish.specs.Views.{shown_in};
ghost use Rattle.sr_rows.specs.Walks.{table_rows};
ghost use Rattle.sr_session_script.specs.Synced.{view_of, views_of};

use crate::lists::push;
use sr_ast::SubscriptionRule;
use sr_base::{Copied, Name, NoMemory, Row, Seq};
use sr_catalog::Catalog;
use sr_catalog_schema::Article;
use sr_publish::TableView;
use sr_rows::Rows;
use std::alloc::Global;

/// The tables of a subscription's publication in the order of its articles, each with what the subscription's user sees of its rows, by ascending
/// key.
///
/// Each table is gone through once, a row in logarithmic time; what is seen of a row costs by the row.
#[tactic(auto, unfolding(crate::specs::Synced::views_of))]
pub fn views_of(
    alloc: Global,
    catalog: &Catalog,
    rows: &Rows,
    rule: &SubscriptionRule,
) -> Result<Seq<(Name, Seq<Row>)>, NoMemory>
    ensures views { IfOk result (λ views. views ≡ views_of (record { catalog = catalog.now; rows = rows.now.rows }) rule.now) }
{
    let Some(publication) = catalog.publication(&rule.publication) else {
        return Ok(Seq::empty(alloc));
    };
    let views = views_by(
        alloc,
        catalog,
        rows,
        &rule.user,
        publication.articles.as_slice(),
    )?;
    Ok(views)
}

/// The tables of articles, each with what a user sees of its rows.
fn views_by(
    alloc: Global,
    catalog: &Catalog,
    rows: &Rows,
    user: &Name,
    articles: &[Article],
) -> Result<Seq<(Name, Seq<Row>)>, NoMemory>
    ensures views { IfOk result (λ views. views ≡ map (λ a. view_of (record { catalog = catalog.now; rows = rows.now.rows }) user.now a.table) articles.now) }
{
    let mut views = Vec::new(alloc);
    let mut left = articles;
    'articles: while let Some((article, rest)) = left.split_first() {
        push(
            &mut views,
            view_of(alloc, catalog, rows, user, &article.table)?,
        )?;
        left = rest;
    }
    Ok(Seq::from_vec(views))
}

/// A table with what a user sees of its rows.
#[tactic(auto, using(crate::proofs::Synced::view_seen))]
fn view_of(
    alloc: Global,
    catalog: &Catalog,
    rows: &Rows,
    user: &Name,
    table: &Name,
) -> Result<(Name, Seq<Row>), NoMemory>
    ensures view { IfOk result (λ view. view ≡ view_of (record { catalog = catalog.now; rows = rows.now.rows }) user.now table.now) }
{
    let name = table.copy(alloc)?;
    let seen = rows_seen(alloc, catalog, rows, user, table)?;
    Ok((name, seen))
}

/// What a user sees of the rows of a table.
#[tactic(auto, using(crate::proofs::Synced::nothing_seen))]
fn rows_seen(
    alloc: Global,
    catalog: &Catalog,
    rows: &Rows,
    user: &Name,
    table: &Name,
) -> Result<Seq<Row>, NoMemory>
    ensures seen { IfOk result (λ found. found ≡ filter_map (λ e. shown_in (subscribed_table_of catalog.now user.now table.now) e.1) (table_rows rows.now.rows table.now)) }
{
    match TableView::of(alloc, catalog, user, table)? {
        None => Ok(Seq::empty(alloc)),
        Some(view) => {
            let seen = rows_shown(alloc, rows, table, &view);
            drop(view);
            seen
        }
    }
}

/// What a subscribed table shows of the rows of a table, in the order of their keys.
fn rows_shown(
    alloc: Global,
    rows: &Rows,
    table: &Name,
    view: &TableView,
) -> Result<Seq<Row>, NoMemory>
    ensures shown { IfOk result (λ found. found ≡ filter_map (λ e. shown_in (Some view.now) e.1) (table_rows rows.now.rows table.now)) }
{
    let mut shown = Vec::new(alloc);
    let mut after = None;
    'rows: while let Some((key, row)) = rows.next(table, after) {
        show(alloc, view, row, &mut shown)?;
        after = Some(key);
    }
    Ok(Seq::from_vec(shown))
}

/// Adds what a subscribed table shows of a row.
fn show(alloc: Global, view: &TableView, row: &Row, shown: &mut Vec<Row>) -> Result<(), NoMemory>
    ensures added { OnOk result ((rest : List (List Cell)) → shown.old.items ++ cons_option (shown_in (Some view.now) row.now) rest ≡ shown.new.items ++ rest) }
{
    match view.sees(alloc, row)? {
        None => Ok(()),
        Some(found) => push(shown, found),
    }
}
