//! A place is listed under the keys of rows.

ghost use Rattle.std.specs.Prelude.{◌≡◌, ◌++◌, ◌∷◌, [], Some, OnOk, filter_map};
ghost use Rattle.sr_catalog_schema.specs.Members.{scope_of};
ghost use Rattle.sr_exec_fits.specs.Rows.{IsRow};
ghost use Rattle.sr_scan.specs.Inner.Images.{row_changed};
ghost use Rattle.sr_survey.specs.Inner.Keyed.{article_key, row_keys, keys_if, routes_of, change_keys, changes_keys};
ghost use Rattle.sr_survey_places.specs.Inner.Listed.{IsListedUnder};

use crate::chart::Chart;
use crate::keys::article_key;
use crate::routes::{Routes, routes_of};
use sr_base::{Name, NoMemory, Row, Value};
use sr_catalog::Catalog;
use sr_catalog_schema::Article;
use sr_exec_fits::is_row;
use sr_logform::Change;
use sr_survey_places::{Listings, Place};
use std::alloc::Global;

/// Lists a place under the keys of changes. Each costs by its own two rows and by the articles of its table, where these are at hand.
pub(crate) fn list_changes(
    alloc: Global,
    lists: &mut Listings,
    catalog: &Chart,
    changes: &[Change],
    place: Place,
) -> Result<(), NoMemory>
    ensures listed { OnOk result (IsListedUnder lists.old.lists (changes_keys catalog.now changes.now) place lists.new.lists) }
{
    let mut left = changes;
    'changes: while let Some((change, rest)) = left.split_first() {
        list_change(alloc, lists, catalog, change, place)?;
        left = rest;
    }
    Ok(())
}

/// Lists a place under the keys of the row before and of the row after; of a table that is not there under none.
fn list_change(
    alloc: Global,
    lists: &mut Listings,
    catalog: &Chart,
    change: &Change,
    place: Place,
) -> Result<(), NoMemory>
    ensures listed { OnOk result (IsListedUnder lists.old.lists (change_keys catalog.now change.now) place lists.new.lists) }
{
    match catalog.routes(&change.table) {
        Some(routes) => list_both(alloc, lists, routes, change, place),
        None => list_change_anew(alloc, lists, catalog.catalog(), change, place),
    }
}

/// The same where the articles of the table are not at hand.
#[tactic(auto, using(crate::proofs::Listing::change_none, crate::proofs::Listing::change_some))]
fn list_change_anew(
    alloc: Global,
    lists: &mut Listings,
    catalog: &Catalog,
    change: &Change,
    place: Place,
) -> Result<(), NoMemory>
    ensures listed { OnOk result (IsListedUnder lists.old.lists (change_keys catalog.now change.now) place lists.new.lists) }
{
    let Some(table) = catalog.table(&change.table) else {
        return Ok(());
    };
    let routes = routes_of(alloc, catalog, &change.table, table)?;
    let listed = list_both(alloc, lists, &routes, change, place);
    drop(routes);
    listed
}

#[tactic(auto, using(sr_survey_places::proofs::Joined::listed_both))]
fn list_both(
    alloc: Global,
    lists: &mut Listings,
    routes: &Routes,
    change: &Change,
    place: Place,
) -> Result<(), NoMemory>
    requires scope { routes.now.scope ≡ scope_of routes.now.table }
    ensures listed { OnOk result (IsListedUnder lists.old.lists (keys_if routes.now.table routes.now.articles change.now.before ++ keys_if routes.now.table routes.now.articles change.now.after) place lists.new.lists) }
{
    list_if(alloc, lists, routes, &change.before, place)?;
    list_if(alloc, lists, routes, &change.after, place)?;
    Ok(())
}

/// Lists a place under the keys of two rows of a table, one in place of the other; of a table that is not there under none.
pub(crate) fn list_rows(
    alloc: Global,
    lists: &mut Listings,
    catalog: &Chart,
    table: &Name,
    before: &Row,
    after: &Row,
    place: Place,
) -> Result<(), NoMemory>
    ensures listed { OnOk result (IsListedUnder lists.old.lists (change_keys catalog.now (row_changed table.now before.now after.now)) place lists.new.lists) }
{
    match catalog.routes(table) {
        Some(routes) => list_two(alloc, lists, routes, before, after, place),
        None => list_rows_anew(alloc, lists, catalog.catalog(), table, before, after, place),
    }
}

/// The same where the articles of the table are not at hand.
#[tactic(auto, using(crate::proofs::Listing::change_none, crate::proofs::Listing::change_some))]
fn list_rows_anew(
    alloc: Global,
    lists: &mut Listings,
    catalog: &Catalog,
    table: &Name,
    before: &Row,
    after: &Row,
    place: Place,
) -> Result<(), NoMemory>
    ensures listed { OnOk result (IsListedUnder lists.old.lists (change_keys catalog.now (row_changed table.now before.now after.now)) place lists.new.lists) }
{
    let Some(there) = catalog.table(table) else {
        return Ok(());
    };
    let routes = routes_of(alloc, catalog, table, there)?;
    let listed = list_two(alloc, lists, &routes, before, after, place);
    drop(routes);
    listed
}

#[tactic(auto, using(sr_survey_places::proofs::Joined::listed_both))]
fn list_two(
    alloc: Global,
    lists: &mut Listings,
    routes: &Routes,
    before: &Row,
    after: &Row,
    place: Place,
) -> Result<(), NoMemory>
    requires scope { routes.now.scope ≡ scope_of routes.now.table }
    ensures listed { OnOk result (IsListedUnder lists.old.lists (keys_if routes.now.table routes.now.articles (Some before.now) ++ keys_if routes.now.table routes.now.articles (Some after.now)) place lists.new.lists) }
{
    list_row(alloc, lists, routes, before, place)?;
    list_row(alloc, lists, routes, after, place)?;
    Ok(())
}

#[tactic(auto, using(sr_survey_places::proofs::Joined::listed_none))]
fn list_if(
    alloc: Global,
    lists: &mut Listings,
    routes: &Routes,
    row: &Option<Row>,
    place: Place,
) -> Result<(), NoMemory>
    requires scope { routes.now.scope ≡ scope_of routes.now.table }
    ensures listed { OnOk result (IsListedUnder lists.old.lists (keys_if routes.now.table routes.now.articles row.now) place lists.new.lists) }
{
    match row {
        None => Ok(()),
        Some(row) => list_row(alloc, lists, routes, row, place),
    }
}

/// Lists a place under the keys of a row: under none where it does not fit its table.
#[tactic(auto, using(crate::proofs::Listing::row_none, crate::proofs::Listing::row_some))]
fn list_row(
    alloc: Global,
    lists: &mut Listings,
    routes: &Routes,
    row: &Row,
    place: Place,
) -> Result<(), NoMemory>
    requires scope { routes.now.scope ≡ scope_of routes.now.table }
    ensures listed { OnOk result (IsListedUnder lists.old.lists (row_keys routes.now.table routes.now.articles row.now) place lists.new.lists) }
{
    let cells = row.values();
    if !is_row(routes.table.columns.as_slice(), cells) {
        return Ok(());
    }
    list_by(alloc, lists, routes, cells, place)
}

/// Lists a place under the keys by which articles give a row. It takes one pass over the articles.
fn list_by(
    alloc: Global,
    lists: &mut Listings,
    routes: &Routes,
    row: &[Value],
    place: Place,
) -> Result<(), NoMemory>
    requires scope { routes.now.scope ≡ scope_of routes.now.table }
    requires row { IsRow routes.now.table.columns row.now }
    ensures listed { OnOk result (IsListedUnder lists.old.lists (filter_map (article_key routes.now.table row.now) routes.now.articles) place lists.new.lists) }
{
    let mut left = routes.articles.as_slice();
    'articles: while let Some((route, rest)) = left.split_first() {
        list_route(alloc, lists, routes, route, row, place)?;
        left = rest;
    }
    Ok(())
}

/// Lists a place under the key by which an article gives a row, if it gives it.
#[tactic(auto, using(crate::proofs::Listing::route_none, crate::proofs::Listing::route_some))]
fn list_route(
    alloc: Global,
    lists: &mut Listings,
    routes: &Routes,
    route: &(Name, Article),
    row: &[Value],
    place: Place,
) -> Result<(), NoMemory>
    requires scope { routes.now.scope ≡ scope_of routes.now.table }
    requires row { IsRow routes.now.table.columns row.now }
    ensures listed { OnOk result (IsListedUnder lists.old.lists (filter_map (article_key routes.now.table row.now) (route.now ∷ [])) place lists.new.lists) }
{
    let found = article_key(alloc, &routes.table, &routes.scope, route, row)?;
    match found {
        None => Ok(()),
        Some(key) => {
            let listed = lists.add(alloc, &key, place);
            drop(key);
            listed
        }
    }
}
