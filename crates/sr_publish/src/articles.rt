//! The article by which a user has a table, and its columns.

ghost use Rattle.std.specs.Prelude.{◌≡◌, ◌&&◌, ◌++◌, ◌∷◌, [], IfOk, OnOk, bytes_eq, filter_map, find, option_map};
ghost use Rattle.std.specs.Option.{option_copied};
ghost use Rattle.sr_catalog_schema.specs.Members.{column_name};
ghost use Rattle.sr_catalog_schema.specs.Names.{named, place_of};
ghost use Rattle.sr_publish.specs.SubscribedTables.{is_live, article_in, source_of};

use sr_base::{Copied, Name, NoMemory, Seq};
use sr_catalog::Catalog;
use sr_catalog_schema::{Article, Column, Subscription, Table, item_named};
use std::alloc::Global;

/// Whether a subscription is a started one of a user.
pub(crate) fn is_live(user: &Name, subscription: &Subscription) -> bool
    ensures { result ≡ is_live user.now subscription.now }
{
    subscription.started && user.bytes() == subscription.user.bytes()
}

/// The article by which a user has a table, with the name of its publication: that of his first started subscription whose publication
/// has the table. It takes one pass over the subscriptions, and of each of his over the articles of its publication.
pub(crate) fn source_of<'a>(
    catalog: &'a Catalog,
    user: &Name,
    table: &Name,
) -> Option<(&'a Name, &'a Article)>
    ensures { option_map (λ p. (p.0.now, p.1.now)) result ≡ source_of catalog.now user.now table.now }
{
    let mut rest = catalog.subscriptions();
    'subscriptions: while let Some((subscription, after)) = rest.split_first() {
        if is_live(user, subscription) {
            if let Some(article) = article_in(catalog, table, subscription) {
                return Some((&subscription.publication, article));
            }
        }
        rest = after;
    }
    None
}

/// The article of a table in the publication of a subscription.
fn article_in<'a>(
    catalog: &'a Catalog,
    table: &Name,
    subscription: &Subscription,
) -> Option<&'a Article>
    ensures { option_copied result ≡ article_in catalog.now table.now subscription.now }
{
    match catalog.publication(&subscription.publication) {
        None => None,
        Some(publication) => article_of(table, publication.articles.as_slice()),
    }
}

/// The first article of a table.
fn article_of<'a>(table: &Name, articles: &'a [Article]) -> Option<&'a Article>
    ensures { option_copied result ≡ find (λ a. bytes_eq table.now a.table) articles.now }
{
    let mut rest = articles;
    'articles: while let Some((article, after)) = rest.split_first() {
        if table.bytes() == article.table.bytes() {
            return Some(article);
        }
        rest = after;
    }
    None
}

/// The columns of these names, as the table has them.
pub(crate) fn columns_of(
    alloc: Global,
    table: &Table,
    names: &[Name],
) -> Result<Seq<Column>, NoMemory>
    ensures { IfOk result (λ columns. columns ≡ filter_map (λ n. named column_name n table.now.columns) names.now) }
{
    let mut columns = Vec::new(alloc);
    let mut rest = names;
    'names: while let Some((name, after)) = rest.split_first() {
        if let Some(column) = item_named(name, table.columns.as_slice()) {
            add_copy(alloc, column, &mut columns)?;
        }
        rest = after;
    }
    Ok(Seq::from_vec(columns))
}

fn add_copy(alloc: Global, column: &Column, columns: &mut Vec<Column>) -> Result<(), NoMemory>
    ensures added { OnOk result (columns.new.items ≡ columns.old.items ++ column.now ∷ []) }
{
    columns.push(column.copy(alloc)?)?;
    Ok(())
}

/// The places of the columns of these names.
pub(crate) fn places_of(
    alloc: Global,
    table: &Table,
    names: &[Name],
) -> Result<Seq<usize>, NoMemory>
    ensures { IfOk result (λ places. places ≡ filter_map (λ n. place_of column_name n table.now.columns) names.now) }
{
    let mut places = Vec::new(alloc);
    let mut rest = names;
    'names: while let Some((name, after)) = rest.split_first() {
        if let Some(place) = place_of(table.columns.as_slice(), name) {
            places.push(place)?;
        }
        rest = after;
    }
    Ok(Seq::from_vec(places))
}

fn place_of(columns: &[Column], name: &Name) -> Option<usize>
    ensures { result ≡ place_of column_name name.now columns.now }
{
    columns
        .iter()
        .position(|column| name.bytes() == column.name.bytes())
}
