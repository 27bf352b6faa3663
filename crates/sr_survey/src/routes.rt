//! How the rows of a table are given.

ghost use Rattle.std.specs.Prelude.{◌≡◌, ◌++◌, ◌∷◌, [], IfOk, OnOk, bytes_eq, filter_map, find};
ghost use Rattle.std.specs.Option.{option_copied};
ghost use Rattle.sr_catalog_schema.specs.Members.{scope_of};
ghost use Rattle.sr_survey.specs.Inner.Keyed.{route_in, routes_of};

use sr_ast::Scope;
use sr_base::{Copied, Name, NoMemory, Seq};
use sr_catalog::Catalog;
use sr_catalog_schema::{Article, Publication, Table, scope_of};
use std::alloc::{AllocError, Global};

/// A table, its columns for an expression, and the articles of it, each with its publication.
#[derive(Drop)]
pub struct Routes {
    pub(crate) table: Table,
    pub(crate) scope: Scope,
    pub(crate) articles: Seq<(Name, Article)>,
}

/// How the rows of a table of this name are given by a catalog. It takes a pass over the articles of each publication.
pub(crate) fn routes_of(
    alloc: Global,
    catalog: &Catalog,
    name: &Name,
    table: &Table,
) -> Result<Routes, NoMemory>
    ensures table { IfOk result (λ routes. routes.table ≡ table.now) }
    ensures scope { IfOk result (λ routes. routes.scope ≡ scope_of table.now) }
    ensures articles { IfOk result (λ routes. routes.articles ≡ routes_of catalog.now name.now) }
{
    let scope = scope_of(alloc, table)?;
    let articles = articles_of(alloc, catalog.publications(), name)?;
    let table = table.copy(alloc)?;
    Ok(Routes {
        table,
        scope,
        articles,
    })
}

/// The articles of a table, each with its publication. It takes a pass over the articles of each publication.
fn articles_of(
    alloc: Global,
    publications: &[Publication],
    table: &Name,
) -> Result<Seq<(Name, Article)>, NoMemory>
    ensures articles { IfOk result (λ articles. articles ≡ filter_map (route_in table.now) publications.now) }
{
    let mut articles = Vec::new(alloc);
    let mut left = publications;
    'publications: while let Some((publication, rest)) = left.split_first() {
        if let Some(route) = route_in(alloc, table, publication)? {
            add_route(&mut articles, route)?;
        }
        left = rest;
    }
    Ok(Seq::from_vec(articles))
}

fn add_route(articles: &mut Vec<(Name, Article)>, route: (Name, Article)) -> Result<(), NoMemory>
    ensures added { OnOk result (articles.new.items ≡ articles.old.items ++ route ∷ []) }
{
    match articles.push(route) {
        Ok(()) => Ok(()),
        Err(_) => Err(AllocError),
    }
}

/// The article of a table in a publication, with the publication's name.
fn route_in(
    alloc: Global,
    table: &Name,
    publication: &Publication,
) -> Result<Option<(Name, Article)>, NoMemory>
    ensures route { IfOk result (λ route. route ≡ route_in table.now publication.now) }
{
    match article_of(table, publication.articles.as_slice()) {
        None => Ok(None),
        Some(article) => Ok(Some((publication.name.copy(alloc)?, article.copy(alloc)?))),
    }
}

/// The first article of a table. It takes one pass over the articles.
fn article_of<'a>(table: &Name, articles: &'a [Article]) -> Option<&'a Article>
    ensures { option_copied result ≡ find (λ a. bytes_eq table.now a.table) articles.now }
{
    let mut left = articles;
    'articles: while let Some((article, rest)) = left.split_first() {
        if table.bytes() == article.table.bytes() {
            return Some(article);
        }
        left = rest;
    }
    None
}
