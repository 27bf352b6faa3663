//! What speaks against CREATE PUBLICATION and DROP PUBLICATION, and the publication that is made.

ghost use Rattle.std.specs.Prelude.{◌≡◌, [], length, nat_le, nat_lt, IfOk, bytes_eq};
ghost use Rattle.std.specs.Option.{option_copied};
ghost use Rattle.std.specs.List.{list_any};
ghost use Rattle.sr_catalog_schema.specs.Causes.{first_fault};
ghost use Rattle.sr_catalog_schema.specs.Firsts.{first_of, first_among, where_true};
ghost use Rattle.sr_catalog_ddl.specs.Publications.{
  twice_in_articles,
  absent_column,
  absent_in,
  is_bad_where,
  is_bad_by,
  is_bad_article,
  key_outside,
  table_in,
  columns_of,
  article_of,
  publication_of,
  create_publication_causes,
  drop_publication_causes,
  taken_or_twice,
  absent_in_table,
  key_lacking,
  key_outside_columns,
};

use sr_ast::{
    ArticleRule, CreatePublication, Expr, class_among, gives_truth, is_plain, unknown_among,
};
use sr_base::{Copied, Name, NoMemory, Seq};
use sr_catalog_schema::{
    Article, DdlFault, Publication, Schema, Seen, Subscription, Table, column_names, first,
    first_absent, first_absent_column, first_twice, is_empty, is_operator, key_names, limit_where,
    owned, paired, too_many_fault, where_true,
};
use std::alloc::Global;

/// The fault that refuses CREATE PUBLICATION. Each is looked for where those before do not hold.
#[tactic(auto, unfolding(crate::specs::Publications::create_publication_causes, sr_catalog_schema::specs::Causes::first_fault))]
pub fn create_publication_fault(
    schema: &Schema,
    alloc: Global,
    rule: &CreatePublication,
) -> Result<Option<DdlFault>, NoMemory>
    ensures { IfOk result (λ fault. fault ≡ first_fault (create_publication_causes schema.now rule.now)) }
{
    if let Some(name) = exists(schema, alloc, rule)? {
        return Ok(Some(DdlFault::Exists { name }));
    }
    if let Some(name) = first_absent_in(schema, alloc, rule)? {
        return Ok(Some(DdlFault::Missing { name }));
    }
    if let Some(name) = first_bad_article(schema, alloc, rule)? {
        return Ok(Some(DdlFault::BadType { name }));
    }
    if let Some((table, column)) = first_key_outside(schema, alloc, rule)? {
        return Ok(Some(DdlFault::KeyNotInArticle { table, column }));
    }
    Ok(too_many_fault(too_many(schema, rule)))
}

fn exists(
    schema: &Schema,
    alloc: Global,
    rule: &CreatePublication,
) -> Result<Option<Name>, NoMemory>
    ensures { IfOk result (λ found. found ≡ taken_or_twice schema.now rule.now) }
{
    let taken = where_true(schema.has_publication(&rule.name), &rule.name);
    let twice = twice_in_articles(alloc, rule.articles.as_slice())?;
    owned(alloc, first(taken, twice))
}

/// 256 publications already, or more than 64 articles.
fn too_many(schema: &Schema, rule: &CreatePublication) -> Option<u64>
    ensures { result ≡ first_of (where_true (nat_le 256 (length schema.now.publications)) 256) (where_true (nat_lt 64 (length rule.now.articles)) 64) }
{
    if 256 <= schema.publications().len() {
        return Some(256);
    }
    limit_where(64 < rule.articles.as_slice().len(), 64)
}

/// The first table that an article before has already, or column that an article names twice.
fn twice_in_articles(alloc: Global, articles: &[ArticleRule]) -> Result<Option<&Name>, NoMemory>
    ensures { IfOk result (λ found. option_copied found ≡ twice_in_articles [] articles.now) }
{
    let mut seen = Seen::new(alloc);
    let found = twice_after(alloc, &mut seen, articles);
    drop(seen);
    found
}

/// The same after the tables that have been seen.
fn twice_after<'a>(
    alloc: Global,
    seen: &mut Seen,
    articles: &'a [ArticleRule],
) -> Result<Option<&'a Name>, NoMemory>
    ensures { IfOk result (λ found. option_copied found ≡ twice_in_articles seen.old articles.now) }
{
    let mut rest = articles;
    'articles: while let Some((article, after)) = rest.split_first() {
        if seen.again(alloc, &article.table)? {
            return Ok(Some(&article.table));
        }
        if let Some(column) = first_twice(alloc, article.columns.as_slice())? {
            return Ok(Some(column));
        }
        rest = after;
    }
    Ok(None)
}

/// What the first article names that is not there.
fn first_absent_in(
    schema: &Schema,
    alloc: Global,
    rule: &CreatePublication,
) -> Result<Option<Name>, NoMemory>
    ensures { IfOk result (λ found. found ≡ first_among (λ a. absent_in a (table_in schema.now a)) rule.now.articles) }
{
    let mut rest = rule.articles.as_slice();
    'articles: while let Some((article, after)) = rest.split_first() {
        if let Some(name) = absent_in(alloc, article, schema.table(&article.table))? {
            return Ok(Some(name));
        }
        rest = after;
    }
    Ok(None)
}

#[tactic(auto, unfolding(crate::specs::Publications::absent_in))]
fn absent_in(
    alloc: Global,
    article: &ArticleRule,
    table: Option<&Table>,
) -> Result<Option<Name>, NoMemory>
    ensures { IfOk result (λ found. found ≡ absent_in article.now (option_copied table.entry)) }
{
    match table {
        None => owned(alloc, Some(&article.table)),
        Some(table) => absent_in_table(alloc, article, table),
    }
}

fn absent_in_table(
    alloc: Global,
    article: &ArticleRule,
    table: &Table,
) -> Result<Option<Name>, NoMemory>
    ensures { IfOk result (λ found. found ≡ absent_in_table article.now table.now) }
{
    if let Some(column) = first_absent_column(alloc, table, article.columns.as_slice())? {
        return Ok(Some(column));
    }
    if let Some(column) = absent_column(alloc, table, &article.condition)? {
        return Ok(Some(column));
    }
    absent_column(alloc, table, &article.by)
}

/// The leftmost column in an expression that the table lacks.
#[tactic(auto, unfolding(crate::specs::Publications::absent_column))]
fn absent_column(
    alloc: Global,
    table: &Table,
    expr: &Option<Expr>,
) -> Result<Option<Name>, NoMemory>
    ensures { IfOk result (λ found. found ≡ absent_column table.now expr.now) }
{
    match expr {
        None => Ok(None),
        Some(expr) => unknown_among(alloc, table, expr),
    }
}

/// The table of the first article with a bad WHERE or SUBSCRIBE BY.
fn first_bad_article(
    schema: &Schema,
    alloc: Global,
    rule: &CreatePublication,
) -> Result<Option<Name>, NoMemory>
    ensures { IfOk result (λ found. found ≡ first_among (λ a. where_true (is_bad_article a (table_in schema.now a)) a.table) rule.now.articles) }
{
    let mut rest = rule.articles.as_slice();
    'articles: while let Some((article, after)) = rest.split_first() {
        if is_bad_article(alloc, article, schema.table(&article.table))? {
            return owned(alloc, Some(&article.table));
        }
        rest = after;
    }
    Ok(None)
}

#[tactic(auto, unfolding(crate::specs::Publications::is_bad_article))]
fn is_bad_article(
    alloc: Global,
    article: &ArticleRule,
    table: Option<&Table>,
) -> Result<bool, NoMemory>
    ensures { IfOk result (λ bad. bad ≡ is_bad_article article.now (option_copied table.entry)) }
{
    let Some(table) = table else {
        return Ok(false);
    };
    if is_bad_where(alloc, table, &article.condition)? {
        return Ok(true);
    }
    Ok(is_bad_by(&article.by))
}

/// Whether a WHERE has arithmetic, or is no truth.
#[tactic(auto, unfolding(crate::specs::Publications::is_bad_where))]
fn is_bad_where(alloc: Global, table: &Table, condition: &Option<Expr>) -> Result<bool, NoMemory>
    ensures { IfOk result (λ bad. bad ≡ is_bad_where table.now condition.now) }
{
    match condition {
        None => Ok(false),
        Some(expr) => {
            if !is_plain(expr) {
                return Ok(true);
            }
            let class = class_among(alloc, table, expr)?;
            Ok(!gives_truth(class))
        }
    }
}

/// Whether a SUBSCRIBE BY is no column and no literal.
fn is_bad_by(by: &Option<Expr>) -> bool
    ensures { result ≡ is_bad_by by.now }
{
    match by {
        None => false,
        Some(expr) => is_operator(expr),
    }
}

/// The first article's table and key column that its columns lack.
fn first_key_outside(
    schema: &Schema,
    alloc: Global,
    rule: &CreatePublication,
) -> Result<Option<(Name, Name)>, NoMemory>
    ensures { IfOk result (λ found. found ≡ first_among (λ a. key_outside a (table_in schema.now a)) rule.now.articles) }
{
    let mut rest = rule.articles.as_slice();
    'articles: while let Some((article, after)) = rest.split_first() {
        if let Some(place) = key_outside(alloc, article, schema.table(&article.table))? {
            return Ok(Some(place));
        }
        rest = after;
    }
    Ok(None)
}

#[tactic(auto, unfolding(crate::specs::Publications::key_outside))]
fn key_outside(
    alloc: Global,
    article: &ArticleRule,
    table: Option<&Table>,
) -> Result<Option<(Name, Name)>, NoMemory>
    ensures { IfOk result (λ found. found ≡ key_outside article.now (option_copied table.entry)) }
{
    match table {
        None => Ok(None),
        Some(table) => key_outside_columns(alloc, article, table),
    }
}

fn key_outside_columns(
    alloc: Global,
    article: &ArticleRule,
    table: &Table,
) -> Result<Option<(Name, Name)>, NoMemory>
    ensures { IfOk result (λ found. found ≡ key_outside_columns article.now table.now) }
{
    if is_empty(article.columns.as_slice()) {
        return Ok(None);
    }
    key_lacking(alloc, article, table)
}

fn key_lacking(
    alloc: Global,
    article: &ArticleRule,
    table: &Table,
) -> Result<Option<(Name, Name)>, NoMemory>
    ensures { IfOk result (λ found. found ≡ key_lacking article.now table.now) }
{
    let key = key_names(alloc, table)?;
    let lacking = first_absent(&article.columns, key.as_slice());
    paired(alloc, &article.table, lacking)
}

/// The publication that CREATE PUBLICATION makes.
#[tactic(auto, unfolding(crate::specs::Publications::publication_of))]
pub fn publication_of(
    schema: &Schema,
    alloc: Global,
    rule: &CreatePublication,
) -> Result<Publication, NoMemory>
    ensures { IfOk result (λ publication. publication ≡ publication_of schema.now rule.now) }
{
    let mut articles = Vec::new(alloc);
    let mut rest = rule.articles.as_slice();
    'articles: while let Some((article, after)) = rest.split_first() {
        articles.push(article_of(schema, alloc, article)?)?;
        rest = after;
    }
    Ok(Publication {
        name: rule.name.copy(alloc)?,
        articles: Seq::from_vec(articles),
    })
}

fn article_of(schema: &Schema, alloc: Global, rule: &ArticleRule) -> Result<Article, NoMemory>
    ensures { IfOk result (λ article. article ≡ article_of schema.now rule.now) }
{
    let table = rule.table.copy(alloc)?;
    let columns = columns_of(alloc, rule, schema.table(&rule.table))?;
    let condition = rule.condition.copy(alloc)?;
    match rule.by.copy(alloc) {
        Ok(by) => Ok(Article {
            table,
            columns,
            condition,
            by,
        }),
        Err(fault) => {
            drop(condition);
            Err(fault)
        }
    }
}

/// The columns of an article: as written, or all that its table has.
fn columns_of(
    alloc: Global,
    rule: &ArticleRule,
    table: Option<&Table>,
) -> Result<Seq<Name>, NoMemory>
    ensures { IfOk result (λ columns. columns ≡ columns_of rule.now (option_copied table.entry)) }
{
    let Some(table) = table else {
        return rule.columns.copy(alloc);
    };
    if rule.columns.as_slice().len() != 0 {
        return rule.columns.copy(alloc);
    }
    column_names(alloc, table)
}

/// The fault that refuses DROP PUBLICATION.
#[tactic(auto, unfolding(crate::specs::Publications::drop_publication_causes, sr_catalog_schema::specs::Causes::first_fault))]
pub fn drop_publication_fault(
    schema: &Schema,
    alloc: Global,
    name: &Name,
) -> Result<Option<DdlFault>, NoMemory>
    ensures { IfOk result (λ fault. fault ≡ first_fault (drop_publication_causes schema.now name.now)) }
{
    if !schema.has_publication(name) {
        let name = name.copy(alloc)?;
        return Ok(Some(DdlFault::Missing { name }));
    }
    if is_subscribed(schema.subscriptions(), name) {
        let name = name.copy(alloc)?;
        return Ok(Some(DdlFault::InUse { name }));
    }
    Ok(None)
}

fn is_subscribed(subscriptions: &[Subscription], name: &Name) -> bool
    ensures { result ≡ list_any (λ s. bytes_eq name.now s.publication) subscriptions.now }
{
    subscriptions.iter().any(|subscription| name.bytes() == subscription.publication.bytes())
}
