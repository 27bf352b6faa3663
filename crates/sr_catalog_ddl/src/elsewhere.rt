//! Whether a table would come to a user by a second publication. Tables are looked up in sets: a START takes a step for each article of
//! its publication, and one for each of the others.

ghost use Rattle.std.specs.Prelude.{◌≡◌, ◌&&◌, ℕ, List, IfOk, OnOk};
ghost use Rattle.std.specs.Option.{option_copied};
ghost use Rattle.std.specs.List.{list_any};
ghost use Rattle.sr_catalog_schema.specs.Firsts.{first_among, has, where_true};
ghost use Rattle.sr_catalog_ddl.specs.Inner.Elsewhere.{HasMore, HasShared, HasStarted, IsSetOf, has_table, tables_elsewhere};
ghost use Rattle.sr_catalog_ddl.specs.Subscriptions.{twice_subscribed};

use crate::subscriptions::articles_of;
use sr_ast::SubscriptionRule;
use sr_base::{Name, NoMemory};
use sr_catalog_schema::{Article, Publication, Schema, Seen};
use std::alloc::Global;
use std::marker::Model;

/// So many tables are compared one after the other. More are looked up in a set.
const FEW: usize = 8;

/// The tables of a publication. A look-up takes constant time. Contracts see the articles.
#[derive(Drop)]
struct Tables<'a> {
    articles: &'a [Article],
    set: Option<Seen>,
}

impl<'a> Model for Tables<'a> {
    ghost use Rattle.std.specs.Coded.{codes};
    ghost use Rattle.std.specs.Prelude.{List, IfSome};
    ghost use Rattle.sr_ast.specs.Inner.Terms.{term_code};
    ghost use Rattle.sr_catalog_schema.specs.declared.publication.Article.{Article as Made};
    ghost use Rattle.sr_catalog_ddl.specs.Inner.Elsewhere.{IsSetOf};

    ghost Value = { List Made };

    ghost coded = { Prim.hlevel (codes, term_code) };

    ghost view = { λ t. t.articles.now };

    ghost invariant = { λ t. IfSome t.set (λ set. IsSetOf t.articles.now set) };
}

impl<'a> Tables<'a> {
    /// The tables of these articles. More than a few are put into a set.
    fn of(alloc: Global, articles: &'a [Article]) -> Result<Tables<'a>, NoMemory>
        ensures tables { IfOk result (λ tables. tables ≡ articles.now) }
    {
        if articles.len() <= FEW {
            return Ok(Tables {
                articles,
                set: None,
            });
        }
        Ok(Tables {
            articles,
            set: Some(set_of(alloc, articles)?),
        })
    }

    /// Whether there is an article with this table.
    fn holds(&self, table: &Name) -> bool
        ensures holds { result ≡ has_table self.now table.now }
    {
        match &self.set {
            None => has_table(self.articles, table),
            Some(set) => set.holds(table),
        }
    }
}

/// Whether one of the articles has this table. It looks at each.
fn has_table(articles: &[Article], table: &Name) -> bool
    ensures { result ≡ has_table articles.now table.now }
{
    articles
        .iter()
        .any(|article| table.bytes() == article.table.bytes())
}

/// The tables of articles, as a set.
fn set_of(alloc: Global, articles: &[Article]) -> Result<Seen, NoMemory>
    ensures set { IfOk result (λ set. IsSetOf articles.now set) }
{
    let mut set = Seen::new(alloc);
    let mut left = articles;
    'articles: while let Some((article, after)) = left.split_first() {
        add(alloc, &mut set, &article.table)?;
        left = after;
    }
    Ok(set)
}

/// Adds a name to a set.
fn add(alloc: Global, set: &mut Seen, name: &Name) -> Result<(), NoMemory>
    ensures more { OnOk result (HasMore set.old name.now set.new) }
{
    if !set.holds(name) {
        set.again(alloc, name)?;
    }
    Ok(())
}

/// Whether one of the articles has one of these tables.
fn is_shared(own: &Tables, articles: &[Article]) -> bool
    ensures { result ≡ list_any (λ a. has_table own.now a.table) articles.now }
{
    let mut left = articles;
    'articles: while let Some((article, after)) = left.split_first() {
        if own.holds(&article.table) {
            return true;
        }
        left = after;
    }
    false
}

/// Adds those of these tables that the articles have, too.
fn add_shared(
    alloc: Global,
    own: &Tables,
    articles: &[Article],
    found: &mut Seen,
) -> Result<(), NoMemory>
    ensures shared { OnOk result (HasShared own.now articles.now found.old found.new) }
{
    let mut left = articles;
    'articles: while let Some((article, after)) = left.split_first() {
        if own.holds(&article.table) {
            add(alloc, found, &article.table)?;
        }
        left = after;
    }
    Ok(())
}

/// Adds those of these tables that a publication has, too, where it is another one of which the user has a started subscription.
fn add_started(
    schema: &Schema,
    alloc: Global,
    rule: &SubscriptionRule,
    own: &Tables,
    publication: &Publication,
    found: &mut Seen,
) -> Result<(), NoMemory>
    ensures started { OnOk result (HasStarted schema.now.subscriptions rule.now own.now publication.now found.old found.new) }
{
    if rule.publication.bytes() == publication.name.bytes() {
        return Ok(());
    }
    let articles = publication.articles.as_slice();
    if !is_shared(own, articles) {
        return Ok(());
    }
    if !schema.has_starts(alloc, &rule.user, &publication.name)? {
        return Ok(());
    }
    add_shared(alloc, own, articles, found)
}

/// Those of these tables that come to the user by a started subscription of another publication. It looks at the publications, and not at
/// the subscriptions.
fn tables_elsewhere(
    schema: &Schema,
    alloc: Global,
    rule: &SubscriptionRule,
    own: &Tables,
) -> Result<Seen, NoMemory>
    ensures elsewhere { IfOk result (λ found. (table : List ℕ) → has found table ≡ tables_elsewhere schema.now rule.now own.now table) }
{
    let mut found = Seen::new(alloc);
    let mut left = schema.distinct_publications();
    'publications: while let Some((publication, after)) = left.split_first() {
        add_started(schema, alloc, rule, own, publication, &mut found)?;
        left = after;
    }
    Ok(found)
}

/// The first table of articles that is in a set.
fn first_in<'a>(articles: &'a [Article], set: &Seen) -> Option<&'a Name>
    ensures { option_copied result ≡ first_among (λ a. where_true (has set.now a.table) a.table) articles.now }
{
    let mut left = articles;
    'articles: while let Some((article, after)) = left.split_first() {
        if set.holds(&article.table) {
            return Some(&article.table);
        }
        left = after;
    }
    None
}

/// The first table of a subscription's publication that comes to its user by a started subscription of another one.
pub(crate) fn twice_subscribed<'a>(
    schema: &'a Schema,
    alloc: Global,
    rule: &SubscriptionRule,
) -> Result<Option<&'a Name>, NoMemory>
    ensures { IfOk result (λ table. option_copied table ≡ twice_subscribed schema.now rule.now) }
{
    let articles = articles_of(schema.publication(&rule.publication));
    let own = Tables::of(alloc, articles)?;
    let found = tables_elsewhere(schema, alloc, rule, &own)?;
    Ok(first_in(articles, &found))
}
