//! The statements that make a catalog from a new one.

ghost use Rattle.std.specs.Prelude.{◌≡◌, ◌++◌, map, filter, Some, IfOk, OnOk};
ghost use Rattle.std.specs.List.{AllByRecursion};
ghost use Rattle.sr_ast.specs.Layout.{printed};
ghost use Rattle.sr_ast.specs.NormalForms.{IsNormal};
ghost use Rattle.sr_ast.specs.declared.stmt.Stmt.{Stmt};
ghost use Rattle.sr_catalog_schema.specs.Catalogs.{nothing_but};
ghost use Rattle.sr_catalog_script_laws.specs.Scripts.{given_address, grant_rule, grant_of, column_rule, create_table_of, article_rule, create_publication_of, subscription_rule, create_subscription_of, start_of, set_options_of, verifies_rule, trigger_stmt, statements, replayed};

use crate::catalog::Catalog;
use sr_ast::{
    ArticleRule, ColumnRule, CreatePublication, CreateTable, Grant, OptionRule, Stmt,
    SubscriptionRule,
};
use sr_ast_print::print;
use sr_base::{Copied, NoMemory, Seq, Text, Value, name_of, text_of};
use sr_catalog_schema::{
    Article, Column, Publication, Subscription, Table, Trigger, User, key_names,
};
use std::alloc::{AllocError, Global};

impl Catalog {
    /// The statements that make this catalog from a new one, as they print: grants, tables, publications with their articles' columns
    /// written out, triggers, subscriptions and starts, each kind in order of creation, and last `SET OPTION verify_all_columns = 'On'`
    /// where it is On. A grant has no address where it is the user's name. They are in normal form, so that each text is read back as its statement; and a new catalog accepts them, and they make this one again.
    #[tactic(auto, using(crate::proofs::Printings::joined, sr_catalog_script_laws::proofs::Spelled::script_again, sr_catalog_script_laws::proofs::Spelled::script_normal))]
    pub fn script(&self, alloc: Global) -> Result<Vec<Text>, NoMemory>
        ensures texts { IfOk result (λ texts. texts.items ≡ map printed (statements self.now)) }
        ensures normal { AllByRecursion IsNormal (statements self.now) }
        ensures makes { replayed (nothing_but self.now.publisher) (statements self.now) ≡ Some self.now }
    {
        self.is_made();
        let mut texts = Vec::new(alloc);
        match add_script(alloc, self, &mut texts) {
            Ok(()) => Ok(texts),
            Err(fault) => {
                drop(texts);
                Err(fault)
            }
        }
    }
}

#[tactic(auto, using(crate::proofs::Printings::joined))]
fn add_script(alloc: Global, catalog: &Catalog, texts: &mut Vec<Text>) -> Result<(), NoMemory>
    ensures { OnOk result (texts.new.items ≡ texts.old.items ++ map printed (statements catalog.now)) }
{
    add_all(alloc, catalog.users(), texts)?;
    add_all(alloc, catalog.tables(), texts)?;
    add_all(alloc, catalog.publications(), texts)?;
    add_all(alloc, catalog.triggers(), texts)?;
    add_all(alloc, catalog.subscriptions(), texts)?;
    add_starts(alloc, catalog.subscriptions(), texts)?;
    add_options(alloc, catalog, texts)
}

/// What a statement makes.
trait Made: Drop {
    ghost stmt_of: { Self → Stmt };

    /// The statement that makes it.
    fn stmt(&self, alloc: Global) -> Result<Stmt, NoMemory>
        ensures stmt { IfOk result (λ stmt. stmt ≡ stmt_of self.now) };
}

fn printed<T: Made>(alloc: Global, item: &T) -> Result<Text, NoMemory>
    ensures { IfOk result (λ text. text ≡ printed (T.stmt_of item.now)) }
{
    text_once(alloc, item.stmt(alloc)?)
}

/// What a statement prints, which is needed no more.
fn text_once(alloc: Global, stmt: Stmt) -> Result<Text, NoMemory>
    ensures { IfOk result (λ text. text ≡ printed stmt) }
{
    let text = print(alloc, &stmt);
    drop(stmt);
    text
}

fn add_all<T: Made>(alloc: Global, items: &[T], texts: &mut Vec<Text>) -> Result<(), NoMemory>
    ensures { OnOk result (texts.new.items ≡ texts.old.items ++ map printed (map T.stmt_of items.now)) }
{
    let mut rest = items;
    'items: while let Some((item, after)) = rest.split_first() {
        texts.push(printed(alloc, item)?)?;
        rest = after;
    }
    Ok(())
}

fn add_starts(
    alloc: Global,
    subscriptions: &[Subscription],
    texts: &mut Vec<Text>,
) -> Result<(), NoMemory>
    ensures { OnOk result (texts.new.items ≡ texts.old.items ++ map printed (map start_of (filter (λ s. s.started) subscriptions.now))) }
{
    let mut rest = subscriptions;
    'subscriptions: while let Some((subscription, after)) = rest.split_first() {
        if subscription.started {
            texts.push(start_text(alloc, subscription)?)?;
        }
        rest = after;
    }
    Ok(())
}

#[tactic(auto, unfolding(sr_catalog_script_laws::specs::Scripts::start_of))]
fn start_text(alloc: Global, subscription: &Subscription) -> Result<Text, NoMemory>
    ensures { IfOk result (λ text. text ≡ printed (start_of subscription.now)) }
{
    let rule = subscription_rule(alloc, subscription)?;
    text_once(alloc, Stmt::StartSubscription(rule))
}

/// The options that are set.
fn add_options(alloc: Global, catalog: &Catalog, texts: &mut Vec<Text>) -> Result<(), NoMemory>
    ensures { OnOk result (texts.new.items ≡ texts.old.items ++ map printed (set_options_of catalog.now.options)) }
{
    if !catalog.verifies() {
        return Ok(());
    }
    let rule = verifies_rule(alloc)?;
    texts.push(text_once(alloc, Stmt::SetOption(rule))?)?;
    Ok(())
}

fn verifies_rule(alloc: Global) -> Result<OptionRule, NoMemory>
    ensures { IfOk result (λ rule. rule ≡ verifies_rule) }
{
    // It is a name, so only memory can lack.
    let Ok(name) = name_of(alloc, b"verify_all_columns") else {
        return Err(AllocError);
    };
    let value = Text::from_str(alloc, "On")?;
    Ok(OptionRule {
        name,
        value: Value::Str(value),
    })
}

fn subscription_rule(
    alloc: Global,
    subscription: &Subscription,
) -> Result<SubscriptionRule, NoMemory>
    ensures { IfOk result (λ rule. rule ≡ subscription_rule subscription.now) }
{
    Ok(SubscriptionRule {
        publication: subscription.publication.copy(alloc)?,
        user: subscription.user.copy(alloc)?,
        value: subscription.value.copy(alloc)?,
    })
}

impl Made for Subscription {
    ghost stmt_of = { create_subscription_of };

    #[tactic(auto, unfolding(sr_catalog_script_laws::specs::Scripts::create_subscription_of))]
    fn stmt(&self, alloc: Global) -> Result<Stmt, NoMemory> {
        Ok(Stmt::CreateSubscription(subscription_rule(alloc, self)?))
    }
}

impl Made for Trigger {
    ghost stmt_of = { trigger_stmt };

    fn stmt(&self, alloc: Global) -> Result<Stmt, NoMemory> {
        self.stmt.copy(alloc)
    }
}

impl Made for User {
    ghost stmt_of = { grant_of };

    #[tactic(auto, unfolding(sr_catalog_script_laws::specs::Scripts::grant_of))]
    fn stmt(&self, alloc: Global) -> Result<Stmt, NoMemory> {
        let rule = grant_rule(alloc, self)?;
        if self.above {
            Ok(Stmt::GrantConsolidate(rule))
        } else {
            Ok(Stmt::GrantRemote(rule))
        }
    }
}

fn grant_rule(alloc: Global, user: &User) -> Result<Grant, NoMemory>
    ensures { IfOk result (λ rule. rule ≡ grant_rule user.now) }
{
    Ok(Grant {
        user: user.name.copy(alloc)?,
        address: given_address(alloc, user)?,
    })
}

fn given_address(alloc: Global, user: &User) -> Result<Option<Text>, NoMemory>
    ensures { IfOk result (λ address. address ≡ given_address user.now) }
{
    if user.address.bytes() == user.name.bytes() {
        return Ok(None);
    }
    // A name is UTF-8, so only memory can lack.
    match text_of(alloc, user.address.bytes()) {
        Ok(address) => Ok(Some(address)),
        Err(_) => Err(AllocError),
    }
}

impl Made for Table {
    ghost stmt_of = { create_table_of };

    #[tactic(auto, unfolding(sr_catalog_script_laws::specs::Scripts::create_table_of))]
    fn stmt(&self, alloc: Global) -> Result<Stmt, NoMemory> {
        Ok(Stmt::CreateTable(CreateTable {
            name: self.name.copy(alloc)?,
            key: Seq::from_vec(key_names(alloc, self)?),
            columns: column_rules(alloc, self.columns.as_slice())?,
        }))
    }
}

fn column_rules(alloc: Global, columns: &[Column]) -> Result<Seq<ColumnRule>, NoMemory>
    ensures { IfOk result (λ rules. rules ≡ map column_rule columns.now) }
{
    let mut rules = Vec::new(alloc);
    let mut rest = columns;
    'columns: while let Some((column, after)) = rest.split_first() {
        rules.push(ColumnRule {
            name: column.name.copy(alloc)?,
            kind: column.kind,
            not_null: column.not_null,
        })?;
        rest = after;
    }
    Ok(Seq::from_vec(rules))
}

impl Made for Publication {
    ghost stmt_of = { create_publication_of };

    #[tactic(auto, unfolding(sr_catalog_script_laws::specs::Scripts::create_publication_of))]
    fn stmt(&self, alloc: Global) -> Result<Stmt, NoMemory> {
        Ok(Stmt::CreatePublication(CreatePublication {
            name: self.name.copy(alloc)?,
            articles: article_rules(alloc, self.articles.as_slice())?,
        }))
    }
}

fn article_rules(alloc: Global, articles: &[Article]) -> Result<Seq<ArticleRule>, NoMemory>
    ensures { IfOk result (λ rules. rules ≡ map article_rule articles.now) }
{
    let mut rules = Vec::new(alloc);
    let mut rest = articles;
    'articles: while let Some((article, after)) = rest.split_first() {
        rules.push(article_rule(alloc, article)?)?;
        rest = after;
    }
    Ok(Seq::from_vec(rules))
}

fn article_rule(alloc: Global, article: &Article) -> Result<ArticleRule, NoMemory>
    ensures { IfOk result (λ rule. rule ≡ article_rule article.now) }
{
    let table = article.table.copy(alloc)?;
    let columns = article.columns.copy(alloc)?;
    let condition = article.condition.copy(alloc)?;
    match article.by.copy(alloc) {
        Ok(by) => Ok(ArticleRule {
            table,
            columns,
            condition,
            by,
        }),
        Err(fault) => {
            drop(condition);
            Err(fault)
        }
    }
}
