//! What speaks against the statements on subscriptions, and the subscription that is made.

ghost use Rattle.std.specs.Prelude.{◌≡◌, ◌&&◌, nat_le, length, IfOk};
ghost use Rattle.std.specs.Option.{option_copied};
ghost use Rattle.std.specs.List.{list_any};
ghost use Rattle.sr_ast.specs.Exprs.{term_of};
ghost use Rattle.sr_catalog_schema.specs.Causes.{first_fault};
ghost use Rattle.sr_catalog_schema.specs.Firsts.{where_true};
ghost use Rattle.sr_catalog_schema.specs.Names.{named};
ghost use Rattle.sr_catalog_schema.specs.Members.{table_name};
ghost use Rattle.sr_catalog_ddl.specs.Subscriptions.{
  is_there,
  has_both,
  missing_either,
  missing_unless,
  articles_of,
  class_of_column,
  column_class,
  by_class,
  differs,
  is_bad_value,
  create_subscription_causes,
  most_subscriptions,
  start_causes,
  stop_causes,
  synchronize_causes,
  drop_subscription_causes,
  subscription_of,
};

use crate::elsewhere::twice_subscribed;
use crate::grants::is_remote;
use sr_ast::{Class, Expr, SubscriptionRule, is_comparable, kind_class, value_class};
use sr_base::{Copied, Name, NoMemory, Value};
use sr_catalog_schema::{
    Article, Column, DdlFault, Publication, Schema, Subscription, Table, first, is_full,
    item_named, limit_where, missing_fault, owned, paired, too_many_fault, where_true,
};
use std::alloc::Global;

/// Its publication or its user, where it is not there.
fn missing_either<'a>(schema: &Schema, rule: &'a SubscriptionRule) -> Option<&'a Name>
    ensures { option_copied result ≡ missing_either schema.now rule.now }
{
    let publication = where_true(
        !schema.has_publication(&rule.publication),
        &rule.publication,
    );
    let user = where_true(!schema.has_user(&rule.user), &rule.user);
    first(publication, user)
}

/// Its publication or its user, or else the publication for the subscription itself.
fn missing_unless<'a>(found: bool, schema: &Schema, rule: &'a SubscriptionRule) -> Option<&'a Name>
    ensures { option_copied result ≡ missing_unless found schema.now rule.now }
{
    let either = missing_either(schema, rule);
    first(either, where_true(!found, &rule.publication))
}

pub(crate) fn articles_of(publication: Option<&Publication>) -> &[Article]
    ensures { result.now ≡ articles_of (option_copied publication.entry) }
{
    match publication {
        None => &[],
        Some(publication) => publication.articles.as_slice(),
    }
}

/// The fault that refuses CREATE SUBSCRIPTION. Each is looked for where those before do not hold.
#[tactic(auto, unfolding(crate::specs::Subscriptions::create_subscription_causes, sr_catalog_schema::specs::Causes::first_fault))]
pub fn create_subscription_fault(
    schema: &Schema,
    alloc: Global,
    rule: &SubscriptionRule,
) -> Result<Option<DdlFault>, NoMemory>
    ensures { IfOk result (λ fault. fault ≡ first_fault (create_subscription_causes schema.now rule.now)) }
{
    if let Some(name) = exists(schema, alloc, rule)? {
        return Ok(Some(DdlFault::Exists { name }));
    }
    if let Some(name) = owned(alloc, missing_either(schema, rule))? {
        return Ok(Some(DdlFault::Missing { name }));
    }
    if let Some(name) = bad_value(schema, alloc, rule)? {
        return Ok(Some(DdlFault::BadType { name }));
    }
    Ok(too_many_fault(too_many(schema.subscriptions())))
}

/// The publication, where it and the user are there, and so is the subscription.
fn exists(schema: &Schema, alloc: Global, rule: &SubscriptionRule) -> Result<Option<Name>, NoMemory>
    ensures { IfOk result (λ found. found ≡ where_true (has_both schema.now rule.now && is_there schema.now rule.now) rule.now.publication) }
{
    let both = has_both(schema, rule);
    let there = schema.has_subscription(alloc, rule)?;
    owned(alloc, where_true(both && there, &rule.publication))
}

fn has_both(schema: &Schema, rule: &SubscriptionRule) -> bool
    ensures { result ≡ has_both schema.now rule.now }
{
    let publication = schema.has_publication(&rule.publication);
    let user = schema.has_user(&rule.user);
    publication && user
}

/// The publication, where the value does not go with it.
fn bad_value(
    schema: &Schema,
    alloc: Global,
    rule: &SubscriptionRule,
) -> Result<Option<Name>, NoMemory>
    ensures { IfOk result (λ found. found ≡ where_true (is_bad_value schema.now rule.now rule.now.value) rule.now.publication) }
{
    let bad = is_bad_value(schema, rule);
    owned(alloc, where_true(bad, &rule.publication))
}

/// As many subscriptions as there may be.
fn too_many(subscriptions: &[Subscription]) -> Option<u64>
    ensures { result ≡ where_true (nat_le most_subscriptions (length subscriptions.now)) most_subscriptions }
{
    limit_where(is_full(subscriptions.len(), 65536), 65536)
}

/// Whether a subscription's value does not go with an article of its publication.
fn is_bad_value(schema: &Schema, rule: &SubscriptionRule) -> bool
    ensures { result ≡ is_bad_value schema.now rule.now rule.now.value }
{
    match &rule.value {
        None => false,
        Some(value) => has_other_class(
            schema,
            value,
            articles_of(schema.publication(&rule.publication)),
        ),
    }
}

fn has_other_class(schema: &Schema, value: &Value, articles: &[Article]) -> bool
    ensures { result ≡ list_any (λ a. differs (named table_name a.table schema.now.tables) value.now a.by) articles.now }
{
    let mut rest = articles;
    'articles: while let Some((article, after)) = rest.split_first() {
        if differs(schema.table(&article.table), value, &article.by) {
            return true;
        }
        rest = after;
    }
    false
}

/// Whether a value's class differs from that of a SUBSCRIBE BY; NULL has each class.
#[tactic(auto, unfolding(crate::specs::Subscriptions::differs))]
fn differs(table: Option<&Table>, value: &Value, by: &Option<Expr>) -> bool
    ensures { result ≡ differs (option_copied table.entry) value.now by.now }
{
    match by {
        None => false,
        Some(expr) => !is_comparable(value_class(value), by_class(table, expr)),
    }
}

/// The class of a SUBSCRIBE BY, which is a literal or a column.
fn by_class(table: Option<&Table>, expr: &Expr) -> Class
    ensures { result ≡ by_class (option_copied table.entry) (term_of expr.now) }
{
    match expr {
        Expr::Literal(value) => value_class(value),
        Expr::Column(_, name) => column_class(table, name),
        Expr::Unary(_, _) => Class::Any,
        Expr::Binary(_, _, _) => Class::Any,
    }
}

fn column_class(table: Option<&Table>, name: &Name) -> Class
    ensures { result ≡ column_class (option_copied table.entry) name.now }
{
    match table {
        None => Class::Any,
        Some(table) => class_of_column(item_named(name, table.columns.as_slice())),
    }
}

fn class_of_column(column: Option<&Column>) -> Class
    ensures { result ≡ class_of_column (option_copied column.entry) }
{
    match column {
        None => Class::Any,
        Some(column) => kind_class(column.kind),
    }
}

/// The fault that refuses START SUBSCRIPTION.
#[tactic(auto, unfolding(crate::specs::Subscriptions::start_causes, sr_catalog_schema::specs::Causes::first_fault))]
pub fn start_fault(
    schema: &Schema,
    alloc: Global,
    rule: &SubscriptionRule,
) -> Result<Option<DdlFault>, NoMemory>
    ensures { IfOk result (λ fault. fault ≡ first_fault (start_causes schema.now rule.now)) }
{
    let found = schema.has_subscription(alloc, rule)?;
    if let Some(name) = owned(alloc, missing_unless(found, schema, rule))? {
        return Ok(Some(DdlFault::Missing { name }));
    }
    let table = twice_subscribed(schema, alloc, rule)?;
    match paired(alloc, &rule.user, table)? {
        Some((user, table)) => Ok(Some(DdlFault::TwiceSubscribed { user, table })),
        None => Ok(None),
    }
}

/// The fault that refuses STOP SUBSCRIPTION.
#[tactic(auto, unfolding(crate::specs::Subscriptions::stop_causes, sr_catalog_schema::specs::Causes::first_fault))]
pub fn stop_fault(
    schema: &Schema,
    alloc: Global,
    rule: &SubscriptionRule,
) -> Result<Option<DdlFault>, NoMemory>
    ensures { IfOk result (λ fault. fault ≡ first_fault (stop_causes schema.now rule.now)) }
{
    let found = schema.has_started(alloc, rule)?;
    let missing = owned(alloc, missing_unless(found, schema, rule))?;
    Ok(missing_fault(missing))
}

/// The fault that refuses SYNCHRONIZE SUBSCRIPTION.
#[tactic(auto, unfolding(crate::specs::Subscriptions::synchronize_causes, sr_catalog_schema::specs::Causes::first_fault))]
pub fn synchronize_fault(
    schema: &Schema,
    alloc: Global,
    rule: &SubscriptionRule,
) -> Result<Option<DdlFault>, NoMemory>
    ensures { IfOk result (λ fault. fault ≡ first_fault (synchronize_causes schema.now rule.now)) }
{
    let found = schema.has_started(alloc, rule)?;
    let missing = missing_unless(found, schema, rule);
    let remote = is_remote(schema.user(&rule.user));
    let missing = owned(alloc, first(missing, where_true(!remote, &rule.user)))?;
    Ok(missing_fault(missing))
}

/// The fault that refuses DROP SUBSCRIPTION.
#[tactic(auto, unfolding(crate::specs::Subscriptions::drop_subscription_causes, sr_catalog_schema::specs::Causes::first_fault))]
pub fn drop_subscription_fault(
    schema: &Schema,
    alloc: Global,
    rule: &SubscriptionRule,
) -> Result<Option<DdlFault>, NoMemory>
    ensures { IfOk result (λ fault. fault ≡ first_fault (drop_subscription_causes schema.now rule.now)) }
{
    let there = schema.has_subscription(alloc, rule)?;
    let missing = owned(alloc, missing_unless(there, schema, rule))?;
    Ok(missing_fault(missing))
}

/// The subscription that CREATE SUBSCRIPTION makes.
pub fn subscription_of(alloc: Global, rule: &SubscriptionRule) -> Result<Subscription, NoMemory>
    ensures { IfOk result (λ subscription. subscription ≡ subscription_of rule.now) }
{
    Ok(Subscription {
        publication: rule.publication.copy(alloc)?,
        user: rule.user.copy(alloc)?,
        value: rule.value.copy(alloc)?,
        started: false,
    })
}
