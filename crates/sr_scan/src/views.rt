//! What a user has of each table.

ghost use Rattle.std.specs.Prelude.{◌≡◌, ℕ, Some, List, cond, IfOk, OnOk, IfSome};
ghost use Rattle.std.specs.BTreeMap as tree;
ghost use Rattle.std.specs.Ordering.{is_eq};
ghost use Rattle.sr_base.specs.Order.{name_cmp};
ghost use Rattle.sr_publish.specs.SubscribedTables.{subscribed_table_of};
ghost use Rattle.sr_scan.specs.Inner.Views.{AreViews, IsAdded};

use sr_base::{Copied, Name, NoMemory};
use sr_catalog::Catalog;
use sr_catalog_schema::Table;
use sr_publish::TableView;
use std::alloc::{AllocError, Global};
use std::collections::BTreeMap;

/// What a user has of each table, by the table's name. One is found in few steps.
pub type Views = BTreeMap<Name, TableView>;

/// What a user has of each table of a catalog. It takes a pass or two over the subscriptions for each table.
pub fn views_of(alloc: Global, catalog: &Catalog, user: &Name) -> Result<Views, NoMemory>
    ensures views { IfOk result (λ views. AreViews catalog.now user.now views) }
{
    let mut views = BTreeMap::new(alloc);
    let mut left = catalog.tables();
    'tables: while let Some((table, rest)) = left.split_first() {
        add_view(alloc, catalog, user, table, &mut views)?;
        left = rest;
    }
    Ok(views)
}

/// What is kept of a catalog, or what is made of it where nothing is kept.
pub(crate) fn kept_or_made(
    alloc: Global,
    kept: Option<Views>,
    catalog: &Catalog,
    user: &Name,
) -> Result<Views, NoMemory>
    requires { IfSome kept (λ views. AreViews catalog.now user.now views) }
    ensures views { IfOk result (λ views. AreViews catalog.now user.now views) }
{
    match kept {
        Some(views) => Ok(views),
        None => views_of(alloc, catalog, user),
    }
}

/// Adds what a user has of a table, if he has anything.
#[tactic(auto, using(crate::proofs::Covering::added_none, crate::proofs::Covering::added_some))]
fn add_view(
    alloc: Global,
    catalog: &Catalog,
    user: &Name,
    table: &Table,
    views: &mut Views,
) -> Result<(), NoMemory>
    ensures added { OnOk result (IsAdded (subscribed_table_of catalog.now user.now table.now.name) table.now.name views.old views.new) }
{
    match TableView::of(alloc, catalog, user, &table.name)? {
        None => Ok(()),
        Some(view) => put_named(alloc, &table.name, view, views),
    }
}

/// Puts what a user has of a table under the table's name.
fn put_named(alloc: Global, name: &Name, view: TableView, views: &mut Views) -> Result<(), NoMemory>
    ensures put { OnOk result ((n : List ℕ) → tree.get name_cmp views.new n ≡ cond (is_eq (name_cmp name.now n)) (Some view) (tree.get name_cmp views.old n)) }
{
    match name.copy(alloc) {
        Ok(name) => put(name, view, views),
        Err(lack) => {
            drop(view);
            Err(lack)
        }
    }
}

/// Puts what a user has of a table under a name.
fn put(name: Name, view: TableView, views: &mut Views) -> Result<(), NoMemory>
    ensures put { OnOk result ((n : List ℕ) → tree.get name_cmp views.new n ≡ cond (is_eq (name_cmp name n)) (Some view) (tree.get name_cmp views.old n)) }
{
    match views.insert(name, view) {
        Ok(before) => {
            drop(before);
            Ok(())
        }
        Err(refused) => {
            drop(refused);
            Err(AllocError)
        }
    }
}
