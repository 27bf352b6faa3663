//! A catalog, with the articles of its tables at hand.

ghost use Rattle.std.specs.Prelude.{◌≡◌, List, ℕ, Some, None, cond, IfSome, OnOk, OnErr};
ghost use Rattle.std.specs.BTreeMap as tree;
ghost use Rattle.std.specs.BTreeMap.{is_at, IsUnchanged};
ghost use Rattle.sr_ast.specs.NormalForms.{IsNormal};
ghost use Rattle.sr_base.specs.Order.{name_cmp};
ghost use Rattle.sr_catalog_change.specs.Changes.{next, refusal};
ghost use Rattle.sr_survey.specs.Inner.Charts.{IsRoute};
ghost use Rattle.sr_survey.specs.Inner.Effects.{is_for_all};

use crate::routes::{Routes, routes_of};
use sr_ast::Stmt;
use sr_base::{Copied, Name, NoMemory};
use sr_catalog::Catalog;
use std::alloc::{AllocError, Global};
use std::collections::BTreeMap;
use std::marker::Model;

/// A catalog, with the articles of those of its tables at hand that were asked for. Contracts see the catalog.
#[derive(Drop)]
pub struct Chart {
    catalog: Catalog,
    routes: BTreeMap<Name, Routes>,
}

impl Model for Chart {
    ghost use Rattle.std.specs.Coded.{codes};
    ghost use Rattle.sr_ast.specs.Inner.Terms.{term_code};
    ghost use Rattle.sr_ast.specs.Inner.Chains.{chain_code};
    ghost use Rattle.sr_catalog_schema.specs.Catalogs.{Lists};

    ghost Value = { Lists };

    ghost coded = { Prim.hlevel (codes, term_code, chain_code) };

    ghost view = { λ s. s.catalog };

    ghost use Rattle.sr_survey.specs.Inner.Charts.{AreRoutes};

    ghost invariant = { λ s. AreRoutes s.catalog s.routes };
}

impl Chart {
    /// A catalog, with nothing at hand. It takes no memory.
    #[tactic(auto, using(crate::proofs::Charted::none_held))]
    pub(crate) fn new(alloc: Global, catalog: Catalog) -> Chart
        ensures catalog { result ≡ catalog }
    {
        Chart {
            catalog,
            routes: BTreeMap::new(alloc),
        }
    }

    /// The catalog.
    pub(crate) fn catalog(&self) -> &Catalog
        ensures catalog { result.now ≡ self.now }
    {
        &self.catalog
    }

    /// How the rows of a table of this name are given, where that is at hand. It takes logarithmic time.
    pub(crate) fn routes(&self, name: &Name) -> Option<&Routes>
        ensures route { IfSome result (λ routes. IsRoute self.now name.now routes.now) }
    {
        match self.routes.get(name) {
            Some(routes) => Some(routes),
            None => None,
        }
    }

    /// Has at hand how the rows of a table of this name are given, if there is one. It takes logarithmic time where that is at hand already; else a pass
    /// over the articles of each publication.
    pub(crate) fn take_up(&mut self, alloc: Global, name: &Name) -> Result<(), NoMemory>
        ensures same { self.new ≡ self.old }
    {
        if self.routes.contains_key(name) {
            return Ok(());
        }
        let Some(table) = self.catalog.table(name) else {
            return Ok(());
        };
        let routes = routes_of(alloc, &self.catalog, name, table)?;
        put(alloc, &mut self.routes, name, routes)
    }

    /// Does to the catalog what a statement in normal form does that is not refused. Where memory lacks it stays as it was. What is at hand is let go only
    /// where the statement is one on tables or publications.
    #[tactic(auto, using(crate::proofs::Charted::none_held, crate::proofs::Charted::held_on, crate::proofs::Charted::held_so))]
    pub(crate) fn apply(&mut self, alloc: Global, statement: &Stmt) -> Result<(), NoMemory>
        requires normal { IsNormal statement.now }
        requires accepted { refusal self.old statement.now ≡ None }
        ensures ok { OnOk result (self.new ≡ next self.old statement.now) }
        ensures err { OnErr result (self.new ≡ self.old) }
    {
        self.catalog.apply(alloc, statement)?;
        if is_for_all(statement) {
            self.routes = BTreeMap::new(alloc);
            return Ok(());
        }
        Ok(())
    }
}

/// Puts what is at hand of a table by its name. Where memory lacks all stays.
fn put(
    alloc: Global,
    held: &mut BTreeMap<Name, Routes>,
    name: &Name,
    routes: Routes,
) -> Result<(), NoMemory>
    ensures put { OnOk result ((q : List ℕ) → tree.get name_cmp held.new q ≡ cond (is_at (name_cmp name.now) q) (Some routes) (tree.get name_cmp held.old q)) }
    ensures left { OnErr result (IsUnchanged held.old held.new) }
{
    let name = name.copy(alloc)?;
    match held.insert(name, routes) {
        Ok(_) => Ok(()),
        Err(_) => Err(AllocError),
    }
}

/// Whether a statement is one on tables, publications or options.
fn is_for_all(statement: &Stmt) -> bool
    ensures for_all { result ≡ is_for_all statement.now }
{
    match statement {
        Stmt::CreateTable(_)
        | Stmt::DropTable(_)
        | Stmt::CreatePublication(_)
        | Stmt::DropPublication(_)
        | Stmt::SetOption(_) => true,
        Stmt::GrantRemote(_)
        | Stmt::GrantConsolidate(_)
        | Stmt::CreateSubscription(_)
        | Stmt::StartSubscription(_)
        | Stmt::StopSubscription(_)
        | Stmt::Synchronize(_)
        | Stmt::DropSubscription(_)
        | Stmt::CreateTrigger(_)
        | Stmt::DropTrigger(_)
        | Stmt::Dml(_)
        | Stmt::Select(_)
        | Stmt::Commit
        | Stmt::Rollback
        | Stmt::Passthrough(_)
        | Stmt::PassthroughStop => false,
    }
}
