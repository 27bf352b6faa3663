ghost use Rattle.std.specs.Prelude.{◌≡◌, None, IfOk, OnErr, OnOk};
ghost use Rattle.std.specs.Option.{option_copied};
ghost use Rattle.sr_catalog_change.specs.Changes.{next, refusal};
ghost use Rattle.sr_catalog_change.specs.Inner.Changes.{IsChange};
ghost use Rattle.sr_catalog_ddl.specs.Subscriptions.{is_started};
ghost use Rattle.sr_ast.specs.NormalForms.{IsNormal};
ghost use Rattle.sr_catalog_script_laws.specs.Scripts.{IsSpellable};
ghost use Rattle.sr_catalog_schema.specs.Catalogs.{nothing_but};
ghost use Rattle.sr_catalog_schema.specs.Members.{publication_name, table_name, user_name};
ghost use Rattle.sr_catalog_schema.specs.Names.{named};

use sr_ast::{Stmt, SubscriptionRule};
use sr_base::{Copied, Name, NoMemory};
use sr_catalog_change::{apply, refusal};
use sr_catalog_schema::{DdlFault, Publication, Schema, Subscription, Table, Trigger, User};
use std::alloc::Global;
use std::marker::Model;

/// What a database knows beside its rows: its publisher, users, tables, publications, triggers, subscriptions and options. Contracts
/// see the publisher, the lists, each in order of creation, and the options.
///
/// A catalog is always one that statements in normal form have made of a new one, each accepted where it stands; `is_made` says so. Those are the
/// statements that a text spells, so the catalog's script is read back as itself.
#[derive(Drop)]
pub struct Catalog {
    pub(crate) schema: Schema,
}

impl Model for Catalog {
    ghost use Rattle.std.specs.Coded.{codes};
    ghost use Rattle.sr_ast.specs.Inner.Terms.{term_code};
    ghost use Rattle.sr_ast.specs.Inner.Chains.{chain_code};
    ghost use Rattle.sr_catalog_schema.specs.Catalogs.{Lists};

    ghost Value = { Lists };

    ghost coded = { Prim.hlevel (codes, term_code, chain_code) };

    ghost view = { λ c. c.schema };

    ghost use Rattle.sr_catalog_script_laws.specs.Scripts.{IsSpellable};

    ghost invariant = { λ c. IsSpellable c.schema };
}

impl Catalog {
    /// The catalog of a new database: nothing but its publisher. It takes no memory.
    pub fn new(alloc: Global, publisher: Name) -> Catalog
        ensures new { result ≡ nothing_but publisher }
    {
        Catalog {
            schema: Schema::new(alloc, publisher),
        }
    }

    /// The catalog after a statement.
    ///
    /// It takes the statements that change the catalog. SYNCHRONIZE and PASSTHROUGH FOR are only checked, and answer an equal
    /// catalog, as any other statement does. A refused statement answers the first fault that applies, in the order of `DdlFault`;
    /// of several places of one fault the leftmost. The statement is in normal form, as each one that `parse` gives.
    #[tactic(auto, using(crate::proofs::Refusals::refused))]
    pub fn change(&self, alloc: Global, stmt: &Stmt) -> Result<Catalog, DdlFault>
        requires normal { IsNormal stmt.now }
        ensures change { IsChange self.now stmt.now result }
    {
        if let Some(fault) = refusal(&self.schema, alloc, stmt)? {
            return Err(fault);
        }
        Ok(changed(&self.schema, alloc, stmt)?)
    }

    /// That statements in normal form have made this catalog of a new one, each accepted where it stands, as of every catalog. It does nothing.
    pub fn is_made(&self)
        ensures made { IsSpellable self.now }
    {
        let _ = &self.schema;
    }

    /// The fault that refuses a statement, where one does: the one with which `change` answers.
    pub fn refusal(&self, alloc: Global, stmt: &Stmt) -> Result<Option<DdlFault>, NoMemory>
        ensures refusal { IfOk result (λ fault. fault ≡ refusal self.now stmt.now) }
    {
        refusal(&self.schema, alloc, stmt)
    }

    /// Does to this catalog what a statement in normal form does that is not refused: `change` without a copy. Where memory lacks it stays as it was.
    pub fn apply(&mut self, alloc: Global, statement: &Stmt) -> Result<(), NoMemory>
        requires normal { IsNormal statement.now }
        requires accepted { refusal self.old statement.now ≡ None }
        ensures ok { OnOk result (self.new ≡ next self.old statement.now) }
        ensures err { OnErr result (self.new ≡ self.old) }
    {
        apply(&mut self.schema, alloc, statement)
    }

    /// The publisher.
    pub fn publisher(&self) -> &Name
        ensures publisher { result.now ≡ self.now.publisher }
    {
        self.schema.publisher()
    }

    /// The table of this name. It takes constant time.
    pub fn table(&self, name: &Name) -> Option<&Table>
        ensures table { option_copied result ≡ named table_name name.now self.now.tables }
    {
        self.schema.table(name)
    }

    /// The user of this name. It takes constant time.
    pub fn user(&self, name: &Name) -> Option<&User>
        ensures user { option_copied result ≡ named user_name name.now self.now.users }
    {
        self.schema.user(name)
    }

    /// The publication of this name. It takes constant time.
    pub fn publication(&self, name: &Name) -> Option<&Publication>
        ensures publication { option_copied result ≡ named publication_name name.now self.now.publications }
    {
        self.schema.publication(name)
    }

    /// The users in order of grant.
    pub fn users(&self) -> &[User]
        ensures users { result.now ≡ self.now.users }
    {
        self.schema.users()
    }

    /// The tables in order of creation.
    pub fn tables(&self) -> &[Table]
        ensures tables { result.now ≡ self.now.tables }
    {
        self.schema.tables()
    }

    /// The publications in order of creation.
    pub fn publications(&self) -> &[Publication]
        ensures publications { result.now ≡ self.now.publications }
    {
        self.schema.publications()
    }

    /// The triggers in order of creation.
    pub fn triggers(&self) -> &[Trigger]
        ensures triggers { result.now ≡ self.now.triggers }
    {
        self.schema.triggers()
    }

    /// The subscriptions in order of creation.
    pub fn subscriptions(&self) -> &[Subscription]
        ensures subscriptions { result.now ≡ self.now.subscriptions }
    {
        self.schema.subscriptions()
    }

    /// Whether what is given to the user above carries the old value of every column: the option `verify_all_columns` is On. It takes
    /// no memory.
    pub fn verifies(&self) -> bool
        ensures verifies { result ≡ self.now.options.verifies }
    {
        self.schema.options().verifies
    }

    /// Whether there is the subscription of a rule, and is started. It takes constant time.
    pub fn has_started(&self, alloc: Global, rule: &SubscriptionRule) -> Result<bool, NoMemory>
        ensures started { IfOk result (λ started. started ≡ is_started self.now rule.now) }
    {
        self.schema.has_started(alloc, rule)
    }
}

/// The catalog after a statement in normal form that is not refused.
fn changed(schema: &Schema, alloc: Global, stmt: &Stmt) -> Result<Catalog, NoMemory>
    requires normal { IsNormal stmt.now }
    requires accepted { refusal schema.now stmt.now ≡ None }
    requires spelled { IsSpellable schema.now }
    ensures { IfOk result (λ after. after ≡ next schema.now stmt.now) }
{
    let mut after = schema.copy(alloc)?;
    match apply(&mut after, alloc, stmt) {
        Ok(()) => Ok(Catalog { schema: after }),
        Err(fault) => {
            drop(after);
            Err(fault)
        }
    }
}

impl Copied for Catalog {
    fn copy(&self, alloc: Global) -> Result<Catalog, NoMemory> {
        Ok(Catalog {
            schema: self.schema.copy(alloc)?,
        })
    }
}
