ghost use Rattle.std.specs.Prelude.{◌≡◌, ◌&&◌, ℕ, false, List, bytes_eq, is_some, IfOk};
ghost use Rattle.std.specs.List.{list_any};
ghost use Rattle.std.specs.Option.{option_copied, option_map_or};
ghost use Rattle.sr_catalog_schema.specs.Catalogs.{nothing_but};
ghost use Rattle.sr_catalog_schema.specs.Members.{table_name, user_name, publication_name, trigger_name};
ghost use Rattle.sr_catalog_schema.specs.Names.{named, taken};
ghost use Rattle.sr_catalog_schema.specs.Rules.{is_of};
ghost use Rattle.sr_catalog_schema.specs.Inner.Singles.{IsSingle};

use crate::named::Named;
use crate::options::Options;
use crate::publication::Publication;
use crate::subscription::Subscription;
use crate::subscriptions::Subscriptions;
use crate::table::Table;
use crate::trigger::Trigger;
use crate::user::User;
use sr_ast::SubscriptionRule;
use sr_base::{Copied, Name, NoMemory};
use std::alloc::Global;
use std::marker::Model;

/// What a database knows beside its rows: its publisher, users, tables, publications, triggers, subscriptions and options. Contracts
/// see the publisher, the lists, each in order of creation, and the options.
#[derive(Drop)]
pub struct Schema {
    pub(crate) publisher: Name,
    pub(crate) users: Named<User>,
    pub(crate) tables: Named<Table>,
    pub(crate) publications: Named<Publication>,
    pub(crate) triggers: Named<Trigger>,
    pub(crate) subscriptions: Subscriptions,
    pub(crate) options: Options,
}

impl Model for Schema {
    ghost use Rattle.std.specs.Coded.{codes};
    ghost use Rattle.sr_ast.specs.Inner.Terms.{term_code};
    ghost use Rattle.sr_ast.specs.Inner.Chains.{chain_code};
    ghost use Rattle.sr_catalog_schema.specs.Catalogs.{Lists};

    ghost Value = { Lists };

    ghost coded = { Prim.hlevel (codes, term_code, chain_code) };

    ghost view = { λ c. record {
      publisher = c.publisher;
      users = c.users;
      tables = c.tables;
      publications = c.publications;
      triggers = c.triggers;
      subscriptions = c.subscriptions;
      options = c.options;
    } };
}

impl Schema {
    /// The schema of a new database: nothing but its publisher. It takes no memory.
    pub fn new(alloc: Global, publisher: Name) -> Schema
        ensures new { result ≡ nothing_but publisher }
    {
        Schema {
            publisher,
            users: Named::new(alloc),
            tables: Named::new(alloc),
            publications: Named::new(alloc),
            triggers: Named::new(alloc),
            subscriptions: Subscriptions::new(alloc),
            options: Options { verifies: false },
        }
    }

    /// The publisher.
    pub fn publisher(&self) -> &Name
        ensures publisher { result.now ≡ self.now.publisher }
    {
        &self.publisher
    }

    /// The table of this name. It takes constant time.
    pub fn table(&self, name: &Name) -> Option<&Table>
        ensures table { option_copied result ≡ named table_name name.now self.now.tables }
    {
        self.tables.get(name)
    }

    /// The user of this name. It takes constant time.
    pub fn user(&self, name: &Name) -> Option<&User>
        ensures user { option_copied result ≡ named user_name name.now self.now.users }
    {
        self.users.get(name)
    }

    /// The users in order of grant.
    pub fn users(&self) -> &[User]
        ensures users { result.now ≡ self.now.users }
    {
        self.users.as_slice()
    }

    /// The tables in order of creation.
    pub fn tables(&self) -> &[Table]
        ensures tables { result.now ≡ self.now.tables }
    {
        self.tables.as_slice()
    }

    /// The publications in order of creation.
    pub fn publications(&self) -> &[Publication]
        ensures publications { result.now ≡ self.now.publications }
    {
        self.publications.as_slice()
    }

    /// The publications in order of creation, no two of one name.
    pub fn distinct_publications(&self) -> &[Publication]
        ensures publications { result.now ≡ self.now.publications }
        ensures single { (name : List ℕ) → IsSingle (λ p. bytes_eq name (publication_name p)) self.now.publications }
    {
        self.publications.distinct()
    }

    /// The triggers in order of creation.
    pub fn triggers(&self) -> &[Trigger]
        ensures triggers { result.now ≡ self.now.triggers }
    {
        self.triggers.as_slice()
    }

    /// The subscriptions in order of creation.
    pub fn subscriptions(&self) -> &[Subscription]
        ensures subscriptions { result.now ≡ self.now.subscriptions }
    {
        self.subscriptions.as_slice()
    }

    /// The options.
    pub fn options(&self) -> Options
        ensures options { result ≡ self.now.options }
    {
        self.options
    }

    /// The publication of this name. It takes constant time.
    pub fn publication(&self, name: &Name) -> Option<&Publication>
        ensures publication { option_copied result ≡ named publication_name name.now self.now.publications }
    {
        self.publications.get(name)
    }

    /// Whether there is a table of this name. It takes constant time.
    pub fn has_table(&self, name: &Name) -> bool
        ensures taken { result ≡ taken table_name name.now self.now.tables }
    {
        self.tables.holds(name)
    }

    /// Whether there is a user of this name. It takes constant time.
    pub fn has_user(&self, name: &Name) -> bool
        ensures taken { result ≡ taken user_name name.now self.now.users }
    {
        self.users.holds(name)
    }

    /// Whether there is a publication of this name. It takes constant time.
    pub fn has_publication(&self, name: &Name) -> bool
        ensures taken { result ≡ taken publication_name name.now self.now.publications }
    {
        self.publications.holds(name)
    }

    /// Whether there is a trigger of this name. It takes constant time.
    pub fn has_trigger(&self, name: &Name) -> bool
        ensures taken { result ≡ taken trigger_name name.now self.now.triggers }
    {
        self.triggers.holds(name)
    }

    /// Whether there is the subscription of a rule. It takes constant time.
    pub fn has_subscription(&self, alloc: Global, rule: &SubscriptionRule) -> Result<bool, NoMemory>
        ensures there { IfOk result (λ there. there ≡ list_any (is_of rule.now) self.now.subscriptions) }
    {
        let found = self.subscriptions.get(alloc, rule)?;
        Ok(is_there(found))
    }

    /// Whether there is the subscription of a rule, and is started. It takes constant time.
    pub fn has_started(&self, alloc: Global, rule: &SubscriptionRule) -> Result<bool, NoMemory>
        ensures started { IfOk result (λ started. started ≡ list_any (λ s. is_of rule.now s && s.started) self.now.subscriptions) }
    {
        let found = self.subscriptions.get(alloc, rule)?;
        Ok(is_started(found))
    }

    /// Whether a user has a started subscription of a publication. It takes constant time.
    pub fn has_starts(
        &self,
        alloc: Global,
        user: &Name,
        publication: &Name,
    ) -> Result<bool, NoMemory>
        ensures starts { IfOk result (λ starts. starts ≡ list_any (λ s. s.started && (bytes_eq user.now s.user && bytes_eq publication.now s.publication)) self.now.subscriptions) }
    {
        self.subscriptions.has_starts(alloc, user, publication)
    }
}

fn is_there(subscription: Option<&Subscription>) -> bool
    ensures { result ≡ is_some (option_copied subscription.entry) }
{
    match subscription {
        None => false,
        Some(_) => true,
    }
}

fn is_started(subscription: Option<&Subscription>) -> bool
    ensures { result ≡ option_map_or (λ s. s.started) (option_copied subscription.entry) false }
{
    match subscription {
        None => false,
        Some(subscription) => subscription.started,
    }
}

impl Copied for Schema {
    fn copy(&self, alloc: Global) -> Result<Schema, NoMemory> {
        Ok(Schema {
            publisher: self.publisher.copy(alloc)?,
            users: self.users.copy(alloc)?,
            tables: self.tables.copy(alloc)?,
            publications: self.publications.copy(alloc)?,
            triggers: self.triggers.copy(alloc)?,
            subscriptions: self.subscriptions.copy(alloc)?,
            options: self.options,
        })
    }
}
