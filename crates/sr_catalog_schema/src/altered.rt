//! A schema with one list, or its options, changed. Where memory lacks it stays as it was.

ghost use Rattle.std.specs.Prelude.{◌≡◌, ◌∷◌, ◌++◌, [], filter, map, not, OnOk, OnErr};
ghost use Rattle.sr_catalog_schema.specs.Members.{table_name, publication_name, trigger_name};
ghost use Rattle.sr_catalog_schema.specs.Names.{without};
ghost use Rattle.sr_catalog_schema.specs.Rules.{is_of, marked};

use crate::options::Options;
use crate::publication::Publication;
use crate::schema::Schema;
use crate::subscription::Subscription;
use crate::table::Table;
use crate::trigger::Trigger;
use crate::user::User;
use sr_ast::SubscriptionRule;
use sr_base::{Name, NoMemory};
use std::alloc::Global;

impl Schema {
    /// One user more.
    pub fn add_user(&mut self, alloc: Global, user: User) -> Result<(), NoMemory>
        ensures ok { OnOk result (self.new ≡ record self.old { users = self.old.users ++ user ∷ [] }) }
        ensures err { OnErr result (self.new ≡ self.old) }
    {
        self.users.push(alloc, user)
    }

    /// One table more.
    pub fn add_table(&mut self, alloc: Global, table: Table) -> Result<(), NoMemory>
        ensures ok { OnOk result (self.new ≡ record self.old { tables = self.old.tables ++ table ∷ [] }) }
        ensures err { OnErr result (self.new ≡ self.old) }
    {
        self.tables.push(alloc, table)
    }

    /// One publication more.
    pub fn add_publication(
        &mut self,
        alloc: Global,
        publication: Publication,
    ) -> Result<(), NoMemory>
        ensures ok { OnOk result (self.new ≡ record self.old { publications = self.old.publications ++ publication ∷ [] }) }
        ensures err { OnErr result (self.new ≡ self.old) }
    {
        self.publications.push(alloc, publication)
    }

    /// One trigger more.
    pub fn add_trigger(&mut self, alloc: Global, trigger: Trigger) -> Result<(), NoMemory>
        ensures ok { OnOk result (self.new ≡ record self.old { triggers = self.old.triggers ++ trigger ∷ [] }) }
        ensures err { OnErr result (self.new ≡ self.old) }
    {
        self.triggers.push(alloc, trigger)
    }

    /// One subscription more.
    pub fn add_subscription(
        &mut self,
        alloc: Global,
        subscription: Subscription,
    ) -> Result<(), NoMemory>
        ensures ok { OnOk result (self.new ≡ record self.old { subscriptions = self.old.subscriptions ++ subscription ∷ [] }) }
        ensures err { OnErr result (self.new ≡ self.old) }
    {
        self.subscriptions.push(alloc, subscription)
    }

    /// One table less.
    pub fn remove_table(&mut self, alloc: Global, name: &Name) -> Result<(), NoMemory>
        ensures ok { OnOk result (self.new ≡ record self.old { tables = without table_name name.now self.old.tables }) }
        ensures err { OnErr result (self.new ≡ self.old) }
    {
        self.tables.remove(alloc, name)
    }

    /// One publication less.
    pub fn remove_publication(&mut self, alloc: Global, name: &Name) -> Result<(), NoMemory>
        ensures ok { OnOk result (self.new ≡ record self.old { publications = without publication_name name.now self.old.publications }) }
        ensures err { OnErr result (self.new ≡ self.old) }
    {
        self.publications.remove(alloc, name)
    }

    /// One trigger less.
    pub fn remove_trigger(&mut self, alloc: Global, name: &Name) -> Result<(), NoMemory>
        ensures ok { OnOk result (self.new ≡ record self.old { triggers = without trigger_name name.now self.old.triggers }) }
        ensures err { OnErr result (self.new ≡ self.old) }
    {
        self.triggers.remove(alloc, name)
    }

    /// START or STOP of the subscription of a rule. It takes constant time.
    pub fn mark_subscription(
        &mut self,
        alloc: Global,
        started: bool,
        rule: &SubscriptionRule,
    ) -> Result<(), NoMemory>
        ensures ok { OnOk result (self.new ≡ record self.old { subscriptions = map (marked started rule.now) self.old.subscriptions }) }
        ensures err { OnErr result (self.new ≡ self.old) }
    {
        self.subscriptions.mark(alloc, started, rule)
    }

    /// The subscription of a rule less.
    pub fn remove_subscription(
        &mut self,
        alloc: Global,
        rule: &SubscriptionRule,
    ) -> Result<(), NoMemory>
        ensures ok { OnOk result (self.new ≡ record self.old { subscriptions = filter (λ s. not (is_of rule.now s)) self.old.subscriptions }) }
        ensures err { OnErr result (self.new ≡ self.old) }
    {
        self.subscriptions.remove(alloc, rule)
    }

    /// Other options. It takes no memory.
    pub fn set_options(&mut self, options: Options)
        ensures set { self.new ≡ record self.old { options = options } }
    {
        self.options = options;
    }
}
