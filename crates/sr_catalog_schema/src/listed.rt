//! Subscriptions under their keys.

ghost use Rattle.std.specs.Prelude.{◌≡◌, ◌<◌, ◌∷◌, ◌++◌, [], length, position, remove, slice_set, slice_index_or, IfOk, OnOk, OnErr};
ghost use Rattle.sr_catalog_schema.specs.Rules.{is_of};
ghost use Rattle.sr_catalog_schema.specs.Inner.Singles.{IsSingle};
ghost use Rattle.sr_catalog_schema.specs.declared.subscription.Subscription.{Subscription as Held};

use crate::keys::rule_key;
use crate::subscription::Subscription;
use indexmap::IndexSet;
use sr_ast::SubscriptionRule;
use sr_base::NoMemory;
use std::alloc::{AllocError, Global};
use std::marker::Model;

/// Subscriptions in order of creation, each under the bytes of its rule. A look-up takes constant time.
#[derive(Drop)]
pub(crate) struct Listed {
    items: Vec<Subscription>,
    rules: IndexSet<Vec<u8>>,
}

impl Model for Listed {
    ghost use Rattle.std.specs.Prelude.{List, map, vec_items};
    ghost use Rattle.sr_catalog_schema.specs.declared.subscription.Subscription.{Subscription as Held};

    ghost Value = { List Held };

    ghost use Rattle.sr_catalog_schema.specs.Inner.Keys.{IsListed};

    ghost view = { λ l. l.items.items };

    ghost invariant = { λ l. IsListed (map vec_items l.rules.keys) l.items.items };
}

impl Listed {
    /// No subscriptions. It takes no memory.
    pub(crate) fn new(alloc: Global) -> Listed
        ensures { result ≡ [] }
    {
        Listed {
            items: Vec::new(alloc),
            rules: IndexSet::new(alloc),
        }
    }

    /// The subscriptions in order of creation.
    pub(crate) fn as_slice(&self) -> &[Subscription]
        ensures { result.now ≡ self.now }
    {
        self.items.as_slice()
    }

    /// The place of the subscription of a rule, of which there is one at most.
    pub(crate) fn place(
        &self,
        alloc: Global,
        rule: &SubscriptionRule,
    ) -> Result<Option<usize>, NoMemory>
        ensures place { IfOk result (λ place. place ≡ position (is_of rule.now) self.now) }
        ensures single { OnOk result (IsSingle (is_of rule.now) self.now) }
    {
        let key = rule_key(alloc, &rule.user, &rule.publication, &rule.value)?;
        let _count = self.rules.len();
        Ok(self.rules.get_index_of(key.as_slice()))
    }

    /// Adds a subscription, the last. One whose rule is there is refused too: callers look first. Where memory lacks nothing changes.
    pub(crate) fn push(&mut self, alloc: Global, item: Subscription) -> Result<(), NoMemory>
        ensures ok { OnOk result (self.new ≡ self.old ++ item ∷ []) }
        ensures err { OnErr result (self.new ≡ self.old) }
    {
        let key = rule_key(alloc, &item.user, &item.publication, &item.value)?;
        self.items.reserve(1)?;
        if !self.rules.insert(key)? {
            return Err(AllocError);
        }
        match self.items.push(item) {
            Ok(()) => Ok(()),
            Err(_) => Err(AllocError),
        }
    }

    /// Whether the subscription at a place is started, from now on.
    pub(crate) fn set_started(&mut self, place: usize, started: bool)
        requires { place < length self.old }
        ensures { (d : Held) → self.new ≡ slice_set self.old place (record (slice_index_or self.old place d) { started = started }) }
    {
        self.items[place].started = started;
    }

    /// Takes the subscription at a place away.
    pub(crate) fn remove_at(&mut self, place: usize)
        requires { place < length self.old }
        ensures { self.new ≡ remove self.old place }
    {
        let _key = self.rules.shift_remove_index(place);
        let _item = self.items.remove(place);
    }
}
