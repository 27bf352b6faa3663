//! Subscriptions that are found by their rules.

ghost use Rattle.std.specs.Prelude.{◌≡◌, ◌&&◌, ◌<◌, ◌∷◌, ◌++◌, [], not, filter, find, length, map, remove, slice_set, slice_index_or, bytes_eq, IfOk, OnOk, OnErr};
ghost use Rattle.std.specs.List.{list_any};
ghost use Rattle.std.specs.Option.{option_copied};
ghost use Rattle.sr_catalog_schema.specs.Rules.{is_of, marked};
ghost use Rattle.sr_catalog_schema.specs.Inner.Singles.{IsSingle};
ghost use Rattle.sr_catalog_schema.specs.declared.subscription.Subscription.{Subscription as Held};

use crate::keys::pair_key;
use crate::listed::Listed;
use crate::named::item_at;
use crate::starts::Starts;
use crate::subscription::Subscription;
use sr_ast::SubscriptionRule;
use sr_base::{Copied, Name, NoMemory};
use std::alloc::{AllocError, Global};
use std::marker::Model;

/// Subscriptions in order of creation. The one of a rule is found in constant time, and so is whether a user has a started one of a
/// publication.
#[derive(Drop)]
pub(crate) struct Subscriptions {
    listed: Listed,
    starts: Starts,
}

impl Model for Subscriptions {
    ghost use Rattle.std.specs.Prelude.{List, vec_items};
    ghost use Rattle.sr_catalog_schema.specs.declared.subscription.Subscription.{Subscription as Held};

    ghost Value = { List Held };

    ghost use Rattle.sr_catalog_schema.specs.Inner.Keys.{IsCounted};

    ghost view = { λ s. s.listed };

    ghost invariant = { λ s. IsCounted vec_items s.starts.counts.entries s.listed };
}

impl Subscriptions {
    /// No subscriptions. It takes no memory.
    pub(crate) fn new(alloc: Global) -> Subscriptions
        ensures { result ≡ [] }
    {
        Subscriptions {
            listed: Listed::new(alloc),
            starts: Starts::new(alloc),
        }
    }

    /// The subscriptions in order of creation.
    pub(crate) fn as_slice(&self) -> &[Subscription]
        ensures { result.now ≡ self.now }
    {
        self.listed.as_slice()
    }

    /// The subscription of a rule, of which there is one at most.
    pub(crate) fn get(
        &self,
        alloc: Global,
        rule: &SubscriptionRule,
    ) -> Result<Option<&Subscription>, NoMemory>
        ensures found { IfOk result (λ found. option_copied found ≡ find (is_of rule.now) self.now) }
        ensures single { OnOk result (IsSingle (is_of rule.now) self.now) }
    {
        match self.listed.place(alloc, rule)? {
            None => Ok(None),
            Some(place) => Ok(item_at(self.listed.as_slice(), place)),
        }
    }

    /// Whether a user has a started subscription of a publication.
    pub(crate) fn has_starts(
        &self,
        alloc: Global,
        user: &Name,
        publication: &Name,
    ) -> Result<bool, NoMemory>
        ensures { IfOk result (λ has. has ≡ list_any (λ s. s.started && (bytes_eq user.now s.user && bytes_eq publication.now s.publication)) self.now) }
    {
        let key = pair_key(alloc, user, publication)?;
        Ok(0 < self.starts.count(key.as_slice()))
    }

    /// Adds a subscription, the last. One whose rule is there is refused too: callers look first. Where memory lacks nothing changes.
    pub(crate) fn push(&mut self, alloc: Global, item: Subscription) -> Result<(), NoMemory>
        ensures ok { OnOk result (self.new ≡ self.old ++ item ∷ []) }
        ensures err { OnErr result (self.new ≡ self.old) }
    {
        let key = pair_key(alloc, &item.user, &item.publication)?;
        let started = item.started;
        let place = self.listed.as_slice().len();
        self.listed.push(alloc, item)?;
        match self.starts.change(key, false, started) {
            Ok(()) => Ok(()),
            Err(_) => {
                self.listed.remove_at(place);
                Err(AllocError)
            }
        }
    }

    /// START or STOP of the subscription of a rule. Where memory lacks nothing changes.
    pub(crate) fn mark(
        &mut self,
        alloc: Global,
        started: bool,
        rule: &SubscriptionRule,
    ) -> Result<(), NoMemory>
        ensures ok { OnOk result (self.new ≡ map (marked started rule.now) self.old) }
        ensures err { OnErr result (self.new ≡ self.old) }
    {
        match self.listed.place(alloc, rule)? {
            None => Ok(()),
            Some(place) => {
                self.mark_at(alloc, started, place)?;
                Ok(())
            }
        }
    }

    fn mark_at(&mut self, alloc: Global, started: bool, place: usize) -> Result<(), NoMemory>
        requires { place < length self.old }
        ensures ok { OnOk result ((d : Held) → self.new ≡ slice_set self.old place (record (slice_index_or self.old place d) { started = started })) }
        ensures err { OnErr result (self.new ≡ self.old) }
    {
        let item = &self.listed.as_slice()[place];
        let was = item.started;
        let key = pair_key(alloc, &item.user, &item.publication)?;
        self.starts.change(key, was, started)?;
        self.listed.set_started(place, started);
        Ok(())
    }

    /// Takes the subscription of a rule away. Where memory lacks nothing changes.
    pub(crate) fn remove(&mut self, alloc: Global, rule: &SubscriptionRule) -> Result<(), NoMemory>
        ensures ok { OnOk result (self.new ≡ filter (λ s. not (is_of rule.now s)) self.old) }
        ensures err { OnErr result (self.new ≡ self.old) }
    {
        match self.listed.place(alloc, rule)? {
            None => Ok(()),
            Some(place) => {
                self.remove_at(alloc, place)?;
                Ok(())
            }
        }
    }

    fn remove_at(&mut self, alloc: Global, place: usize) -> Result<(), NoMemory>
        requires { place < length self.old }
        ensures ok { OnOk result (self.new ≡ remove self.old place) }
        ensures err { OnErr result (self.new ≡ self.old) }
    {
        let item = &self.listed.as_slice()[place];
        let was = item.started;
        let key = pair_key(alloc, &item.user, &item.publication)?;
        self.starts.change(key, was, false)?;
        self.listed.remove_at(place);
        Ok(())
    }
}

impl Copied for Subscriptions {
    fn copy(&self, alloc: Global) -> Result<Subscriptions, NoMemory> {
        let mut copies = Subscriptions::new(alloc);
        let mut rest = self.listed.as_slice();
        'items: while let Some((item, after)) = rest.split_first() {
            copies.push(alloc, item.copy(alloc)?)?;
            rest = after;
        }
        Ok(copies)
    }
}
