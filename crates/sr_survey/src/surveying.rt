//! Surveys, entry by entry.

ghost use Rattle.std.specs.Prelude.{◌≡◌, ◌∷◌, [], ◌≤◌, ◌<◌, ◌-◌, ◌^◌, min, List, Some, None, false, true, OnOk, IfOk, IfErr, IfSome};
ghost use Rattle.sr_catalog_schema.specs.declared.subscription.Subscription.{Subscription as ASubscription};
ghost use Rattle.sr_survey.specs.Inner.Following.{keys_at, since_of};
ghost use Rattle.sr_survey.specs.Inner.GivingUp.{IsGivenUpFor};
ghost use Rattle.sr_survey.specs.Inner.Surveyed.{IsNext, IsNextShown, Begins, Takes};
ghost use Rattle.sr_survey.specs.Inner.Taking.{ListsEntry, EndsAt, IsFresh, ServesAll};
ghost use Rattle.sr_survey.specs.declared.given_up.GivenUp.{GivenUp as Why};
ghost use Rattle.sr_survey.specs.declared.given_up.GivenUp.TheVariants.{Memory, Places};
ghost use Rattle.sr_survey_places.specs.Inner.Listed.{IsEmpty, count_of};

use crate::chart::Chart;
use crate::effects::later;
use crate::entries::list_entry;
use crate::given_up::GivenUp;
use crate::survey::Survey;
use crate::takes::runs;
use crate::taking_up::take_up;
use sr_base::{Copied, Name, NoMemory, Offset, Seq};
use sr_catalog::Catalog;
use sr_catalog_schema::Subscription;
use sr_logform::Entry;
use sr_survey_places::{Key, Listings, Place};
use std::alloc::Global;
use std::collections::BTreeMap;

impl Survey {
    /// A survey that begins at an offset, with the catalog there, and lists so many places at most, each of 16 bytes. Each subscription that is started then
    /// is served from there on. Only where memory lacks for that it is given up. It takes a pass over the subscriptions, and over the keys of each one's user.
    pub fn new(alloc: Global, base: Catalog, begin: Offset, most: u32) -> Survey
        ensures begins { result.given_up ≡ None → Begins base begin.0 result × (result.most ≡ most) }
        ensures given_up { IfSome result.given_up (λ why. why ≡ Memory) }
    {
        let subscriptions = copies(alloc, base.subscriptions());
        let mut survey = Survey::fresh(alloc, base, begin.0, most);
        match survey.serve_copies(alloc, subscriptions) {
            Ok(()) => survey,
            Err(_) => {
                survey.give_up(alloc, GivenUp::Memory);
                survey
            }
        }
    }

    /// A survey that knows nothing but a catalog and an offset.
    fn fresh(alloc: Global, base: Catalog, at: u64, most: u32) -> Survey
        ensures fresh { IsFresh base at most result }
    {
        Survey {
            catalog: Chart::new(alloc, base),
            begin: at,
            end: at,
            places: Listings::new(alloc),
            offices: BTreeMap::new(alloc),
            since: at,
            most,
            given_up: None,
        }
    }

    /// Takes the next entry of the log, which begins where the one before it ends, or the survey began, and ends at `end`: it is listed by the catalog
    /// before it, and then its statements are followed. Only where memory lacks for that, or it would list more places than it may, the survey is given up;
    /// one that was given up stays as it is.
    ///
    /// It takes, for each change of the entry, the time of its two rows for each article of their table, and logarithmic time for each key; once for each
    /// table, and again behind a statement on tables or publications, a pass over the articles of each publication; and for each statement the time in which
    /// a catalog takes it.
    pub fn take(&mut self, alloc: Global, entry: &Entry, end: Offset)
        ensures taken { self.new.given_up ≡ None → (self.old.given_up ≡ None) × Takes self.old entry.now end.0 self.new }
        ensures given_up { self.old.given_up ≡ None → (why : Why) → self.new.given_up ≡ Some why → IsGivenUpFor why self.old entry.now end.0 }
        ensures stays { (why : Why) → self.old.given_up ≡ Some why → self.new ≡ self.old }
    {
        match self.given_up {
            Some(_) => (),
            None => self.go(alloc, entry, end.0),
        }
    }

    /// Takes an entry, or gives up.
    #[tactic(auto, using(crate::proofs::GivingUp::for_same))]
    fn go(&mut self, alloc: Global, entry: &Entry, at: u64)
        requires { self.old.given_up ≡ None }
        ensures taken { self.new.given_up ≡ None → Takes self.old entry.now at self.new }
        ensures given_up { (why : Why) → self.new.given_up ≡ Some why → IsGivenUpFor why self.old entry.now at }
    {
        match self.put(alloc, entry, at) {
            Ok(()) => (),
            Err(why) => self.give_up(alloc, why),
        }
    }

    /// The first place that is listed for a user and ends past an offset: an entry behind which it stands gives him nothing, or ends at the offset or
    /// before. `None` exactly where there is none.
    ///
    /// It takes logarithmic time for each key that he ever had, and as much again for each place that it leaves out since it was taken from him. Who goes on
    /// behind what it answers has each of these left out once.
    pub fn next(&self, alloc: Global, user: &Name, sent: Offset) -> Result<Option<Place>, NoMemory>
        ensures next { IfOk result (λ found. IsNext self.now user.now sent.0 found) }
    {
        let to = user.copy(alloc)?;
        let text = user.copy(alloc)?;
        let taken = user.copy(alloc)?;
        let from = Key::From(taken);
        let alone = [Key::To(to), Key::Text(text), Key::Each];
        let shared = self.keys(user);
        let found = self.places.first_among(&alone, shared, &from, sent.0);
        Ok(found)
    }

    /// The first place that is listed for a user and ends past an offset, of those under other keys than that of statements that are passed on to him: what
    /// is told of it hangs on the catalog. `None` exactly where there is none. It takes the time of `next`.
    pub fn next_shown(
        &self,
        alloc: Global,
        user: &Name,
        sent: Offset,
    ) -> Result<Option<Place>, NoMemory>
        ensures next { IfOk result (λ found. IsNextShown self.now user.now sent.0 found) }
    {
        let to = user.copy(alloc)?;
        let taken = user.copy(alloc)?;
        let from = Key::From(taken);
        let alone = [Key::To(to), Key::Each];
        let shared = self.keys(user);
        let found = self.places.first_among(&alone, shared, &from, sent.0);
        Ok(found)
    }

    /// The keys of the subscriptions that a user ever had started.
    fn keys(&self, user: &Name) -> &[Key]
        ensures keys { result.now ≡ keys_at self.now.offices user.now }
    {
        match self.offices.get(user) {
            Some(office) => office.keys.as_slice(),
            None => &[],
        }
    }

    /// From where on the catalog shows a user what it showed him then, as a stream offset.
    pub fn since(&self, user: &Name) -> Offset
        ensures since { result.0 ≡ since_of self.now user.now }
    {
        match self.offices.get(user) {
            Some(office) => Offset(later(self.since, office.since)),
            None => Offset(self.since),
        }
    }

    /// Where it began, as a stream offset: of entries before it says nothing.
    pub fn begin(&self) -> Offset
        ensures begin { result.0 ≡ self.now.begin }
    {
        Offset(self.begin)
    }

    /// Where the last entry ends that it took, as a stream offset.
    pub fn end(&self) -> Offset
        ensures end { result.0 ≡ self.now.end }
    {
        Offset(self.end)
    }

    /// The catalog behind the entries that it took.
    pub fn catalog(&self) -> &Catalog
        ensures catalog { result.now ≡ self.now.catalog }
    {
        self.catalog.catalog()
    }

    /// How many places it lists: one under several keys counts under each.
    pub fn count(&self) -> usize
        ensures count { result ≡ min (count_of self.now.places.lists) (2 ^ 64 - 1) }
    {
        self.places.count()
    }

    /// Why it was given up, if it was: then it says nothing.
    pub fn given_up(&self) -> Option<GivenUp>
        ensures given_up { result ≡ self.now.given_up }
    {
        self.given_up
    }

    /// Drops what is listed, for good.
    fn give_up(&mut self, alloc: Global, why: GivenUp)
        ensures given_up { self.new.given_up ≡ Some why }
        ensures empty { IsEmpty self.new.places.lists }
    {
        self.places = Listings::new(alloc);
        self.offices = BTreeMap::new(alloc);
        self.given_up = Some(why);
    }

    /// Lists an entry, and follows its statements.
    fn put(&mut self, alloc: Global, entry: &Entry, at: u64) -> Result<(), GivenUp>
        ensures taken { OnOk result (Takes self.old entry.now at self.new) }
        ensures given_up { OnOk result (self.new.given_up ≡ self.old.given_up) }
        ensures refused { IfErr result (λ why. IsGivenUpFor why self.old entry.now at) }
    {
        self.list(alloc, entry, at)?;
        self.look_at_places()?;
        self.follow(alloc, entry, at)?;
        self.go_on(entry, at);
        Ok(())
    }

    /// Whether no more places are listed than may be.
    fn look_at_places(&self) -> Result<(), GivenUp>
        ensures full { IfErr result (λ why. (why ≡ Places) × (self.now.most < count_of self.now.places.lists)) }
        ensures room { OnOk result (count_of self.now.places.lists ≤ self.now.most) }
    {
        if (self.most as usize) < self.places.count() {
            return Err(GivenUp::Places);
        }
        Ok(())
    }

    /// Lists an entry that ends at an offset.
    fn list(&mut self, alloc: Global, entry: &Entry, at: u64) -> Result<(), NoMemory>
        ensures listed { OnOk result (ListsEntry self.old entry.now at self.new) }
    {
        let place = Place {
            start: self.end,
            end: at,
        };
        take_up(alloc, &mut self.catalog, entry)?;
        list_entry(alloc, &mut self.places, &self.catalog, entry, place)?;
        Ok(())
    }

    /// Goes on behind an entry. One in which a statement ran may have shown everybody another catalog.
    fn go_on(&mut self, entry: &Entry, at: u64)
        ensures ends { EndsAt self.old entry.now at self.new }
    {
        if runs(entry) {
            self.touch_all(at);
            self.end = at;
            return;
        }
        self.end = at;
    }

    /// Serves subscriptions that were copied, if there was memory for it.
    fn serve_copies(
        &mut self,
        alloc: Global,
        copied: Result<Seq<Subscription>, NoMemory>,
    ) -> Result<(), NoMemory>
        ensures served { OnOk result ((ss : List ASubscription) → IfOk copied (λ items. items ≡ ss) → ServesAll self.old ss self.new) }
    {
        let subscriptions = copied?;
        let served = self.serve_all(alloc, subscriptions.as_slice());
        drop(subscriptions);
        served
    }

    /// Serves those of some subscriptions that are started. It takes one pass over them, and over the keys of the user of each one.
    fn serve_all(&mut self, alloc: Global, subscriptions: &[Subscription]) -> Result<(), NoMemory>
        ensures served { OnOk result (ServesAll self.old subscriptions.now self.new) }
    {
        let mut left = subscriptions;
        'subscriptions: while let Some((subscription, rest)) = left.split_first() {
            self.serve_if_started(alloc, subscription)?;
            left = rest;
        }
        Ok(())
    }

    #[tactic(auto, using(crate::proofs::Taken::serves_stopped))]
    fn serve_if_started(
        &mut self,
        alloc: Global,
        subscription: &Subscription,
    ) -> Result<(), NoMemory>
        ensures served { OnOk result (ServesAll self.old (subscription.now ∷ []) self.new) }
    {
        if !subscription.started {
            return Ok(());
        }
        self.serve(
            alloc,
            &subscription.user,
            &subscription.publication,
            &subscription.value,
        )?;
        Ok(())
    }
}

/// Copies of subscriptions, in their order. It takes one pass over them.
fn copies(alloc: Global, subscriptions: &[Subscription]) -> Result<Seq<Subscription>, NoMemory>
    ensures copies { IfOk result (λ copies. copies ≡ subscriptions.now) }
{
    let mut items = Vec::with_capacity(alloc, subscriptions.len())?;
    for subscription in subscriptions {
        items.push(subscription.copy(alloc)?)?;
    }
    Ok(Seq::from_vec(items))
}
