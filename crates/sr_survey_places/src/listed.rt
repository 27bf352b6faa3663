//! Places are listed under keys, and looked up.

ghost use Rattle.std.specs.Prelude.{◌≡◌, ◌⊎◌, ◌++◌, ◌∷◌, [], ℕ, ◌≤◌, ◌<◌, ◌+◌, ◌-◌, ◌^◌, min, length, true, false, Some, IfOk, OnOk, OnErr, IsTrue};
ghost use Rattle.std.specs.HashMap.{IsUnchanged};
ghost use Rattle.std.specs.List.{Contains, insert};
ghost use Rattle.sr_survey_places.specs.Inner.Search.{InOrder, IsFirstOther};
ghost use Rattle.sr_survey_places.specs.declared.place.Place.{Place as APlace};
ghost use Rattle.sr_survey_places.specs.Inner.Listed.{under, has_list, count_of, IsEmpty, IsBegun, IsListedUnder, IsLeft, IsUnder, IsFirstAmong};

use crate::key::Key;
use crate::listings::Listings;
use crate::place::Place;
use crate::search::{count_passed, earlier, end_of_some, first_other};
use sr_base::{Copied, NoMemory, Seq};
use std::alloc::{AllocError, Global};
use std::collections::HashMap;
use std::mem::replace;

impl Listings {
    /// Listings with nothing in them. They take no memory.
    pub fn new(alloc: Global) -> Listings
        ensures empty { IsEmpty result.lists }
    {
        Listings {
            lists: HashMap::new(alloc),
            count: 0,
        }
    }

    /// How many places are listed, as far as a `usize` can say: a place under several keys counts under each.
    pub fn count(&self) -> usize
        ensures count { result ≡ min (count_of self.now.lists) (2 ^ 64 - 1) }
    {
        self.count
    }

    /// Begins the places under a key, if they are not begun yet. Where memory lacks all is as it was.
    pub fn begin(&mut self, alloc: Global, key: &Key) -> Result<(), NoMemory>
        ensures begun { OnOk result (IsBegun self.old.lists key.now self.new.lists) }
        ensures left { OnErr result (IsUnchanged self.old.lists self.new.lists) }
    {
        if self.lists.contains_key(key) {
            return Ok(());
        }
        let key = key.copy(alloc)?;
        match self.lists.insert(key, Seq::empty(alloc)) {
            Ok(_) => Ok(()),
            Err(_) => Err(AllocError),
        }
    }

    /// Lists a place under a key, where it is begun, in the order of the ends. The last one there is not listed again. Where memory lacks all
    /// places, and what is begun, are as they were. It takes one look-up, and a pass over the places that end past it; and two look-ups more where an own
    /// key has no list yet.
    pub fn add(&mut self, alloc: Global, key: &Key, place: Place) -> Result<(), NoMemory>
        ensures listed { OnOk result (IsListedUnder self.old.lists (key.now ∷ []) place self.new.lists) }
        ensures left { OnErr result (IsLeft self.old.lists self.new.lists) }
    {
        if self.put(alloc, key, place)? {
            return Ok(());
        }
        self.add_anew(alloc, key, place)
    }

    /// Lists a place under a key that has no list: one of rows has one only where it is begun.
    fn add_anew(&mut self, alloc: Global, key: &Key, place: Place) -> Result<(), NoMemory>
        requires none { has_list self.old.lists key.now ≡ false }
        ensures listed { OnOk result (IsListedUnder self.old.lists (key.now ∷ []) place self.new.lists) }
        ensures left { OnErr result (IsLeft self.old.lists self.new.lists) }
    {
        if key.is_shared() {
            return Ok(());
        }
        self.begin(alloc, key)?;
        self.put(alloc, key, place)?;
        Ok(())
    }

    /// Lists a place among those of a key, if it has a list, and answers whether it has one.
    fn put(&mut self, alloc: Global, key: &Key, place: Place) -> Result<bool, NoMemory>
        ensures there { IfOk result (λ there. there ≡ has_list self.old.lists key.now) }
        ensures listed { IfOk result (λ there. there ≡ true → IsListedUnder self.old.lists (key.now ∷ []) place self.new.lists) }
        ensures none { IfOk result (λ there. there ≡ false → self.new.lists ≡ self.old.lists) }
        ensures left { OnErr result (IsLeft self.old.lists self.new.lists) }
    {
        match self.lists.get_mut(key) {
            Some(places) => {
                put(alloc, places, &mut self.count, place)?;
                Ok(true)
            }
            None => Ok(false),
        }
    }

    /// The first place under one of some keys, in two parts, that ends past an offset and is none that was taken from a user, who is named by the key
    /// `from`; `None` only where there is none.
    ///
    /// It takes logarithmic time for each key. Where it leaves out places it takes that again as often as their number can be halved, and logarithmic time
    /// for each of them under each key, and for no more than about as many behind what it answers.
    pub fn first_among(&self, keys: &[Key], others: &[Key], from: &Key, sent: u64) -> Option<Place>
        ensures first { IsFirstAmong self.now.lists (keys.now ++ others.now) from.now sent result }
    {
        let own = self.places(from);
        let mut passed = sent;
        let mut many = 1;
        'spans: while let Some(end) = end_of_some(own, passed, many) {
            if let Some(place) = self.first_of_both(keys, others, own, passed, Some(end)) {
                return Some(place);
            }
            passed = end;
            many = many.saturating_mul(2);
        }
        self.first_of_both(keys, others, own, passed, None)
    }

    /// The first place under one of some keys, in two parts, that ends past an offset, within a limit where there is one, and is none of others. It takes
    /// the time of `first_under` for the keys of both.
    #[tactic(auto, using(crate::proofs::First::first_both))]
    fn first_of_both(
        &self,
        keys: &[Key],
        others: &[Key],
        own: &[Place],
        passed: u64,
        limit: Option<u64>,
    ) -> Option<Place>
        requires own { InOrder own.now }
        ensures first { IsFirstOther (IsUnder self.now.lists (keys.now ++ others.now)) own.now passed limit result }
    {
        let first = self.first_under(keys, own, passed, limit);
        let other = self.first_under(others, own, passed, limit);
        earlier(first, other)
    }

    /// The first place under one of some keys that ends past an offset, within a limit where there is one, and is none of others. It takes the time of
    /// `first_other` for each key.
    fn first_under(
        &self,
        keys: &[Key],
        own: &[Place],
        passed: u64,
        limit: Option<u64>,
    ) -> Option<Place>
        requires own { InOrder own.now }
        ensures first { IsFirstOther (IsUnder self.now.lists keys.now) own.now passed limit result }
    {
        let mut first = None;
        let mut left = keys;
        'keys: while let Some((key, rest)) = left.split_first() {
            first = earlier(first, self.first_in(key, own, passed, limit));
            left = rest;
        }
        first
    }

    /// The same under one key. It takes one look-up, and the time of `first_other`.
    fn first_in(&self, key: &Key, own: &[Place], passed: u64, limit: Option<u64>) -> Option<Place>
        requires own { InOrder own.now }
        ensures first { IsFirstOther (Contains (under self.now.lists key.now)) own.now passed limit result }
    {
        first_other(self.places(key), own, passed, limit)
    }

    /// The places under a key.
    fn places(&self, key: &Key) -> &[Place]
        ensures places { result.now ≡ under self.now.lists key.now }
        ensures order { InOrder result.now }
    {
        match self.lists.get(key) {
            Some(places) => places.as_slice(),
            None => &[],
        }
    }
}

/// Puts a place among others, in the order of the ends, if it is not the last of them, and counts it. Where memory lacks they are as
/// they were.
fn put(
    alloc: Global,
    places: &mut Seq<Place>,
    count: &mut usize,
    place: Place,
) -> Result<(), NoMemory>
    requires order { InOrder places.old }
    ensures order { InOrder places.new }
    ensures there { OnOk result (Contains places.new place) }
    ensures stays { (x : APlace) → Contains places.old x → Contains places.new x }
    ensures only { (x : APlace) → Contains places.new x → Contains places.old x ⊎ (x ≡ place) }
    ensures more { length places.old ≤ length places.new }
    ensures one { length places.new ≤ length places.old + 1 }
    ensures counted { count.new ≡ min (count.old + (length places.new - length places.old)) (2 ^ 64 - 1) }
    ensures left { OnErr result (places.new ≡ places.old) }
{
    let before = *count;
    if is_last(places.as_slice(), place) {
        return Ok(());
    }
    let at = count_passed(places.as_slice(), place.end);
    match put_at(alloc, places, at, place) {
        Ok(()) => {
            *count = before.saturating_add(1);
            Ok(())
        }
        Err(refused) => Err(refused),
    }
}

/// Puts a place where so many of others stand before it. Where memory lacks they are as they were.
fn put_at(alloc: Global, places: &mut Seq<Place>, at: usize, place: Place) -> Result<(), NoMemory>
    requires bound { at ≤ length places.old }
    ensures put { OnOk result (places.new ≡ insert places.old at place) }
    ensures left { OnErr result (places.new ≡ places.old) }
{
    let mut items = replace(places, Seq::empty(alloc)).into_vec();
    let put = items.insert(at, place);
    *places = Seq::from_vec(items);
    match put {
        Ok(()) => Ok(()),
        Err(_) => Err(AllocError),
    }
}

/// Whether a place is the last of others.
fn is_last(places: &[Place], place: Place) -> bool
    ensures last { IsTrue result → Contains places.now place }
{
    match places.last() {
        Some(last) => last.start == place.start && last.end == place.end,
        None => false,
    }
}
