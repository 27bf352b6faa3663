ghost use Rattle.std.specs.Prelude.{◌≡◌, ◌<◌, ◌++◌, ◌∷◌, [], List, Option, Some, None, IsSome, IfOk, IfErr, OnOk, OnErr, MatchOption, MatchResult, slice_set};
ghost use Rattle.std.specs.List.{HoldsAt, filter};
ghost use Rattle.std.specs.Ordering.{is_lt};
ghost use Rattle.std.specs.Option.{option_copied};
ghost use Rattle.std.specs.Vec.{vec_len};
ghost use Rattle.std.specs.FinMap as map;
ghost use Rattle.sr_base.specs.declared.value.Value.{Value as Cell};
ghost use Rattle.sr_base.specs.Order.{key_cmp};
ghost use Rattle.std.specs.Map.Iter.{TakesFirst, deref_pair};
ghost use Rattle.sr_rows.specs.Inner.Gathered.{row_of, filled_rows};
ghost use Rattle.sr_rows.specs.Inner.Marks.{IsNext, IsLast};
ghost use Rattle.sr_rows.specs.Inner.Searches.{InOrder, EndsAt, IsGivenBack};

use crate::tree::Tree;
use sr_base::{Copied, Key, NoMemory, Row, Value};
use std::alloc::{AllocError, Global};
use std::marker::Model;
use std::mem;

/// A key, and what stands at its place: a row or nothing.
pub(crate) type Place = (Key, Option<Row>);

/// The places of one table whose keys came in rising order, in a list. A key past all others is found and put in constant time, and so is
/// a number found among numbers without gaps; any other key is found in logarithmic time.
#[derive(Drop)]
pub(crate) struct Rising {
    places: Vec<Place>,
    next_place: usize,
}

/// Why no place was made: there is no memory for it, or its key comes between others. Then key and place are given back.
#[derive(Drop)]
pub(crate) enum Refused {
    NoMemory,
    Between(Key, Option<Row>),
}

impl Model for Rising {
    ghost use Rattle.std.specs.Prelude.{Option, List};
    ghost use Rattle.std.specs.Coded.{coded_list, coded_option};
    ghost use Rattle.std.specs.FinMap as map;
    ghost use Rattle.sr_base.specs.declared.value.Value.{Value as Cell};
    ghost use Rattle.sr_base.specs.Order.{key_cmp};
    ghost use Rattle.sr_base.specs.Inner.Codes.{coded_value};

    ghost Value = { map.FinMap key_cmp (Option (List Cell)) };

    ghost coded = { map.code (coded_list coded_value) (coded_option (coded_list coded_value)) };

    ghost use Rattle.sr_rows.specs.Inner.Searches.{InOrder};

    ghost view = { λ t. map.from_entries t.places.items };

    ghost invariant = { λ t. InOrder t.places.items };
}

impl Rising {
    pub(crate) fn new(alloc: Global) -> Rising
        ensures empty { result ≡ map.empty }
    {
        Rising {
            places: Vec::new(alloc),
            next_place: 0,
        }
    }

    /// What stands at a place, if the place is there.
    pub(crate) fn get(&self, key: &Key) -> Option<&Option<Row>>
        ensures place { option_copied result ≡ map.get self.now key.now }
    {
        let places = self.places.as_slice();
        match search(places, key) {
            Ok(at) => Some(&places[at].1),
            Err(_) => None,
        }
    }

    /// Puts a row or nothing at a place that is there, or at a new one past all others.
    pub(crate) fn insert(
        &mut self,
        key: Key,
        place: Option<Row>,
    ) -> Result<Option<Option<Row>>, Refused>
        ensures before { IfOk result (λ before. before ≡ map.get self.old key) }
        ensures ok { OnOk result (self.new ≡ map.insert self.old key place) }
        ensures between { IfErr result (IsGivenBack key place) }
        ensures err { OnErr result (self.new ≡ self.old) }
    {
        match search(self.places.as_slice(), &key) {
            Ok(at) => {
                drop(key);
                Ok(Some(put_at(&mut self.places, at, place)))
            }
            Err(at) if at == self.places.len() => match push(&mut self.places, key, place) {
                Ok(()) => Ok(None),
                Err(AllocError) => Err(Refused::NoMemory),
            },
            Err(_) => Err(Refused::Between(key, place)),
        }
    }

    /// Puts a row or nothing at a place that is there. It takes no memory.
    pub(crate) fn set(&mut self, key: &Key, place: Option<Row>) -> Option<Row>
        requires there { IsSome (map.get self.old key.now) }
        ensures before { map.get self.old key.now ≡ Some result }
        ensures set { self.new ≡ map.insert self.old key.now place }
    {
        match search(self.places.as_slice(), key) {
            Ok(at) => put_at(&mut self.places, at, place),
            Err(_) => {
                drop(place);
                None
            }
        }
    }

    /// Puts a row at a place, if it is there, and answers what stood there; else it gives the row back. It takes no memory. The place
    /// behind the one of the last call is tried first, so that places in the order of their keys are found in constant time.
    #[inline(always)]
    pub(crate) fn replace(&mut self, key: &Key, row: Row) -> Result<Option<Row>, Row>
        ensures before { MatchResult result (λ before. map.get self.old key.now ≡ Some before) (λ _. map.get self.old key.now ≡ None) }
        ensures set { OnOk result (self.new ≡ map.insert self.old key.now (Some row)) }
        ensures returned { IfErr result (λ back. back ≡ row) }
        ensures err { OnErr result (self.new ≡ self.old) }
    {
        match search_from(self.places.as_slice(), self.next_place, key) {
            Ok(at) => {
                self.next_place = at + 1;
                Ok(put_at(&mut self.places, at, Some(row)))
            }
            Err(_) => Err(row),
        }
    }

    /// Removes a place. It takes constant time for the last place, and a step for each place behind another one.
    pub(crate) fn remove(&mut self, key: &Key)
        ensures removed { self.new ≡ map.remove self.old key.now }
    {
        if let Ok(at) = search(self.places.as_slice(), key) {
            drop(self.places.remove(at));
        }
    }

    /// All places, in the order of their keys.
    pub(crate) fn as_slice(&self) -> &[Place]
        ensures all { result.now ≡ map.entries self.now }
    {
        self.places.as_slice()
    }

    /// The row with the least key past another one, or past none.
    pub(crate) fn next(&self, after: Option<&Key>) -> Option<(&Key, &Row)>
        ensures next { MatchOption result (IsLast (λ k. row_of (map.get self.now k)) (option_copied after.entry))
            (λ x. IsNext (λ k. row_of (map.get self.now k)) (option_copied after.entry) x.0.now x.1.now) }
    {
        let places = self.places.as_slice();
        match after {
            Some(key) => next_filled(behind(places, key)).0,
            None => next_filled(places).0,
        }
    }

    /// Whether the last place is that of a key. Only the time of a removal depends on it.
    pub(crate) fn ends_with(&self, key: &Key) -> bool {
        match self.places.as_slice().last() {
            Some((last, _)) => last.cmp(key).is_eq(),
            None => false,
        }
    }

    /// A tree of copies of all places. They are put in from the last to the first, each of which passes one key a node.
    pub(crate) fn tree(&self, alloc: Global) -> Result<Tree, NoMemory>
        ensures same { IfOk result (λ tree. tree ≡ self.now) }
    {
        let mut tree = Tree::new(alloc);
        let mut rest = self.places.as_slice();
        'places: while let Some((last, before)) = rest.split_last() {
            insert_copy(&mut tree, alloc, last)?;
            rest = before;
        }
        Ok(tree)
    }
}

/// Puts a copy of a place into a tree.
fn insert_copy(tree: &mut Tree, alloc: Global, place: &Place) -> Result<(), NoMemory>
    ensures ok { OnOk result (tree.new ≡ map.insert tree.old place.now.0 place.now.1) }
{
    let key = place.0.copy(alloc)?;
    let copy = place.1.copy(alloc)?;
    drop(tree.insert(key, copy)?);
    Ok(())
}

/// Where a key stands among places in order, or where it would. First it is compared with the last one, then with the one at its
/// distance from the first: so a key among numbers without gaps is found in constant time.
fn search(places: &[Place], key: &Key) -> Result<usize, usize>
    requires order { InOrder places.now }
    ensures ends { EndsAt places.now key.now result }
{
    match places.last() {
        Some((last, _)) if !last.cmp(key).is_lt() => {
            search_near(places, distance(places, key), key)
        }
        _ => Err(places.len()),
    }
}

/// How far a number is from the first one, and 0 for other keys. Only the time of a search depends on it.
fn distance(places: &[Place], key: &Key) -> usize {
    let Some((first, _)) = places.first() else {
        return 0;
    };
    match (first.values(), key.values()) {
        ([Value::Int(first)], [Value::Int(number)]) => number.abs_diff(*first) as usize,
        ([Value::Big(first)], [Value::Big(number)]) => number.abs_diff(*first) as usize,
        _ => 0,
    }
}

/// Where a key stands, or where it would: a guess is tried first, and then half of the places is left out at each step.
fn search_near(places: &[Place], guess: usize, key: &Key) -> Result<usize, usize>
    requires order { InOrder places.now }
    ensures ends { EndsAt places.now key.now result }
{
    match places.get(guess) {
        Some((held, _)) if held.cmp(key).is_eq() => Ok(guess),
        _ => places.binary_search_by(|place| place.0.cmp(key)),
    }
}

/// The same as `search`, where a guess is tried first.
#[inline(always)]
fn search_from(places: &[Place], guess: usize, key: &Key) -> Result<usize, usize>
    requires order { InOrder places.now }
    ensures ends { EndsAt places.now key.now result }
{
    match places.get(guess) {
        Some((held, _)) if held.cmp(key).is_eq() => Ok(guess),
        _ => search(places, key),
    }
}

/// The places whose keys come after a key.
fn behind<'a>(places: &'a [Place], key: &Key) -> &'a [Place]
    requires order { InOrder places.now }
    ensures behind { result.now ≡ filter (λ e. is_lt (key_cmp key.now e.0)) places.now }
{
    let from = match search(places, key) {
        Ok(at) => at + 1,
        Err(at) => at,
    };
    places.split_at(from).1
}

/// Puts a place behind all others.
fn push(places: &mut Vec<Place>, key: Key, place: Option<Row>) -> Result<(), NoMemory>
    ensures ok { OnOk result (places.new.items ≡ places.old.items ++ (key, place) ∷ []) }
    ensures err { OnErr result (places.new.items ≡ places.old.items) }
{
    Ok(places.push((key, place))?)
}

/// Puts a row or nothing at a place that is there, and answers what stood there.
fn put_at(places: &mut Vec<Place>, at: usize, place: Option<Row>) -> Option<Row>
    requires there { at < vec_len places.old }
    ensures before { HoldsAt (λ e. e.1 ≡ result) places.old.items at }
    ensures set { (key : List Cell) → HoldsAt (λ e. e.0 ≡ key) places.old.items at → places.new.items ≡ slice_set places.old.items at (key, place) }
{
    match places.get_mut(at) {
        Some(held) => put(held, place),
        None => None,
    }
}

/// Puts a row or nothing in the place of what stood there.
fn put(held: &mut Place, place: Option<Row>) -> Option<Row>
    ensures before { result ≡ held.old.1 }
    ensures after { held.new ≡ (held.old.0, place) }
{
    mem::replace(&mut held.1, place)
}

/// The first of the places that holds a row, and the places behind it.
#[inline(always)]
pub(crate) fn next_filled<'a>(places: &'a [Place]) -> (Option<(&'a Key, &'a Row)>, &'a [Place])
    ensures next { TakesFirst deref_pair (filled_rows places.now) result.0 (filled_rows result.1.now) }
{
    let mut rest = places;
    'places: while let Some((place, later)) = rest.split_first() {
        rest = later;
        if let Some(row) = &place.1 {
            return (Some((&place.0, row)), rest);
        }
    }
    (None, rest)
}
