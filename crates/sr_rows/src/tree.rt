ghost use Rattle.std.specs.Prelude.{◌≡◌, Option, Some, None, IsSome, IsTrue, IfOk, IfErr, OnOk, OnErr, MatchOption, MatchResult};
ghost use Rattle.std.specs.Option.{option_copied, option_map};
ghost use Rattle.std.specs.FinMap as map;
ghost use Rattle.std.specs.Map.Iter.{deref_pair};
ghost use Rattle.sr_rows.specs.Inner.Gathered.{row_of, first_filled};
ghost use Rattle.sr_rows.specs.Inner.Marks.{IsNext, IsLast};

use sr_base::{Key, NoMemory, Row};
use std::alloc::Global;
use std::collections::BTreeMap;
use std::collections::btree_map::{Iter, Range};
use std::marker::Model;
use std::mem;
use std::ops::Bound;

/// The places of one table, by key, in a tree. Each call takes logarithmic time.
#[derive(Drop)]
pub(crate) struct Tree {
    places: BTreeMap<Key, Option<Row>>,
}

impl Model for Tree {
    ghost use Rattle.std.specs.Prelude.{Option, List};
    ghost use Rattle.std.specs.Coded.{coded_list, coded_option};
    ghost use Rattle.std.specs.FinMap as map;
    ghost use Rattle.sr_base.specs.declared.value.Value.{Value as Cell};
    ghost use Rattle.sr_base.specs.Order.{key_cmp};
    ghost use Rattle.sr_base.specs.Inner.Codes.{coded_value};

    ghost Value = { map.FinMap key_cmp (Option (List Cell)) };

    ghost coded = { map.code (coded_list coded_value) (coded_option (coded_list coded_value)) };

    ghost view = { λ t. map.from_entries t.places.entries };
}

impl Tree {
    pub(crate) fn new(alloc: Global) -> Tree
        ensures empty { result ≡ map.empty }
    {
        Tree {
            places: BTreeMap::new(alloc),
        }
    }

    /// What stands at a place, if the place is there.
    pub(crate) fn get(&self, key: &Key) -> Option<&Option<Row>>
        ensures place { option_copied result ≡ map.get self.now key.now }
    {
        if self.is_past(key) {
            return None;
        }
        self.places.get(key)
    }

    /// Whether a key comes after those of all places, where there are any. A key past all others is looked up at once.
    fn is_past(&self, key: &Key) -> bool
        ensures none { IsTrue result → map.get self.now key.now ≡ None }
    {
        match self.places.last_key_value() {
            Some((last, _)) => last.cmp(key).is_lt(),
            None => false,
        }
    }

    /// Puts a row or nothing at a place, which is made where it is not there.
    pub(crate) fn insert(
        &mut self,
        key: Key,
        place: Option<Row>,
    ) -> Result<Option<Option<Row>>, NoMemory>
        ensures before { IfOk result (λ before. before ≡ map.get self.old key) }
        ensures ok { OnOk result (self.new ≡ map.insert self.old key place) }
        ensures err { OnErr result (self.new ≡ self.old) }
    {
        Ok(self.places.insert(key, place)?)
    }

    /// Puts a row or nothing at a place that is there. It takes no memory.
    pub(crate) fn set(&mut self, key: &Key, place: Option<Row>) -> Option<Row>
        requires there { IsSome (map.get self.old key.now) }
        ensures before { map.get self.old key.now ≡ Some result }
        ensures set { self.new ≡ map.insert self.old key.now place }
    {
        match self.places.get_mut(key) {
            Some(held) => mem::replace(held, place),
            None => {
                drop(place);
                None
            }
        }
    }

    /// Puts a row at a place, if it is there, and answers what stood there; else it gives the row back. It takes no memory.
    pub(crate) fn replace(&mut self, key: &Key, row: Row) -> Result<Option<Row>, Row>
        ensures before { MatchResult result (λ before. map.get self.old key.now ≡ Some before) (λ _. map.get self.old key.now ≡ None) }
        ensures set { OnOk result (self.new ≡ map.insert self.old key.now (Some row)) }
        ensures returned { IfErr result (λ back. back ≡ row) }
        ensures err { OnErr result (self.new ≡ self.old) }
    {
        let Some(held) = self.places.get_mut(key) else {
            return Err(row);
        };
        Ok(mem::replace(held, Some(row)))
    }

    /// Removes a place.
    pub(crate) fn remove(&mut self, key: &Key)
        ensures removed { self.new ≡ map.remove self.old key.now }
    {
        self.places.remove(key);
    }

    /// All places, in the order of their keys.
    pub(crate) fn iter(&self) -> Iter<'_, Key, Option<Row>>
        ensures all { result ≡ map.entries self.now }
    {
        self.places.iter()
    }

    /// The row with the least key past another one, or past none.
    pub(crate) fn next(&self, after: Option<&Key>) -> Option<(&Key, &Row)>
        ensures next { MatchOption result (IsLast (λ k. row_of (map.get self.now k)) (option_copied after.entry))
            (λ x. IsNext (λ k. row_of (map.get self.now k)) (option_copied after.entry) x.0.now x.1.now) }
    {
        match after {
            Some(key) => {
                first_filled(self.places.range((Bound::Excluded(key), Bound::Unbounded)))
            }
            None => first_filled(self.places.range(..)),
        }
    }
}

/// The first entry that holds a row.
fn first_filled<'a>(places: Range<'a, Key, Option<Row>>) -> Option<(&'a Key, &'a Row)>
    ensures first { option_map deref_pair result ≡ first_filled places.entry }
{
    for (key, place) in places {
        if let Some(row) = place {
            return Some((key, row));
        }
    }
    None
}
