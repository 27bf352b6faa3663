ghost use Rattle.std.specs.Prelude.{◌≡◌, Option, Some, None, IsSome, IfOk, IfErr, IfSome, OnOk, OnErr, MatchOption, MatchResult};
ghost use Rattle.std.specs.Option.{option_copied};
ghost use Rattle.std.specs.FinMap as map;
ghost use Rattle.sr_rows.specs.Inner.Filling.{Fills};
ghost use Rattle.sr_rows.specs.Inner.Forms.{places_of};
ghost use Rattle.sr_rows.specs.Inner.Gathered.{row_of};
ghost use Rattle.sr_rows.specs.Inner.Lefts.{places_left};
ghost use Rattle.sr_rows.specs.Inner.Marks.{IsNext, IsLast};

use crate::rising::{Refused, Rising};
use crate::tree::Tree;
use crate::walk::Left;
use sr_base::{Key, NoMemory, Row};
use std::alloc::{AllocError, Global};
use std::marker::Model;
use std::mem;

/// The places of one table, by key. A place holds a row or is empty. They stand in a list as long as new keys come past all others,
/// and in a tree from the first one on that comes between others: making the tree takes the time of all places, once.
#[derive(Drop)]
pub(crate) struct Table {
    places: Places,
}

#[derive(Drop)]
pub(crate) enum Places {
    Listed(Rising),
    Grown(Tree),
}

impl Model for Table {
    ghost use Rattle.std.specs.Prelude.{Option, List};
    ghost use Rattle.std.specs.Coded.{coded_list, coded_option};
    ghost use Rattle.std.specs.FinMap as map;
    ghost use Rattle.sr_base.specs.declared.value.Value.{Value as Cell};
    ghost use Rattle.sr_base.specs.Order.{key_cmp};
    ghost use Rattle.sr_base.specs.Inner.Codes.{coded_value};

    ghost Value = { map.FinMap key_cmp (Option (List Cell)) };

    ghost coded = { map.code (coded_list coded_value) (coded_option (coded_list coded_value)) };

    ghost use Rattle.sr_rows.specs.Inner.Forms.{places_of};

    ghost view = { λ t. places_of t.places };
}

impl Table {
    pub(crate) fn new(alloc: Global) -> Table
        ensures empty { result ≡ map.empty }
    {
        Table {
            places: Places::Listed(Rising::new(alloc)),
        }
    }

    /// What stands at a place, if the place is there.
    pub(crate) fn get(&self, key: &Key) -> Option<&Option<Row>>
        ensures place { option_copied result ≡ map.get self.now key.now }
    {
        match &self.places {
            Places::Listed(places) => places.get(key),
            Places::Grown(places) => places.get(key),
        }
    }

    /// Puts a row or nothing at a place, which is made where it is not there. It takes constant time past all others in a list.
    pub(crate) fn insert(
        &mut self,
        alloc: Global,
        key: Key,
        place: Option<Row>,
    ) -> Result<Option<Option<Row>>, NoMemory>
        ensures before { IfOk result (λ before. before ≡ map.get self.old key) }
        ensures ok { OnOk result (self.new ≡ map.insert self.old key place) }
        ensures err { OnErr result (self.new ≡ self.old) }
    {
        let refused = match &mut self.places {
            Places::Grown(places) => return places.insert(key, place),
            Places::Listed(places) => match places.insert(key, place) {
                Ok(before) => return Ok(before),
                Err(refused) => refused,
            },
        };
        match refused {
            Refused::NoMemory => Err(AllocError),
            Refused::Between(key, place) => self.insert_between(alloc, key, place),
        }
    }

    /// The same, in a tree.
    fn insert_between(
        &mut self,
        alloc: Global,
        key: Key,
        place: Option<Row>,
    ) -> Result<Option<Option<Row>>, NoMemory>
        ensures before { IfOk result (λ before. before ≡ map.get self.old key) }
        ensures ok { OnOk result (self.new ≡ map.insert self.old key place) }
        ensures err { OnErr result (self.new ≡ self.old) }
    {
        match &mut self.places {
            Places::Grown(places) => places.insert(key, place),
            Places::Listed(places) => {
                let mut tree = places.tree(alloc)?;
                let before = tree.insert(key, place)?;
                drop(mem::replace(&mut self.places, Places::Grown(tree)));
                Ok(before)
            }
        }
    }

    /// Puts a row at a place where none stands, and answers whether none did; else nothing changes.
    pub(crate) fn fill(&mut self, alloc: Global, key: Key, row: Row) -> Result<bool, NoMemory>
        ensures told { IfOk result (λ free. Fills self.old key row self.new free) }
        ensures err { OnErr result (self.new ≡ self.old) }
    {
        if let Some(Some(_)) = self.get(&key) {
            return Ok(false);
        }
        self.insert(alloc, key, Some(row))?;
        Ok(true)
    }

    /// Puts a row or nothing at a place that is there. It takes no memory.
    pub(crate) fn set(&mut self, key: &Key, place: Option<Row>) -> Option<Row>
        requires there { IsSome (map.get self.old key.now) }
        ensures before { map.get self.old key.now ≡ Some result }
        ensures set { self.new ≡ map.insert self.old key.now place }
    {
        match &mut self.places {
            Places::Listed(places) => places.set(key, place),
            Places::Grown(places) => places.set(key, place),
        }
    }

    /// Puts a row at a place, if it is there, and answers what stood there; else it gives the row back. It takes no memory.
    #[inline(always)]
    pub(crate) fn replace(&mut self, key: &Key, row: Row) -> Result<Option<Row>, Row>
        ensures before { MatchResult result (λ before. map.get self.old key.now ≡ Some before) (λ _. map.get self.old key.now ≡ None) }
        ensures set { OnOk result (self.new ≡ map.insert self.old key.now (Some row)) }
        ensures returned { IfErr result (λ back. back ≡ row) }
        ensures err { OnErr result (self.new ≡ self.old) }
    {
        match &mut self.places {
            Places::Listed(places) => places.replace(key, row),
            Places::Grown(places) => places.replace(key, row),
        }
    }

    /// Removes a place. In a list this takes a step for each place behind it.
    pub(crate) fn remove(&mut self, key: &Key)
        ensures removed { self.new ≡ map.remove self.old key.now }
    {
        match &mut self.places {
            Places::Listed(places) => places.remove(key),
            Places::Grown(places) => places.remove(key),
        }
    }

    /// Makes ready for the removal of a place. A list of which it is not the last place becomes a tree, where there is memory for it.
    pub(crate) fn ease_removal(&mut self, alloc: Global, key: &Key)
        ensures same { self.new ≡ self.old }
    {
        if !self.ends_with(key) {
            self.grow(alloc);
        }
    }

    /// Whether a list's last place is that of a key. Only the time of a removal depends on it.
    fn ends_with(&self, key: &Key) -> bool {
        match &self.places {
            Places::Listed(places) => places.ends_with(key),
            Places::Grown(_) => false,
        }
    }

    /// Makes a tree of a list, where there is memory for it.
    pub(crate) fn grow(&mut self, alloc: Global)
        ensures same { self.new ≡ self.old }
    {
        if let Some(tree) = tree_of(&self.places, alloc) {
            drop(mem::replace(&mut self.places, Places::Grown(tree)));
        }
    }

    /// All places, in the order of their keys.
    pub(crate) fn all(&self) -> Left<'_>
        ensures all { places_left result ≡ map.entries self.now }
    {
        match &self.places {
            Places::Listed(places) => Left::Listed(places.as_slice()),
            Places::Grown(places) => Left::Grown(places.iter()),
        }
    }

    /// The row with the least key past another one, or past none.
    pub(crate) fn next(&self, after: Option<&Key>) -> Option<(&Key, &Row)>
        ensures next { MatchOption result (IsLast (λ k. row_of (map.get self.now k)) (option_copied after.entry))
            (λ x. IsNext (λ k. row_of (map.get self.now k)) (option_copied after.entry) x.0.now x.1.now) }
    {
        match &self.places {
            Places::Listed(places) => places.next(after),
            Places::Grown(places) => places.next(after),
        }
    }
}

/// The tree of a list, where there is memory for it.
fn tree_of(places: &Places, alloc: Global) -> Option<Tree>
    ensures same { IfSome result (λ tree. tree ≡ places_of places.now) }
{
    match places {
        Places::Listed(places) => places.tree(alloc).ok(),
        Places::Grown(_) => None,
    }
}
