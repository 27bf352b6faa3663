ghost use Rattle.std.specs.Prelude.{◌≡◌, ◌∷◌, ◌++◌, [], List, ℕ, Option, cond, bytes_eq, slice_get, IfOk, OnErr, OnOk};
ghost use Rattle.std.specs.Option.{option_copied};
ghost use Rattle.sr_catalog_schema.specs.Firsts.{first_absent};
ghost use Rattle.sr_catalog_schema.specs.Names.{named, place_of, taken, without, HasFirsts};
ghost use Rattle.sr_catalog_schema.specs.Inner.Singles.{IsSingle};

use indexmap::IndexSet;
use sr_ast::{ColumnRule, Image};
use sr_base::{Copied, Kind, Name, NoMemory};
use std::alloc::{AllocError, Global};
use std::marker::Model;

/// What has a name that no other of its kind has.
pub trait HasName: Copied {
    ghost name_of: { Self → List ℕ };

    /// The name.
    fn name(&self) -> &Name
        ensures name { result.now ≡ name_of self.now };
}

impl HasName for Name {
    ghost name_of = { λ n. n };

    fn name(&self) -> &Name {
        self
    }
}

impl HasName for ColumnRule {
    ghost name_of = { λ c. c.name };

    fn name(&self) -> &Name {
        &self.name
    }
}

impl HasName for (Name, Kind) {
    ghost name_of = { λ v. v.0 };

    fn name(&self) -> &Name {
        &self.0
    }
}

impl HasName for (Image, Name) {
    ghost name_of = { λ a. a.1 };

    fn name(&self) -> &Name {
        &self.1
    }
}

/// Things of one kind under their names, in order of creation. A look-up by name takes constant time.
#[derive(Drop)]
pub struct Named<T: HasName> {
    items: Vec<T>,
    names: IndexSet<Vec<u8>>,
}

impl<T: HasName> Model for Named<T> {
    ghost use Rattle.std.specs.Prelude.{◌≡◌, List, map, vec_items};

    ghost Value = { List T };

    ghost view = { λ n. n.items.items };

    ghost invariant = { λ n. map vec_items n.names.keys ≡ map T.name_of n.items.items };
}

impl<T: HasName> Named<T> {
    /// No things. It takes no memory.
    pub fn new(alloc: Global) -> Named<T>
        ensures empty { result ≡ [] }
    {
        Named {
            items: Vec::new(alloc),
            names: IndexSet::new(alloc),
        }
    }

    /// Of the things of each name the first. It takes as many steps as there are things.
    pub fn firsts_of(alloc: Global, items: &[T]) -> Result<Named<T>, NoMemory>
        ensures firsts { IfOk result (λ found. HasFirsts T.name_of found items.now) }
    {
        let mut found = Named::new(alloc);
        let mut rest = items;
        'items: while let Some((item, after)) = rest.split_first() {
            found.push_first(alloc, item)?;
            rest = after;
        }
        Ok(found)
    }

    /// Adds a copy of a thing, the last, where its name is not taken.
    fn push_first(&mut self, alloc: Global, item: &T) -> Result<(), NoMemory>
        ensures ok { OnOk result (self.new ≡ cond (taken T.name_of (T.name_of item.now) self.old) self.old (self.old ++ item.now ∷ [])) }
    {
        if self.holds(item.name()) {
            return Ok(());
        }
        self.push(alloc, item.copy(alloc)?)
    }

    /// The things in order of creation.
    pub fn as_slice(&self) -> &[T]
        ensures items { result.now ≡ self.now }
    {
        self.items.as_slice()
    }

    /// The things in order of creation, no two of one name.
    pub fn distinct(&self) -> &[T]
        ensures items { result.now ≡ self.now }
        ensures single { (name : List ℕ) → IsSingle (λ t. bytes_eq name (T.name_of t)) self.now }
    {
        let _count = self.names.len();
        self.items.as_slice()
    }

    /// The place of the thing of this name.
    pub fn place(&self, name: &Name) -> Option<usize>
        ensures place { result ≡ place_of T.name_of name.now self.now }
    {
        self.names.get_index_of(name.bytes())
    }

    /// The thing of this name.
    pub fn get(&self, name: &Name) -> Option<&T>
        ensures thing { option_copied result ≡ named T.name_of name.now self.now }
    {
        let place = self.place(name)?;
        item_at(self.items.as_slice(), place)
    }

    /// Whether the name is taken.
    pub fn holds(&self, name: &Name) -> bool
        ensures taken { result ≡ taken T.name_of name.now self.now }
    {
        self.names.contains(name.bytes())
    }

    /// The first name that nothing here has.
    pub fn first_absent<'a>(&self, names: &'a [Name]) -> Option<&'a Name>
        ensures absent { option_copied result ≡ first_absent (λ n. taken T.name_of n self.now) names.now }
    {
        let mut rest = names;
        'names: while let Some((name, after)) = rest.split_first() {
            if !self.holds(name) {
                return Some(name);
            }
            rest = after;
        }
        None
    }

    /// Adds a thing, the last. A name that is taken is refused too: callers look first. Where memory lacks nothing changes.
    pub fn push(&mut self, alloc: Global, item: T) -> Result<(), NoMemory>
        ensures ok { OnOk result (self.new ≡ self.old ++ item ∷ []) }
        ensures err { OnErr result (self.new ≡ self.old) }
    {
        let bytes = Vec::from_slice(alloc, item.name().bytes())?;
        self.items.reserve(1)?;
        if !self.names.insert(bytes)? {
            return Err(AllocError);
        }
        match self.items.push(item) {
            Ok(()) => Ok(()),
            Err(_) => Err(AllocError),
        }
    }

    /// Takes the thing of this name away. Where memory lacks nothing changes.
    pub fn remove(&mut self, alloc: Global, name: &Name) -> Result<(), NoMemory>
        ensures ok { OnOk result (self.new ≡ without T.name_of name.now self.old) }
        ensures err { OnErr result (self.new ≡ self.old) }
    {
        let others = self.copy_without(alloc, name)?;
        *self = others;
        Ok(())
    }

    /// A copy without the thing of this name.
    fn copy_without(&self, alloc: Global, name: &Name) -> Result<Named<T>, NoMemory>
        ensures others { IfOk result (λ n. n ≡ without T.name_of name.now self.now) }
    {
        let mut copies = Named::new(alloc);
        let mut rest = self.items.as_slice();
        'items: while let Some((item, after)) = rest.split_first() {
            if name.bytes() != item.name().bytes() {
                copies.push(alloc, item.copy(alloc)?)?;
            }
            rest = after;
        }
        Ok(copies)
    }
}

impl<T: HasName> Copied for Named<T> {
    fn copy(&self, alloc: Global) -> Result<Named<T>, NoMemory> {
        let mut copies = Named::new(alloc);
        let mut rest = self.items.as_slice();
        'items: while let Some((item, after)) = rest.split_first() {
            copies.push(alloc, item.copy(alloc)?)?;
            rest = after;
        }
        Ok(copies)
    }
}

/// The item at a place.
pub fn item_at<T: Drop>(items: &[T], place: usize) -> Option<&T>
    ensures { option_copied result ≡ slice_get items.now place }
{
    items.get(place)
}
