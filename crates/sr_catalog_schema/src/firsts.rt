//! The first name that applies, in the order of the statement's text.

ghost use Rattle.std.specs.Prelude.{◌≡◌, ◌∷◌, ◌++◌, [], false, Option, IfOk, nat_eq, nat_le, length, map, option_map, bytes_eq};
ghost use Rattle.std.specs.Option.{option_copied};
ghost use Rattle.sr_catalog_schema.specs.Firsts.{first_of, where_true, first_twice, first_absent, has};
ghost use Rattle.sr_catalog_schema.specs.Names.{named, place_of, taken};

use crate::named::HasName;
use indexmap::IndexSet;
use sr_base::{Copied, Name, NoMemory, Seq};
use std::alloc::Global;
use std::marker::Model;

/// Names that were seen, each once. A look-up takes constant time.
#[derive(Drop)]
pub struct Seen {
    names: IndexSet<Vec<u8>>,
}

impl Model for Seen {
    ghost use Rattle.std.specs.Prelude.{ℕ, List, map, vec_items};

    ghost Value = { List (List ℕ) };

    ghost view = { λ s. map vec_items s.names.keys };
}

impl Seen {
    pub fn new(alloc: Global) -> Seen
        ensures { result ≡ [] }
    {
        Seen {
            names: IndexSet::new(alloc),
        }
    }

    /// Whether the name was seen.
    pub fn holds(&self, name: &Name) -> bool
        ensures has { result ≡ has self.now name.now }
    {
        self.names.contains(name.bytes())
    }

    /// Whether the name was seen before; it is now.
    pub fn again(&mut self, alloc: Global, name: &Name) -> Result<bool, NoMemory>
        ensures again { IfOk result (λ again. again ≡ has self.old name.now) }
        ensures seen { IfOk result (λ again. again ≡ false → self.new ≡ self.old ++ name.now ∷ []) }
    {
        let bytes = Vec::from_slice(alloc, name.bytes())?;
        let added = self.names.insert(bytes)?;
        Ok(!added)
    }
}

/// The first of two that is there.
pub fn first<'a>(one: Option<&'a Name>, other: Option<&'a Name>) -> Option<&'a Name>
    ensures { option_copied result ≡ first_of (option_copied one.entry) (option_copied other.entry) }
{
    match one {
        Some(name) => Some(name),
        None => other,
    }
}

/// The name, where it applies.
pub fn where_true(applies: bool, name: &Name) -> Option<&Name>
    ensures { option_copied result ≡ where_true applies name.now }
{
    if applies { Some(name) } else { None }
}

/// A name of one's own.
pub fn owned(alloc: Global, name: Option<&Name>) -> Result<Option<Name>, NoMemory>
    ensures { IfOk result (λ own. own ≡ option_copied name.entry) }
{
    match name {
        Some(name) => Ok(Some(name.copy(alloc)?)),
        None => Ok(None),
    }
}

/// The first name that is named twice.
pub fn first_twice<'a>(alloc: Global, names: &'a [Name]) -> Result<Option<&'a Name>, NoMemory>
    ensures { IfOk result (λ found. option_copied found ≡ first_twice names.now) }
{
    let mut seen = Seen::new(alloc);
    let mut rest = names;
    'names: while let Some((name, after)) = rest.split_first() {
        if seen.again(alloc, name)? {
            return Ok(Some(name));
        }
        rest = after;
    }
    Ok(None)
}

/// The first name that two of the items have.
pub fn first_twice_of<T: HasName>(alloc: Global, items: &[T]) -> Result<Option<&Name>, NoMemory>
    ensures { IfOk result (λ found. option_copied found ≡ first_twice (map T.name_of items.now)) }
{
    let mut seen = Seen::new(alloc);
    let mut rest = items;
    'items: while let Some((item, after)) = rest.split_first() {
        if seen.again(alloc, item.name())? {
            return Ok(Some(item.name()));
        }
        rest = after;
    }
    Ok(None)
}

/// Whether one of the items has the name.
pub fn is_taken<T: HasName>(name: &Name, items: &[T]) -> bool
    ensures { result ≡ taken T.name_of name.now items.now }
{
    items.iter().any(|item| name.bytes() == item.name().bytes())
}

/// The first name that none of the items has.
pub fn first_absent<'a, T: HasName>(items: &Seq<T>, names: &'a [Name]) -> Option<&'a Name>
    ensures { option_copied result ≡ first_absent (λ n. taken T.name_of n items.now) names.now }
{
    let mut rest = names;
    'names: while let Some((name, after)) = rest.split_first() {
        if !is_taken(name, items.as_slice()) {
            return Some(name);
        }
        rest = after;
    }
    None
}

/// The first item of this name.
pub fn item_named<'a, T: HasName>(name: &Name, items: &'a [T]) -> Option<&'a T>
    ensures { option_copied result ≡ named T.name_of name.now items.now }
{
    let mut rest = items;
    'items: while let Some((item, after)) = rest.split_first() {
        if name.bytes() == item.name().bytes() {
            return Some(item);
        }
        rest = after;
    }
    None
}

/// The place of the first item of this name.
pub fn place_named<T: HasName>(name: &Name, items: &[T]) -> Option<usize>
    ensures { result ≡ place_of T.name_of name.now items.now }
{
    items
        .iter()
        .position(|item| name.bytes() == item.name().bytes())
}

/// A limit, where it applies.
pub fn limit_where(applies: bool, limit: u64) -> Option<u64>
    ensures { result ≡ where_true applies limit }
{
    if applies { Some(limit) } else { None }
}

/// Whether there are no names.
pub fn is_empty(names: &[Name]) -> bool
    ensures { result ≡ nat_eq (length names.now) 0 }
{
    names.len() == 0
}

/// Whether a kind has its limit of members.
pub fn is_full(members: usize, limit: usize) -> bool
    ensures { result ≡ nat_le limit members }
{
    limit <= members
}

/// A name with the one before it, where there is one.
pub fn paired(
    alloc: Global,
    before: &Name,
    name: Option<&Name>,
) -> Result<Option<(Name, Name)>, NoMemory>
    ensures { IfOk result (λ pair. pair ≡ option_map (λ n. (before.now, n)) (option_copied name.entry)) }
{
    match name {
        None => Ok(None),
        Some(name) => Ok(Some((before.copy(alloc)?, name.copy(alloc)?))),
    }
}
