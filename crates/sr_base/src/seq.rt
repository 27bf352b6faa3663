ghost use Rattle.std.specs.Prelude.{◌≡◌, List, [], ◌∷◌, ◌++◌, IfErr, OnOk, OnErr};

use crate::copied::{Copied, NoMemory};
use std::alloc::{AllocFailed, Global};
use std::marker::Model;

/// A list in a field of a public type: contracts see its items in order.
#[derive(Drop)]
pub struct Seq<T> {
    items: Vec<T>,
}

impl<T> Model for Seq<T> {
    ghost Value = { List T };

    ghost view = { λ s. s.items.items };
}

impl<T> Seq<T> {
    /// The items of `items`, in their order.
    pub fn from_vec(items: Vec<T>) -> Seq<T>
        ensures items { result ≡ items.items }
    {
        Seq { items }
    }

    /// The list without an item. It takes no memory.
    pub fn empty(alloc: Global) -> Seq<T>
        ensures empty { result ≡ [] }
    {
        Seq {
            items: Vec::new(alloc),
        }
    }

    /// The items in order, with the memory that they stand in.
    pub fn into_vec(self) -> Vec<T>
        ensures items { result.items ≡ self }
    {
        self.items
    }

    /// The items in order.
    pub fn as_slice(&self) -> &[T]
        ensures items { result.now ≡ self.now }
    {
        self.items.as_slice()
    }

    /// Adds an item at the end. For want of memory it gives the item back, and the list stays as it was.
    pub fn push(&mut self, item: T) -> Result<(), T>
        ensures ok { OnOk result (self.new ≡ self.old ++ item ∷ []) }
        ensures returned { IfErr result (λ back. back ≡ item) }
        ensures err { OnErr result (self.new ≡ self.old) }
    {
        match self.items.push(item) {
            Ok(()) => Ok(()),
            Err(refused) => {
                let AllocFailed { value, .. } = refused;
                Err(value)
            }
        }
    }
}

impl<T: Copied> Copied for Seq<T> {
    fn copy(&self, alloc: Global) -> Result<Seq<T>, NoMemory> {
        let mut items = Vec::with_capacity(alloc, self.items.len())?;
        for item in self.items.as_slice() {
            items.push(item.copy(alloc)?)?;
        }
        Ok(Seq { items })
    }
}
