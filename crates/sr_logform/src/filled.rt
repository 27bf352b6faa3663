//! Lists that keep a rule, as fields. Each breaks at its count where it does not keep it.

ghost use Rattle.std.specs.Prelude.{◌≡◌};
ghost use Rattle.sr_base.specs.Fields.{list_spelling};
ghost use Rattle.sr_logform.specs.Inner.RuleLaws.{filled_format, columns_format};
ghost use Rattle.sr_logform.specs.Rules.{IsFilledListOf, AreColumns};
ghost use Rattle.sr_logform.specs.Inner.Rules.{filled_at, columns_at};

use crate::names::{Named, are_distinct};
use sr_base::{Broken, Field, NoMemory, Seq};
use std::alloc::Global;
use std::marker::Model;

/// A list that is not empty.
#[derive(Drop)]
pub(crate) struct Filled<T> {
    items: Seq<T>,
}

impl<T> Model for Filled<T> {
    ghost use Rattle.std.specs.Prelude.{List};

    ghost Value = { List T };

    ghost view = { λ f. f.items };
}

impl<T> Filled<T> {
    /// The items in order.
    pub(crate) fn into_seq(self) -> Seq<T>
        ensures { result ≡ self }
    {
        self.items
    }
}

impl<T: Field> Field for Filled<T> {
    ghost can_write = { IsFilledListOf T.can_write };

    ghost fits = { IsFilledListOf T.fits };

    ghost spelling = { list_spelling T.spelling };

    ghost reading = { filled_at T.reading };

    ghost format = { filled_format T.format };

    #[tactic(auto, unfolding(crate::specs::Inner::Rules::filled_at, crate::specs::Inner::Rules::checked_at))]
    fn read(alloc: Global, bytes: &[u8]) -> Result<(Filled<T>, &[u8]), Broken> {
        let (items, rest) = Seq::<T>::read(alloc, bytes)?;
        if items.as_slice().is_empty() {
            return Err(Broken::Left(bytes.len()));
        }
        Ok((Filled { items }, rest))
    }

    fn write(&self, out: &mut Vec<u8>) -> Result<(), NoMemory> {
        self.items.write(out)
    }
}

/// Columns: a list that is not empty, and names none of them twice.
#[derive(Drop)]
pub(crate) struct Columns<T> {
    items: Seq<T>,
}

impl<T> Model for Columns<T> {
    ghost use Rattle.std.specs.Prelude.{List};

    ghost Value = { List T };

    ghost view = { λ c. c.items };
}

impl<T> Columns<T> {
    /// The columns in order.
    pub(crate) fn into_seq(self) -> Seq<T>
        ensures { result ≡ self }
    {
        self.items
    }
}

impl<T: Field + Named> Field for Columns<T> {
    ghost can_write = { AreColumns T.name_of T.can_write };

    ghost fits = { AreColumns T.name_of T.fits };

    ghost spelling = { list_spelling T.spelling };

    ghost reading = { columns_at T.name_of T.reading };

    ghost format = { columns_format T.format T.name_of };

    #[tactic(auto, unfolding(crate::specs::Inner::Rules::columns_at, crate::specs::Inner::Rules::checked_at))]
    fn read(alloc: Global, bytes: &[u8]) -> Result<(Columns<T>, &[u8]), Broken> {
        let (items, rest) = Seq::<T>::read(alloc, bytes)?;
        if items.as_slice().is_empty() {
            return Err(Broken::Left(bytes.len()));
        }
        if !are_distinct(alloc, items.as_slice())? {
            return Err(Broken::Left(bytes.len()));
        }
        Ok((Columns { items }, rest))
    }

    fn write(&self, out: &mut Vec<u8>) -> Result<(), NoMemory> {
        self.items.write(out)
    }
}
