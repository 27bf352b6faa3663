ghost use Rattle.std.specs.Prelude.{◌≡◌};
ghost use Rattle.std.specs.Map.Iter.{TakesFirst, deref_pair};
ghost use Rattle.sr_rows.specs.Inner.Gathered.{filled_rows};
ghost use Rattle.sr_rows.specs.Inner.Lefts.{places_left};

use crate::rising::{Place, next_filled};
use sr_base::{Key, Row};
use std::collections::btree_map::Iter;
use std::marker::Model;

/// A walk along the rows of a table, in the order of their keys. Contracts see the rows that it has left.
///
/// A step takes constant time on average, and one more for each place on the way that was emptied since the mark.
#[derive(Drop)]
pub struct Walk<'a> {
    places: Left<'a>,
}

/// The places of a table that are left to go along, in the order of their keys.
#[derive(Drop)]
pub(crate) enum Left<'a> {
    Nothing,
    Listed(&'a [Place]),
    Grown(Iter<'a, Key, Option<Row>>),
}

impl<'a> Model for Walk<'a> {
    ghost use Rattle.std.specs.Prelude.{List};
    ghost use Rattle.sr_rows.specs.Walks.{Entry};

    ghost Value = { List Entry };

    ghost use Rattle.sr_rows.specs.Inner.Gathered.{filled_rows};
    ghost use Rattle.sr_rows.specs.Inner.Lefts.{places_left};

    ghost view = { λ w. filled_rows (places_left w.places) };
}

impl<'a> Walk<'a> {
    /// A walk along the rows of these places.
    pub(crate) fn new(places: Left<'a>) -> Walk<'a>
        ensures left { result ≡ filled_rows (places_left places.entry) }
    {
        Walk { places }
    }

    /// The next row, with its key, if one is left.
    #[inline(always)]
    pub fn next(&mut self) -> Option<(&'a Key, &'a Row)>
        ensures next { TakesFirst deref_pair self.old result self.new }
    {
        match &mut self.places {
            Left::Nothing => None,
            Left::Listed(places) => {
                let (row, later) = next_filled(places);
                *places = later;
                row
            }
            Left::Grown(places) => next_grown(places),
        }
    }
}

/// The next entry that holds a row.
fn next_grown<'a>(places: &mut Iter<'a, Key, Option<Row>>) -> Option<(&'a Key, &'a Row)>
    ensures next { TakesFirst deref_pair (filled_rows places.old) result (filled_rows places.new) }
{
    'places: while let Some((key, place)) = places.next() {
        if let Some(row) = place {
            return Some((key, row));
        }
    }
    None
}
