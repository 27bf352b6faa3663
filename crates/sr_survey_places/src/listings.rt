ghost use Rattle.std.specs.Prelude.{◌≡◌, ◌-◌, ◌^◌, min};
ghost use Rattle.std.specs.HashMap as table;
ghost use Rattle.sr_survey_places.specs.Inner.Search.{InOrder, places_in};
ghost use Rattle.sr_survey_places.specs.Inner.Keys.{key_eq};
ghost use Rattle.sr_survey_places.specs.Inner.Listed.{count_of};
ghost use Rattle.sr_survey_places.specs.declared.key.Key.{Key as AKey};

use crate::key::Key;
use crate::place::Place;
use sr_base::Seq;
use std::collections::HashMap;

/// The places of a log under keys, in their order. Under a key of rows they are listed only once it was begun. A look-up takes constant time. The keys are
/// those of users and of subscriptions, which statements of this database make: no row that is looked up adds one, so that none can make them collide.
#[derive(Drop)]
pub struct Listings {
    pub(crate) lists: HashMap<Key, Seq<Place>>,
    /// How many places they are, as far as a `usize` can say.
    pub(crate) count: usize,
    ghost in_order: { (key : AKey) → InOrder (places_in (table.get key_eq lists key)) },
    ghost counted: { count ≡ min (count_of lists) (2 ^ 64 - 1) },
}
