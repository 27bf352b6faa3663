//! What an entry of a log is listed under.

ghost use Rattle.std.specs.Prelude.{◌≡◌, refl, IfOk};
ghost use Rattle.std.specs.Ordering.{eq_by_cmp, as_partial_cmp, ordering_then};
ghost use Rattle.std.specs.Cmp.{partial_equiv_from_equiv, eq_by_cmp_equiv, po};
ghost use Rattle.std.proofs.Common.{rules};
ghost use Rattle.std.specs.Cmp.Rules.{comparing};
ghost use Rattle.sr_base.specs.Order.{name_cmp, value_cmp};

use sr_base::{Copied, Name, NoMemory, Value};
use std::alloc::Global;
use std::cmp::Ordering;
use std::hash::{Hash, Hasher};

/// What an entry of a log is listed under. Contracts see names by their bytes.
#[derive(Drop)]
pub enum Key {
    /// Rows that a publication gives to each of its subscriptions: those of its articles that have no SUBSCRIBE BY.
    Whole(Name),
    /// Rows to which SUBSCRIBE BY of an article of the publication gives this value, an INTEGER as the BIGINT of its number.
    Part(Name, Value),
    /// What is for a user alone.
    To(Name),
    /// A statement that is passed on to a user.
    Text(Name),
    /// What was taken from a user and gives him nothing.
    From(Name),
    /// What may concern everybody.
    Each,
}

impl Copied for Key {
    fn copy(&self, alloc: Global) -> Result<Key, NoMemory> {
        match self {
            Key::Whole(publication) => Ok(Key::Whole(publication.copy(alloc)?)),
            Key::Part(publication, value) => {
                Ok(Key::Part(publication.copy(alloc)?, value.copy(alloc)?))
            }
            Key::To(user) => Ok(Key::To(user.copy(alloc)?)),
            Key::Text(user) => Ok(Key::Text(user.copy(alloc)?)),
            Key::From(user) => Ok(Key::From(user.copy(alloc)?)),
            Key::Each => Ok(Key::Each),
        }
    }
}

impl Key {
    ghost use Rattle.std.specs.Prelude.{◌≡◌};
    ghost use Rattle.sr_survey_places.specs.Inner.Keys.{is_shared};

    /// Whether rows are listed under it, of which the subscriptions of several users may have some.
    pub fn is_shared(&self) -> bool
        ensures shared { result ≡ is_shared self.now }
    {
        match self {
            Key::Whole(_) | Key::Part(_, _) => true,
            Key::To(_) | Key::Text(_) | Key::From(_) | Key::Each => false,
        }
    }

    ghost use Rattle.sr_survey_places.specs.Inner.Keys.{rank_of};

    /// The place of its kind in the order of keys.
    fn rank(&self) -> u8
        ensures rank { result ≡ rank_of self.now }
    {
        match self {
            Key::Whole(_) => 0,
            Key::Part(_, _) => 1,
            Key::To(_) => 2,
            Key::Text(_) => 3,
            Key::From(_) => 4,
            Key::Each => 5,
        }
    }

    ghost use Rattle.sr_survey_places.specs.Inner.Keys.{name_of};

    /// The name of its publication or user; no bytes where it has none.
    fn name(&self) -> &[u8]
        ensures name { result.now ≡ name_of self.now }
    {
        match self {
            Key::Whole(name) => name.bytes(),
            Key::Part(name, _) => name.bytes(),
            Key::To(name) => name.bytes(),
            Key::Text(name) => name.bytes(),
            Key::From(name) => name.bytes(),
            Key::Each => &[],
        }
    }
}

ghost use Rattle.sr_survey_places.specs.Inner.Keys.{name_of, value_of, key_cmp};

/// The order of two keys of one kind, by their values and then by their names.
fn order_of_kind(key: &Key, other: &Key) -> Ordering
    ensures order { result ≡ ordering_then (value_cmp (value_of key.now) (value_of other.now)) (name_cmp (name_of key.now) (name_of other.now)) }
{
    match value_order(key, other) {
        Ordering::Equal => key.name().cmp(other.name()),
        order => order,
    }
}

/// The order of two keys by their values; NULL stands for one that has none.
fn value_order(key: &Key, other: &Key) -> Ordering
    ensures order { result ≡ value_cmp (value_of key.now) (value_of other.now) }
{
    match (key, other) {
        (Key::Part(_, value), Key::Part(_, other)) => value.cmp(other),
        (Key::Part(_, value), _) => value.cmp(&Value::Null),
        (_, Key::Part(_, value)) => Value::Null.cmp(value),
        _ => Ordering::Equal,
    }
}

/// The order of any two keys. It stays a call beside the comparisons of those that a survey looks up most.
#[inline(never)]
fn any_order(key: &Key, other: &Key) -> Ordering
    ensures order { result ≡ key_cmp key.now other.now }
{
    match key.rank().cmp(&other.rank()) {
        Ordering::Equal => order_of_kind(key, other),
        order => order,
    }
}

/// The order of two names, where the numbers before them have this order.
fn named_behind(numbers: Ordering, name: &Name, other: &Name) -> Ordering
    ensures order { result ≡ ordering_then numbers (name_cmp name.now other.now) }
{
    match numbers {
        Ordering::Equal => name.bytes().cmp(other.bytes()),
        order => order,
    }
}

impl PartialEq for Key {
    ghost use Rattle.sr_survey_places.specs.Inner.Keys.{key_cmp};
    ghost use Rattle.sr_survey_places.specs.Inner.KeyOrder.{key_cmp_total};

    ghost eq = { eq_by_cmp key_cmp };

    ghost laws = { partial_equiv_from_equiv (eq_by_cmp_equiv key_cmp_total) };

    fn eq(&self, other: &Key) -> bool {
        self.cmp(other).is_eq()
    }
}

impl Eq for Key {
    ghost use Rattle.sr_survey_places.specs.Inner.KeyOrder.{key_cmp_total};

    ghost laws = { eq_by_cmp_equiv key_cmp_total };
}

impl PartialOrd for Key {
    ghost use Rattle.sr_survey_places.specs.Inner.Keys.{key_cmp};
    ghost use Rattle.sr_survey_places.specs.Inner.KeyOrder.{key_cmp_total};

    ghost partial_cmp = { as_partial_cmp key_cmp };

    ghost laws = { po key_cmp_total (λ x y. refl) };

    fn partial_cmp(&self, other: &Key) -> Option<Ordering> {
        Some(self.cmp(other))
    }
}

impl Ord for Key {
    ghost use Rattle.sr_survey_places.specs.Inner.Keys.{key_cmp};
    ghost use Rattle.sr_survey_places.specs.Inner.KeyOrder.{key_cmp_total};

    ghost cmp = { key_cmp };

    ghost total = { key_cmp_total };

    ghost matches_partial_cmp = { Prim.search (comparing, rules) };

    ghost matches_eq = { Prim.search (comparing, rules) };

    fn cmp(&self, other: &Key) -> Ordering {
        match (self, other) {
            (Key::Part(name, Value::Big(number)), Key::Part(of, Value::Big(than))) => {
                named_behind(number.cmp(than), name, of)
            }
            (Key::From(user), Key::From(other)) => user.bytes().cmp(other.bytes()),
            _ => any_order(self, other),
        }
    }
}

impl Hash for Key {
    ghost use Rattle.sr_survey_places.specs.Inner.Exact.{hash_alike};
    ghost use Rattle.sr_survey_places.specs.Inner.Hashes.{key_input};

    ghost hash_input = { key_input };

    ghost respects_eq = { hash_alike };

    fn hash<H: Hasher>(&self, state: &mut H) {
        match self {
            Key::Whole(publication) => hash_kind(publication, 0, state),
            Key::Part(publication, value) => {
                state.write(publication.bytes());
                hash_value(value, state);
            }
            Key::To(user) => hash_kind(user, 2, state),
            Key::Text(user) => hash_kind(user, 3, state),
            Key::From(user) => hash_kind(user, 4, state),
            Key::Each => state.write_u8(5),
        }
    }
}

ghost use Rattle.std.specs.Prelude.{◌∷◌, fold};
ghost use Rattle.std.specs.Hash as fed;
ghost use Rattle.sr_survey_places.specs.Inner.Hashes.{value_input};

/// Hashes a name and a kind.
fn hash_kind<H: Hasher>(name: &Name, kind: u8, state: &mut H)
    ensures hashed { state.new ≡ fold H.write state.old (name.now ∷ fed.u8 kind) }
{
    state.write(name.bytes());
    state.write_u8(kind);
}

/// Hashes a value.
fn hash_value<H: Hasher>(value: &Value, state: &mut H)
    ensures hashed { state.new ≡ fold H.write state.old (value_input value.now) }
{
    match value {
        Value::Null => (),
        Value::Int(number) => state.write_i32(*number),
        Value::Big(number) => state.write_i64(*number),
        Value::Str(text) => state.write(text.bytes()),
        Value::Date(day) => state.write_i32(day.days()),
    }
}
