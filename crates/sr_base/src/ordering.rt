ghost use Rattle.std.specs.Prelude.{◌≡◌, ◌↔◌, refl, List, length, IsTrue};
ghost use Rattle.std.proofs.Common.{rules};
ghost use Rattle.std.specs.Cmp.{IsTotalOrder, po, eq_by_cmp_equiv, partial_equiv_from_equiv};
ghost use Rattle.std.specs.Cmp.Rules.{comparing};
ghost use Rattle.std.specs.Ordering.{eq_by_cmp, as_partial_cmp};
ghost use Rattle.sr_base.specs.Order.{class_rank, number_of, bytes_of, width_of, compared, worth_cmp, value_cmp, key_cmp, name_cmp};
ghost use Rattle.sr_base.specs.Inner.Order.{value_cmp_total, key_cmp_total, name_cmp_total};

use crate::key::{Held, Key};
use crate::name::Name;
use crate::row::Row;
use crate::value::Value;
use std::cmp::Ordering;

/// How two values of one class compare: numbers as numbers, texts by bytes, dates by day. `None` where one is NULL or
/// where they are of two classes.
pub fn compare(a: &Value, b: &Value) -> Option<Ordering>
    ensures compared { result ≡ compared a.now b.now }
{
    if class(a) > 0 && class(a) == class(b) {
        Some(worth_order(a, b))
    } else {
        None
    }
}

/// The order of keys, value by value: NULL, numbers, texts, dates; of two equal numbers the INTEGER first; a key that is
/// a prefix of the other one first. It is total, and `Equal` for equal keys alone.
pub fn order(a: &Key, b: &Key) -> Ordering
    ensures ordered { result ≡ key_cmp a.now b.now }
    ensures equal { (result ≡ Ordering.Equal) ↔ (a.now ≡ b.now) }
    ensures total { IsTotalOrder key_cmp }
{
    a.cmp(b)
}

fn class(value: &Value) -> u8
    ensures class { result ≡ class_rank value.now }
{
    match value {
        Value::Null => 0,
        Value::Int(_) => 1,
        Value::Big(_) => 1,
        Value::Str(_) => 2,
        Value::Date(_) => 3,
    }
}

fn number(value: &Value) -> i64
    ensures number { result ≡ number_of value.now }
{
    match value {
        Value::Int(number) => *number as i64,
        Value::Big(number) => *number,
        Value::Date(day) => day.days() as i64,
        Value::Null => 0,
        Value::Str(_) => 0,
    }
}

fn text(value: &Value) -> &[u8]
    ensures text { result.now ≡ bytes_of value.now }
{
    match value {
        Value::Str(text) => text.bytes(),
        Value::Null => &[],
        Value::Int(_) => &[],
        Value::Big(_) => &[],
        Value::Date(_) => &[],
    }
}

fn width(value: &Value) -> u8
    ensures width { result ≡ width_of value.now }
{
    match value {
        Value::Big(_) => 1,
        Value::Null => 0,
        Value::Int(_) => 0,
        Value::Str(_) => 0,
        Value::Date(_) => 0,
    }
}

/// The order of any two values, by class, then by worth, then the INTEGER first. It stays a call beside the comparison of two INTEGERs.
#[inline(never)]
fn any_order(a: &Value, b: &Value) -> Ordering
    ensures order { result ≡ value_cmp a.now b.now }
{
    let widths = width(a).cmp(&width(b));
    class(a).cmp(&class(b)).then(worth_order(a, b).then(widths))
}

fn worth_order(a: &Value, b: &Value) -> Ordering
    ensures worth { result ≡ worth_cmp a.now b.now }
{
    number(a).cmp(&number(b)).then(text(a).cmp(text(b)))
}

/// The order of any two keys. It stays a call, so that a search among keys of one INTEGER, as most tables have, compares them in registers.
#[inline(never)]
fn any_key_order(a: &Key, b: &Key) -> Ordering
    ensures order { result ≡ key_cmp a.now b.now }
{
    match (&a.held, &b.held) {
        (Held::One(value), Held::One(other)) => value.cmp(other).then(Ordering::Equal),
        _ => a.values().cmp(b.values()),
    }
}

impl PartialEq for Value {
    ghost eq = { eq_by_cmp value_cmp };

    ghost laws = { partial_equiv_from_equiv (eq_by_cmp_equiv value_cmp_total) };

    fn eq(&self, other: &Value) -> bool {
        self.cmp(other).is_eq()
    }
}

impl Eq for Value {
    ghost laws = { eq_by_cmp_equiv value_cmp_total };
}

impl PartialOrd for Value {
    ghost partial_cmp = { as_partial_cmp value_cmp };

    ghost laws = { po value_cmp_total (λ x y. refl) };

    fn partial_cmp(&self, other: &Value) -> Option<Ordering> {
        Some(self.cmp(other))
    }
}

impl Ord for Value {
    ghost cmp = { value_cmp };

    ghost total = { value_cmp_total };

    ghost matches_partial_cmp = { Prim.search (comparing, rules) };

    ghost matches_eq = { Prim.search (comparing, rules) };

    fn cmp(&self, other: &Value) -> Ordering {
        match (self, other) {
            (Value::Int(a), Value::Int(b)) => a.cmp(b),
            (Value::Str(a), Value::Str(b)) => a.bytes().cmp(b.bytes()),
            _ => any_order(self, other),
        }
    }
}

impl PartialEq for Key {
    ghost eq = { eq_by_cmp key_cmp };

    ghost laws = { partial_equiv_from_equiv (eq_by_cmp_equiv key_cmp_total) };

    fn eq(&self, other: &Key) -> bool
        ensures compared { result ≡ eq_by_cmp key_cmp self.now other.now }
        ensures same { IsTrue result ↔ (self.now ≡ other.now) }
    {
        self.cmp(other).is_eq()
    }
}

impl Eq for Key {
    ghost laws = { eq_by_cmp_equiv key_cmp_total };
}

impl PartialOrd for Key {
    ghost partial_cmp = { as_partial_cmp key_cmp };

    ghost laws = { po key_cmp_total (λ x y. refl) };

    fn partial_cmp(&self, other: &Key) -> Option<Ordering> {
        Some(self.cmp(other))
    }
}

impl Ord for Key {
    ghost cmp = { key_cmp };

    ghost total = { key_cmp_total };

    ghost matches_partial_cmp = { Prim.search (comparing, rules) };

    ghost matches_eq = { Prim.search (comparing, rules) };

    fn cmp(&self, other: &Key) -> Ordering {
        match (&self.held, &other.held) {
            (Held::One(Value::Int(number)), Held::One(Value::Int(other))) => number.cmp(other),
            _ => any_key_order(self, other),
        }
    }
}

impl PartialEq for Row {
    ghost eq = { eq_by_cmp key_cmp };

    ghost laws = { partial_equiv_from_equiv (eq_by_cmp_equiv key_cmp_total) };

    fn eq(&self, other: &Row) -> bool
        ensures compared { result ≡ eq_by_cmp key_cmp self.now other.now }
        ensures same { IsTrue result ↔ (self.now ≡ other.now) }
    {
        self.values().cmp(other.values()).is_eq()
    }
}

impl PartialEq for Name {
    ghost eq = { eq_by_cmp name_cmp };

    ghost laws = { partial_equiv_from_equiv (eq_by_cmp_equiv name_cmp_total) };

    fn eq(&self, other: &Name) -> bool {
        self.cmp(other).is_eq()
    }
}

impl Eq for Name {
    ghost laws = { eq_by_cmp_equiv name_cmp_total };
}

impl PartialOrd for Name {
    ghost partial_cmp = { as_partial_cmp name_cmp };

    ghost laws = { po name_cmp_total (λ x y. refl) };

    fn partial_cmp(&self, other: &Name) -> Option<Ordering> {
        Some(self.cmp(other))
    }
}

impl Ord for Name {
    ghost cmp = { name_cmp };

    ghost total = { name_cmp_total };

    ghost matches_partial_cmp = { Prim.search (comparing, rules) };

    ghost matches_eq = { Prim.search (comparing, rules) };

    fn cmp(&self, other: &Name) -> Ordering {
        self.bytes().cmp(other.bytes())
    }
}
