//! Offices of users, by their names.

ghost use Rattle.std.specs.Prelude.{◌≡◌, ◌++◌, ◌∷◌, [], List, ℕ, Some, cond, max, IfOk, OnOk};
ghost use Rattle.std.specs.BTreeMap as tree;
ghost use Rattle.std.specs.BTreeMap.{is_at};
ghost use Rattle.sr_base.specs.Order.{name_cmp};
ghost use Rattle.sr_survey.specs.Inner.Following.{keys_in, since_in};
ghost use Rattle.sr_survey.specs.Inner.Offices.{has_key, with_one, with_key, with_since};

use crate::effects::later;
use crate::office::Office;
use sr_base::{Copied, Name, NoMemory, Seq};
use sr_survey_places::Key;
use std::alloc::{AllocError, Global};
use std::collections::BTreeMap;

/// Gives a user a key, if he has not got it. It takes a pass over his keys.
pub(crate) fn add_key(
    alloc: Global,
    offices: &mut BTreeMap<Name, Office>,
    user: &Name,
    key: &Key,
) -> Result<(), NoMemory>
    ensures put { OnOk result ((q : List ℕ) → tree.get name_cmp offices.new q ≡ cond (is_at (name_cmp user.now) q) (Some (with_key (tree.get name_cmp offices.old user.now) key.now)) (tree.get name_cmp offices.old q)) }
{
    let name = user.copy(alloc)?;
    let office = with_key(alloc, offices.remove(user), key)?;
    match offices.insert(name, office) {
        Ok(_) => Ok(()),
        Err(_) => Err(AllocError),
    }
}

/// Moves a user's start up to an offset, if it is not past it.
pub(crate) fn move_since(
    alloc: Global,
    offices: &mut BTreeMap<Name, Office>,
    user: &Name,
    at: u64,
) -> Result<(), NoMemory>
    ensures put { OnOk result ((q : List ℕ) → tree.get name_cmp offices.new q ≡ cond (is_at (name_cmp user.now) q) (Some (with_since (tree.get name_cmp offices.old user.now) at)) (tree.get name_cmp offices.old q)) }
{
    let name = user.copy(alloc)?;
    let office = with_since(alloc, offices.remove(user), at);
    match offices.insert(name, office) {
        Ok(_) => Ok(()),
        Err(_) => Err(AllocError),
    }
}

/// An office with a key more.
fn with_key(alloc: Global, held: Option<Office>, key: &Key) -> Result<Office, NoMemory>
    ensures office { IfOk result (λ office. office ≡ with_key held key.now) }
{
    let (keys, since) = parts_of(alloc, held);
    let keys = with_one(alloc, keys, key)?;
    Ok(Office { keys, since })
}

/// An office with a later start.
fn with_since(alloc: Global, held: Option<Office>, at: u64) -> Office
    ensures office { result ≡ with_since held at }
{
    let (keys, since) = parts_of(alloc, held);
    let since = later(since, at);
    Office { keys, since }
}

/// The keys and the start of an office; no keys and the front of the log of a user who has none.
fn parts_of(alloc: Global, held: Option<Office>) -> (Seq<Key>, u64)
    ensures keys { result.0 ≡ keys_in held }
    ensures since { result.1 ≡ since_in held }
{
    match held {
        None => (Seq::empty(alloc), 0),
        Some(office) => {
            let Office { keys, since } = office;
            (keys, since)
        }
    }
}

/// Keys with one, which is not put twice.
fn with_one(alloc: Global, keys: Seq<Key>, key: &Key) -> Result<Seq<Key>, NoMemory>
    ensures keys { IfOk result (λ with. with ≡ with_one keys key.now) }
{
    if has_key(keys.as_slice(), key) {
        return Ok(keys);
    }
    put_behind(keys, key.copy(alloc)?)
}

fn put_behind(keys: Seq<Key>, key: Key) -> Result<Seq<Key>, NoMemory>
    ensures keys { IfOk result (λ with. with ≡ keys ++ key ∷ []) }
{
    let mut keys = keys;
    match keys.push(key) {
        Ok(()) => Ok(keys),
        Err(_) => Err(AllocError),
    }
}

/// Whether a key is among others. It takes one pass over them.
fn has_key(keys: &[Key], key: &Key) -> bool
    ensures has { result ≡ has_key keys.now key.now }
{
    let mut left = keys;
    'keys: while let Some((other, rest)) = left.split_first() {
        if key.cmp(other).is_eq() {
            return true;
        }
        left = rest;
    }
    false
}
