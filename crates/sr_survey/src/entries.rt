//! An entry is listed under its keys.

ghost use Rattle.std.specs.Prelude.{◌≡◌, ◌++◌, ◌∷◌, [], OnOk, IfOk, IsTrue, map, flat_map, cond};
ghost use Rattle.std.specs.List.{list_any};
ghost use Rattle.sr_survey.specs.Inner.Concerning.{has_run, is_conflict, met_keys, op_keys, ops_keys, back_key, taken_keys, pass_keys, entry_keys};
ghost use Rattle.sr_survey.specs.Inner.Keyed.{change_keys, changes_keys};
ghost use Rattle.sr_scan.specs.Inner.Images.{row_changed};
ghost use Rattle.sr_survey_places.specs.Inner.Listed.{IsListedUnder};
ghost use Rattle.sr_survey_places.specs.declared.key.Key.{Key as AKey};
ghost use Rattle.sr_survey_places.specs.declared.key.Key.TheVariants as keyed;

use crate::chart::Chart;
use crate::rows::{list_changes, list_rows};
use sr_base::{Copied, Name, NoMemory, Row};
use sr_logform::{Change, Entry, Op, Outcome};
use sr_survey_places::{Key, Listings, Place};
use std::alloc::Global;

/// Lists an entry, which stands at `place`, by the catalog before it.
#[tactic(auto, using(sr_survey_places::proofs::Joined::listed_none), unfolding(crate::specs::Inner::Concerning::entry_keys))]
pub(crate) fn list_entry(
    alloc: Global,
    lists: &mut Listings,
    catalog: &Chart,
    entry: &Entry,
    place: Place,
) -> Result<(), NoMemory>
    ensures listed { OnOk result (IsListedUnder lists.old.lists (entry_keys catalog.now entry.now) place lists.new.lists) }
{
    match entry {
        Entry::Own(changes) => list_changes(alloc, lists, catalog, changes.as_slice(), place),
        Entry::From {
            user: from,
            at: _,
            ops,
        } => list_taken(alloc, lists, catalog, from, ops.as_slice(), place),
        Entry::Ddl(_) => Ok(()),
        Entry::Sync { user: to, .. } => {
            list_one(lists, alloc, Key::To(to.copy(alloc)?), place)?;
            Ok(())
        }
        Entry::Pass {
            users,
            only,
            text: _,
            changes,
        } => list_pass(
            alloc,
            lists,
            catalog,
            users.as_slice(),
            *only,
            changes.as_slice(),
            place,
        ),
        Entry::Note { .. } => Ok(()),
    }
}

/// Lists a place under a key.
fn list_one(lists: &mut Listings, alloc: Global, key: Key, place: Place) -> Result<(), NoMemory>
    ensures listed { OnOk result ((k : AKey) → key ≡ k → IsListedUnder lists.old.lists (k ∷ []) place lists.new.lists) }
{
    let listed = lists.add(alloc, &key, place);
    drop(key);
    listed
}

/// Lists a statement that is passed on: under each user that it names, and by the changes that it made here.
#[tactic(auto, using(sr_survey_places::proofs::Joined::listed_both))]
fn list_pass(
    alloc: Global,
    lists: &mut Listings,
    catalog: &Chart,
    users: &[Name],
    only: bool,
    changes: &[Change],
    place: Place,
) -> Result<(), NoMemory>
    ensures listed { OnOk result (IsListedUnder lists.old.lists (map keyed.Text users.now ++ pass_keys catalog.now only changes.now) place lists.new.lists) }
{
    list_users(alloc, lists, users, place)?;
    list_here(alloc, lists, catalog, only, changes, place)?;
    Ok(())
}

/// Lists a place under each user that is named: logarithmic time for each.
fn list_users(
    alloc: Global,
    lists: &mut Listings,
    users: &[Name],
    place: Place,
) -> Result<(), NoMemory>
    ensures listed { OnOk result (IsListedUnder lists.old.lists (map keyed.Text users.now) place lists.new.lists) }
{
    let mut left = users;
    'users: while let Some((user, rest)) = left.split_first() {
        list_one(lists, alloc, Key::Text(user.copy(alloc)?), place)?;
        left = rest;
    }
    Ok(())
}

/// Lists the changes of a statement that is passed on; where it is for others only it made none here.
#[tactic(auto, using(sr_survey_places::proofs::Joined::listed_none))]
fn list_here(
    alloc: Global,
    lists: &mut Listings,
    catalog: &Chart,
    only: bool,
    changes: &[Change],
    place: Place,
) -> Result<(), NoMemory>
    ensures listed { OnOk result (IsListedUnder lists.old.lists (pass_keys catalog.now only changes.now) place lists.new.lists) }
{
    if only {
        return Ok(());
    }
    list_changes(alloc, lists, catalog, changes, place)
}

/// Lists a transaction that was taken: under each user where a statement ran in it; else as to be told back to its origin or not, and by its changes.
#[tactic(auto, using(crate::proofs::Listing::taken_run, crate::proofs::Listing::taken_told))]
fn list_taken(
    alloc: Global,
    lists: &mut Listings,
    catalog: &Chart,
    from: &Name,
    ops: &[(Op, Outcome)],
    place: Place,
) -> Result<(), NoMemory>
    ensures listed { OnOk result (IsListedUnder lists.old.lists (taken_keys catalog.now from.now ops.now) place lists.new.lists) }
{
    if has_run(ops) {
        list_one(lists, alloc, Key::Each, place)?;
        return Ok(());
    }
    list_told(alloc, lists, catalog, from, ops, place)
}

/// Lists a transaction in which no statement ran: under the key by which its origin finds it, and by its changes.
#[tactic(auto, using(sr_survey_places::proofs::Joined::listed_both))]
fn list_told(
    alloc: Global,
    lists: &mut Listings,
    catalog: &Chart,
    from: &Name,
    ops: &[(Op, Outcome)],
    place: Place,
) -> Result<(), NoMemory>
    ensures listed { OnOk result (IsListedUnder lists.old.lists ((back_key from.now ops.now ∷ []) ++ ops_keys catalog.now ops.now) place lists.new.lists) }
{
    list_one(lists, alloc, back_key(alloc, from, ops)?, place)?;
    list_ops(alloc, lists, catalog, ops, place)?;
    Ok(())
}

/// Where the origin of a transaction finds it.
fn back_key(alloc: Global, from: &Name, ops: &[(Op, Outcome)]) -> Result<Key, NoMemory>
    ensures key { IfOk result (λ key. key ≡ back_key from.now ops.now) }
{
    let from = from.copy(alloc)?;
    if has_conflict(ops) {
        Ok(Key::To(from))
    } else {
        Ok(Key::From(from))
    }
}

/// Lists a place by the changes of ops, each by its outcome. It takes one pass over the ops, and the time of `list_changes` for the changes of each.
fn list_ops(
    alloc: Global,
    lists: &mut Listings,
    catalog: &Chart,
    ops: &[(Op, Outcome)],
    place: Place,
) -> Result<(), NoMemory>
    ensures listed { OnOk result (IsListedUnder lists.old.lists (ops_keys catalog.now ops.now) place lists.new.lists) }
{
    let mut left = ops;
    'ops: while let Some((op, rest)) = left.split_first() {
        list_op(alloc, lists, catalog, op, place)?;
        left = rest;
    }
    Ok(())
}

#[tactic(auto, using(sr_survey_places::proofs::Joined::listed_none))]
fn list_op(
    alloc: Global,
    lists: &mut Listings,
    catalog: &Chart,
    op: &(Op, Outcome),
    place: Place,
) -> Result<(), NoMemory>
    ensures listed { OnOk result (IsListedUnder lists.old.lists (op_keys catalog.now op.now) place lists.new.lists) }
{
    match &op.1 {
        Outcome::Plain(changes) => list_changes(alloc, lists, catalog, changes.as_slice(), place),
        Outcome::Conflict {
            inserts,
            before,
            after,
        } => list_met(
            alloc,
            lists,
            catalog,
            &op.0,
            inserts.as_slice(),
            before,
            after,
            place,
        ),
        Outcome::Clash(_) => Ok(()),
    }
}

/// Lists a place by what an op changed that met another value: what the triggers inserted, and its row.
#[tactic(auto, using(sr_survey_places::proofs::Joined::listed_none))]
fn list_met(
    alloc: Global,
    lists: &mut Listings,
    catalog: &Chart,
    op: &Op,
    inserts: &[Change],
    before: &Row,
    after: &Row,
    place: Place,
) -> Result<(), NoMemory>
    ensures listed { OnOk result (IsListedUnder lists.old.lists (met_keys catalog.now op.now inserts.now before.now after.now) place lists.new.lists) }
{
    match op {
        Op::Set { table, .. } => {
            list_set(alloc, lists, catalog, table, inserts, before, after, place)
        }
        _ => Ok(()),
    }
}

#[tactic(auto, using(sr_survey_places::proofs::Joined::listed_both))]
fn list_set(
    alloc: Global,
    lists: &mut Listings,
    catalog: &Chart,
    table: &Name,
    inserts: &[Change],
    before: &Row,
    after: &Row,
    place: Place,
) -> Result<(), NoMemory>
    ensures listed { OnOk result (IsListedUnder lists.old.lists (changes_keys catalog.now inserts.now ++ change_keys catalog.now (row_changed table.now before.now after.now)) place lists.new.lists) }
{
    list_changes(alloc, lists, catalog, inserts, place)?;
    list_rows(alloc, lists, catalog, table, before, after, place)?;
    Ok(())
}

/// Whether a statement ran in one of the ops. It takes one pass over them.
pub(crate) fn has_run(ops: &[(Op, Outcome)]) -> bool
    ensures run { result ≡ list_any has_run ops.now }
{
    let mut left = ops;
    'ops: while let Some((op, rest)) = left.split_first() {
        if is_run(&op.0, &op.1) {
            return true;
        }
        left = rest;
    }
    false
}

fn is_run(op: &Op, outcome: &Outcome) -> bool
    ensures run { result ≡ has_run (op.now, outcome.now) }
{
    match (op, outcome) {
        (Op::Exec { text: _ }, Outcome::Plain(_)) => true,
        _ => false,
    }
}

/// Whether one of the ops met another value. It takes one pass over them.
fn has_conflict(ops: &[(Op, Outcome)]) -> bool
    ensures conflict { result ≡ list_any (λ p. is_conflict p.1) ops.now }
{
    let mut left = ops;
    'ops: while let Some((op, rest)) = left.split_first() {
        if let Outcome::Conflict { .. } = &op.1 {
            return true;
        }
        left = rest;
    }
    false
}
