//! A world that is asked for steps, and what it answers.

use crate::reading::step_of;
use sr_base::{Name, NoMemory};
use sr_world_entries::are_distinct;
use sr_world_steps::{NotAStep, World};
use std::alloc::{AllocError, Global};
use test_rows::{named, say, say_number, word};

/// A world without databases.
pub(crate) fn new_world(alloc: Global) -> Result<World, NoMemory> {
    let names = Vec::new(alloc);
    match fresh(alloc, names.as_slice())? {
        Some(world) => Ok(world),
        None => Err(AllocError),
    }
}

/// Begins with a fresh world of databases of these names, where none stands twice.
pub(crate) fn begin(
    alloc: Global,
    world: &mut World,
    given: &str,
    out: &mut Vec<u8>,
) -> Result<(), NoMemory> {
    let names = names_of(alloc, given)?;
    match fresh(alloc, names.as_slice())? {
        Some(begun) => {
            *world = begun;
            say(out, "yes")
        }
        None => say(out, "no"),
    }
}

/// A fresh world of databases of these names; `None` where one stands twice.
fn fresh(alloc: Global, names: &[Name]) -> Result<Option<World>, NoMemory> {
    if !are_distinct(names) {
        return Ok(None);
    }
    let world = World::fresh(alloc, names)?;
    Ok(Some(world))
}

fn names_of(alloc: Global, given: &str) -> Result<Vec<Name>, NoMemory> {
    let mut names = Vec::new(alloc);
    for letters in given.split(' ') {
        names.push(named(alloc, letters)?)?;
    }
    Ok(names)
}

/// Asks for a step, and says what is answered.
pub(crate) fn say_step(
    alloc: Global,
    world: &mut World,
    kind: &str,
    given: &str,
    out: &mut Vec<u8>,
) -> Result<(), NoMemory> {
    let Some(step) = step_of(alloc, kind, given)? else {
        return say(out, "not read");
    };
    match world.step(alloc, &step) {
        Ok(()) => say_world(world, word(given, 0), out),
        Err(NotAStep::Rule { rule }) => say_number(out, "rule ", u64::from(rule)),
        Err(NotAStep::Memory) => Err(AllocError),
    }
}

/// Where the log of a database ends, and how many messages were put.
fn say_world(world: &World, at: &str, out: &mut Vec<u8>) -> Result<(), NoMemory> {
    say_number(out, "", end_of(world, at))?;
    say_number(out, "/", world.messages().len() as u64)
}

fn end_of(world: &World, at: &str) -> u64 {
    let mut end = 0;
    for (name, log) in world.histories() {
        if name.bytes() == at.as_bytes() {
            if let Some((offset, _)) = log.as_slice().last() {
                end = offset.0;
            }
        }
    }
    end
}
