//! A row: what befalls its step once, or for each call that the step makes.

use crate::running::Trouble;
use crate::steps::{push_part, say_befallen, say_steps};
use sr_base::NoMemory;
use std::alloc::Global;
use test_rows::{number, say, word};
use test_sites::TestSites;

/// More calls than a step makes.
const CALLS: u64 = 4000;

/// The crashes that are tried where a row does not say how many: what the last syncs left, what stood, and two between.
const PICKS: u64 = 4;

/// A row from the step on that it is about.
#[derive(Clone, Copy)]
struct Row<'a> {
    kind: &'a str,
    /// That step.
    step: &'a str,
    /// The steps behind it.
    behind: &'a str,
}

/// Says what a row asks for.
pub fn say_row(alloc: Global, question: &str, out: &mut Vec<u8>) -> Result<(), NoMemory> {
    let mut test_sites = TestSites::new(alloc);
    let said = say_on(alloc, &mut test_sites, question, out);
    drop(test_sites);
    said
}

/// Makes the steps before the one that the row is about, and says what the row asks for from there.
fn say_on(
    alloc: Global,
    test_sites: &mut TestSites,
    question: &str,
    out: &mut Vec<u8>,
) -> Result<(), NoMemory> {
    let (kind, steps) = parted(question, "; ");
    let (before, rest) = parted(steps, "; *");
    let (step, behind) = parted(rest, "; ");
    say_steps(alloc, test_sites, before, out)?;
    say_kind(alloc, test_sites, Row { kind, step, behind }, out)
}

/// What stands before the first place of some letters, and what stands behind it.
fn parted<'a>(text: &'a str, at: &str) -> (&'a str, &'a str) {
    text.split_once(at).unwrap_or((text, ""))
}

fn say_kind(
    alloc: Global,
    test_sites: &TestSites,
    row: Row,
    out: &mut Vec<u8>,
) -> Result<(), NoMemory> {
    if is_of_calls(row.kind) {
        return say_each(alloc, test_sites, row, out);
    }
    match trouble_of(row.kind) {
        Some(trouble) => say_with(alloc, test_sites, row, trouble, out),
        None => say(out, "no kind"),
    }
}

/// Whether a kind of row is about each call.
fn is_of_calls(kind: &str) -> bool {
    let kind = word(kind, 0);
    kind == "fail" || kind == "stop"
}

/// What befalls the step of any other kind.
fn trouble_of(kind: &str) -> Option<Trouble<'_>> {
    match word(kind, 0) {
        "once" => Some(Trouble::Nothing),
        "lost" | "other" => Some(Trouble::Changes(kind)),
        "source" => Some(Trouble::Source),
        "sink" => Some(Trouble::Sink),
        _ => None,
    }
}

fn say_with(
    alloc: Global,
    test_sites: &TestSites,
    row: Row,
    trouble: Trouble,
    out: &mut Vec<u8>,
) -> Result<(), NoMemory> {
    say_from(alloc, test_sites, row, trouble, out)?;
    Ok(())
}

/// Makes the row's step and those behind it on offices like these. Answers whether no call of its site failed.
fn say_from(
    alloc: Global,
    test_sites: &TestSites,
    row: Row,
    trouble: Trouble,
    out: &mut Vec<u8>,
) -> Result<bool, NoMemory> {
    let mut like = TestSites::new(alloc);
    let is_whole = say_like(alloc, test_sites, &mut like, row, trouble, out);
    drop(like);
    is_whole
}

fn say_like(
    alloc: Global,
    test_sites: &TestSites,
    like: &mut TestSites,
    row: Row,
    trouble: Trouble,
    out: &mut Vec<u8>,
) -> Result<bool, NoMemory> {
    like.set_like(alloc, test_sites)?;
    let is_whole = say_befallen(alloc, like, row.step, trouble, out)?;
    if !row.behind.is_empty() {
        say_steps(alloc, like, row.behind, out)?;
    }
    Ok(is_whole)
}

/// Says what the steps say for each call, the same only once behind each other.
fn say_each(
    alloc: Global,
    test_sites: &TestSites,
    row: Row,
    out: &mut Vec<u8>,
) -> Result<(), NoMemory> {
    let mut last = Vec::new(alloc);
    let mut now = Vec::new(alloc);
    let said = say_calls(alloc, test_sites, row, &mut last, &mut now, out);
    drop(now);
    drop(last);
    said
}

fn say_calls(
    alloc: Global,
    test_sites: &TestSites,
    row: Row,
    last: &mut Vec<u8>,
    now: &mut Vec<u8>,
    out: &mut Vec<u8>,
) -> Result<(), NoMemory> {
    for calls in 0..CALLS {
        now.clear();
        let is_whole = say_call(alloc, test_sites, row, calls, now)?;
        if now.as_slice() != last.as_slice() {
            push_part(out, " > ", now.as_slice())?;
            last.clear();
            last.extend_from_slice(now.as_slice())?;
        }
        if is_whole {
            return Ok(());
        }
    }
    say(out, " NO END")
}

/// Says what the steps say where the call behind so many fails, or is not made. Answers whether there is no such call.
fn say_call(
    alloc: Global,
    test_sites: &TestSites,
    row: Row,
    calls: u64,
    out: &mut Vec<u8>,
) -> Result<bool, NoMemory> {
    if word(row.kind, 0) == "fail" {
        let call = calls.saturating_add(1);
        say_from(alloc, test_sites, row, Trouble::Fails(call), out)
    } else {
        say_crashes(alloc, test_sites, row, calls, out)
    }
}

/// Says what the steps say for each crash behind so many calls, the same only once. Answers whether all calls were made.
fn say_crashes(
    alloc: Global,
    test_sites: &TestSites,
    row: Row,
    calls: u64,
    out: &mut Vec<u8>,
) -> Result<bool, NoMemory> {
    let mut said = Vec::new(alloc);
    let is_whole = say_picks(alloc, test_sites, row, calls, &mut said, out);
    drop(said);
    is_whole
}

fn say_picks(
    alloc: Global,
    test_sites: &TestSites,
    row: Row,
    calls: u64,
    said: &mut Vec<Vec<u8>>,
    out: &mut Vec<u8>,
) -> Result<bool, NoMemory> {
    let mut is_whole = true;
    for pick in 0..picks_of(row.kind) {
        let mut found = Vec::new(alloc);
        let trouble = Trouble::Stops(calls, pick);
        let is_over = say_from(alloc, test_sites, row, trouble, &mut found);
        let kept = say_other(said, found, out);
        is_whole = is_over? && is_whole;
        kept?;
    }
    Ok(is_whole)
}

/// Says what was found where it was not said before.
fn say_other(said: &mut Vec<Vec<u8>>, found: Vec<u8>, out: &mut Vec<u8>) -> Result<(), NoMemory> {
    if has(said.as_slice(), found.as_slice()) {
        drop(found);
        return Ok(());
    }
    let pushed = push_part(out, " OR ", found.as_slice());
    said.push(found)?;
    pushed
}

/// How many crashes are tried: what stands behind `stop`.
fn picks_of(kind: &str) -> u64 {
    match number(kind, 1) {
        0 => PICKS,
        picks => picks,
    }
}

/// Whether this was said.
fn has(said: &[Vec<u8>], found: &[u8]) -> bool {
    for part in said {
        if part.as_slice() == found {
            return true;
        }
    }
    false
}
