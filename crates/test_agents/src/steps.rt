//! Steps on offices, one after the other.

use crate::running::{Ended, Trouble, run_at};
use sr_base::NoMemory;
use std::alloc::Global;
use test_rows::{say, say_number, word};
use test_sites::{
    CUSTOMERS_ABOVE, CUSTOMERS_BELOW, PAPERS_ABOVE, PAPERS_BELOW, TestSites, papers, say_mail,
    stand,
};

/// Makes steps that nothing befalls, and says what they are to say.
pub fn say_steps(
    alloc: Global,
    test_sites: &mut TestSites,
    steps: &str,
    out: &mut Vec<u8>,
) -> Result<(), NoMemory> {
    let mut part = Vec::new(alloc);
    let said = say_parts(alloc, test_sites, steps, &mut part, out);
    drop(part);
    said
}

fn say_parts(
    alloc: Global,
    test_sites: &mut TestSites,
    steps: &str,
    part: &mut Vec<u8>,
    out: &mut Vec<u8>,
) -> Result<(), NoMemory> {
    for step in steps.split("; ") {
        part.clear();
        say_step(alloc, test_sites, step, part)?;
        push_part(out, "; ", part.as_slice())?;
    }
    Ok(())
}

/// Appends what was said behind what was said before, where it is something.
pub fn push_part(out: &mut Vec<u8>, between: &str, part: &[u8]) -> Result<(), NoMemory> {
    if part.is_empty() {
        return Ok(());
    }
    if !out.is_empty() {
        say(out, between)?;
    }
    out.extend_from_slice(part)
}

/// Makes the step that a row is about. Answers whether no call of its site failed.
pub fn say_befallen(
    alloc: Global,
    test_sites: &mut TestSites,
    step: &str,
    trouble: Trouble,
    out: &mut Vec<u8>,
) -> Result<bool, NoMemory> {
    let mut lines = Vec::new(alloc);
    let is_whole = say_troubled(alloc, test_sites, step, trouble, &mut lines, out);
    drop(lines);
    is_whole
}

fn say_troubled(
    alloc: Global,
    test_sites: &mut TestSites,
    step: &str,
    trouble: Trouble,
    lines: &mut Vec<u8>,
    out: &mut Vec<u8>,
) -> Result<bool, NoMemory> {
    let (is_asked, step) = asked(step);
    let ended = run_step(alloc, test_sites, step, trouble, lines)?;
    if !ended.is_right() {
        say(out, "WRONG ")?;
    }
    if is_asked || !ended.is_right() {
        say_ended(out, ended, lines.as_slice())?;
    }
    Ok(ended.is_whole())
}

/// Whether what a step says is asked for, and the step.
fn asked(step: &str) -> (bool, &str) {
    match step.strip_prefix("?") {
        Some(step) => (true, step),
        None => (false, step),
    }
}

fn say_step(
    alloc: Global,
    test_sites: &mut TestSites,
    step: &str,
    out: &mut Vec<u8>,
) -> Result<(), NoMemory> {
    match word(step, 0) {
        "begin" => say_begun(alloc, test_sites, CUSTOMERS_ABOVE, CUSTOMERS_BELOW, out),
        "papers" => say_begun(alloc, test_sites, PAPERS_ABOVE, PAPERS_BELOW, out),
        "stand" => stand(alloc, test_sites),
        _ => say_other(alloc, test_sites, step, out),
    }
}

fn say_other(
    alloc: Global,
    test_sites: &mut TestSites,
    step: &str,
    out: &mut Vec<u8>,
) -> Result<(), NoMemory> {
    if is_of_mail(step) {
        say_mail(alloc, test_sites, step, out)
    } else {
        say_run(alloc, test_sites, step, out)
    }
}

/// Whether a step is about files on their way.
fn is_of_mail(step: &str) -> bool {
    matches!(
        word(step, 0),
        "lay" | "lose" | "hold" | "repeat" | "release" | "puts" | "file"
    )
}

/// Makes both databases.
fn say_begun(
    alloc: Global,
    test_sites: &mut TestSites,
    above: &str,
    below: &str,
    out: &mut Vec<u8>,
) -> Result<(), NoMemory> {
    say_made(alloc, test_sites, "init cons cons", "", out)?;
    say_made(alloc, test_sites, "init r1 r1", "", out)?;
    say_made(alloc, test_sites, "sql cons", above, out)?;
    say_made(alloc, test_sites, "sql r1", below, out)
}

/// Runs the program with words and a script.
fn say_made(
    alloc: Global,
    test_sites: &mut TestSites,
    words: &str,
    script: &str,
    out: &mut Vec<u8>,
) -> Result<(), NoMemory> {
    let mut lines = Vec::new(alloc);
    let script = script.as_bytes();
    let ended = run_at(
        alloc,
        test_sites,
        words,
        script,
        Trouble::Nothing,
        &mut lines,
    );
    drop(lines);
    say_unless_done(out, ended?)
}

/// Runs the program once.
fn say_run(
    alloc: Global,
    test_sites: &mut TestSites,
    step: &str,
    out: &mut Vec<u8>,
) -> Result<(), NoMemory> {
    let mut lines = Vec::new(alloc);
    let said = say_ran(alloc, test_sites, step, &mut lines, out);
    drop(lines);
    said
}

fn say_ran(
    alloc: Global,
    test_sites: &mut TestSites,
    step: &str,
    lines: &mut Vec<u8>,
    out: &mut Vec<u8>,
) -> Result<(), NoMemory> {
    let (is_asked, step) = asked(step);
    let ended = run_step(alloc, test_sites, step, Trouble::Nothing, lines)?;
    if is_asked {
        say_ended(out, ended, lines.as_slice())
    } else {
        say_unless_done(out, ended)
    }
}

/// Runs the program as a step has it.
fn run_step(
    alloc: Global,
    test_sites: &mut TestSites,
    step: &str,
    trouble: Trouble,
    lines: &mut Vec<u8>,
) -> Result<Ended, NoMemory> {
    match step.split_once(" ") {
        Some(("write", _)) => write_papers(alloc, test_sites, trouble, lines),
        Some(("sql", asked)) => run_sql(alloc, test_sites, asked, trouble, lines),
        _ => run_at(alloc, test_sites, step, b"", trouble, lines),
    }
}

/// Inserts the rows with long texts at `cons`.
fn write_papers(
    alloc: Global,
    test_sites: &mut TestSites,
    trouble: Trouble,
    lines: &mut Vec<u8>,
) -> Result<Ended, NoMemory> {
    let script = papers(alloc)?;
    let ended = run_at(
        alloc,
        test_sites,
        "sql cons",
        script.as_slice(),
        trouble,
        lines,
    );
    drop(script);
    ended
}

fn run_sql(
    alloc: Global,
    test_sites: &mut TestSites,
    asked: &str,
    trouble: Trouble,
    lines: &mut Vec<u8>,
) -> Result<Ended, NoMemory> {
    let (name, script) = asked.split_once(" ").unwrap_or((asked, ""));
    let words = if name == "cons" { "sql cons" } else { "sql r1" };
    run_at(alloc, test_sites, words, script.as_bytes(), trouble, lines)
}

/// Says a status and lines.
fn say_ended(out: &mut Vec<u8>, ended: Ended, lines: &[u8]) -> Result<(), NoMemory> {
    say_number(out, "", u64::from(ended.status))?;
    for line in lines.split(|byte| *byte == b'\n') {
        say_line(out, line)?;
    }
    Ok(())
}

fn say_line(out: &mut Vec<u8>, line: &[u8]) -> Result<(), NoMemory> {
    if line.is_empty() {
        return Ok(());
    }
    say(out, " / ")?;
    out.extend_from_slice(line)
}

/// Says the status of a run that was not done.
fn say_unless_done(out: &mut Vec<u8>, ended: Ended) -> Result<(), NoMemory> {
    if ended.status > 1 {
        say_number(out, "ENDED ", u64::from(ended.status))?;
    }
    Ok(())
}
