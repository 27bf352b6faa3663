//! The texts of reports.

ghost use Rattle.std.specs.Prelude.{◌≡◌, ◌++◌, ◌∷◌, [], IfOk, OnErr, OnOk};
ghost use Rattle.std.specs.Fmt.{decimal};
ghost use Rattle.sr_agent.specs.Inner.Steps.{Added, ToldInPart};
ghost use Rattle.sr_agent.specs.Lines.{alarms, clash_name, is_alarm, line_text, lines_text, numbers_behind, report as report_line, report_lines, report_text, shown, shown_byte};

use crate::adding::{add, add_both, add_name, add_numbered};
use sr_base::{Name, NoMemory, Text};
use sr_logform::Clash;
use sr_receive_gather::Report;
use sr_site::{Failed, Sink};
use std::alloc::AllocError;

/// Adds a partner's name and a number, after a blank.
#[tactic(auto, using(crate::proofs::Additions::adding))]
fn add_number_behind<O: Sink>(
    held: &mut Vec<u8>,
    sink: &mut O,
    user: &Name,
    number: u64,
) -> Result<(), Failed>
    ensures added { OnOk result (Added (user.now ++ 32 ∷ decimal number) held.old.items held.new.items (O.seen sink.old) (O.seen sink.new)) }
    ensures failed { OnErr result (ToldInPart (held.old.items ++ (user.now ++ 32 ∷ decimal number)) (O.seen sink.old) (O.seen sink.new)) }
{
    add_name(held, sink, user)?;
    add_numbered(held, sink, b" ", number)?;
    Ok(())
}

/// Adds a partner's name and two numbers, each after a blank.
#[tactic(auto, using(crate::proofs::Additions::adding))]
fn add_numbers_behind<O: Sink>(
    held: &mut Vec<u8>,
    sink: &mut O,
    user: &Name,
    first: u64,
    second: u64,
) -> Result<(), Failed>
    ensures added { OnOk result (Added (numbers_behind user.now first second) held.old.items held.new.items (O.seen sink.old) (O.seen sink.new)) }
    ensures failed { OnErr result (ToldInPart (held.old.items ++ numbers_behind user.now first second) (O.seen sink.old) (O.seen sink.new)) }
{
    add_number_behind(held, sink, user, first)?;
    add_numbered(held, sink, b" ", second)?;
    Ok(())
}

/// Adds words, and a partner's name and two numbers after them.
#[tactic(auto, using(crate::proofs::Additions::adding))]
fn add_place<O: Sink>(
    held: &mut Vec<u8>,
    sink: &mut O,
    words: &[u8],
    user: &Name,
    first: u64,
    second: u64,
) -> Result<(), Failed>
    ensures added { OnOk result (Added (words.now ++ numbers_behind user.now first second) held.old.items held.new.items (O.seen sink.old) (O.seen sink.new)) }
    ensures failed { OnErr result (ToldInPart (held.old.items ++ (words.now ++ numbers_behind user.now first second)) (O.seen sink.old) (O.seen sink.new)) }
{
    add(held, sink, words)?;
    add_numbers_behind(held, sink, user, first, second)?;
    Ok(())
}

/// Adds the same, and after a blank what stands there.
#[tactic(auto, using(crate::proofs::Additions::adding))]
fn add_place_and<O: Sink>(
    held: &mut Vec<u8>,
    sink: &mut O,
    words: &[u8],
    user: &Name,
    first: u64,
    second: u64,
    behind: &[u8],
) -> Result<(), Failed>
    ensures added { OnOk result (Added (words.now ++ numbers_behind user.now first second ++ 32 ∷ behind.now) held.old.items held.new.items (O.seen sink.old) (O.seen sink.new)) }
    ensures failed { OnErr result (ToldInPart (held.old.items ++ (words.now ++ numbers_behind user.now first second ++ 32 ∷ behind.now)) (O.seen sink.old) (O.seen sink.new)) }
{
    add_place(held, sink, words, user, first, second)?;
    add_both(held, sink, b" ", behind)?;
    Ok(())
}

/// A byte of a file's name as a line shows it.
fn shown_byte(byte: u8) -> u8
    ensures { result ≡ shown_byte byte }
{
    if byte < 32 || byte == 127 { b'?' } else { byte }
}

/// Adds a byte of a file's name as a line shows it.
fn add_byte<O: Sink>(held: &mut Vec<u8>, sink: &mut O, byte: u8) -> Result<(), Failed>
    ensures added { OnOk result (Added (shown_byte byte ∷ []) held.old.items held.new.items (O.seen sink.old) (O.seen sink.new)) }
    ensures failed { OnErr result (ToldInPart (held.old.items ++ (shown_byte byte ∷ [])) (O.seen sink.old) (O.seen sink.new)) }
{
    let shown = [shown_byte(byte)];
    add(held, sink, &shown)?;
    Ok(())
}

/// Adds a file's name as a line shows it: it may come from anybody, and forges no line.
#[tactic(auto, using(crate::proofs::Additions::adding_some))]
fn add_shown<O: Sink>(held: &mut Vec<u8>, sink: &mut O, name: &Text) -> Result<(), Failed>
    ensures added { OnOk result (Added (shown name.now) held.old.items held.new.items (O.seen sink.old) (O.seen sink.new)) }
    ensures failed { OnErr result (ToldInPart (held.old.items ++ shown name.now) (O.seen sink.old) (O.seen sink.new)) }
{
    let mut left = name.bytes();
    'bytes: while let Some((byte, rest)) = left.split_first() {
        add_byte(held, sink, *byte)?;
        left = rest;
    }
    Ok(())
}

/// Adds words, and a file's name after them.
#[tactic(auto, using(crate::proofs::Additions::adding))]
fn add_file<O: Sink>(
    held: &mut Vec<u8>,
    sink: &mut O,
    words: &[u8],
    name: &Text,
) -> Result<(), Failed>
    ensures added { OnOk result (Added (words.now ++ shown name.now) held.old.items held.new.items (O.seen sink.old) (O.seen sink.new)) }
    ensures failed { OnErr result (ToldInPart (held.old.items ++ (words.now ++ shown name.now)) (O.seen sink.old) (O.seen sink.new)) }
{
    add(held, sink, words)?;
    add_shown(held, sink, name)?;
    Ok(())
}

/// Why an op was skipped.
fn clash_name(clash: Clash) -> &'static [u8]
    ensures { result.now ≡ clash_name clash }
{
    match clash {
        Clash::Duplicate => b"Duplicate",
        Clash::NoRow => b"NoRow",
        Clash::NoTable => b"NoTable",
        Clash::NoColumn => b"NoColumn",
        Clash::BadValue => b"BadValue",
        Clash::Null => b"Null",
        Clash::Trigger => b"Trigger",
        Clash::Statement => b"Statement",
    }
}

/// Adds what a report says.
fn add_report_text<O: Sink>(held: &mut Vec<u8>, sink: &mut O, report: &Report) -> Result<(), Failed>
    ensures added { OnOk result (Added (report_text report.now) held.old.items held.new.items (O.seen sink.old) (O.seen sink.new)) }
    ensures failed { OnErr result (ToldInPart (held.old.items ++ report_text report.now) (O.seen sink.old) (O.seen sink.new)) }
{
    match report {
        Report::More => add(held, sink, b"more"),
        Report::Junk { name } => add_file(held, sink, b"junk ", name),
        Report::Stranger { name } => add_file(held, sink, b"stranger ", name),
        Report::Conflict { user, at, op } => {
            add_place(held, sink, b"conflict ", user, at.0, u64::from(*op))
        }
        Report::Clash {
            user,
            at,
            op,
            clash,
        } => add_place_and(
            held,
            sink,
            b"clash ",
            user,
            at.0,
            u64::from(*op),
            clash_name(*clash),
        ),
        Report::Torn { user, prev, upto } => {
            add_place(held, sink, b"torn ", user, prev.0, upto.0)
        }
        Report::Gap {
            user,
            received,
            upto,
        } => add_place(held, sink, b"gap ", user, received.0, upto.0),
    }
}

/// Adds the line of a report.
#[tactic(auto, using(crate::proofs::Additions::adding))]
fn add_report<O: Sink>(held: &mut Vec<u8>, sink: &mut O, report: &Report) -> Result<(), Failed>
    ensures added { OnOk result (Added (line_text (report_line report.now)) held.old.items held.new.items (O.seen sink.old) (O.seen sink.new)) }
    ensures failed { OnErr result (ToldInPart (held.old.items ++ line_text (report_line report.now)) (O.seen sink.old) (O.seen sink.new)) }
{
    add_report_text(held, sink, report)?;
    add(held, sink, b"\n")?;
    Ok(())
}

/// Adds the lines of reports.
#[tactic(auto, using(crate::proofs::Additions::adding_some))]
pub(crate) fn add_reports<O: Sink>(
    held: &mut Vec<u8>,
    sink: &mut O,
    reports: &[Report],
) -> Result<(), Failed>
    ensures added { OnOk result (Added (lines_text (report_lines reports.now)) held.old.items held.new.items (O.seen sink.old) (O.seen sink.new)) }
    ensures failed { OnErr result (ToldInPart (held.old.items ++ lines_text (report_lines reports.now)) (O.seen sink.old) (O.seen sink.new)) }
{
    let mut left = reports;
    'reports: while let Some((report, rest)) = left.split_first() {
        add_report(held, sink, report)?;
        left = rest;
    }
    Ok(())
}

/// Whether a report tells of something amiss: every one does but that of a conflict.
fn is_alarm(report: &Report) -> bool
    ensures { result ≡ is_alarm report.now }
{
    match report {
        Report::Conflict { .. } => false,
        Report::More
        | Report::Junk { .. }
        | Report::Stranger { .. }
        | Report::Clash { .. }
        | Report::Torn { .. }
        | Report::Gap { .. } => true,
    }
}

/// How many reports tell of something amiss. One of 2^32 of them is taken for want of memory.
pub(crate) fn count_alarms(reports: &[Report]) -> Result<u32, NoMemory>
    ensures count { IfOk result (λ count. count ≡ alarms (report_lines reports.now)) }
{
    let mut count = 0u32;
    let mut left = reports;
    'reports: while let Some((report, rest)) = left.split_first() {
        if is_alarm(report) {
            let Some(next) = count.checked_add(1) else {
                return Err(AllocError);
            };
            count = next;
        }
        left = rest;
    }
    Ok(count)
}
