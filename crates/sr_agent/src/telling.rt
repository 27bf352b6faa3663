//! The lines of what was done, written.

ghost use Rattle.std.specs.Prelude.{◌≡◌, ◌++◌, ◌∷◌, [], List, IfOk, OnErr, OnOk};
ghost use Rattle.std.specs.Fmt.{decimal};
ghost use Rattle.sr_agent.specs.Lines.{alarms, line_text, lines_text, received as received_line, report_lines, restarted as restarted_line, sent as sent_line};
ghost use Rattle.sr_agent.specs.Inner.Steps.{Added, IsParted, Told, ToldInPart};
ghost use Rattle.sr_receive_gather.specs.declared.report.Report.{Report as AReport};
ghost use Rattle.sr_session_script.specs.Acts.{line};

use crate::adding::{add, add_name, add_number, add_numbered};
use crate::reporting::{add_reports, count_alarms};
use sr_base::{Name, NoMemory, Offset};
use sr_receive::Received;
use sr_receive_gather::Report;
use sr_send::Sent;
use sr_session::say;
use sr_site::{Failed, Sink};
use std::alloc::Global;

/// Writes what is held.
fn tell<O: Sink>(sink: &mut O, held: &[u8]) -> Result<(), Failed>
    ensures told { OnOk result (Told held.now (O.seen sink.old) (O.seen sink.new)) }
    ensures failed { OnErr result (ToldInPart held.now (O.seen sink.old) (O.seen sink.new)) }
{
    say(sink, held)?;
    Ok(())
}

/// Adds where the log begins: `restarted OFFSET`.
#[tactic(auto, using(crate::proofs::Additions::adding))]
fn add_restart<O: Sink>(held: &mut Vec<u8>, sink: &mut O, base: Offset) -> Result<(), Failed>
    ensures added { OnOk result (Added (line_text (restarted_line base.0)) held.old.items held.new.items (O.seen sink.old) (O.seen sink.new)) }
    ensures failed { OnErr result (ToldInPart (held.old.items ++ line_text (restarted_line base.0)) (O.seen sink.old) (O.seen sink.new)) }
{
    add_numbered(held, sink, b"restarted ", base.0)?;
    add(held, sink, b"\n")?;
    Ok(())
}

/// Tells where the log begins.
pub(crate) fn tell_restart<O: Sink>(alloc: Global, sink: &mut O, base: Offset) -> Result<(), Failed>
    ensures told { OnOk result (Told (lines_text (restarted_line base.0 ∷ [])) (O.seen sink.old) (O.seen sink.new)) }
    ensures failed { OnErr result (ToldInPart (lines_text (restarted_line base.0 ∷ [])) (O.seen sink.old) (O.seen sink.new)) }
{
    let mut held = Vec::new(alloc);
    add_restart(&mut held, sink, base)?;
    tell(sink, held.as_slice())?;
    Ok(())
}

/// Tells reports.
#[tactic(auto, using(crate::proofs::Additions::telling))]
pub(crate) fn tell_reports<O: Sink>(
    alloc: Global,
    sink: &mut O,
    reports: &[Report],
) -> Result<(), Failed>
    ensures told { OnOk result (Told (lines_text (report_lines reports.now)) (O.seen sink.old) (O.seen sink.new)) }
    ensures failed { OnErr result (ToldInPart (lines_text (report_lines reports.now)) (O.seen sink.old) (O.seen sink.new)) }
{
    let mut held = Vec::new(alloc);
    add_reports(&mut held, sink, reports)?;
    tell(sink, held.as_slice())?;
    Ok(())
}

/// The reports of a partner's pass in two parts: those of ops and of torn windows, and that of what was not reached.
fn parted(reports: &[Report], ask: bool) -> (&[Report], &[Report])
    ensures parts { (prefix behind : List AReport) → IsParted reports.now ask prefix behind → (result.0.now ≡ prefix) × (result.1.now ≡ behind) }
{
    let missing = if ask { 1 } else { 0 };
    reports.split_at(reports.len().saturating_sub(missing))
}

/// Adds a line: words and a partner's name, and two numbers, each after words.
fn add_counts<O: Sink>(
    held: &mut Vec<u8>,
    sink: &mut O,
    words: &[u8],
    user: &Name,
    before: &[u8],
    count: u64,
    between: &[u8],
    end: u64,
) -> Result<(), Failed>
    ensures added { OnOk result (Added (line (words.now ++ user.now ++ before.now ++ decimal count ++ between.now ++ decimal end)) held.old.items held.new.items (O.seen sink.old) (O.seen sink.new)) }
    ensures failed { OnErr result (ToldInPart (held.old.items ++ line (words.now ++ user.now ++ before.now ++ decimal count ++ between.now ++ decimal end)) (O.seen sink.old) (O.seen sink.new)) }
{
    add(held, sink, words)?;
    add_name(held, sink, user)?;
    add(held, sink, before)?;
    add_number(held, sink, count)?;
    add(held, sink, between)?;
    add_number(held, sink, end)?;
    add(held, sink, b"\n")?;
    Ok(())
}

/// Adds how much was taken from a partner: `from USER took N up to OFFSET`.
fn add_received<O: Sink>(
    held: &mut Vec<u8>,
    sink: &mut O,
    user: &Name,
    received: Received,
) -> Result<(), Failed>
    ensures added { OnOk result (Added (line_text (received_line user.now received.took received.end.0)) held.old.items held.new.items (O.seen sink.old) (O.seen sink.new)) }
    ensures failed { OnErr result (ToldInPart (held.old.items ++ line_text (received_line user.now received.took received.end.0)) (O.seen sink.old) (O.seen sink.new)) }
{
    let end = received.end.0;
    add_counts(
        held,
        sink,
        b"from ",
        user,
        b" took ",
        received.took,
        b" up to ",
        end,
    )
}

/// Adds the lines of a partner's pass, whose reports stand in two parts.
#[tactic(auto, using(crate::proofs::Additions::adding))]
fn add_partner_pass<O: Sink>(
    held: &mut Vec<u8>,
    sink: &mut O,
    user: &Name,
    received: Received,
    prefix: &[Report],
    behind: &[Report],
) -> Result<(), Failed>
    ensures added { OnOk result (Added (lines_text (report_lines prefix.now) ++ line_text (received_line user.now received.took received.end.0) ++ lines_text (report_lines behind.now)) held.old.items held.new.items (O.seen sink.old) (O.seen sink.new)) }
    ensures failed { OnErr result (ToldInPart (held.old.items ++ (lines_text (report_lines prefix.now) ++ line_text (received_line user.now received.took received.end.0) ++ lines_text (report_lines behind.now))) (O.seen sink.old) (O.seen sink.new)) }
{
    add_reports(held, sink, prefix)?;
    add_received(held, sink, user, received)?;
    add_reports(held, sink, behind)?;
    Ok(())
}

/// Tells a partner's pass, whose reports stand in two parts.
#[tactic(auto, using(crate::proofs::Additions::telling))]
fn tell_parts<O: Sink>(
    alloc: Global,
    sink: &mut O,
    user: &Name,
    received: Received,
    prefix: &[Report],
    behind: &[Report],
) -> Result<(), Failed>
    ensures told { OnOk result (Told (lines_text (report_lines prefix.now) ++ line_text (received_line user.now received.took received.end.0) ++ lines_text (report_lines behind.now)) (O.seen sink.old) (O.seen sink.new)) }
    ensures failed { OnErr result (ToldInPart (lines_text (report_lines prefix.now) ++ line_text (received_line user.now received.took received.end.0) ++ lines_text (report_lines behind.now)) (O.seen sink.old) (O.seen sink.new)) }
{
    let mut held = Vec::new(alloc);
    add_partner_pass(&mut held, sink, user, received, prefix, behind)?;
    tell(sink, held.as_slice())?;
    Ok(())
}

/// Tells a partner's pass.
pub(crate) fn tell_partner_pass<O: Sink>(
    alloc: Global,
    sink: &mut O,
    user: &Name,
    received: Received,
    reports: &[Report],
) -> Result<(), Failed>
    ensures told { (prefix behind : List AReport) → IsParted reports.now received.ask prefix behind
        → OnOk result (Told (lines_text (report_lines prefix ++ received_line user.now received.took received.end.0 ∷ report_lines behind)) (O.seen sink.old) (O.seen sink.new)) }
    ensures failed { (prefix behind : List AReport) → IsParted reports.now received.ask prefix behind
        → OnErr result (ToldInPart (lines_text (report_lines prefix ++ received_line user.now received.took received.end.0 ∷ report_lines behind)) (O.seen sink.old) (O.seen sink.new)) }
{
    let (prefix, behind) = parted(reports, received.ask);
    tell_parts(alloc, sink, user, received, prefix, behind)?;
    Ok(())
}

/// How many lines of a partner's pass tell of something amiss: of those that are not reports, none.
pub(crate) fn count_partner_pass(
    _user: &Name,
    received: Received,
    reports: &[Report],
) -> Result<u32, NoMemory>
    ensures count { (prefix behind : List AReport) → IsParted reports.now received.ask prefix behind
        → IfOk result (λ count. count ≡ alarms (report_lines prefix ++ received_line _user.now received.took received.end.0 ∷ report_lines behind)) }
{
    let count = count_alarms(reports)?;
    Ok(count)
}

/// Adds what was put for a partner: `to USER put K up to OFFSET`.
fn add_delivery<O: Sink>(
    held: &mut Vec<u8>,
    sink: &mut O,
    user: &Name,
    sent: Sent,
) -> Result<(), Failed>
    ensures added { OnOk result (Added (line_text (sent_line user.now sent.put sent.end.0)) held.old.items held.new.items (O.seen sink.old) (O.seen sink.new)) }
    ensures failed { OnErr result (ToldInPart (held.old.items ++ line_text (sent_line user.now sent.put sent.end.0)) (O.seen sink.old) (O.seen sink.new)) }
{
    let put = u64::from(sent.put);
    add_counts(
        held, sink, b"to ", user, b" put ", put, b" up to ", sent.end.0,
    )
}

/// Tells what was put for a partner.
pub(crate) fn tell_delivery<O: Sink>(
    alloc: Global,
    sink: &mut O,
    user: &Name,
    sent: Sent,
) -> Result<(), Failed>
    ensures told { OnOk result (Told (lines_text (sent_line user.now sent.put sent.end.0 ∷ [])) (O.seen sink.old) (O.seen sink.new)) }
    ensures failed { OnErr result (ToldInPart (lines_text (sent_line user.now sent.put sent.end.0 ∷ [])) (O.seen sink.old) (O.seen sink.new)) }
{
    let mut held = Vec::new(alloc);
    add_delivery(&mut held, sink, user, sent)?;
    tell(sink, held.as_slice())?;
    Ok(())
}
