//! What the demonstration came to, and its lines.

ghost use Rattle.std.specs.Prelude.{◌≡◌, ◌++◌, IfOk, OnOk};
ghost use Rattle.sr_session_script.specs.Acts.{line};
ghost use Rattle.dbremote_demo_draws.specs.Lines.{differ_text, messages_text, outcomes_text, rows_text, summary_lines};

use crate::statements::push_counted;
use crate::sums::sum_of_four;
use sr_base::NoMemory;
use std::alloc::Global;

/// What is counted of one database: its rows, the outcomes of what it took, and at how many keys it differs.
#[derive(Clone, Copy)]
pub struct Part {
    pub rows: u64,
    pub conflicts: u64,
    pub clashes: u64,
    pub differ: u64,
}

/// What is counted of each.
#[derive(Clone, Copy)]
pub struct Parts {
    pub cons: Part,
    pub r1: Part,
    pub r2: Part,
    pub r3: Part,
}

/// What is counted of all: the drawn statements, the messages that were put, lost ones included, and those that were lost.
#[derive(Clone, Copy)]
pub struct Summary {
    pub statements: u32,
    pub put: u64,
    pub lost: u64,
    pub parts: Parts,
}

/// Its five lines.
pub fn lines_of(alloc: Global, s: &Summary) -> Result<Vec<u8>, NoMemory>
    ensures lines { IfOk result (λ lines. lines.items ≡ summary_lines s.now) }
{
    let mut out = Vec::new(alloc);
    push_counted(&mut out, "statements ", u64::from(s.statements))?;
    out.extend_from_slice(b"\n")?;
    push_messages(&mut out, s)?;
    push_rows(&mut out, s)?;
    push_outcomes(&mut out, s)?;
    push_differ(&mut out, s)?;
    Ok(out)
}

#[tactic(auto, unfolding(crate::specs::Lines::messages_text))]
fn push_messages(out: &mut Vec<u8>, s: &Summary) -> Result<(), NoMemory>
    ensures ok { OnOk result (out.new.items ≡ out.old.items ++ line (messages_text s.now)) }
{
    push_counted(out, "messages ", s.put)?;
    push_counted(out, " lost ", s.lost)?;
    out.extend_from_slice(b"\n")?;
    Ok(())
}

#[tactic(auto, unfolding(crate::specs::Lines::rows_text))]
fn push_rows(out: &mut Vec<u8>, s: &Summary) -> Result<(), NoMemory>
    ensures ok { OnOk result (out.new.items ≡ out.old.items ++ line (rows_text s.now)) }
{
    push_counted(out, "rows ", s.parts.cons.rows)?;
    push_counted(out, " ", s.parts.r1.rows)?;
    push_counted(out, " ", s.parts.r2.rows)?;
    push_counted(out, " ", s.parts.r3.rows)?;
    out.extend_from_slice(b"\n")?;
    Ok(())
}

#[tactic(auto, unfolding(crate::specs::Lines::outcomes_text))]
fn push_outcomes(out: &mut Vec<u8>, s: &Summary) -> Result<(), NoMemory>
    ensures ok { OnOk result (out.new.items ≡ out.old.items ++ line (outcomes_text s.now)) }
{
    let parts = &s.parts;
    let conflicts = sum_of_four(
        parts.cons.conflicts,
        parts.r1.conflicts,
        parts.r2.conflicts,
        parts.r3.conflicts,
    )?;
    let clashes = sum_of_four(
        parts.cons.clashes,
        parts.r1.clashes,
        parts.r2.clashes,
        parts.r3.clashes,
    )?;
    push_counted(out, "conflicts ", conflicts)?;
    push_counted(out, " clashes ", clashes)?;
    out.extend_from_slice(b"\n")?;
    Ok(())
}

#[tactic(auto, unfolding(crate::specs::Lines::differ_text))]
fn push_differ(out: &mut Vec<u8>, s: &Summary) -> Result<(), NoMemory>
    ensures ok { OnOk result (out.new.items ≡ out.old.items ++ line (differ_text s.now)) }
{
    let parts = &s.parts;
    let differ = sum_of_four(
        parts.cons.differ,
        parts.r1.differ,
        parts.r2.differ,
        parts.r3.differ,
    )?;
    push_counted(out, "differ ", differ)?;
    out.extend_from_slice(b"\n")?;
    Ok(())
}
