//! The lines of a script, each ended by a line feed.

ghost use Rattle.std.specs.Prelude.{◌≡◌, ◌+◌, ◌≤◌, ◌++◌, ◌∷◌, [], ℕ, codes, length, IfOk, OnOk, OnErr, vec_len, vec_capacity};
ghost use Rattle.std.specs.Fmt.{decimal};
ghost use Rattle.sr_session_script.specs.Acts.{line, row_text, barred, text_from};
ghost use Rattle.sr_session_script.specs.Meaning.{listing};

use itoa::Buffer;
use sr_base::{NoMemory, Row, Value};
use sr_base_dates::write_literal;
use std::alloc::Global;

/// The longest line `committed OFFSET`, in bytes.
pub const LONGEST_COMMITTED: usize = 31;

/// Appends `committed OFFSET`. There has to be room for it, so that it takes no memory: what was committed is told.
pub fn push_committed(out: &mut Vec<u8>, end: u64)
    requires room { vec_len out.old + 31 ≤ vec_capacity out.old }
    ensures line { out.new.items ≡ out.old.items ++ line (codes "committed " ++ decimal end) }
{
    let mut buffer = Buffer::new();
    let digits = buffer.format(end);
    push_within(out, b"committed ");
    push_within(out, digits.as_bytes());
    push_within(out, b"\n");
}

/// Appends bytes for which there is room.
fn push_within(out: &mut Vec<u8>, bytes: &[u8])
    requires room { vec_len out.old + length bytes.now ≤ vec_capacity out.old }
    ensures bytes { out.new.items ≡ out.old.items ++ bytes.now }
    ensures length { vec_len out.new ≡ vec_len out.old + length bytes.now }
    ensures capacity { vec_capacity out.old ≤ vec_capacity out.new }
{
    match out.extend_from_slice(bytes) {
        Ok(()) => (),
        Err(_) => (),
    }
}

/// Appends a count of rows: `N rows`. For want of memory nothing is appended.
pub fn push_count(alloc: Global, out: &mut Vec<u8>, count: u64) -> Result<(), NoMemory>
    ensures ok { OnOk result (out.new.items ≡ out.old.items ++ line (decimal count ++ codes " rows")) }
    ensures err { OnErr result (out.new.items ≡ out.old.items) }
{
    let text = count_line(alloc, count)?;
    out.extend_from_slice(text.as_slice())
}

fn count_line(alloc: Global, count: u64) -> Result<Vec<u8>, NoMemory>
    ensures line { IfOk result (λ text. text.items ≡ line (decimal count ++ codes " rows")) }
{
    let mut buffer = Buffer::new();
    let mut text = Vec::from_slice(alloc, buffer.format(count).as_bytes())?;
    text.extend_from_slice(b" rows\n")?;
    Ok(text)
}

/// Appends the rows of a SELECT, each with its values as literals and bars between them, and then their count. For want of memory nothing
/// is appended.
pub fn push_rows(alloc: Global, out: &mut Vec<u8>, rows: &[Row]) -> Result<(), NoMemory>
    ensures ok { OnOk result ((place : ℕ) → out.new.items ≡ out.old.items ++ text_from place (listing rows.now)) }
    ensures err { OnErr result (out.new.items ≡ out.old.items) }
{
    let text = listing_text(alloc, rows)?;
    out.extend_from_slice(text.as_slice())
}

/// The lines of rows. It takes a step for each row, and copies each value once.
#[tactic(auto, using(crate::proofs::Listings::listings))]
fn listing_text(alloc: Global, rows: &[Row]) -> Result<Vec<u8>, NoMemory>
    ensures text { IfOk result (λ text. (place : ℕ) → text.items ≡ text_from place (listing rows.now)) }
{
    let mut text = Vec::new(alloc);
    let mut left = rows;
    'rows: while let Some((row, rest)) = left.split_first() {
        push_row(alloc, &mut text, row.values())?;
        left = rest;
    }
    push_count(alloc, &mut text, rows.len() as u64)?;
    Ok(text)
}

fn push_row(alloc: Global, out: &mut Vec<u8>, values: &[Value]) -> Result<(), NoMemory>
    ensures ok { OnOk result (out.new.items ≡ out.old.items ++ line (row_text values.now)) }
{
    if let Some((value, rest)) = values.split_first() {
        write_literal(alloc, value, out)?;
        push_barred(alloc, out, rest)?;
    }
    out.extend_from_slice(b"\n")?;
    Ok(())
}

/// Values, each behind a bar.
fn push_barred(alloc: Global, out: &mut Vec<u8>, values: &[Value]) -> Result<(), NoMemory>
    ensures ok { OnOk result (out.new.items ≡ out.old.items ++ barred values.now) }
{
    let mut left = values;
    'values: while let Some((value, rest)) = left.split_first() {
        out.extend_from_slice(b"|")?;
        write_literal(alloc, value, out)?;
        left = rest;
    }
    Ok(())
}
