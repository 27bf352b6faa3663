//! The line of a refused statement.

ghost use Rattle.std.specs.Prelude.{◌≡◌, ◌++◌, ◌∷◌, [], codes, IfOk, OnOk, OnErr};
ghost use Rattle.sr_session_script.specs.Acts.{line};
ghost use Rattle.sr_session_script.specs.Refusals.{ddl_text, dml_text, key_text, with_commas, more_values, refusal_text, refusal_line};

use crate::refusal::Refusal;
use itoa::Buffer;
use sr_base::{Key, Name, NoMemory, Value};
use sr_base_dates::write_literal;
use sr_catalog::{DdlFault, DmlFault};
use std::alloc::Global;

/// Appends `statement N refused: FAULT`: the fault's name, and its values with blanks between them. For want of memory nothing is
/// appended.
pub fn push_refusal(
    alloc: Global,
    out: &mut Vec<u8>,
    number: u32,
    fault: &Refusal,
) -> Result<(), NoMemory>
    ensures ok { OnOk result (out.new.items ≡ out.old.items ++ refusal_line number fault.now) }
    ensures err { OnErr result (out.new.items ≡ out.old.items) }
{
    let text = line_of(alloc, number, fault)?;
    out.extend_from_slice(text.as_slice())
}

fn line_of(alloc: Global, number: u32, fault: &Refusal) -> Result<Vec<u8>, NoMemory>
    ensures line { IfOk result (λ text. text.items ≡ refusal_line number fault.now) }
{
    let mut buffer = Buffer::new();
    let mut text = Vec::from_slice(alloc, b"statement ")?;
    text.extend_from_slice(buffer.format(number).as_bytes())?;
    text.extend_from_slice(b" refused: ")?;
    push_fault(alloc, &mut text, fault)?;
    text.extend_from_slice(b"\n")?;
    Ok(text)
}

fn push_fault(alloc: Global, out: &mut Vec<u8>, fault: &Refusal) -> Result<(), NoMemory>
    ensures ok { OnOk result (out.new.items ≡ out.old.items ++ refusal_text fault.now) }
{
    match fault {
        Refusal::Ddl(fault) => push_ddl(out, fault),
        Refusal::Dml(fault) => push_dml(alloc, out, fault),
    }
}

fn push_ddl(out: &mut Vec<u8>, fault: &DdlFault) -> Result<(), NoMemory>
    ensures ok { OnOk result (out.new.items ≡ out.old.items ++ ddl_text fault.now) }
{
    match fault {
        DdlFault::Exists { name } => push_named(out, b"Exists ", name),
        DdlFault::Missing { name } => push_named(out, b"Missing ", name),
        DdlFault::BadType { name } => push_named(out, b"BadType ", name),
        DdlFault::NoKey { table } => push_named(out, b"NoKey ", table),
        DdlFault::KeyNotInArticle { table, column } => push_two(
            out,
            b"KeyNotInArticle ",
            table,
            column,
        ),
        DdlFault::TwiceSubscribed { user, table } => push_two(
            out,
            b"TwiceSubscribed ",
            user,
            table,
        ),
        DdlFault::InUse { name } => push_named(out, b"InUse ", name),
        DdlFault::TooMany { limit } => push_limit(out, *limit),
        DdlFault::Memory => out.extend_from_slice(b"Memory"),
    }
}

fn push_dml(alloc: Global, out: &mut Vec<u8>, fault: &DmlFault) -> Result<(), NoMemory>
    ensures ok { OnOk result (out.new.items ≡ out.old.items ++ dml_text fault.now) }
{
    match fault {
        DmlFault::NoTable { name } => push_named(out, b"NoTable ", name),
        DmlFault::NoColumn { name } => push_named(out, b"NoColumn ", name),
        DmlFault::BadValue { name } => push_named(out, b"BadValue ", name),
        DmlFault::Null { name } => push_named(out, b"Null ", name),
        DmlFault::Duplicate { key } => push_key(alloc, out, key),
        DmlFault::Overflow => out.extend_from_slice(b"Overflow"),
        DmlFault::Memory => out.extend_from_slice(b"Memory"),
    }
}

fn push_named(out: &mut Vec<u8>, word: &[u8], name: &Name) -> Result<(), NoMemory>
    ensures ok { OnOk result (out.new.items ≡ out.old.items ++ (word.now ++ name.now)) }
{
    out.extend_from_slice(word)?;
    out.extend_from_slice(name.bytes())?;
    Ok(())
}

fn push_two(out: &mut Vec<u8>, word: &[u8], first: &Name, second: &Name) -> Result<(), NoMemory>
    ensures ok { OnOk result (out.new.items ≡ out.old.items ++ (word.now ++ first.now ++ 32 ∷ second.now)) }
{
    out.extend_from_slice(word)?;
    out.extend_from_slice(first.bytes())?;
    out.extend_from_slice(b" ")?;
    out.extend_from_slice(second.bytes())?;
    Ok(())
}

fn push_limit(out: &mut Vec<u8>, limit: u64) -> Result<(), NoMemory>
    ensures ok { OnOk result (out.new.items ≡ out.old.items ++ ddl_text (DdlFault.TooMany limit)) }
{
    let mut buffer = Buffer::new();
    out.extend_from_slice(b"TooMany ")?;
    out.extend_from_slice(buffer.format(limit).as_bytes())?;
    Ok(())
}

fn push_key(alloc: Global, out: &mut Vec<u8>, key: &Key) -> Result<(), NoMemory>
    ensures ok { OnOk result (out.new.items ≡ out.old.items ++ (codes "Duplicate " ++ key_text key.now)) }
{
    out.extend_from_slice(b"Duplicate (")?;
    push_values(alloc, out, key.values())?;
    out.extend_from_slice(b")")?;
    Ok(())
}

fn push_values(alloc: Global, out: &mut Vec<u8>, values: &[Value]) -> Result<(), NoMemory>
    ensures ok { OnOk result (out.new.items ≡ out.old.items ++ with_commas values.now) }
{
    let Some((value, rest)) = values.split_first() else {
        return Ok(());
    };
    write_literal(alloc, value, out)?;
    push_more(alloc, out, rest)
}

/// Values, each behind a comma and a blank.
fn push_more(alloc: Global, out: &mut Vec<u8>, values: &[Value]) -> Result<(), NoMemory>
    ensures ok { OnOk result (out.new.items ≡ out.old.items ++ more_values values.now) }
{
    let mut left = values;
    'values: while let Some((value, rest)) = left.split_first() {
        out.extend_from_slice(b", ")?;
        write_literal(alloc, value, out)?;
        left = rest;
    }
    Ok(())
}
