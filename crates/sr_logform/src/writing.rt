//! Writing entries and ops.

ghost use Rattle.std.specs.Prelude.{◌≡◌, ◌++◌, IfOk, OnOk, OnErr};
ghost use Rattle.sr_logform.specs.Entries.{entry_spelling, IsEntry};
ghost use Rattle.sr_logform.specs.Inner.Entries.{IsShortEntry};
ghost use Rattle.sr_logform.specs.Ops.{op_spelling, IsOp, IsShortOp};

use crate::entry::Entry;
use crate::op::Op;
use sr_base::{Field, NoMemory};
use std::alloc::Global;

/// The one spelling of an entry, as the body of its record holds it.
///
/// The entry has to keep its rules: changes where it is an Own, ops where it is a From, no user twice in a Pass, and those of its
/// ops and changes.
pub fn write_entry(alloc: Global, entry: &Entry) -> Result<Vec<u8>, NoMemory>
    requires { IsShortEntry entry.now }
    ensures spelling { IfOk result (λ bytes. bytes.items ≡ entry_spelling entry.now) }
    ensures kept { OnOk result (IsEntry entry.now) }
{
    let mut out = Vec::new(alloc);
    entry.write(&mut out)?;
    Ok(out)
}

/// Adds the one spelling of an op. For want of memory `out` stays as it was.
///
/// The op has to keep its rules: no list of columns is empty or names one twice, and no value of an Insert is NULL.
pub fn write_op(_alloc: Global, op: &Op, out: &mut Vec<u8>) -> Result<(), NoMemory>
    requires { IsShortOp op.now }
    ensures ok { OnOk result (out.new.items ≡ out.old.items ++ op_spelling op.now) }
    ensures err { OnErr result (out.new.items ≡ out.old.items) }
    ensures kept { OnOk result (IsOp op.now) }
{
    op.write(out)
}
