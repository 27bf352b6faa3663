//! Reading entries and ops.

ghost use Rattle.std.specs.Prelude.{◌≡◌, ◌++◌, ℕ, List, length, IfOk, IfErr};
ghost use Rattle.sr_base.specs.Inner.Reading.{BeginsWith, IsReadAs, IsBad};
ghost use Rattle.sr_logform.specs.declared.entry.Entry.{Entry as Body};
ghost use Rattle.sr_logform.specs.declared.op.Op.{Op as AnOp};
ghost use Rattle.sr_logform.specs.Entries.{entry_spelling, IsEntry};
ghost use Rattle.sr_logform.specs.Inner.Entries.{body_at, IsReadWhole};
ghost use Rattle.sr_logform.specs.Ops.{op_spelling, IsOp};
ghost use Rattle.sr_logform.specs.Inner.Ops.{op_at};

use crate::entry::Entry;
use crate::op::Op;
use sr_base::{Bad, read_prefix};
use std::alloc::Global;

/// The entry that these bytes spell, all of the bytes.
///
/// An entry is a tag byte and what stands behind it (docs/FORMATS.md, "Entries"). `Bad::Field { at }` comes exactly where the bytes
/// spell none; `at` is the first byte of the innermost field that breaks, or of what is left behind an entry.
pub fn read_entry(alloc: Global, bytes: &[u8]) -> Result<Entry, Bad>
    // What is read is spelled so.
    ensures found { IfOk result (λ entry. IsEntry entry × (bytes.now ≡ entry_spelling entry)) }
    // What is spelled so is read, unless there is no memory.
    ensures only { (entry : Body) → IsEntry entry → bytes.now ≡ entry_spelling entry → IsReadWhole result entry }
    // Where it breaks.
    ensures place { IfErr result (IsBad (body_at bytes.now) (length bytes.now)) }
{
    match read_prefix::<Entry>(alloc, bytes) {
        Ok((entry, taken)) => {
            if taken < bytes.len() {
                return Err(Bad::Field { at: taken });
            }
            Ok(entry)
        }
        Err(bad) => Err(bad),
    }
}

/// Reads the op at the front of `bytes`, with the number of bytes that it takes.
///
/// An op is a tag byte and what stands behind it (docs/FORMATS.md, "Ops"). `Bad::Field { at }` comes exactly where no spelling of
/// an op stands at the front; `at` is the first byte of the innermost field that breaks.
pub fn read_op(alloc: Global, bytes: &[u8]) -> Result<(Op, usize), Bad>
    ensures found { IfOk result (λ x. IsOp x.0 × BeginsWith bytes.now (op_spelling x.0) x.1) }
    ensures only { (op : AnOp) (rest : List ℕ) → IsOp op → bytes.now ≡ op_spelling op ++ rest → IsReadAs result op (length (op_spelling op)) }
    ensures place { IfErr result (IsBad (op_at bytes.now) (length bytes.now)) }
{
    read_prefix(alloc, bytes)
}
