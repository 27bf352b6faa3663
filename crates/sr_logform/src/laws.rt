//! Three laws of the bytes of entries and ops. Each is the contract of a function that does nothing.

ghost use Rattle.std.specs.Prelude.{◌≤◌, length};
ghost use Rattle.sr_logform.specs.declared.entry.Entry.{Entry as Body};
ghost use Rattle.sr_logform.specs.declared.op.Op.{Op as AnOp};
ghost use Rattle.sr_logform.specs.declared.op.Transaction.{Transaction as ATransaction};
ghost use Rattle.sr_logform.specs.Entries.{entry_spelling, IsEntry};
ghost use Rattle.sr_logform.specs.Inner.Entries.{entry_at, IsShortEntry};
ghost use Rattle.sr_logform.specs.Inner.Laws.{SpellsOnce};
ghost use Rattle.sr_logform.specs.Inner.Limits.{op_count};
ghost use Rattle.sr_logform.specs.Ops.{op_spelling, IsOp, IsShortOp, transaction_spelling, IsTransaction};
ghost use Rattle.sr_logform.specs.Inner.Ops.{op_at, transaction_at, IsShortTransaction};
ghost use Rattle.sr_logform.specs.Outcomes.{change_spelling, IsChange, outcome_spelling, IsOutcome};
ghost use Rattle.sr_logform.specs.Inner.Outcomes.{change_at, outcome_at};

/// What is read is spelled so, what is spelled is read again whatever follows it, and no spelling begins another one.
pub fn each_has_one_spelling()
    ensures entries { SpellsOnce entry_at entry_spelling IsEntry }
    ensures ops { SpellsOnce op_at op_spelling IsOp }
    ensures transactions { SpellsOnce transaction_at transaction_spelling IsTransaction }
    ensures changes { SpellsOnce change_at change_spelling IsChange }
    ensures outcomes { SpellsOnce outcome_at outcome_spelling IsOutcome }
{}

/// What has a spelling keeps what `write_entry`, `write_op` and the writing of a transaction ask for: so what was read can be written.
pub fn what_has_a_spelling_can_be_written()
    ensures entries { (entry : Body) → IsEntry entry → IsShortEntry entry }
    ensures ops { (op : AnOp) → IsOp op → IsShortOp op }
    ensures transactions { (transaction : ATransaction) → IsTransaction transaction → IsShortTransaction transaction }
{}

/// Each entry has at least as many bytes as ops that it holds or can give.
pub fn an_entry_is_as_long_as_its_ops()
    ensures { (entry : Body) → op_count entry ≤ length (entry_spelling entry) }
{}
