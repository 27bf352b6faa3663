//! What histories keep. Each function does nothing: it carries a law as its clauses.

ghost use Rattle.std.specs.Prelude.{◌≤◌, ℕ, length, List};
ghost use Rattle.sr_base.specs.declared.offset.Offset.{Offset as Place};
ghost use Rattle.sr_base.specs.declared.value.Value.{Value as Cell};
ghost use Rattle.sr_base.specs.Values.{farthest_offset};
ghost use Rattle.sr_ast.specs.declared.stmt.Stmt.{Stmt as Statement};
ghost use Rattle.sr_book.specs.Entries.{Name};
ghost use Rattle.sr_logform.specs.declared.change.Change.{Change as RowChange};
ghost use Rattle.sr_logform.specs.Entries.{entry_spelling};
ghost use Rattle.sr_logform.specs.Limits.{from_body, short_body, sync_body};
ghost use Rattle.sr_logform.specs.Inner.Limits.{op_count};
ghost use Rattle.sr_logform.specs.declared.op.Op.TheVariants.{Set};
ghost use Rattle.sr_database_history.specs.Fitting.{DoneFits, Fits, stored_from, Stored};
ghost use Rattle.sr_database_history.specs.Folds.{State, fresh, next, state_from, state_of, end_of};
ghost use Rattle.sr_database_history.specs.Inner.Laws.{Holds, MeetsRow};
ghost use Rattle.sr_database_history.specs.Recorded.{Done, Recorded, conflict, own, taken, ddl, sync, entry_of};

/// Each row fits its table, and accepted statements in normal form have made the catalog: so it is at first, behind each entry that fits a state
/// in which it is so, and behind each history that may stand in a log.
pub fn what_holds_stays()
    ensures at_first { (publisher : Name) → Holds (fresh publisher) }
    ensures kept { (s : State) (place : ℕ) (r : Recorded) → Holds s → Fits s place r → Holds (next s r) }
    ensures on { (s : State) (place : ℕ) (rs : List Recorded) → Holds s → stored_from s place rs → Holds (state_from s rs) }
    ensures stored { (publisher : Name) (rs : List Recorded) → Stored publisher rs → Holds (state_of publisher rs) }
{}

/// Of a conflict that fits, the row before is the one that is held, once the triggers have inserted theirs, under the key that its Set
/// names, and the row after stands under the same key.
pub fn conflicts_meet_a_row()
    ensures met { (s : State) (table : Name) (columns : List (Name × Cell)) (values : List (Name × Cell × Cell)) (inserts : List RowChange)
        (before after : List Cell) → DoneFits s (conflict (Set table columns values) inserts before after)
        → MeetsRow s table columns inserts before after }
{}

/// An entry has at least as many bytes as ops that it holds or can give. One that may stand in a log has at most 4 MiB, of a Sync
/// 16 MiB and of a From 64 MiB; and the history ends at 2^62 at most.
pub fn entries_have_bounds()
    ensures ops { (r : Recorded) → op_count (entry_of r) ≤ length (entry_spelling (entry_of r)) }
    ensures own { (s : State) (place : ℕ) (changes : List RowChange) → Fits s place (own changes) → length (entry_spelling (entry_of (own changes))) ≤ short_body }
    ensures taken { (s : State) (place : ℕ) (user : Name) (at : Place) (dones : List Done) → Fits s place (taken user at dones)
        → length (entry_spelling (entry_of (taken user at dones))) ≤ from_body }
    ensures ddl { (s : State) (place : ℕ) (statement : Statement) → Fits s place (ddl statement)
        → length (entry_spelling (entry_of (ddl statement))) ≤ short_body }
    ensures sync { (s : State) (place : ℕ) (user : Name) (tables : List (Name × List (List Cell))) → Fits s place (sync user tables)
        → length (entry_spelling (entry_of (sync user tables))) ≤ sync_body }
    ensures end { (publisher : Name) (rs : List Recorded) → Stored publisher rs → end_of rs ≤ farthest_offset }
{}
