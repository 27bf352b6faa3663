//! What each kind of entry does. Each function does nothing: it carries the laws as its clauses.

ghost use Rattle.std.specs.Prelude.{◌≡◌, true, false, List, [], ◌∷◌, ◌++◌, None, Some};
ghost use Rattle.sr_base.specs.declared.offset.Offset.{Offset as Place};
ghost use Rattle.sr_base.specs.declared.value.Value.{Value as Cell};
ghost use Rattle.sr_ast.specs.declared.stmt.Stmt.{Stmt as Statement};
ghost use Rattle.sr_ast.specs.declared.stmt.Stmt.TheVariants.{DropTable};
ghost use Rattle.sr_book.specs.Entries.{Name};
ghost use Rattle.sr_book.specs.declared.note.Note.{Note as BookNote};
ghost use Rattle.sr_catalog_change.specs.Changes.{next as catalog_after};
ghost use Rattle.sr_exec_dml.specs.Applying.{applied};
ghost use Rattle.sr_logform.specs.declared.change.Change.{Change as RowChange};
ghost use Rattle.sr_logform.specs.declared.op.Op.{Op as AnOp};
ghost use Rattle.sr_logform.specs.declared.op.Op.TheVariants.{Set};
ghost use Rattle.sr_logform.specs.declared.outcome.Clash.{Clash as Why};
ghost use Rattle.sr_rows.specs.Marks.{rows_of_table};
ghost use Rattle.sr_database_history.specs.Folds.{State, after_done, next, row_change, with_statement};
ghost use Rattle.sr_database_history.specs.Recorded.{Done, plain, ran, conflict, clash, own, taken, ddl, sync, pass, note};

/// What an entry does: an Own applies its changes; a From its ops one after the other, each with the changes of its outcome, an Exec that
/// ran with its statement too, a conflict with what the triggers inserted and then its row, of a Set that of the table it names, a clash with nothing; a statement applies
/// to the catalog; and one that is passed on and ran here applies its changes and then itself.
#[tactic(auto, unfolding(crate::specs::Folds::next, crate::specs::Folds::with_statement))]
pub fn entries_do()
    ensures own { (s : State) (changes : List RowChange) → next s (own changes) ≡ record s { rows = applied s.catalog changes s.rows } }
    ensures taken_none { (s : State) (user : Name) (at : Place) → next s (taken user at []) ≡ s }
    ensures taken_more { (s : State) (user : Name) (at : Place) (dones : List Done) (d : Done)
        → next s (taken user at (dones ++ d ∷ [])) ≡ after_done d (next s (taken user at dones)) }
    ensures plain { (s : State) (op : AnOp) (changes : List RowChange)
        → after_done (plain op changes) s ≡ record s { rows = applied s.catalog changes s.rows } }
    ensures ran { (s : State) (statement : Statement) (changes : List RowChange)
        → after_done (ran statement changes) s ≡ with_statement statement (next s (own changes)) }
    ensures conflict { (s : State) (op : AnOp) (inserts : List RowChange) (before after : List Cell)
        → after_done (conflict op inserts before after) s ≡ next s (own (inserts ++ row_change op before after ∷ [])) }
    ensures row { (table : Name) (key : List (Name × Cell)) (columns : List (Name × Cell × Cell)) (before after : List Cell)
        → row_change (Set table key columns) before after ≡ record { table = table; before = Some before; after = Some after } }
    ensures clash { (s : State) (op : AnOp) (why : Why) → after_done (clash op why) s ≡ s }
    ensures ddl { (s : State) (statement : Statement) → next s (ddl statement) ≡ with_statement statement s }
    ensures catalog { (s : State) (statement : Statement) → (with_statement statement s).catalog ≡ catalog_after s.catalog statement }
    ensures pass { (s : State) (users : List Name) (statement : Statement) (changes : List RowChange)
        → next s (pass users false statement changes) ≡ with_statement statement (next s (own changes)) }
{}

/// A Sync, a Note and a statement that is for others only leave the state as it is; a table that is dropped, however that comes, leaves
/// no row.
#[tactic(auto, using(crate::proofs::Bounds::dropped, crate::proofs::Bounds::dropped_by_ddl), unfolding(crate::specs::Folds::next))]
pub fn entries_do_no_more()
    ensures syncs { (s : State) (user : Name) (tables : List (Name × List (List Cell))) → next s (sync user tables) ≡ s }
    ensures notes { (s : State) (user : Name) (what : BookNote) → next s (note user what) ≡ s }
    ensures others { (s : State) (users : List Name) (statement : Statement) (changes : List RowChange) → next s (pass users true statement changes) ≡ s }
    ensures dropped { (s : State) (table : Name) (key : List Cell) → rows_of_table (with_statement (DropTable table) s).rows table key ≡ None }
    ensures ddl { (s : State) (table : Name) (key : List Cell) → rows_of_table (next s (ddl (DropTable table))).rows table key ≡ None }
{}
