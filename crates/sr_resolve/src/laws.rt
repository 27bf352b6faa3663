//! What judging keeps. Each function does nothing: it carries a law as its clauses.

ghost use Rattle.std.specs.Prelude.{◌≡◌, ◌↔◌, Bool, true, false, List, [], ◌∷◌, ◌++◌, Option, None, map};
ghost use Rattle.std.specs.List.{AllByRecursion};
ghost use Rattle.sr_base.specs.declared.offset.Offset.{Offset as Place};
ghost use Rattle.sr_base.specs.declared.value.Value.{Value as Cell};
ghost use Rattle.sr_ast.specs.declared.stmt.Stmt.{Stmt as Statement};
ghost use Rattle.sr_book.specs.Entries.{Name};
ghost use Rattle.sr_exec_dml.specs.Fitting.{RowsFit};
ghost use Rattle.sr_database_history.specs.Fitting.{Knows, DoneFits, DonesFit, FitsState};
ghost use Rattle.sr_database_history.specs.Folds.{State, after_done, after_dones, next};
ghost use Rattle.sr_database_history.specs.Recorded.{Done, taken, done_of, IsLawfulDone, IsNoExec, IsRecorded};
ghost use Rattle.sr_logform.specs.declared.op.Op.{Op as AnOp};
ghost use Rattle.sr_logform.specs.declared.outcome.Outcome.{Outcome as AnOutcome};
ghost use Rattle.sr_resolve.specs.Judging.{judged, IsStatementOf, IsJudged};
ghost use Rattle.sr_resolve.specs.Inner.Laws.{ChangesDiffer, AreAlikeAt, IsOfTwoValues};
ghost use Rattle.sr_resolve.specs.Named.{Updates, new_values};
ghost use Rattle.sr_resolve.specs.Taking.{op_of, done_by, done_judged, IsDoneJudged, AreJudged, is_above};
ghost use Rattle.sr_resolve.specs.Inner.Taking.{Asked, IsAsked, judged_all, after_judged};
ghost use Rattle.sr_rows.specs.Marks.{RowMap, rows_of_table};
ghost use Rattle.sr_catalog_schema.specs.Catalogs.{Lists};
ghost use Rattle.sr_catalog_schema.specs.declared.table.Column.{Column as AColumn};

/// An op has one outcome, in every state and whoever sent it, and carries one statement at most.
pub fn judging_has_one_answer()
    ensures statement { (o : AnOp) (a b : Option Statement) → IsStatementOf a o → IsStatementOf b o → a ≡ b }
    ensures outcome { (catalog : Lists) (rows : RowMap) (above : Bool) (o : AnOp) (a b : AnOutcome)
        → IsJudged catalog rows above o a → IsJudged catalog rows above o b → a ≡ b }
{}

/// What is judged in a state in which each row fits its table may stand in a log there: its changes fit, its statement is accepted, a
/// conflict's rows are those of its Set; and each change has two rows that differ.
pub fn judged_outcomes_fit()
    ensures fit { (s : State) (above : Bool) (o : AnOp) (statement : Option Statement) → RowsFit s.catalog s.rows → IsStatementOf statement o
        → DoneFits s (done_judged s above o statement) }
    ensures done { (s : State) (above : Bool) (o : AnOp) (statement : Option Statement)
        → done_judged s above o statement ≡ done_by o statement (judged s.catalog s.rows above o statement) }
    ensures meant { (s : State) (above : Bool) (o : AnOp) (statement : Option Statement) → IsStatementOf statement o
        → IsLawfulDone (done_judged s above o statement) }
    ensures stands { (s : State) (above : Bool) (o : AnOp) (statement : Option Statement) → IsStatementOf statement o
        → done_of (done_judged s above o statement) ≡ (o, judged s.catalog s.rows above o statement) }
    ensures differ { (s : State) (above : Bool) (o : AnOp) (statement : Option Statement) → RowsFit s.catalog s.rows → IsStatementOf statement o
        → ChangesDiffer (judged s.catalog s.rows above o statement) }
{}

/// The ops of a transaction, judged one after the other, each in the state that the one before has left: a clash leaves out its op alone.
/// What is done with them may stand in a log as one entry, up to the limits of length.
pub fn transactions_fit()
    ensures ops { (s : State) (above : Bool) (asked : List Asked) → AllByRecursion IsAsked asked
        → map op_of (judged_all s above asked) ≡ map (λ (a : Asked). a.0) asked }
    ensures fit { (s : State) (above : Bool) (asked : List Asked) → RowsFit s.catalog s.rows → AllByRecursion IsAsked asked
        → DonesFit s (judged_all s above asked) }
    ensures entry { (s : State) (user : Name) (at : Place) (above : Bool) (asked : List Asked) → RowsFit s.catalog s.rows
        → AllByRecursion IsAsked asked → Knows s user
        → FitsState s (taken user at (judged_all s above asked)) }
    ensures meant { (s : State) (user : Name) (at : Place) (above : Bool) (asked : List Asked) → AllByRecursion IsAsked asked
        → IsRecorded (taken user at (judged_all s above asked)) }
{}

/// Where the outcomes that stand in a log are the judged ones, the fold that reads them and the fold that judges agree; and outcomes are the
/// judged ones exactly where each is, in the state that those before it have left.
pub fn stored_outcomes_agree()
    ensures judged { (s : State) (above : Bool) (asked : List Asked) → AllByRecursion IsAsked asked → AreJudged s above (judged_all s above asked) }
    ensures only { (s : State) (above : Bool) (asked : List Asked) (dones : List Done) → AllByRecursion IsAsked asked → AreJudged s above dones
        → map op_of dones ≡ map (λ (a : Asked). a.0) asked → dones ≡ judged_all s above asked }
    ensures state { (s : State) (above : Bool) (asked : List Asked) → after_judged s above asked ≡ after_dones (judged_all s above asked) s }
    ensures next { (s : State) (user : Name) (at : Place) (asked : List Asked) (dones : List Done) → AllByRecursion IsAsked asked
        → AreJudged s (is_above s user) dones
        → map op_of dones ≡ map (λ (a : Asked). a.0) asked → next s (taken user at dones) ≡ after_judged s (is_above s user) asked }
    ensures one_more { (s : State) (above : Bool) (dones : List Done) (d : Done)
        → AreJudged s above (dones ++ d ∷ []) ↔ (AreJudged s above dones × IsDoneJudged (after_dones dones s) above d) }
{}

/// What an op from above leaves under a key of a table depends on the op, the table and the row that was there alone.
pub fn judging_from_above_is_local()
    ensures alike { (s q : State) (o : AnOp) (table : Name) (key : List Cell) → RowsFit s.catalog s.rows → RowsFit q.catalog q.rows → IsNoExec o
        → AreAlikeAt s q table key
        → rows_of_table (after_done (done_judged s true o None) s).rows table key ≡ rows_of_table (after_done (done_judged q true o None) q).rows table key }
{}

/// Where the two values of each update differ, as they do in what is given to one who does not verify, all columns are set, from below as from
/// above.
pub fn what_differs_is_set()
    ensures set { (updates : Updates) (columns : List AColumn) → AllByRecursion IsOfTwoValues updates
        → new_values false updates columns ≡ new_values true updates columns }
{}
