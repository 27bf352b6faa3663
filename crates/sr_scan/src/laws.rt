//! What holds of what a log gives. Each function does nothing: it carries a law as its clauses.

ghost use Rattle.std.specs.Prelude.{◌≡◌, ◌++◌, ◌∷◌, [], ℕ, ◌+◌, List, Option, None};
ghost use Rattle.std.specs.List.{AllByRecursion};
ghost use Rattle.sr_ast.specs.declared.stmt.Stmt.{Stmt as Statement};
ghost use Rattle.sr_ast.specs.declared.stmt.Stmt.TheVariants.{DropTable};
ghost use Rattle.sr_base.specs.declared.offset.Offset.{Offset as Place};
ghost use Rattle.sr_base.specs.declared.value.Value.{Value as Cell};
ghost use Rattle.sr_book.specs.Entries.{Name as Bytes};
ghost use Rattle.sr_database_history.specs.Fitting.{IsAccepted, Fits, Stored};
ghost use Rattle.sr_database_history.specs.Folds.{State, next, size, state_of, end_of, with_statement};
ghost use Rattle.sr_database_history.specs.Inner.Laws.{Holds};
ghost use Rattle.sr_database_history.specs.Recorded.{Recorded, entry_of, IsRecorded};
ghost use Rattle.sr_logform.specs.declared.entry.Entry.{Entry as LogEntry};
ghost use Rattle.sr_logform.specs.declared.op.Op.{Op as AnOp};
ghost use Rattle.sr_logform.specs.declared.op.Transaction.{Transaction as ATransaction};
ghost use Rattle.sr_catalog_schema.specs.Catalogs.{Lists};
ghost use Rattle.sr_catalog_schema.specs.declared.table.Column.{Column as AColumn};
ghost use Rattle.sr_scan.specs.Given.{view_in, gives, with_transaction, given_from, given_of};
ghost use Rattle.sr_scan.specs.Inner.Images.{told, catalog_after};
ghost use Rattle.sr_scan.specs.Inner.Laws.{AnswersAsGiven, HaveSpellings, IsOfTwoValues};
ghost use Rattle.sr_scan.specs.Ops.{differing};
ghost use Rattle.sr_scan.specs.Inner.Meanings.{texts_of, meant_by, AreMeant, IsGiven};
ghost use Rattle.sr_scan.specs.Inner.Scanners.{Scan, IsFed};

/// The statements that the texts of a recorded entry are, are those that it was recorded with. So the ops of an entry are one list, and a scanner answers
/// one thing.
pub fn what_is_given_is_one()
    ensures meant { (r : Recorded) (meant : List (Option Statement)) → IsRecorded r → AreMeant (texts_of (entry_of r)) meant → meant ≡ meant_by r }
    ensures once { (c : Lists) (e : LogEntry) (user : Bytes) (one other : List AnOp) → IsGiven c e user one → IsGiven c e user other → one ≡ other }
{}

/// A scanner sees the images in each entry and the catalog, never the rows. Yet where an entry fits the state before it, what it answers is what the
/// views before and after each change differ in, and the catalog that it goes on with is that of the history.
pub fn images_are_views()
    ensures told { (s : State) (place : ℕ) (r : Recorded) (user : Bytes) → Holds s → Fits s place r
        → told s.catalog (entry_of r) (meant_by r) user ≡ gives s r user }
    ensures catalog { (s : State) (place : ℕ) (r : Recorded) → Fits s place r → catalog_after s.catalog (meant_by r) ≡ (next s r).catalog }
    ensures given { (s : State) (place : ℕ) (r : Recorded) (user : Bytes) (ops : List AnOp) → Holds s → Fits s place r
        → IsGiven s.catalog (entry_of r) user ops → ops ≡ gives s r user }
    ensures fed { (s : State) (place : ℕ) (r : Recorded) (old new : Scan) (at : Place) (found : Option ATransaction) → Holds s → Fits s place r
        → old.catalog ≡ s.catalog → IsFed old at (entry_of r) found new
        → AnswersAsGiven s r old at found new }
{}

/// What a history gives: nothing of no entry; with one entry more its transaction at the end, if it gives one; of two histories joined, that of the
/// second from where the first ends.
#[tactic(auto, using(crate::proofs::Growing::one_more, crate::proofs::Growing::joined))]
pub fn given_grows()
    ensures nothing { (publisher user : Bytes) → given_of publisher [] user ≡ [] }
    ensures one_more { (publisher user : Bytes) (rs : List Recorded) (r : Recorded) → given_of publisher (rs ++ r ∷ []) user
        ≡ given_of publisher rs user ++ with_transaction (end_of rs + (size r + 5)) (gives (state_of publisher rs) r user) [] }
    ensures joined { (publisher user : Bytes) (rs qs : List Recorded) → given_of publisher (rs ++ qs) user
        ≡ given_of publisher rs user ++ given_from (state_of publisher rs) (end_of rs) qs user }
{}

/// What an entry of a stored history gives has a spelling: no op lists nothing, names a column twice or inserts NULL, and there are fewer than 2^32.
pub fn what_is_given_has_a_spelling()
    ensures spelled { (publisher user : Bytes) (rs : List Recorded) (r : Recorded) → Stored publisher (rs ++ r ∷ [])
        → HaveSpellings (gives (state_of publisher rs) r user) }
{}

/// A table may be dropped only where no publication names it: so nobody sees a row of it before, as nobody does after, and that a statement that
/// drops it gives nothing leaves no partner with rows that are gone.
pub fn a_dropped_table_is_not_seen()
    ensures before { (s : State) (table user : Bytes) (key : List Cell) → Holds s → IsAccepted s (DropTable table) → view_in s user table key ≡ None }
    ensures after { (s : State) (table user : Bytes) (key : List Cell) → view_in (with_statement (DropTable table) s) user table key ≡ None }
{}

/// The columns in which two rows differ, with their values before and after, have two values each. So whoever is given a row that changed, and does
/// not verify, is given what is set.
pub fn what_differs_has_two_values()
    ensures differ { (columns : List AColumn) (before after : List Cell) → AllByRecursion IsOfTwoValues (differing columns before after) }
{}
