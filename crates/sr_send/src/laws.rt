//! Laws of the messages of a pass. Each is the contract of a function that does nothing.

ghost use Rattle.std.specs.Prelude.{◌≡◌, ◌++◌, ◌∷◌, [], ℕ, Bool, List, Some};
ghost use Rattle.std.specs.List.{AllByRecursion};
ghost use Rattle.sr_base.specs.declared.offset.Offset.{Offset as Place};
ghost use Rattle.sr_book.specs.Entries.{Name as AName};
ghost use Rattle.sr_book.specs.declared.book.Book.{Book as ABook};
ghost use Rattle.sr_database_history.specs.Fitting.{Stored};
ghost use Rattle.sr_database_history.specs.Folds.{state_of};
ghost use Rattle.sr_database_history.specs.Recorded.{Recorded, entry_of};
ghost use Rattle.sr_logform.specs.Inner.Ops.{IsShortTransaction};
ghost use Rattle.sr_logform.specs.declared.op.Transaction.{Transaction as ATransaction};
ghost use Rattle.sr_msgform.specs.declared.message.Message.{Message as AMessage};
ghost use Rattle.sr_scan.specs.Inner.Scanners.{Scan, IsFed};
ghost use Rattle.sr_send.specs.Passes.{AreAll, waiting};
ghost use Rattle.sr_send.specs.Unsent.{unsent};
ghost use Rattle.sr_send.specs.Inner.TrueSentMessages.{IsTrueSentMessage};

/// Each message of a pass is true of the history, where the log keeps all that the history gives the user past what he was sent: it carries what the
/// history gives him in its window, and confirms what was taken from him.
pub fn what_is_put_is_true()
    ensures { (base : ℕ) (publisher : AName) (es : List Recorded) (user : AName) (book : ABook) (ask : Bool) (limit : ℕ) (messages : List AMessage) → waiting base publisher es user book ≡ unsent publisher es user book.log_sent
        → AreAll base publisher es user book ask limit messages → AllByRecursion (IsTrueSentMessage publisher es user book ask) messages }
{}

/// What a scanner finds in an entry of a history that a log may hold can be written, whatever the entry: no list in it is empty or too long, no column is
/// named twice, and nothing is NULL that may not be. So no pass over a disk that gives what was written to it ends for a transaction without a spelling.
pub fn what_a_history_gives_can_be_written()
    ensures { (publisher : AName) (done : List Recorded) (r : Recorded) (old new : Scan) (at : Place) (t : ATransaction) → Stored publisher (done ++ r ∷ []) → old.catalog ≡ (state_of publisher done).catalog
        → IsFed old at (entry_of r) (Some t) new → IsShortTransaction t }
{}
