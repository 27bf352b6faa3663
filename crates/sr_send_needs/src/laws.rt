//! Laws of needs. Each function does nothing: it carries a law as its clauses.

ghost use Rattle.std.specs.Prelude.{◌≡◌, ◌≤◌, ◌++◌, ◌∷◌, [], ℕ, List};
ghost use Rattle.sr_book.specs.Books.{new_book};
ghost use Rattle.sr_book.specs.Entries.{Name};
ghost use Rattle.sr_database_history.specs.Fitting.{Knows, Stored};
ghost use Rattle.sr_database_history.specs.Folds.{state_of, end_of, books_of};
ghost use Rattle.sr_database_history.specs.Recorded.{Recorded};
ghost use Rattle.sr_scan.specs.Given.{given_of};
ghost use Rattle.sr_send.specs.Passes.{waiting};
ghost use Rattle.sr_send.specs.Unsent.{unsent};
ghost use Rattle.sr_send_needs.specs.Inner.Ends.{IsEndOf};
ghost use Rattle.sr_send_needs.specs.Inner.Needs.{SendsOn, KeepsUnsent};
ghost use Rattle.sr_send_needs.specs.Needs.{AreOrdered, KeepsNeeds, least_need};

/// A user who is not granted has a book of eight zeros, and was given nothing.
pub fn who_is_not_granted_needs_nothing()
    ensures book { (publisher user : Name) (es : List Recorded) → Stored publisher es → ¬ (Knows (state_of publisher es) user) → books_of user es ≡ new_book }
    ensures given { (publisher user : Name) (es : List Recorded) → Stored publisher es → ¬ (Knows (state_of publisher es) user) → given_of publisher es user ≡ [] }
{}

/// Where needs are kept at the base of a log, they are kept at the least need, and at each place up to that; and all that is to be sent to a user lies
/// past the base. For the last it is enough that the log keeps what lies past what was confirmed or was sent to him, whichever is less.
pub fn what_is_needed_is_kept()
    ensures least { (publisher : Name) (es : List Recorded) (base : ℕ) → Stored publisher es → KeepsNeeds publisher es base → KeepsNeeds publisher es (least_need publisher es base) }
    ensures up_to { (publisher : Name) (es : List Recorded) (base keep : ℕ) → Stored publisher es → KeepsNeeds publisher es base → keep ≤ least_need publisher es base
        → KeepsNeeds publisher es keep }
    ensures sent { (publisher : Name) (es : List Recorded) (base : ℕ) (user : Name) → KeepsNeeds publisher es base
        → waiting base publisher es user (books_of user es) ≡ unsent publisher es user (books_of user es).log_sent }
    ensures unsent { (publisher : Name) (es : List Recorded) (base : ℕ) (user : Name) → KeepsUnsent publisher es base
        → waiting base publisher es user (books_of user es) ≡ unsent publisher es user (books_of user es).log_sent }
{}

/// The least need is the base of the log, or the end of an entry past it: a log may be begun anew there.
pub fn a_need_is_an_end()
    ensures end { (publisher : Name) (es : List Recorded) (base : ℕ) → IsEndOf es (least_need publisher es base) }
    ensures from_base { (publisher : Name) (es : List Recorded) (base : ℕ) → IsEndOf es base → base ≤ least_need publisher es base }
    ensures within { (publisher : Name) (es : List Recorded) (base : ℕ) → least_need publisher es base ≤ end_of es }
{}

/// Needs are kept at the beginning of a history, where no more is confirmed than was sent; and with an entry more at each place within the history, where it
/// keeps that. So is what lies past what was confirmed or was sent to a user, whichever is less: at the beginning whatever was confirmed, and with an
/// entry more where it notes no less as sent than was.
pub fn needs_go_on()
    ensures first { (publisher : Name) (es : List Recorded) → AreOrdered es → KeepsNeeds publisher es 0 }
    ensures one_more { (publisher : Name) (es : List Recorded) (r : Recorded) (base : ℕ) → base ≤ end_of es → KeepsNeeds publisher es base → AreOrdered (es ++ r ∷ [])
        → KeepsNeeds publisher (es ++ r ∷ []) base }
    ensures first_unsent { (publisher : Name) (es : List Recorded) → KeepsUnsent publisher es 0 }
    ensures one_more_unsent { (publisher : Name) (es : List Recorded) (r : Recorded) (base : ℕ) → base ≤ end_of es → KeepsUnsent publisher es base → SendsOn es r
        → KeepsUnsent publisher (es ++ r ∷ []) base }
{}
