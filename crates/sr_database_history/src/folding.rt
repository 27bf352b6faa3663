//! Folds over histories: of nothing, of one entry more, and of two histories joined. Each function does nothing: it carries a law as its
//! clauses.

ghost use Rattle.std.specs.Prelude.{◌≡◌, ◌↔◌, ◌≤◌, ℕ, ◌+◌, List, [], ◌∷◌, ◌++◌};
ghost use Rattle.sr_book.specs.Books.{new_book};
ghost use Rattle.sr_book.specs.Entries.{Name, booked};
ghost use Rattle.sr_book.specs.Histories.{book_from};
ghost use Rattle.sr_database_history.specs.Fitting.{Knows, Fits, stored_from, Stored};
ghost use Rattle.sr_database_history.specs.Folds.{State, fresh, next, state_from, state_of, size, end_from, end_of, sees, books_of};
ghost use Rattle.sr_database_history.specs.Recorded.{Recorded};

/// The state: a new one of no entry; one step further with one entry more; of two histories joined, that of the second from where the
/// first ends.
#[tactic(auto, using(crate::proofs::Joined::joining))]
pub fn state_grows()
    ensures nothing { (publisher : Name) → state_of publisher [] ≡ fresh publisher }
    ensures one_more { (publisher : Name) (rs : List Recorded) (r : Recorded) → state_of publisher (rs ++ r ∷ []) ≡ next (state_of publisher rs) r }
    ensures joined { (publisher : Name) (rs qs : List Recorded) → state_of publisher (rs ++ qs) ≡ state_from (state_of publisher rs) qs }
{}

/// The end, in bytes: 0 of no entry; with one entry more the length of its body and five bytes later; of two histories joined, that of
/// the second from where the first ends.
#[tactic(auto, using(crate::proofs::Joined::joining))]
pub fn ends_grow()
    ensures nothing { end_of [] ≡ 0 }
    ensures one_more { (rs : List Recorded) (r : Recorded) → end_of (rs ++ r ∷ []) ≡ end_of rs + (size r + 5) }
    ensures joined { (rs qs : List Recorded) → end_of (rs ++ qs) ≡ end_from (end_of rs) qs }
    ensures later { (place : ℕ) (rs : List Recorded) → place ≤ end_from place rs }
{}

/// The book of a user: eight zeros of no entry; with one entry more the book that it changes; of two histories joined, that of the
/// second from where the first ends.
#[tactic(auto, using(crate::proofs::Joined::booking))]
pub fn books_grow()
    ensures nothing { (user : Name) → books_of user [] ≡ new_book }
    ensures one_more { (user : Name) (rs : List Recorded) (r : Recorded) → books_of user (rs ++ r ∷ []) ≡ booked user (books_of user rs) (sees r) }
    ensures joined { (user : Name) (rs qs : List Recorded) → books_of user (rs ++ qs) ≡ book_from sees user (books_of user rs) qs }
{}

/// A book that is folded from the beginning is the book of eight zeros at the grant, changed by what comes later: no transaction that
/// was taken and no note stands before the grant of its user, and who is granted stays so.
#[tactic(auto, using(crate::proofs::Granted::stays_known, crate::proofs::Granted::books_begin))]
pub fn books_begin_at_grants()
    ensures stays { (s : State) (r : Recorded) (user : Name) → Knows s user → Knows (next s r) user }
    ensures book { (publisher user : Name) (rs more : List Recorded) → Stored publisher rs → ¬ (Knows (state_of publisher rs) user)
        → books_of user (rs ++ more) ≡ books_of user more }
{}

/// Which histories may stand in a log: that of no entry; one of one entry more exactly where the shorter one may and the entry fits
/// behind it; two joined exactly where the first may, and the second from where the first ends.
#[tactic(auto, using(crate::proofs::Joined::joining))]
pub fn stored_grows()
    ensures nothing { (publisher : Name) → Stored publisher [] }
    ensures one_more { (publisher : Name) (rs : List Recorded) (r : Recorded) → Stored publisher (rs ++ r ∷ [])
        ↔ (Stored publisher rs × Fits (state_of publisher rs) (end_of rs) r) }
    ensures joined { (publisher : Name) (rs qs : List Recorded) → Stored publisher (rs ++ qs)
        ↔ (Stored publisher rs × stored_from (state_of publisher rs) (end_of rs) qs) }
{}
