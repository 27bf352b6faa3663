//! What a history took from a user, which of its asks it noted, and what its book holds: the laws for no entry and for one more.
//!
//! An entry is of any type: `sees` says what a book sees of it.

ghost use Rattle.std.specs.Prelude.{◌≡◌, ℕ, ◌-◌, ◌^◌, ◌≤◌, List, [], ◌∷◌, ◌++◌};
ghost use Rattle.sr_book.specs.Books.{new_book};
ghost use Rattle.sr_book.specs.Entries.{Name, Sight, takes, asks, booked};
ghost use Rattle.sr_book.specs.Histories.{taken, taken_end, asked, book_from, book_of};
ghost use Rattle.sr_book.specs.Rising.{top};

/// What was taken from a user: nothing of no entry, and with one entry more what that entry takes.
pub fn taken_grows<Entry, Ops>()
    ensures nothing { (sees : Entry → Sight Ops) (user : Name) → taken sees user [] ≡ [] }
    ensures one_more { (sees : Entry → Sight Ops) (user : Name) (es : List Entry) (e : Entry) →
        taken sees user (es ++ e ∷ []) ≡ taken sees user es ++ takes user (sees e) }
    ensures joined { (sees : Entry → Sight Ops) (user : Name) (es fs : List Entry) →
        taken sees user (es ++ fs) ≡ taken sees user es ++ taken sees user fs }
{}

/// The counts of a user's asks that were noted: none of no entry, and with one entry more that of its ask.
pub fn asked_grows<Entry, Ops>()
    ensures nothing { (sees : Entry → Sight Ops) (user : Name) → asked sees user [] ≡ [] }
    ensures one_more { (sees : Entry → Sight Ops) (user : Name) (es : List Entry) (e : Entry) →
        asked sees user (es ++ e ∷ []) ≡ asked sees user es ++ asks user (sees e) }
    ensures joined { (sees : Entry → Sight Ops) (user : Name) (es fs : List Entry) →
        asked sees user (es ++ fs) ≡ asked sees user es ++ asked sees user fs }
{}

/// The book of a user: eight zeros of no entry, and with one entry more the book that this entry changes.
pub fn book_grows<Entry, Ops>()
    ensures nothing { (sees : Entry → Sight Ops) (user : Name) → book_of sees user [] ≡ new_book }
    ensures one_more { (sees : Entry → Sight Ops) (user : Name) (es : List Entry) (e : Entry) →
        book_of sees user (es ++ e ∷ []) ≡ booked user (book_of sees user es) (sees e) }
    ensures joined { (sees : Entry → Sight Ops) (user : Name) (es fs : List Entry) →
        book_of sees user (es ++ fs) ≡ book_from sees user (book_of sees user es) fs }
{}

/// The book agrees with the history that it is of: what was received ends where what was taken does, and no noted ask has a
/// greater count than the book's. The counts of asks never fall, since they stop at 2^64 - 1.
pub fn book_agrees<Entry, Ops>()
    ensures received { (sees : Entry → Sight Ops) (user : Name) (es : List Entry) →
        (book_of sees user es).log_received ≡ taken_end sees user es }
    ensures asks { (sees : Entry → Sight Ops) (user : Name) (es : List Entry) →
        top 0 (asked sees user es) ≤ (book_of sees user es).resend_count }
    ensures within { (sees : Entry → Sight Ops) (user : Name) (es : List Entry) →
        (book_of sees user es).rereceive_count ≤ 2 ^ 64 - 1 }
    ensures noted { (sees : Entry → Sight Ops) (user : Name) (es more : List Entry) →
        (book_of sees user es).resend_count ≤ (book_of sees user (es ++ more)).resend_count }
    ensures raised { (sees : Entry → Sight Ops) (user : Name) (es more : List Entry) →
        (book_of sees user es).rereceive_count ≤ (book_of sees user (es ++ more)).rereceive_count }
{}
