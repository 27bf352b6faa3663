//! Histories that share a snapshot. Each function does nothing: it carries laws as its clauses.

ghost use Rattle.std.specs.Prelude.{◌≡◌, ℕ, List, [], ◌∷◌, ◌++◌};
ghost use Rattle.sr_book.specs.Entries.{Name};
ghost use Rattle.sr_database_history.specs.Fitting.{Stored};
ghost use Rattle.sr_database_history.specs.Folds.{state_of, end_of, books_of};
ghost use Rattle.sr_database_history.specs.Recorded.{Recorded};
ghost use Rattle.sr_site.specs.Files.{Files};
ghost use Rattle.sr_database_meaning.specs.Inner.Alike.{AreAlike};
ghost use Rattle.sr_database_meaning.specs.Standing.{StandsFor};

/// Histories that are alike from an offset on come to one state, one end and one book for each user, and go on to do so with an entry more; files whose log
/// begins there and that stand for the one stand for the other. Where nothing lies before the offset they are one history.
#[tactic(auto, using(crate::proofs::Alike::alike_itself, crate::proofs::Alike::alike_back, crate::proofs::Alike::alike_more))]
pub fn alike_histories_come_to_the_same()
    ensures itself { (publisher : Name) (es : List Recorded) (base : ℕ) (files : Files) → StandsFor publisher es base files → AreAlike publisher es es base }
    ensures back { (publisher : Name) (es others : List Recorded) (base : ℕ) → AreAlike publisher es others base → AreAlike publisher others es base }
    ensures state { (publisher : Name) (es others : List Recorded) (base : ℕ) → AreAlike publisher es others base → state_of publisher es ≡ state_of publisher others }
    ensures end { (publisher : Name) (es others : List Recorded) (base : ℕ) → AreAlike publisher es others base → end_of es ≡ end_of others }
    ensures books { (publisher : Name) (es others : List Recorded) (base : ℕ) → AreAlike publisher es others base → (user : Name) → books_of user es ≡ books_of user others }
    ensures more { (publisher : Name) (es others : List Recorded) (r : Recorded) (base : ℕ) → AreAlike publisher es others base → Stored publisher (es ++ r ∷ [])
        → AreAlike publisher (es ++ r ∷ []) (others ++ r ∷ []) base }
    ensures files { (publisher : Name) (es others : List Recorded) (base : ℕ) (files : Files) → AreAlike publisher es others base → StandsFor publisher es base files
        → StandsFor publisher others base files }
    ensures first { (publisher : Name) (es others : List Recorded) → AreAlike publisher es others 0 → es ≡ others }
{}
