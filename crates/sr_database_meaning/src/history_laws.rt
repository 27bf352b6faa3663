//! Files and histories. Each function does nothing: it carries laws as its clauses.

ghost use Rattle.std.specs.Prelude.{◌≡◌, ℕ, List};
ghost use Rattle.sr_book.specs.Entries.{Name};
ghost use Rattle.sr_database_history.specs.Fitting.{Stored};
ghost use Rattle.sr_database_history.specs.Recorded.{Recorded};
ghost use Rattle.sr_site.specs.Files.{Files};
ghost use Rattle.sr_database_meaning.specs.Inner.Alike.{AreAlike};
ghost use Rattle.sr_database_meaning.specs.Standing.{StandsFor, StandFrom};
ghost use Rattle.sr_snapshot.specs.Beginnings.{Beginning, beginning_behind};

/// Files stand for histories of one publisher at most, which are alike from the base of the log on: what they have before it comes to the same, and behind it they
/// have the same entries. Where the log begins at 0 they stand for one history alone. What they stand for may stand in a log.
#[tactic(auto, using(crate::proofs::Alike::alike, crate::proofs::Alike::whole, crate::proofs::Standing::is_stored))]
pub fn files_stand_for_alike_histories()
    ensures one { (publisher other : Name) (es others : List Recorded) (base place : ℕ) (files : Files) → StandsFor publisher es base files → StandsFor other others place files
        → (publisher ≡ other) × (base ≡ place) × AreAlike publisher es others base }
    ensures whole { (publisher other : Name) (es others : List Recorded) (place : ℕ) (files : Files) → StandsFor publisher es 0 files → StandsFor other others place files
        → (publisher ≡ other) × (es ≡ others) }
    ensures stored { (publisher : Name) (es : List Recorded) (base : ℕ) (files : Files) → StandsFor publisher es base files → Stored publisher es }
{}

/// Files that stand for a history stand behind what the entries before their log come to, with the entries that are left. They stand behind one beginning at
/// most, with one list of entries.
#[tactic(auto, using(crate::proofs::Standing::stand_behind, crate::proofs::Standing::one_standing))]
pub fn files_stand_behind_one_beginning()
    ensures history { (publisher : Name) (es : List Recorded) (base : ℕ) (files : Files) (stands : StandsFor publisher es base files)
        → StandFrom (beginning_behind publisher stands.done) stands.left files }
    ensures one { (b c : Beginning) (es fs : List Recorded) (files : Files) → StandFrom b es files → StandFrom c fs files → (b ≡ c) × (es ≡ fs) }
{}
