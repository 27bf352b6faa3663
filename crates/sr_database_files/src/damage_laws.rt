//! Damage and histories. The function does nothing: it carries laws as its clauses.

ghost use Rattle.std.specs.Prelude.{◌≡◌, ℕ, List};
ghost use Rattle.sr_book.specs.Entries.{Name};
ghost use Rattle.sr_database_files.specs.Damage.{IsMissing, IsDamagedAt};
ghost use Rattle.sr_database_history.specs.Recorded.{Recorded};
ghost use Rattle.sr_database_meaning.specs.Standing.{StandsFor, StandFrom};
ghost use Rattle.sr_site.specs.Files.{Files};
ghost use Rattle.sr_site.specs.declared.file.File.{File};
ghost use Rattle.sr_snapshot.specs.Beginnings.{Beginning};

/// Files that stand for a history, or behind a beginning of which there is none, are not missing and not damaged; those that are missing are not damaged; and
/// no files are damaged at two places.
#[tactic(auto, using(crate::proofs::Damaged::damages))]
pub fn damage_stands_for_nothing()
    ensures missing { (publisher : Name) (es : List Recorded) (base : ℕ) (files : Files) → StandsFor publisher es base files → ¬ (IsMissing files) }
    ensures damaged { (publisher : Name) (es : List Recorded) (base place : ℕ) (file : File) (files : Files) → StandsFor publisher es base files → ¬ (IsDamagedAt file place files) }
    ensures missing_behind { (b : Beginning) (es : List Recorded) (files : Files) → StandFrom b es files → ¬ (IsMissing files) }
    ensures damaged_behind { (b : Beginning) (es : List Recorded) (files : Files) → StandFrom b es files → (place : ℕ) (file : File) → ¬ (IsDamagedAt file place files) }
    ensures either { (place : ℕ) (file : File) (files : Files) → IsMissing files → ¬ (IsDamagedAt file place files) }
    ensures one { (place at : ℕ) (file other : File) (files : Files) → IsDamagedAt file place files → IsDamagedAt other at files → (file ≡ other) × (place ≡ at) }
{}
