//! What a restart makes of the history that the files stand for. Each function does nothing: it carries laws as its clauses.

ghost use Rattle.std.specs.Prelude.{◌≡◌, ℕ, List, Some};
ghost use Rattle.sr_book.specs.Entries.{Name};
ghost use Rattle.sr_database_history.specs.Recorded.{Recorded};
ghost use Rattle.sr_database_meaning.specs.Generations.{Generation, generation_in, log_of, generation_of, named};
ghost use Rattle.sr_database_meaning.specs.Restarts.{StandsAtBoth, StandsAtEither};
ghost use Rattle.sr_database_meaning.specs.Standing.{StandsFor};
ghost use Rattle.sr_database_restart.specs.Inner.Generations.{IsLogFile};
ghost use Rattle.sr_database_restart.specs.Inner.Laws.{HoldsHistory, Names};
ghost use Rattle.sr_database_restart.specs.Inner.Restarting.{HasBoth, IsRestarted, KeepsInForce, WentOn};
ghost use Rattle.sr_site.specs.Images.{IsSettled, RestsThroughout};
ghost use Rattle.sr_site.specs.Seen.{Seen};
ghost use Rattle.sr_site.specs.declared.file.File.{File as AFile};

/// Where every crash leaves files that stand for a history, and a root that names the generation in force, they stand for it at each moment up to the write of the root.
/// Where the other generation is given a snapshot and a log that hold the same history, every crash leaves files that stand for it at each moment, from the one base
/// or from the other; while the root is written both generations do so, whichever the root names; and in the end they do from the new base.
pub fn a_restart_keeps_what_stands()
    ensures keeps { (generation : Generation) (publisher : Name) (es : List Recorded) (base : ℕ) (before now : Seen) → IsSettled (StandsFor publisher es base) before → IsSettled (Names generation) before
        → RestsThroughout (KeepsInForce generation before) before now → RestsThroughout (StandsFor publisher es base) before now }
    ensures stands { (generation : Generation) (publisher : Name) (es : List Recorded) (base keep : ℕ) (snapshot log : List ℕ) (before now : Seen) → HoldsHistory publisher es keep snapshot log
        → IsSettled (StandsFor publisher es base) before → IsSettled (Names generation) before → WentOn generation snapshot log before now → RestsThroughout (StandsAtEither publisher es base keep) before now }
    ensures both { (generation : Generation) (publisher : Name) (es : List Recorded) (base keep : ℕ) (snapshot log : List ℕ) (before middle now : Seen) → HoldsHistory publisher es keep snapshot log
        → IsSettled (StandsFor publisher es base) before → IsSettled (Names generation) before → RestsThroughout (HasBoth generation snapshot log before) middle now
        → RestsThroughout (StandsAtBoth generation publisher es base keep) middle now }
    ensures new { (generation : Generation) (publisher : Name) (es : List Recorded) (keep : ℕ) (snapshot log : List ℕ) (before now : Seen) → HoldsHistory publisher es keep snapshot log
        → IsRestarted generation snapshot log before now → IsSettled (StandsFor publisher es keep) now }
{}

/// A log file is of one generation, which has no other; and a root names the generation whose byte stands in its first place.
pub fn a_generation_has_a_log_and_a_byte()
    ensures log { (generation : Generation) (file : AFile) → log_of generation ≡ file → IsLogFile file × (generation_of file ≡ generation) }
    ensures byte { (generation : Generation) (root : List ℕ) → generation_in (named generation root) ≡ Some generation }
{}
