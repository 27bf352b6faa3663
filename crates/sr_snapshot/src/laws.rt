//! What snapshots are. Each function does nothing: it carries its law as its clauses.

ghost use Rattle.std.specs.Prelude.{◌≡◌, ◌+◌, ℕ, List, [], ◌∷◌, ◌++◌, length};
ghost use Rattle.sr_base.specs.Fields.{IsName, name_spelling};
ghost use Rattle.sr_database_history.specs.Fitting.{Stored};
ghost use Rattle.sr_database_history.specs.Recorded.{Recorded};
ghost use Rattle.sr_snapshot.specs.Inner.Beginnings.{first_of};
ghost use Rattle.sr_snapshot.specs.Beginnings.{Beginning, IsBeginning, beginning_behind};
ghost use Rattle.sr_snapshot.specs.Parts.{magic};
ghost use Rattle.sr_snapshot.specs.Snapshots.{IsSnapshot, snapshot_spelling};

/// Bytes are a snapshot of one beginning at most: a snapshot tells the offset, the catalog, the rows and the books.
#[tactic(auto, using(crate::proofs::Uniqueness::one_beginning))]
pub fn a_snapshot_is_of_one_beginning()
    ensures one { (b d : Beginning) (bytes : List ℕ) → IsSnapshot b bytes → IsSnapshot d bytes → b ≡ d }
{}

/// The snapshot of a database without an entry has the offset 0, its publisher, and no statement, table and book: a name of four bytes makes 33.
#[tactic(auto, using(crate::proofs::Firsts::first_length))]
pub fn the_first_snapshot_has_no_items()
    ensures is { (publisher : List ℕ) → IsName publisher → IsSnapshot (first_of publisher) (snapshot_spelling (first_of publisher)) }
    ensures bytes { (publisher : List ℕ) → snapshot_spelling (first_of publisher) ≡ magic ++ (0 ∷ 0 ∷ 0 ∷ 0 ∷ 0 ∷ 0 ∷ 0 ∷ 0 ∷ (name_spelling publisher ++ (0 ∷ 0 ∷ 0 ∷ 0 ∷ 0 ∷ 0 ∷ 0 ∷ 0 ∷ 0 ∷ 0 ∷ 0 ∷ 0 ∷ []))) }
    ensures length { (publisher : List ℕ) → length (snapshot_spelling (first_of publisher)) ≡ 29 + length publisher }
{}

/// What a history comes to that may stand in a log is a beginning: so it has a snapshot, where that is no longer than one may be.
pub fn a_history_has_a_beginning()
    ensures nothing { (publisher : List ℕ) → beginning_behind publisher [] ≡ first_of publisher }
    ensures is { (publisher : List ℕ) (es : List Recorded) → IsName publisher → Stored publisher es → IsBeginning (beginning_behind publisher es) }
{}
