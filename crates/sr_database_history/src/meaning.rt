//! Recorded entries, and the entries that stand for them in a log. The function does nothing: it carries the laws as its clauses.

ghost use Rattle.std.specs.Prelude.{◌≡◌, ℕ, List, ◌++◌};
ghost use Rattle.sr_logform.specs.Entries.{entry_spelling, IsEntry};
ghost use Rattle.sr_database_history.specs.Recorded.{Done, Recorded, done_of, entry_of, IsLawfulDone, IsRecorded};

/// Each is that of one: an op and its outcome of one thing done, an entry of one recorded entry, and so is what bytes begin with.
#[tactic(auto, using(crate::proofs::Once::done_once, crate::proofs::Once::entry_once, crate::proofs::Once::bytes_once))]
pub fn an_entry_is_meant_once()
    ensures dones { (a b : Done) → IsLawfulDone a → IsLawfulDone b → done_of a ≡ done_of b → a ≡ b }
    ensures entries { (a b : Recorded) → IsRecorded a → IsRecorded b → entry_of a ≡ entry_of b → a ≡ b }
    ensures bytes { (a b : Recorded) (rest more : List ℕ) → IsRecorded a → IsRecorded b → IsEntry (entry_of a) → IsEntry (entry_of b)
        → entry_spelling (entry_of a) ++ rest ≡ entry_spelling (entry_of b) ++ more → (a ≡ b) × (rest ≡ more) }
{}
