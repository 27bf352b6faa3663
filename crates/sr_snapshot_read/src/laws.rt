//! What damage of a snapshot is. The function does nothing: it carries its law as its clause.

ghost use Rattle.std.specs.Prelude.{◌≡◌, ℕ, List};
ghost use Rattle.sr_snapshot.specs.Beginnings.{Beginning};
ghost use Rattle.sr_snapshot.specs.Snapshots.{IsSnapshot};
ghost use Rattle.sr_snapshot_read.specs.Damages.{IsDamagedSnapshot};

/// Bytes that break somewhere are no snapshot.
pub fn damage_excludes_a_snapshot()
    ensures none { (b : Beginning) (bytes : List ℕ) (at : ℕ) → IsDamagedSnapshot bytes at → IsSnapshot b bytes → ⊥ }
{}

/// Bytes that break do so at one place.
pub fn bytes_break_at_one_place()
    ensures one { (bytes : List ℕ) (a b : ℕ) → IsDamagedSnapshot bytes a → IsDamagedSnapshot bytes b → a ≡ b }
{}
