ghost use Rattle.std.specs.Prelude.{◌≡◌, ◌⊎◌, List, ℕ};
ghost use Rattle.sr_logfile.specs.Damage.{IsDamaged, IsDamagedSomewhere, IsSpelled};
ghost use Rattle.sr_logfile.specs.Inner.Damage.{AreBytes};
ghost use Rattle.sr_logfile.specs.Records.{Spells};

/// A file of any bytes stands for exactly one base and one list of bodies, or it is damaged at exactly one place, and never both.
pub fn one_spelling_or_one_damage()
    ensures some { (bytes : List ℕ) → AreBytes bytes → IsSpelled bytes ⊎ IsDamagedSomewhere bytes }
    ensures one_spelling { (bytes : List ℕ) (base other : ℕ) (bodies others : List (List ℕ)) → Spells base bodies bytes → Spells other others bytes → (base ≡ other) × (bodies ≡ others) }
    ensures one_damage { (bytes : List ℕ) (place other : ℕ) → IsDamaged bytes place → IsDamaged bytes other → place ≡ other }
    ensures never_both { (bytes : List ℕ) (base place : ℕ) (bodies : List (List ℕ)) → Spells base bodies bytes → IsDamaged bytes place → ⊥ }
{}
