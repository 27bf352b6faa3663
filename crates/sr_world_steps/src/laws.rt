//! A law of what is shown of worlds. The function does nothing: it carries the law as its clause.

ghost use Rattle.std.specs.Prelude.{◌≡◌};
ghost use Rattle.sr_database_history.specs.Recorded.{Recorded};
ghost use Rattle.sr_logform.specs.Rules.{AreDistinct};
ghost use Rattle.sr_world_model.specs.Worlds.{World as AWorld};
ghost use Rattle.sr_world_steps.specs.Inner.Shown.{names_of, Shown, Shows};

/// Where no name stands twice, one world is shown so: the entries of a log are those of one history.
#[tactic(auto, using(crate::proofs::Single::one_world))]
pub fn a_world_is_shown_once()
    ensures once { (w v : AWorld Recorded) (shown : Shown) → AreDistinct (names_of shown) → Shows w shown → Shows v shown → w ≡ v }
{}
