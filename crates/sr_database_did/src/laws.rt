//! The law of effects. The function does nothing: it carries the law as its clause.

ghost use Rattle.std.specs.Prelude.{◌++◌, List};
ghost use Rattle.sr_database_did.specs.Inner.Did.{Did, PlaceView};
ghost use Rattle.sr_database_did.specs.Inner.Effects.{Effect, End, whole};

/// What was done in two stretches, of which the first ended well, was done in one.
pub fn effects_join()
    ensures effects { (a b c : PlaceView) (first more : List Effect) (end : End) → Did a b first whole → Did b c more end → Did a c (first ++ more) end }
{}
