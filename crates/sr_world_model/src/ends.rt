//! Where histories end.

ghost use Rattle.std.specs.Prelude.{◌≡◌, ℕ, ◌+◌, ◌≤◌, List, [], ◌∷◌, ◌++◌};
ghost use Rattle.sr_world_model.specs.Layers.{Layers, end_from, end_of};

use crate::below::Rules;

/// The end of a history, in bytes: 0 of no entry; with one entry more the length of its body and five bytes later; of two histories
/// joined, that of the second which goes on from the end of the first.
pub fn end_grows<R: Rules>()
    ensures nothing { (p : Layers R.Entry R.Ops) → end_of p [] ≡ 0 }
    ensures one_more { (p : Layers R.Entry R.Ops) (es : List R.Entry) (e : R.Entry) →
        end_of p (es ++ e ∷ []) ≡ end_of p es + (p.size e + 5) }
    ensures joined { (p : Layers R.Entry R.Ops) (place : ℕ) (es fs : List R.Entry) →
        end_from p place (es ++ fs) ≡ end_from p (end_from p place es) fs }
    ensures later { (p : Layers R.Entry R.Ops) (place : ℕ) (es : List R.Entry) → place ≤ end_from p place es }
{}
