//! Laws of windows and fragments. Each is the contract of a function that does nothing.

ghost use Rattle.std.specs.Prelude.{◌≡◌, ℕ, Bool, IsTrue, List, []};
ghost use Rattle.std.specs.List.{AllByRecursion};
ghost use Rattle.sr_mail.specs.declared.piece.Piece.{Piece as APiece};
ghost use Rattle.sr_mail.specs.declared.window.Window.{Window as AWindow};
ghost use Rattle.sr_mail.specs.Assembled.{IsAssembled};
ghost use Rattle.sr_mail.specs.Reaching.{Leads, IsFar};
ghost use Rattle.sr_mail_cut.specs.Truths.{IsFragmentOf};
ghost use Rattle.sr_msgform.specs.declared.message.Message.{Message as AMessage};

/// Fragments that are true of a body are put together to it.
pub fn true_fragments_make_the_body()
    ensures { (body : List ℕ) (pieces : List (APiece × AMessage)) (bytes : List ℕ) → AllByRecursion (λ p. IsFragmentOf body p.1) pieces → ¬ (pieces ≡ []) → IsAssembled pieces bytes → bytes ≡ body }
{}

/// The offset that windows reach is found by taking one that leads on after the other, in any order, until none does.
pub fn an_offset_is_far_step_by_step()
    ensures stays { (of_kind : AWindow → Bool) (from : ℕ) → ((w : AWindow) → IsTrue (of_kind w) → ¬ (Leads w from)) → IsFar (λ w. IsTrue (of_kind w)) from from }
    ensures goes_on { (of_kind : AWindow → Bool) (from far : ℕ) (w : AWindow) → IsTrue (of_kind w) → Leads w from → IsFar (λ w. IsTrue (of_kind w)) w.upto far → IsFar (λ w. IsTrue (of_kind w)) from far }
{}
