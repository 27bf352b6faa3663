//! A small world that goes, so that no law and no condition of a step is empty.

ghost use Rattle.std.specs.Prelude.{◌≡◌, ℕ, List, [], ◌∷◌, length};
ghost use Rattle.sr_book.specs.Entries.{Name};
ghost use Rattle.sr_book.specs.Histories.{taken, book_of};
ghost use Rattle.sr_world_model.specs.Machines.{layers_of, lawful_by};
ghost use Rattle.sr_world_model.specs.Inner.Machines.{StepLaws, GrantLaws};
ghost use Rattle.sr_world_model.specs.Inner.Small.{SmallEntry, small, SmallHasSpelling, SmallFits, SmallHolds, SmallKnows};
ghost use Rattle.sr_world_model.specs.Inner.Small.{small_world, small_runs, small_acts, cons, r1, r2};
ghost use Rattle.sr_world_model.specs.Runs.{AreWorldRuns};
ghost use Rattle.sr_world_model.specs.Worlds.{history, after_all, IsGood};
ghost use Rattle.sr_world_model.specs.Inner.Worlds.{AreAllowed};

use crate::below::{Rules, StepRules};
use crate::folded::has_laws;
use crate::goodness::always_good;
use crate::runs::runs_good;

/// Stands for the entries and rules of the small world.
struct SmallRules;

impl Rules for SmallRules {
    ghost Entry = { SmallEntry };

    ghost Ops = { List ℕ };

    ghost HasSpelling = { SmallHasSpelling };

    ghost lawful = { lawful_by small SmallFits };
}

impl StepRules for SmallRules {
    ghost State = { Name };

    ghost Entry = { SmallEntry };

    ghost Ops = { List ℕ };

    ghost HasSpelling = { SmallHasSpelling };

    ghost Fits = { SmallFits };

    ghost Holds = { SmallHolds };

    ghost Knows = { SmallKnows };
}

/// Three databases, eight runs, 28 steps: commits, windows for two users, one of them in two fragments; a window that is found before
/// the one it follows, the ask for that one, its note, and both sent again as one window; takes from the fragments and from the window
/// sent again, which begins before what was taken; a crash; an answer that confirms; a take that conflicts, and gives its origin
/// something back, which is sent and taken. They are runs, each step is allowed, and the world is then good. r1 has taken all that
/// cons gives it, the others have taken theirs, and the books tell what was sent, confirmed, asked for and raised.
pub fn small_world_goes()
    ensures laws { StepLaws small SmallHasSpelling SmallFits SmallHolds }
    ensures grants { GrantLaws small SmallFits SmallKnows }
    ensures runs { AreWorldRuns (layers_of small) SmallHasSpelling (lawful_by small SmallFits) small_world small_runs }
    ensures steps { length small_acts ≡ 28 }
    ensures allowed { AreAllowed (layers_of small) SmallHasSpelling (lawful_by small SmallFits) small_world small_acts }
    ensures good { IsGood (layers_of small) (lawful_by small SmallFits) (after_all small_world small_acts) }
    ensures taken { taken small.sees cons (history (after_all small_world small_acts) r1)
        ≡ (15, 1 ∷ 2 ∷ 3 ∷ []) ∷ (75, 4 ∷ []) ∷ (150, 107 ∷ []) ∷ [] }
    ensures taken_by_r2 { taken small.sees cons (history (after_all small_world small_acts) r2) ≡ (30, 6 ∷ []) ∷ [] }
    ensures taken_by_cons { taken small.sees r1 (history (after_all small_world small_acts) cons) ≡ (75, 7 ∷ []) ∷ [] }
    ensures given { (layers_of small).given cons r1 (history (after_all small_world small_acts) cons)
        ≡ (15, 1 ∷ 2 ∷ 3 ∷ []) ∷ (75, 4 ∷ []) ∷ (150, 107 ∷ []) ∷ [] }
    ensures confirmed { (book_of small.sees r1 (history (after_all small_world small_acts) cons)).confirm_sent ≡ 75 }
    ensures sent { (book_of small.sees r1 (history (after_all small_world small_acts) cons)).log_sent ≡ 150 }
    ensures asked { (book_of small.sees r1 (history (after_all small_world small_acts) cons)).resend_count ≡ 1 }
    ensures raised { (book_of small.sees cons (history (after_all small_world small_acts) r1)).rereceive_count ≡ 1 }
{
    has_laws::<SmallRules>();
    runs_good::<SmallRules>();
    always_good::<SmallRules>();
}
