//! Traces of commits and puts. Each function does nothing: it carries laws as its clauses.

ghost use Rattle.std.specs.Prelude.{◌≡◌, Bool, List, ℕ, [], ◌∷◌, ◌++◌};
ghost use Rattle.std.specs.List.{AllByRecursion};
ghost use Rattle.sr_book.specs.Entries.{Name};
ghost use Rattle.sr_database_history.specs.Recorded.{Recorded};
ghost use Rattle.sr_site.specs.Files.{Files};
ghost use Rattle.sr_site.specs.Happenings.{Happening, IsCall, sent};
ghost use Rattle.sr_site.specs.Images.{IsImage, IsSettled};
ghost use Rattle.sr_site.specs.Seen.{Seen};
ghost use Rattle.sr_database_meaning.specs.Bases.{KeepsBase};
ghost use Rattle.sr_database_meaning.specs.Events.{Event, commit, put, commits, puts, puts_in, attaches_in};
ghost use Rattle.sr_database_meaning.specs.Inner.Events.{AreQuiet};
ghost use Rattle.sr_database_meaning.specs.Inner.Going.{HasPassedJoints, WhereOneIsCommitted, WhereOneIsPut};
ghost use Rattle.sr_database_meaning.specs.Standing.{StandsAs};
ghost use Rattle.sr_database_meaning.specs.Traces.{MayStandFor, IsOnTrace, Went};

/// Where nothing happens, and where nothing happens but listings, fetches and removals, a settled site goes through the empty trace, and a
/// crash leaves what it might have left before.
#[tactic(auto, using(crate::proofs::Going::nothing, crate::proofs::Going::quiet, crate::proofs::Going::quiet_before))]
pub fn nothing_is_no_event()
    ensures went_none { (seen : Seen) (publisher : Name) (es : List Recorded) → IsSettled (StandsAs publisher es) seen → Went seen seen publisher es [] }
    ensures went_quiet { (before now : Seen) (publisher : Name) (es : List Recorded) (more : List Happening) → IsSettled (StandsAs publisher es) before
        → now.observable ≡ before.observable → now.first ≡ before.first → now.happened ≡ more ++ before.happened → AreQuiet more → Went before now publisher es [] }
    ensures images { (before now : Seen) (more : List Happening) (image : Files) → now.first ≡ before.first → now.happened ≡ more ++ before.happened → AreQuiet more
        → IsImage now image → IsImage before image }
{}

/// Where each image at each moment stands for the history before or for it and one entry more, and something happens but no call of the mail and no attach,
/// and the log keeps its base, the site goes through that one commit.
#[tactic(auto, using(crate::proofs::Going::one_commit))]
pub fn a_commit_is_an_event()
    ensures went_one_commit { (before now : Seen) (publisher : Name) (es : List Recorded) (r : Recorded)
        → WhereOneIsCommitted before now publisher es r (Went before now publisher es (commit r ∷ [])) }
{}

/// Where one put happens, done or not, a settled site goes through that one item, and a crash leaves what it
/// might have left before.
#[tactic(auto, using(crate::proofs::Going::one_put, crate::proofs::Going::put_before))]
pub fn a_put_is_an_event()
    ensures went_one_put { (before now : Seen) (publisher : Name) (es : List Recorded) (address name bytes : List ℕ) (done : Bool)
        → WhereOneIsPut before now publisher es (sent address name bytes done) (Went before now publisher es (put address name bytes ∷ [])) }
    ensures images { (before now : Seen) (address name bytes : List ℕ) (done : Bool) (image : Files) → now.first ≡ before.first
        → now.happened ≡ sent address name bytes done ∷ before.happened → IsImage now image → IsImage before image }
{}

/// What goes through one trace, and from there, with the entries that it committed, through another, goes through both joined.
#[tactic(auto, using(crate::proofs::Joining::joined))]
pub fn traces_join()
    ensures went_on { (before middle now : Seen) (publisher : Name) (es : List Recorded) (trace more : List Event) → Went before middle publisher es trace
        → Went middle now publisher (es ++ commits trace) more → Went before now publisher es (trace ++ more) }
{}

/// What one may read off: the messages that were put, in order; what a crash may leave in the end; at each moment on the way a prefix of the
/// trace that has begun; before each item a moment at which all that a crash may leave has just the items before it; that nothing was attached; that all
/// that happened are calls; and that the log keeps its base.
#[tactic(auto, using(crate::proofs::Going::telling))]
pub fn traces_tell()
    ensures put { (before now : Seen) (publisher : Name) (es : List Recorded) (trace : List Event) → Went before now publisher es trace
        → puts_in now.happened ≡ puts_in before.happened ++ puts trace }
    ensures images { (before now : Seen) (publisher : Name) (es : List Recorded) (trace : List Event) → Went before now publisher es trace
        → (image : Files) → IsImage now image → MayStandFor publisher es trace image }
    ensures moments { (before now : Seen) (publisher : Name) (es : List Recorded) (trace : List Event) (later earlier : List Happening) → Went before now publisher es trace
        → now.happened ≡ later ++ (earlier ++ before.happened) → IsOnTrace before.first publisher es before.happened trace earlier }
    ensures joints { (before now : Seen) (publisher : Name) (es : List Recorded) (trace : List Event) → Went before now publisher es trace
        → HasPassedJoints before now publisher es trace }
    ensures grows { (before now : Seen) (publisher : Name) (es : List Recorded) (trace : List Event) → Went before now publisher es trace
        → (now.observable ≡ before.observable) × (now.first ≡ before.first) }
    ensures attached { (before now : Seen) (publisher : Name) (es : List Recorded) (trace : List Event) → Went before now publisher es trace
        → attaches_in now.happened ≡ attaches_in before.happened }
    ensures calls { (before now : Seen) (publisher : Name) (es : List Recorded) (trace : List Event) → Went before now publisher es trace
        → (more : List Happening) × (now.happened ≡ more ++ before.happened) × AllByRecursion IsCall more }
    ensures base { (before now : Seen) (publisher : Name) (es : List Recorded) (trace : List Event) → Went before now publisher es trace → KeepsBase before now }
{}
