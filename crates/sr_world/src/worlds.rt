//! Steps and runs of real databases.

ghost use Rattle.std.specs.Prelude.{◌≡◌, ◌≢◌, List};
ghost use Rattle.sr_book.specs.Entries.{Name};
ghost use Rattle.sr_database_history.specs.Recorded.{Recorded};
ghost use Rattle.sr_world_model.specs.Runs.{WorldRun, after_world_runs};
ghost use Rattle.sr_world_model.specs.Inner.Laws.{RunsMayBreakOff};
ghost use Rattle.sr_world_model.specs.Inner.Runs.{acts_of_runs};
ghost use Rattle.sr_world_model.specs.Steps.{DatabaseStep};
ghost use Rattle.sr_world_model.specs.Worlds.{World, WorldStep, history, happens, after_all, acts_by, IsNamed};
ghost use Rattle.sr_world_model.specs.Worlds.{fresh_world, AreAmong};
ghost use Rattle.sr_msgform.specs.declared.message.Message.{Message};
ghost use Rattle.sr_world.specs.Real.{layers, HasSpelling, IsGoodWorld, LawfulHistory, MayDo};
ghost use Rattle.sr_world.specs.Real.{AreRunsIn};
ghost use Rattle.sr_world.specs.Inner.Real.{IsStep, AreSteps};

use crate::layers::Real;
use sr_world_model::{
    always_good, fresh_is_good, run_good, run_still_allowed, runs_good, stays_good, still_allowed,
};

/// Databases without entries and messages are a good world. Whatever any of them then does, as far as its own history and the messages that
/// were ever put allow it, each database is the fold of its own transactions and of a beginning of what each partner's log gives it, in
/// order and each once; no offset is confirmed past what was taken; and every message is true of its sender's history.
pub fn every_step_keeps_a_world_good()
    ensures fresh { (names : List Name) → IsGoodWorld (fresh_world names) }
    ensures step { (w : World Recorded) (act : WorldStep Recorded) → IsGoodWorld w → IsStep w act → IsGoodWorld (happens w act) }
    ensures steps { (w : World Recorded) (acts : List (WorldStep Recorded)) → IsGoodWorld w → AreSteps w acts → IsGoodWorld (after_all w acts) }
    ensures always { (names : List Name) (acts : List (WorldStep Recorded)) → AreSteps (fresh_world names) acts → IsGoodWorld (after_all (fresh_world names) acts) }
{
    fresh_is_good::<Real>();
    stays_good::<Real>();
    always_good::<Real>();
}

/// A step stays allowed when another database steps first, and so does all that a run does by what it knew when it fetched last.
pub fn what_is_allowed_stays_so()
    ensures step { (w : World Recorded) (other act : WorldStep Recorded) → act.owner ≢ other.owner → IsStep w act → IsStep (happens w other) act }
    ensures run { (fewer messages : List Message) (d : Name) (rs : List Recorded) (database_steps : List (DatabaseStep Recorded)) → AreAmong fewer messages
        → MayDo fewer d rs database_steps → MayDo messages d rs database_steps }
{
    still_allowed::<Real>();
    run_still_allowed::<Real>();
}

/// What a database's own history and some messages allow it to do, one step after the other, are allowed steps of each world that has this
/// history and these messages among others; so runs, each by what it knew when it fetched last, leave a good world good, also where the
/// last breaks off anywhere.
pub fn runs_keep_a_world_good()
    ensures allowed { (messages : List Message) (d : Name) (rs : List Recorded) (database_steps : List (DatabaseStep Recorded)) (w : World Recorded) → IsNamed w d
        → history w d ≡ rs → AreAmong messages w.messages → MayDo messages d rs database_steps → AreSteps w (acts_by d database_steps) }
    ensures good { (messages : List Message) (d : Name) (rs : List Recorded) (database_steps : List (DatabaseStep Recorded)) (w : World Recorded) → IsNamed w d
        → history w d ≡ rs → AreAmong messages w.messages → MayDo messages d rs database_steps → IsGoodWorld w → IsGoodWorld (after_all w (acts_by d database_steps)) }
    ensures runs { (w : World Recorded) (runs : List (WorldRun Recorded)) → IsGoodWorld w → AreRunsIn w runs → IsGoodWorld (after_world_runs w runs) }
    ensures broken_off { RunsMayBreakOff layers HasSpelling LawfulHistory }
    ensures steps { (w : World Recorded) (runs : List (WorldRun Recorded)) → AreRunsIn w runs → AreSteps w (acts_of_runs runs) }
{
    run_good::<Real>();
    runs_good::<Real>();
}
