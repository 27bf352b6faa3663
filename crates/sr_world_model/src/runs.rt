//! Runs of databases, each where its last fetch was.

ghost use Rattle.std.specs.Prelude.{◌≡◌, List};
ghost use Rattle.sr_world_model.specs.Layers.{Layers};
ghost use Rattle.sr_world_model.specs.Inner.Layers.{Laws};
ghost use Rattle.sr_world_model.specs.Worlds.{World, after_all, IsGood};
ghost use Rattle.sr_world_model.specs.Inner.Worlds.{AreAllowed};
ghost use Rattle.sr_world_model.specs.Runs.{WorldRun, after_world_runs, AreWorldRuns};
ghost use Rattle.sr_world_model.specs.Inner.Laws.{RunsMayBreakOff};
ghost use Rattle.sr_world_model.specs.Inner.Runs.{acts_of_runs};

use crate::below::Rules;

/// Whatever runs come, each allowed by its database's history and by messages that had been put when it fetched last: a good world
/// stays good, also where the last run breaks off anywhere; and the runs are one list of allowed steps, run after run.
pub fn runs_good<R: Rules>()
    ensures good { (p : Layers R.Entry R.Ops) (laws : Laws p R.HasSpelling R.lawful) (w : World R.Entry) (runs : List (WorldRun R.Entry)) →
        IsGood p R.lawful w → AreWorldRuns p R.HasSpelling R.lawful w runs → IsGood p R.lawful (after_world_runs w runs) }
    ensures beginning { (p : Layers R.Entry R.Ops) (laws : Laws p R.HasSpelling R.lawful) → RunsMayBreakOff p R.HasSpelling R.lawful }
    ensures steps { (p : Layers R.Entry R.Ops) (w : World R.Entry) (runs : List (WorldRun R.Entry)) → AreWorldRuns p R.HasSpelling R.lawful w runs →
        AreAllowed p R.HasSpelling R.lawful w (acts_of_runs runs) }
    ensures world { (w : World R.Entry) (runs : List (WorldRun R.Entry)) → after_world_runs w runs ≡ after_all w (acts_of_runs runs) }
{}
