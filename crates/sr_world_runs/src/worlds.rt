//! Whole runs as steps of a world of databases.

ghost use Rattle.sr_book.specs.Entries.{Name};
ghost use Rattle.sr_database_history.specs.Recorded.{Recorded};
ghost use Rattle.sr_world_model.specs.Worlds.{World};
ghost use Rattle.sr_site.specs.Causes.{DiskStays};
ghost use Rattle.sr_site.specs.Images.{IsImage, RestsThroughout};
ghost use Rattle.sr_site.specs.Seen.{Seen};
ghost use Rattle.sr_world_prefix.specs.Inner.Runs.{WhereAScriptRanFromQuiet, WhereTheAgentRanFromQuiet};
ghost use Rattle.sr_world_runs.specs.Worlds.{MakesSteps};

/// A whole run makes steps of a good world alone: one that changes nothing and leaves the mail alone; one that opens a database and runs the agent on it;
/// one that opens it and runs a script. So whatever a crash leaves at any moment of it is a history to which that of the world leads by steps that are
/// allowed, and these put what was put until then. Such steps keep the world good, whatever the other databases do (`runs_keep_a_world_good`
/// of sr_world).
pub fn whole_runs_make_steps_of_a_world()
    ensures untouched { (w : World Recorded) (owner : Name) (before now : Seen) → RestsThroughout (IsImage before) before now → DiskStays before now → MakesSteps w owner before now }
    ensures agent { (w : World Recorded) → WhereTheAgentRanFromQuiet (MakesSteps w) }
    ensures script { (w : World Recorded) → WhereAScriptRanFromQuiet (MakesSteps w) }
{}
