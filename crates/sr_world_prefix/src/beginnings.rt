//! Runs of the agent, and the partners whose message files come.

ghost use Rattle.std.specs.Prelude.{IsTrue, List};
ghost use Rattle.sr_book.specs.Entries.{Name};
ghost use Rattle.sr_database.specs.Databases.{IsDatabase};
ghost use Rattle.sr_database.specs.Views.{View};
ghost use Rattle.sr_database_history.specs.Fitting.{Stored};
ghost use Rattle.sr_database_history.specs.Recorded.{Recorded};
ghost use Rattle.sr_world_prefix.specs.Inner.Partners.{StaysInStepWith};
ghost use Rattle.sr_world_prefix.specs.Inner.Runs.{WhereTheAgentDid};
ghost use Rattle.sr_world_prefix.specs.Forging.{NoneForged};

/// A run of the agent keeps the histories of partners in step. Where this database and a partner each took a beginning of what the other's log
/// gives it, and nothing that the run fetched of the partner's message files is forged, so it is of each history for which a crash leaves the files:
/// at each moment of the run, to its end or to the fault that ended it.
pub fn a_run_keeps_partners_in_step()
    ensures did { (user : Name) (us : List Recorded) (old : View) → Stored user us → WhereTheAgentDid (λ publisher es before now.
        IsTrue before.observable → IsDatabase old publisher es before → NoneForged publisher user us before now → StaysInStepWith user us publisher es before now) }
{}
