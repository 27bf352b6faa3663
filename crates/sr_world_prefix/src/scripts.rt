//! Runs of a script, and the partners of the database.

ghost use Rattle.std.specs.Prelude.{List};
ghost use Rattle.sr_book.specs.Entries.{Name};
ghost use Rattle.sr_database_history.specs.Recorded.{Recorded};
ghost use Rattle.sr_world_prefix.specs.Inner.Partners.{StaysInStepWith};
ghost use Rattle.sr_world_prefix.specs.Inner.Runs.{WhereAScriptDid};

/// A run of a script keeps the histories of partners in step, at each of its moments: all that it commits is this database's own.
pub fn a_script_keeps_partners_in_step()
    ensures ran { (user : Name) (us : List Recorded) → WhereAScriptDid (StaysInStepWith user us) }
{}
