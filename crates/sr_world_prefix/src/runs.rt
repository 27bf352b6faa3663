//! Whole runs, from the moment at which nothing was opened yet.

ghost use Rattle.std.specs.Prelude.{[], List};
ghost use Rattle.sr_book.specs.Entries.{Name};
ghost use Rattle.sr_database_history.specs.Fitting.{Stored};
ghost use Rattle.sr_database_history.specs.Recorded.{Recorded};
ghost use Rattle.sr_site.specs.Images.{IsImage, RestsThroughout};
ghost use Rattle.sr_site.specs.Seen.{Seen};
ghost use Rattle.sr_world_prefix.specs.Inner.Runs.{WhereAScriptRan, WhereTheAgentRan};
ghost use Rattle.sr_world_prefix.specs.Decided.{KeepsDecided};
ghost use Rattle.sr_world_prefix.specs.Good.{IsGoodHistory, KeepsGood};
ghost use Rattle.sr_world_prefix.specs.Keeping.{KeepsPartner};

/// A whole run keeps each partner: one that changes nothing; one that opens a database and runs the agent on it; one that opens it and runs a script.
/// All that is asked of the opening is that a crash leaves then what it could have left before.
pub fn whole_runs_keep_partners()
    ensures untouched { (publisher user : Name) (us : List Recorded) (before now : Seen) → RestsThroughout (IsImage before) before now → KeepsPartner publisher user us before now }
    ensures agent { (user : Name) (us : List Recorded) → Stored user us → WhereTheAgentRan (λ publisher. KeepsPartner publisher user us) }
    ensures script { (user : Name) (us : List Recorded) → WhereAScriptRan (λ publisher. KeepsPartner publisher user us) }
{}

/// A whole run takes nothing but as judging has it, each op in the state that those before it leave: one that changes nothing, one of the agent, one of
/// a script. So where every crash left a history of which that is so, every crash leaves one at each moment.
pub fn whole_runs_keep_what_is_decided()
    ensures untouched { (publisher : Name) (before now : Seen) → RestsThroughout (IsImage before) before now → KeepsDecided publisher before now }
    ensures agent { WhereTheAgentRan KeepsDecided }
    ensures script { WhereAScriptRan KeepsDecided }
{}

/// A whole run keeps histories good: each entry says what is so in the state that those before it leave, and the book of every user is in order, with
/// the counts of his asks rising. So where every crash left such a history, every crash leaves one at each moment; and that of a new database is one. The
/// log goes on to keep what partners need.
pub fn whole_runs_keep_histories_good()
    ensures new { (publisher : Name) → IsGoodHistory publisher [] }
    ensures untouched { (publisher : Name) (before now : Seen) → RestsThroughout (IsImage before) before now → KeepsGood publisher before now }
    ensures agent { WhereTheAgentRan KeepsGood }
    ensures script { WhereAScriptRan KeepsGood }
{}
