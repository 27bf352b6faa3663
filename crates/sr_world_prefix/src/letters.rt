//! Messages that the agent puts.

ghost use Rattle.std.specs.Prelude.{◌≤◌, ℕ, List};
ghost use Rattle.sr_book.specs.Entries.{Name};
ghost use Rattle.sr_database_history.specs.Folds.{end_of};
ghost use Rattle.sr_database_history.specs.Recorded.{Recorded};
ghost use Rattle.sr_send_needs.specs.Inner.Needs.{KeepsUnsent};
ghost use Rattle.sr_world.specs.Real.{layers};
ghost use Rattle.sr_world_model.specs.Truth.{IsTrueOf};
ghost use Rattle.sr_site.specs.Causes.{DiskStays};
ghost use Rattle.sr_site.specs.Images.{IsImage, RestsThroughout};
ghost use Rattle.sr_site.specs.Seen.{Seen};
ghost use Rattle.sr_world_prefix.specs.Inner.Runs.{WhereAScriptRanFromQuiet, WhereTheAgentDidAt, WhereTheAgentRanFromQuiet};
ghost use Rattle.sr_world_prefix.specs.Forging.{IsUnforged};
ghost use Rattle.sr_world_prefix.specs.Good.{IsGoodHistory};
ghost use Rattle.sr_world_prefix.specs.Puts.{BacksPuts, IsFileOf, PutsTrue};
ghost use Rattle.sr_world_prefix.specs.Truths.{IsTrueInPart};

/// What a run of the agent puts is true of what is durable. At each moment, to its end or to the fault that ended it, whatever a crash leaves stands
/// for a history of which all messages are true that the run has put until then, by the definition of a world's messages, and each of them can be read
/// again. So no offset is confirmed past what was taken for good, and none is asked for. That is so where the history that it began with is good; of
/// any other they are true in part. The log begins within the history, and holds all that a user was not sent, or has not confirmed.
pub fn what_a_run_puts_is_true()
    ensures whole { WhereTheAgentDidAt (λ base publisher es before now. base ≤ end_of es → KeepsUnsent publisher es base → IsGoodHistory publisher es → BacksPuts (IsTrueOf layers) publisher before now) }
    ensures in_part { WhereTheAgentDidAt (λ base publisher es before now. base ≤ end_of es → KeepsUnsent publisher es base → BacksPuts IsTrueInPart publisher before now) }
{}

/// A whole run puts what is true, from the moment at which nothing was opened yet: one that changes nothing and leaves the mail alone; one that opens a
/// database and runs the agent on it; one that opens it and runs a script. All that is asked of the opening is that the mail is left alone, and
/// that a crash leaves then what it could have left before.
pub fn whole_runs_put_what_is_true()
    ensures untouched { (publisher : Name) (before now : Seen) → RestsThroughout (IsImage before) before now → DiskStays before now → PutsTrue publisher before now }
    ensures agent { WhereTheAgentRanFromQuiet PutsTrue }
    ensures script { WhereAScriptRanFromQuiet PutsTrue }
{}

/// A file that is true of its sender's history is not forged: its message can be read again, and no bytes are those of two such. So what one database
/// puts is what the other asks for.
pub fn what_is_true_is_not_forged()
    ensures whole { (sender receiver : Name) (es : List Recorded) (bytes : List ℕ) → IsFileOf (IsTrueOf layers sender es) bytes → IsUnforged receiver sender es bytes }
    ensures in_part { (sender receiver : Name) (es : List Recorded) (bytes : List ℕ) → IsFileOf (IsTrueInPart sender es) bytes → IsUnforged receiver sender es bytes }
{}
