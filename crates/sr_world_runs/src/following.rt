//! Where the next run finds its database.

ghost use Rattle.std.specs.Prelude.{◌≡◌, ◌≢◌, ◌++◌, List, [], Contains};
ghost use Rattle.std.specs.List.{AllByRecursion};
ghost use Rattle.sr_book.specs.Entries.{Name};
ghost use Rattle.sr_database_history.specs.Recorded.{Recorded};
ghost use Rattle.sr_world_model.specs.Steps.{DatabaseStep};
ghost use Rattle.sr_world_model.specs.Worlds.{World, WorldStep, IsNamed, happens, history};
ghost use Rattle.sr_msgform.specs.Messages.{IsMessage, message_spelling};
ghost use Rattle.sr_msgform.specs.declared.message.Message.{Message as Sent};
ghost use Rattle.sr_site.specs.Images.{IsImage, IsSettled, MayLeave};
ghost use Rattle.sr_site.specs.Seen.{Seen};
ghost use Rattle.sr_database_meaning.specs.Events.{puts_in};
ghost use Rattle.sr_database_meaning.specs.Standing.{StandsAs};
ghost use Rattle.sr_world.specs.Real.{IsGoodWorld};
ghost use Rattle.sr_world_runs.specs.Worlds.{IsKnown, Rests, RestsBehind, put_in};
ghost use Rattle.sr_world_runs.specs.Inner.Worlds.{EndedRun, RestsAtEach, world_behind};

/// A run leaves what the next one asks for. The files of a new database stand for the history that it has in a world in which it did nothing yet. Behind a
/// run there is a good world, which has the messages that the run put; whatever a crash may leave then is a history to which that of this world leads. So
/// it stays when another database takes a step. And the bytes of a message of the world that has a spelling are known to whoever fetches them: so are
/// those of each message that the run put, which are the bytes of its files.
pub fn a_run_leaves_what_the_next_one_asks_for()
    ensures new { (w : World Recorded) (owner : Name) (seen : Seen) → history w owner ≡ [] → IsSettled (StandsAs owner []) seen → Rests w.messages owner (history w owner) (IsImage seen) }
    ensures good { (run : EndedRun) → IsGoodWorld run.world → IsNamed run.world run.owner → IsGoodWorld (world_behind run) }
    ensures named { (run : EndedRun) (d : Name) → IsNamed run.world d → IsNamed (world_behind run) d }
    ensures messages { (run : EndedRun) → (world_behind run).messages ≡ run.world.messages ++ put_in run.rest.database_steps }
    ensures rests { (run : EndedRun) → IsNamed run.world run.owner
        → Rests (world_behind run).messages run.owner (history (world_behind run) run.owner) (MayLeave run.first run.moment) }
    ensures last { (messages : List Sent) (owner : Name) (es : List Recorded) (found made : List (DatabaseStep Recorded)) (before now : Seen) (run : RestsAtEach messages owner es found made before now)
        → RestsBehind messages owner es (puts_in run.more) (MayLeave before.first now.happened) }
    ensures others { (w : World Recorded) (owner : Name) (act : WorldStep Recorded) (seen : Seen) → act.owner ≢ owner
        → Rests w.messages owner (history w owner) (IsImage seen) → Rests (happens w act).messages owner (history (happens w act) owner) (IsImage seen) }
    ensures known { (messages : List Sent) (receiver : Name) (m : Sent) → Contains messages m → IsMessage m → IsKnown messages receiver (message_spelling m) }
    ensures put { (run : EndedRun) (receiver : Name) (m : Sent) → Contains (put_in run.rest.database_steps) m
        → IsKnown (world_behind run).messages receiver (message_spelling m) }
    ensures files { (run : EndedRun) (receiver : Name) → AllByRecursion (λ l. IsKnown (world_behind run).messages receiver l.2) run.put_files }
{}
