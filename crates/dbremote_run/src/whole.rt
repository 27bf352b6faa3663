ghost use Rattle.std.specs.Prelude.{◌≡◌, ◌⊎◌, IsTrue, List, None};
ghost use Rattle.sr_book.specs.Entries.{Name};
ghost use Rattle.sr_database_history.specs.Fitting.{Stored};
ghost use Rattle.sr_database_history.specs.Recorded.{Recorded};
ghost use Rattle.sr_world_prefix.specs.Decided.{KeepsDecided};
ghost use Rattle.sr_world_prefix.specs.Good.{KeepsGood};
ghost use Rattle.sr_world_prefix.specs.Keeping.{KeepsPartner};
ghost use Rattle.sr_world_model.specs.Worlds.{World};
ghost use Rattle.sr_world_prefix.specs.Puts.{PutsTrue};
ghost use Rattle.sr_world_runs.specs.Worlds.{MakesSteps};
ghost use Rattle.sr_site.specs.Causes.{Stays, Rose};
ghost use Rattle.dbremote_command.specs.Inner.Orders.{MayOrder};
ghost use Rattle.dbremote_command.specs.Counts.{TellsFaults};
ghost use Rattle.dbremote_command.specs.Outside.{outside};
ghost use Rattle.dbremote_run.specs.Inner.Runs.{RanWithMemory};
ghost use Rattle.dbremote_run.specs.Runs.{CatchesUp, HasAlarms, HasMailFault, IsComplete, RanProgram};
ghost use Rattle.dbremote_words.specs.Orders.{asked_of};

use dbremote_command::{Fault, Order, command, tell};
use dbremote_demo::demo;
use dbremote_words::{Asked, asked_of};
use sr_base::Text;
use sr_database::DatabaseFault;
use sr_site::{Sink, Site, Source};
use std::alloc::Global;
use std::mem::forget;

/// Does all that the program does, and answers its exit status.
///
/// The words `init NAME USER` make a database, `sql NAME` runs the script on `input` on one, `agent NAME --mail FOLDER` with any of `-r`, `-s`, `-p`
/// and `-l N`, which stand anywhere behind `agent`, takes and sends its mail, and `show NAME` prints what one is. `demo SEED COUNT` makes the
/// demonstration, on four databases of its own in memory: it touches nothing but the output. All other words are refused.
///
/// The status is 0; or 1 where the agent ran to its end and a line told of something amiss; or that of the fault that ended the run: 2 for
/// other words, 3 for a database that is missing, there or damaged, 4 for a script or a statement that is refused, 5 for the disk, 6 for the
/// mail, 7 for the source or the sink, 8 for want of memory, 9 for a limit. Where no device fails, and what is there is what the words ask
/// for, it is 0, 1, 8 or 9; the demonstration's is 0, 8, or that of a run inside it. Where the disk fails it is 5, or 7 where a stream failed too, and no
/// other. No run asks for the time.
///
/// Whatever files lie in the mail folder, none forged, what the database took from a partner stays a beginning of what the partner's log gives it, in
/// commit order and each once; so it is at each moment of the run, for whatever a crash leaves then, to its end or to the fault that ended it. And what
/// the run has put until then is true of it: no message confirms more than was durably taken, or carries what the log does not give. What became of each op that was taken
/// is as judging has it, in the state that those before it left: a conflict is decided by the triggers of the database above, and by nothing else.
/// Each entry of the log goes on to say what is so, where each did before: a Sync the rows that its user sees, a Pass the changes that its statement
/// makes; and the offsets in each partner's book are in order, and the counts of his asks rise. And all that the run does are steps that its database may
/// make in a world of databases, by its own history and the messages that were put: so it keeps a good world good, whatever the others do; and there, at
/// each key that a database below has not touched, this holds exactly the row of the view of the one above, as of the last transaction that it took. Between two
/// of these steps, and at the return where no call of the disk failed, whatever a crash leaves is the same history; and behind a put nothing is done to
/// the mail but further puts.
#[tactic(auto, using(crate::proofs::Statuses::of_runs, crate::proofs::Completing::run_complete, crate::proofs::Completing::run_caught_up))]
pub fn run<S: Site, I: Source, O: Sink>(
    alloc: Global,
    words: &[Text],
    site: &mut S,
    input: &mut I,
    output: &mut O,
    now: i64,
) -> u8
    ensures ran { RanProgram (asked_of words.now) (outside (S.seen site.old) (I.seen input.old) (O.seen output.old)) (outside (S.seen site.new) (I.seen input.new) (O.seen output.new)) result }
    ensures stays { Stays (S.seen site.old) (S.seen site.new) }
    ensures words { result ≡ 2 → asked_of words.now ≡ None }
    ensures disk { result ≡ 5 → Rose (S.seen site.old).disk_faults (S.seen site.new).disk_faults }
    ensures streams { result ≡ 7 → Rose ((I.seen input.old).faults) ((I.seen input.new).faults) ⊎ Rose ((O.seen output.old).faults) ((O.seen output.new).faults) }
    ensures mail { result ≡ 6 → HasMailFault (asked_of words.now) (outside (S.seen site.old) (I.seen input.old) (O.seen output.old)) (outside (S.seen site.new) (I.seen input.new) (O.seen output.new)) }
    ensures tells { TellsFaults (outside (S.seen site.old) (I.seen input.old) (O.seen output.old)) (outside (S.seen site.new) (I.seen input.new) (O.seen output.new)) result }
    ensures complete { IsComplete (asked_of words.now) (outside (S.seen site.old) (I.seen input.old) (O.seen output.old)) (outside (S.seen site.new) (I.seen input.new) (O.seen output.new)) result }
    ensures caught_up { CatchesUp (asked_of words.now) (outside (S.seen site.old) (I.seen input.old) (O.seen output.old)) (outside (S.seen site.new) (I.seen input.new) (O.seen output.new)) result }
    ensures partners { (publisher user : Name) (us : List Recorded) → IsTrue (S.seen site.old).observable → Stored user us → KeepsPartner publisher user us (S.seen site.old) (S.seen site.new) }
    ensures puts { (publisher : Name) → IsTrue (S.seen site.old).observable → PutsTrue publisher (S.seen site.old) (S.seen site.new) }
    ensures decided { (publisher : Name) → IsTrue (S.seen site.old).observable → KeepsDecided publisher (S.seen site.old) (S.seen site.new) }
    ensures good { (publisher : Name) → IsTrue (S.seen site.old).observable → KeepsGood publisher (S.seen site.old) (S.seen site.new) }
    ensures steps { (w : World Recorded) (publisher : Name) → IsTrue (S.seen site.old).observable → MakesSteps w publisher (S.seen site.old) (S.seen site.new) }
    ensures amiss { result ≡ 1 → HasAlarms (asked_of words.now) (outside (S.seen site.old) (I.seen input.old) (O.seen output.old)) (outside (S.seen site.new) (I.seen input.new) (O.seen output.new)) }
{
    done(alloc, words, site, input, output, now)
}

/// Does what words ask for.
#[tactic(auto, using(crate::proofs::Ended::words_done))]
fn done<S: Site, I: Source, O: Sink>(
    alloc: Global,
    words: &[Text],
    site: &mut S,
    input: &mut I,
    output: &mut O,
    now: i64,
) -> u8
    ensures ran { RanProgram (asked_of words.now) (outside (S.seen site.old) (I.seen input.old) (O.seen output.old)) (outside (S.seen site.new) (I.seen input.new) (O.seen output.new)) result }
    ensures stays { Stays (S.seen site.old) (S.seen site.new) }
{
    match asked_of(alloc, words) {
        Ok(Some(Asked::Order(order))) => {
            let status = do_order(alloc, &order, site, input, output, now);
            drop(order);
            status
        }
        Ok(Some(Asked::Demo { seed, count })) => demo(alloc, seed, count, output, now),
        Ok(None) => tell(alloc, output, Fault::Words),
        Err(_) => tell(alloc, output, Fault::Database(DatabaseFault::Memory)),
    }
}

/// Does what an order asks for, where there is memory for the name of the mail folder that it may not have. No database is open at first. One that is
/// open at the end is not freed row by row: the program ends next, and what it holds then is left to the system.
#[tactic(auto, using(crate::proofs::Ended::order_done))]
fn do_order<S: Site, I: Source, O: Sink>(
    alloc: Global,
    order: &Order,
    site: &mut S,
    input: &mut I,
    output: &mut O,
    now: i64,
) -> u8
    requires may { MayOrder order.now }
    ensures ran { RanWithMemory order.now (outside (S.seen site.old) (I.seen input.old) (O.seen output.old)) (outside (S.seen site.new) (I.seen input.new) (O.seen output.new)) result }
    ensures stays { Stays (S.seen site.old) (S.seen site.new) }
{
    match Text::from_str(alloc, "") {
        Ok(no_mail) => {
            let mut kept = None;
            let status = command(alloc, order, &no_mail, &mut kept, site, input, output, now);
            forget(kept);
            drop(no_mail);
            status
        }
        Err(_) => tell(alloc, output, Fault::Database(DatabaseFault::Memory)),
    }
}
