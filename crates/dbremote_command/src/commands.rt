ghost use Rattle.std.specs.Prelude.{◌≡◌, ◌||◌, ℕ, List, [], None, IfSome, IsTrue};
ghost use Rattle.sr_database_history.specs.Recorded.{Recorded};
ghost use Rattle.sr_mail_cut.specs.Inner.Cuts.{IsMessageLimit};
ghost use Rattle.sr_site.specs.Causes.{DiskStays, Stays};
ghost use Rattle.sr_site.specs.Streams.{Input};
ghost use Rattle.sr_world_model.specs.Worlds.{World};
ghost use Rattle.sr_world_runs.specs.Worlds.{MakesSteps};
ghost use Rattle.dbremote_command.specs.CaughtUp.{CatchesUp};
ghost use Rattle.dbremote_command.specs.Complete.{IsComplete};
ghost use Rattle.dbremote_command.specs.Counts.{TellsFaults};
ghost use Rattle.dbremote_command.specs.Inner.Kept.{IsKept};
ghost use Rattle.dbremote_command.specs.Outside.{outside};
ghost use Rattle.dbremote_command.specs.Inner.Orders.{MayOrder};
ghost use Rattle.dbremote_command.specs.Runs.{RanAgentOrder, RanInit, RanOrder, RanShow, RanSql, Told};

use crate::agents::{run_agent, status_of_alarms};
use crate::fault::Fault;
use crate::making::make;
use crate::order::Order;
use crate::reporting::report;
use crate::running::run_sql;
use crate::showing::show;
use sr_agent::Options;
use sr_base::{Name, Text};
use sr_database::Database;
use sr_site::{Sink, Site, Source};
use std::alloc::Global;

/// Does what an order asks for, to its last line or to that of the fault that ended it. Answers the exit status. `no_mail`, the empty text, stands for the
/// mail folder of an order that has none.
///
/// `kept` may hold a database that is open. It is to be what the files hold; then it is gone on with, and they are not read anew. Behind a run on a
/// database that no fault ended, it holds that database, for the next one.
///
/// Where no device fails, and what is there is what the order asks for, it is done: the status is 0, 1 with what the agent reports, 9 at a
/// limit, or 8. Where the disk fails the status is 5, or 7 where a stream failed too, and no other.
///
/// All that it does are steps that its database may make in a world of databases, by its own history and the messages that were put.
#[tactic(auto, using(crate::proofs::Completing::is_complete, crate::proofs::Caught::catches_up, crate::proofs::Counted::tells))]
pub fn command<S: Site, I: Source, O: Sink>(
    alloc: Global,
    order: &Order,
    no_mail: &Text,
    kept: &mut Option<Database>,
    site: &mut S,
    input: &mut I,
    output: &mut O,
    now: i64,
) -> u8
    requires may { MayOrder order.now }
    requires no_mail { no_mail.now ≡ [] }
    requires kept { IfSome kept.old (λ db. IsKept db (S.seen site.old)) }
    ensures ran { RanOrder order.now (outside (S.seen site.old) (I.seen input.old) (O.seen output.old)) (outside (S.seen site.new) (I.seen input.new) (O.seen output.new)) result }
    ensures stays { Stays (S.seen site.old) (S.seen site.new) }
    ensures tells { TellsFaults (outside (S.seen site.old) (I.seen input.old) (O.seen output.old)) (outside (S.seen site.new) (I.seen input.new) (O.seen output.new)) result }
    ensures complete { IsComplete order.now (outside (S.seen site.old) (I.seen input.old) (O.seen output.old)) (outside (S.seen site.new) (I.seen input.new) (O.seen output.new)) result }
    ensures caught_up { CatchesUp order.now (outside (S.seen site.old) (I.seen input.old) (O.seen output.old)) (outside (S.seen site.new) (I.seen input.new) (O.seen output.new)) result }
    ensures kept { IsTrue (S.seen site.new).observable → IfSome kept.new (λ db. IsKept db (S.seen site.new)) }
    ensures steps { (w : World Recorded) (publisher : List ℕ) → IsTrue (S.seen site.old).observable → MakesSteps w publisher (S.seen site.old) (S.seen site.new) }
{
    ordered(alloc, order, no_mail, kept, site, input, output, now)
}

/// Does what an order asks for.
#[tactic(auto, using(crate::proofs::AgentRuns::of_disk))]
fn ordered<S: Site, I: Source, O: Sink>(
    alloc: Global,
    order: &Order,
    no_mail: &Text,
    kept: &mut Option<Database>,
    site: &mut S,
    input: &mut I,
    output: &mut O,
    now: i64,
) -> u8
    requires may { MayOrder order.now }
    requires no_mail { no_mail.now ≡ [] }
    requires kept { IfSome kept.old (λ db. IsKept db (S.seen site.old)) }
    ensures ran { RanOrder order.now (outside (S.seen site.old) (I.seen input.old) (O.seen output.old)) (outside (S.seen site.new) (I.seen input.new) (O.seen output.new)) result }
    ensures stays { Stays (S.seen site.old) (S.seen site.new) }
    ensures kept { IsTrue (S.seen site.new).observable → IfSome kept.new (λ db. IsKept db (S.seen site.new)) }
{
    match order {
        Order::Init { name, user } => command_init(alloc, name, no_mail, user, kept, site, output),
        Order::Sql { name } => command_sql(alloc, name, no_mail, kept, site, input, output),
        Order::Show { name } => command_show(alloc, name, no_mail, kept, site, output),
        Order::Agent {
            name,
            mail,
            options,
        } => command_agent(alloc, name, mail, options, kept, site, output, now),
    }
}

/// Tells the fault that ended a run, and answers the run's exit status.
#[tactic(auto, using(crate::proofs::Ended::told_as))]
pub fn tell<O: Sink>(alloc: Global, output: &mut O, fault: Fault) -> u8
    ensures told { Told fault (O.seen output.old) (O.seen output.new) result }
{
    let told = report(alloc, output, fault);
    let status = told.status();
    drop(told);
    status
}

/// `init NAME USER`. No database is kept.
fn command_init<S: Site, O: Sink>(
    alloc: Global,
    name: &Text,
    no_mail: &Text,
    user: &Name,
    kept: &mut Option<Database>,
    site: &mut S,
    output: &mut O,
) -> u8
    requires no_mail { no_mail.now ≡ [] }
    ensures ran { (input : Input) → RanInit name.now user.now (outside (S.seen site.old) input (O.seen output.old)) (outside (S.seen site.new) input (O.seen output.new)) result }
    ensures stays { DiskStays (S.seen site.old) (S.seen site.new) }
    ensures kept { kept.new ≡ None }
{
    let before = kept.take();
    drop(before);
    match make(alloc, name, no_mail, user, site, output) {
        Ok(()) => 0,
        Err(fault) => tell(alloc, output, fault),
    }
}

fn command_sql<S: Site, I: Source, O: Sink>(
    alloc: Global,
    name: &Text,
    no_mail: &Text,
    kept: &mut Option<Database>,
    site: &mut S,
    input: &mut I,
    output: &mut O,
) -> u8
    requires no_mail { no_mail.now ≡ [] }
    requires kept { IfSome kept.old (λ db. IsKept db (S.seen site.old)) }
    ensures ran { RanSql name.now (outside (S.seen site.old) (I.seen input.old) (O.seen output.old)) (outside (S.seen site.new) (I.seen input.new) (O.seen output.new)) result }
    ensures stays { DiskStays (S.seen site.old) (S.seen site.new) }
    ensures kept { IsTrue (S.seen site.new).observable → IfSome kept.new (λ db. IsKept db (S.seen site.new)) }
{
    match run_sql(alloc, name, no_mail, kept, site, input, output) {
        Ok(()) => 0,
        Err(fault) => tell(alloc, output, fault),
    }
}

fn command_show<S: Site, O: Sink>(
    alloc: Global,
    name: &Text,
    no_mail: &Text,
    kept: &mut Option<Database>,
    site: &mut S,
    output: &mut O,
) -> u8
    requires no_mail { no_mail.now ≡ [] }
    requires kept { IfSome kept.old (λ db. IsKept db (S.seen site.old)) }
    ensures ran { (input : Input) → RanShow name.now (outside (S.seen site.old) input (O.seen output.old)) (outside (S.seen site.new) input (O.seen output.new)) result }
    ensures stays { DiskStays (S.seen site.old) (S.seen site.new) }
    ensures kept { IsTrue (S.seen site.new).observable → IfSome kept.new (λ db. IsKept db (S.seen site.new)) }
{
    match show(alloc, name, no_mail, kept, site, output) {
        Ok(()) => 0,
        Err(fault) => tell(alloc, output, fault),
    }
}

/// `agent NAME --mail FOLDER`, with its options.
fn command_agent<S: Site, O: Sink>(
    alloc: Global,
    name: &Text,
    mail: &Text,
    options: &Options,
    kept: &mut Option<Database>,
    site: &mut S,
    output: &mut O,
    now: i64,
) -> u8
    requires some_pass { IsTrue (options.now.receive || options.now.send) }
    requires limit { IsMessageLimit options.now.length }
    requires kept { IfSome kept.old (λ db. IsKept db (S.seen site.old)) }
    ensures ran { (input : Input) → RanAgentOrder name.now mail.now options.now (outside (S.seen site.old) input (O.seen output.old)) (outside (S.seen site.new) input (O.seen output.new)) result }
    ensures stays { Stays (S.seen site.old) (S.seen site.new) }
    ensures kept { IsTrue (S.seen site.new).observable → IfSome kept.new (λ db. IsKept db (S.seen site.new)) }
{
    match run_agent(alloc, name, mail, options, kept, site, output, now) {
        Ok(count) => status_of_alarms(count),
        Err(fault) => tell(alloc, output, fault),
    }
}
