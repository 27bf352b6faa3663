ghost use Rattle.std.specs.Prelude.{◌≡◌, ◌≢◌, ◌||◌, IfErr, IfOk, IfSome, IsTrue};
ghost use Rattle.sr_mail_cut.specs.Inner.Cuts.{IsMessageLimit};
ghost use Rattle.dbremote_command.specs.Agents.{AgentStopped};
ghost use Rattle.dbremote_command.specs.Inner.Agents.{AgentRanSome};
ghost use Rattle.dbremote_command.specs.Inner.Kept.{IsKept};
ghost use Rattle.dbremote_command.specs.Outside.{outside, IsAttachTriedForHistory};
ghost use Rattle.sr_site.specs.Causes.{Stays};
ghost use Rattle.sr_site.specs.Streams.{Input};

use crate::fault::Fault;
use crate::running::{keep, open_for_agent};
use sr_agent::Options;
use sr_base::Text;
use sr_database::Database;
use sr_site::{Sink, Site};
use sr_world_runs::agent;
use std::alloc::Global;

/// `agent NAME --mail FOLDER`: opens the database and runs the agent on it once. Answers how many lines told of something amiss. Where no fault ended
/// it, the database is kept open.
pub fn run_agent<S: Site, O: Sink>(
    alloc: Global,
    name: &Text,
    mail: &Text,
    options: &Options,
    kept: &mut Option<Database>,
    site: &mut S,
    output: &mut O,
    now: i64,
) -> Result<u32, Fault>
    requires some_pass { IsTrue (options.now.receive || options.now.send) }
    requires limit { IsMessageLimit options.now.length }
    requires kept { IfSome kept.old (λ db. IsKept db (S.seen site.old)) }
    ensures ran { (input : Input) → IfOk result (AgentRanSome name.now mail.now options.now (outside (S.seen site.old) input (O.seen output.old)) (outside (S.seen site.new) input (O.seen output.new))) }
    ensures stopped { (input : Input) → IfErr result (AgentStopped name.now mail.now options.now (outside (S.seen site.old) input (O.seen output.old)) (outside (S.seen site.new) input (O.seen output.new))) }
    ensures kept { IsTrue (S.seen site.new).observable → IfSome kept.new (λ db. IsKept db (S.seen site.new)) }
    ensures tried { IsAttachTriedForHistory name.now mail.now (S.seen site.old) (S.seen site.new) }
    ensures stays { Stays (S.seen site.old) (S.seen site.new) }
{
    match open_for_agent(alloc, name, mail, options.restart, kept.take(), site) {
        Ok(mut database) => {
            let ran = agent(alloc, &mut database, site, options, now, output);
            match ran {
                Ok(count) => {
                    keep(kept, database);
                    Ok(count)
                }
                Err(fault) => {
                    drop(database);
                    Err(Fault::from(fault))
                }
            }
        }
        Err(fault) => Err(Fault::Database(fault)),
    }
}

/// The exit status of a run of the agent that no fault ended.
pub fn status_of_alarms(count: u32) -> u8
    ensures none { count ≡ 0 → result ≡ 0 }
    ensures some { count ≢ 0 → result ≡ 1 }
{
    if count == 0 { 0 } else { 1 }
}
