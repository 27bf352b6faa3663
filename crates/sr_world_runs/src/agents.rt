//! A run of the agent, as steps of a world of databases.

ghost use Rattle.std.specs.Prelude.{◌≡◌, ◌||◌, [], true, IsTrue};
ghost use Rattle.sr_agent.specs.Agents.{RanAgent};
ghost use Rattle.sr_book.specs.Entries.{Name};
ghost use Rattle.sr_database.specs.Databases.{HasBeginning};
ghost use Rattle.sr_database.specs.InForce.{HasLogInForce};
ghost use Rattle.sr_database_history.specs.Recorded.{Recorded};
ghost use Rattle.sr_mail_cut.specs.Inner.Cuts.{IsMessageLimit};
ghost use Rattle.sr_world_model.specs.Worlds.{World};
ghost use Rattle.sr_world_runs.specs.Worlds.{MakesSteps};

use sr_agent::{AgentFault, Options};
use sr_database::Database;
use sr_site::{Sink, Site};
use std::alloc::Global;

/// Runs the agent once on an opened database, as sr_agent does, and answers how many lines told of something amiss.
///
/// All that it does are steps that its database may make in a world of databases, by its own history and the messages that were put. So it keeps a good
/// world good at each moment, to its end or to the fault that ended it; and there, at each key that a database below has not touched, this holds exactly
/// the row of the view of the one above, as of the last transaction that it took.
pub fn agent<S: Site, O: Sink>(
    alloc: Global,
    db: &mut Database,
    site: &mut S,
    options: &Options,
    now: i64,
    sink: &mut O,
) -> Result<u32, AgentFault>
    requires usable { db.old.log.usable ≡ true }
    requires pending { db.old.pending ≡ [] }
    requires some_pass { IsTrue (options.now.receive || options.now.send) }
    requires limit { IsMessageLimit options.now.length }
    requires stands { IsTrue (S.seen site.old).observable → HasLogInForce db.old (S.seen site.old) }
    requires begins { IsTrue options.now.restart → IsTrue (S.seen site.old).observable → HasBeginning db.old (S.seen site.old) }
    ensures ran { RanAgent db.old db.new (S.seen site.old) (S.seen site.new) (O.seen sink.old) (O.seen sink.new) options.now result }
    ensures steps { (w : World Recorded) (publisher : Name) → IsTrue (S.seen site.old).observable → MakesSteps w publisher (S.seen site.old) (S.seen site.new) }
{
    sr_agent::agent(alloc, db, site, options, now, sink)
}
