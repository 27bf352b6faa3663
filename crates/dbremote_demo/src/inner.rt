//! Runs inside the demonstration: each on the files of one database and the mail, by the command of the program.

ghost use Rattle.std.specs.Prelude.{◌≡◌, [], IfErr, OnOk};
ghost use Rattle.dbremote_command.specs.Inner.Orders.{MayOrder};
ghost use Rattle.dbremote_demo.specs.Runs.{RanTask, RanWell, Stopped, agent_of, making_of, script_of};
ghost use Rattle.dbremote_demo.specs.Inner.Runs.{StopCause};
ghost use Rattle.sr_memsite.specs.Inner.Streams.{taken_of};

use crate::branches::{Branches, Lent};
use crate::ending::ended;
use crate::stop::Stop;
use dbremote_command::{Order, command};
use dbremote_demo_draws::DemoSite;
use sr_agent::Options;
use sr_base::Text;
use sr_memsite::{HandedSite, MemorySink, MemorySource};
use std::alloc::Global;

/// The longest message file, in bytes.
const LENGTH: u32 = 10000;

/// What a run answered, and the lines that it wrote.
#[derive(Drop)]
struct Answer {
    status: u8,
    output: MemorySink,
}

/// Does an order on a database: the script is what the source has, and `no_mail` the empty text.
fn do_order(
    alloc: Global,
    demo_sites: &mut Branches,
    demo_site: DemoSite,
    order: &Order,
    no_mail: &Text,
    script: Vec<u8>,
    now: i64,
) -> Answer
    requires may { MayOrder order.now }
    requires no_mail { no_mail.now ≡ [] }
    ensures ran { RanTask (record { demo_site = demo_site; order = order.now; script = script.items }) demo_sites.old demo_sites.new result.status (taken_of result.output) }
{
    let Lent {
        disk,
        mail,
        mut kept,
    } = demo_sites.lend(alloc, demo_site);
    let mut site = HandedSite::with(disk, mail);
    let mut input = MemorySource::new(script);
    let mut output = MemorySink::new(alloc);
    let status = command(
        alloc,
        order,
        no_mail,
        &mut kept,
        &mut site,
        &mut input,
        &mut output,
        now,
    );
    drop(input);
    let (disk, mail) = site.apart();
    demo_sites.take_back(demo_site, Lent { disk, mail, kept });
    Answer { status, output }
}

/// Does an order on a database, and sees how it ended.
#[tactic(auto, using(crate::proofs::Endings::stop_of))]
fn run_order(
    alloc: Global,
    demo_sites: &mut Branches,
    demo_site: DemoSite,
    order: &Order,
    script: Vec<u8>,
    now: i64,
) -> Result<(), Stop>
    requires may { MayOrder order.now }
    ensures ok { OnOk result (RanWell (record { demo_site = demo_site; order = order.now; script = script.items }) demo_sites.old demo_sites.new) }
    ensures err { IfErr result (StopCause (Stopped (record { demo_site = demo_site; order = order.now; script = script.items }) demo_sites.old)) }
{
    let no_mail = Text::from_str(alloc, "")?;
    let answer = do_order(alloc, demo_sites, demo_site, order, &no_mail, script, now);
    drop(no_mail);
    let ended = ended(alloc, answer.status, answer.output.bytes());
    drop(answer);
    ended?;
    Ok(())
}

/// Makes a database.
pub(crate) fn run_init(
    alloc: Global,
    demo_sites: &mut Branches,
    demo_site: DemoSite,
    now: i64,
) -> Result<(), Stop>
    ensures ok { OnOk result (RanWell (making_of demo_site) demo_sites.old demo_sites.new) }
    ensures err { IfErr result (StopCause (Stopped (making_of demo_site) demo_sites.old)) }
{
    let order = Order::Init {
        name: demo_site.place(alloc)?,
        user: demo_site.name(alloc)?,
    };
    let ran = run_order(alloc, demo_sites, demo_site, &order, Vec::new(alloc), now);
    drop(order);
    ran?;
    Ok(())
}

/// Runs a script on a database.
pub(crate) fn run_sql(
    alloc: Global,
    demo_sites: &mut Branches,
    demo_site: DemoSite,
    script: Vec<u8>,
    now: i64,
) -> Result<(), Stop>
    ensures ok { OnOk result (RanWell (script_of demo_site script.items) demo_sites.old demo_sites.new) }
    ensures err { IfErr result (StopCause (Stopped (script_of demo_site script.items) demo_sites.old)) }
{
    let order = Order::Sql {
        name: demo_site.place(alloc)?,
    };
    let ran = run_order(alloc, demo_sites, demo_site, &order, script, now);
    drop(order);
    ran?;
    Ok(())
}

/// Runs the agent on a database.
pub(crate) fn run_agent(
    alloc: Global,
    demo_sites: &mut Branches,
    demo_site: DemoSite,
    now: i64,
) -> Result<(), Stop>
    ensures ok { OnOk result (RanWell (agent_of demo_site) demo_sites.old demo_sites.new) }
    ensures err { IfErr result (StopCause (Stopped (agent_of demo_site) demo_sites.old)) }
{
    let order = Order::Agent {
        name: demo_site.place(alloc)?,
        mail: Text::from_str(alloc, "mail")?,
        options: Options {
            receive: true,
            send: true,
            purge: true,
            restart: false,
            length: LENGTH,
        },
    };
    let ran = run_order(alloc, demo_sites, demo_site, &order, Vec::new(alloc), now);
    drop(order);
    ran?;
    Ok(())
}
