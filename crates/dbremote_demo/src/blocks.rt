//! The drawn statements, block by block.

ghost use Rattle.std.specs.Prelude.{◌≡◌, ◌≤◌, ◌+◌, ◌/◌, ◌++◌, IfOk, IfErr, OnOk};
ghost use Rattle.dbremote_demo.specs.Courses.{AgentRan, AgentStops, AgentsRan, AllRan, BlockRan, BlockStops, BlocksRan, BlocksStop, StopsAmong, all_demo_sites, task_at};
ghost use Rattle.dbremote_demo.specs.Runs.{Stopped, agent_of};
ghost use Rattle.dbremote_demo.specs.Inner.Runs.{StopCause};
ghost use Rattle.dbremote_demo_draws.specs.declared.demo_site.DemoSite.TheVariants.{Cons, R1, R2, R3};

use crate::branches::Branches;
use crate::inner::{run_agent, run_sql};
use crate::stop::Stop;
use dbremote_demo_draws::{DemoSite, Draws, Scripts, scripts_of, sum, sum_of_four};
use std::alloc::Global;

/// Runs so many drawn statements, in blocks of 100; the last one may be short. Answers how many messages were lost.
#[tactic(auto, using(crate::proofs::Counted::none_run, crate::proofs::Counted::one_more, crate::proofs::Counted::all_run, crate::proofs::Counted::block_stops))]
pub(crate) fn run_blocks(
    alloc: Global,
    demo_sites: &mut Branches,
    draws: &mut Draws,
    count: u32,
    now: i64,
) -> Result<u64, Stop>
    requires few { count ≤ 100000 }
    ensures ran { IfOk result (BlocksRan draws.old count demo_sites.old ((count + 99) / 100) draws.new demo_sites.new) }
    ensures err { IfErr result (StopCause (BlocksStop draws.old count demo_sites.old)) }
{
    let mut lost = 0u64;
    let mut blocks = 0u32;
    'runs: while 100 * blocks < count {
        let end = count.min(100 * blocks + 100);
        let now_lost = run_block(alloc, demo_sites, draws, 100 * blocks, end, now)?;
        lost = sum(lost, now_lost)?;
        blocks += 1;
    }
    Ok(lost)
}

/// Runs the statements with the numbers from `first` to below `end`, then the agents. Answers how many messages were lost.
#[tactic(auto, using(crate::proofs::Counted::scripts_ran, crate::proofs::Counted::scripts_stop, crate::proofs::Counted::agents_stop))]
fn run_block(
    alloc: Global,
    demo_sites: &mut Branches,
    draws: &mut Draws,
    first: u32,
    end: u32,
    now: i64,
) -> Result<u64, Stop>
    requires order { first ≤ end }
    requires few { end ≤ 100000 }
    ensures ran { IfOk result (BlockRan first end draws.old demo_sites.old draws.new demo_sites.new) }
    ensures err { IfErr result (StopCause (BlockStops first end draws.old demo_sites.old)) }
{
    let scripts = scripts_of(alloc, draws, first, end)?;
    run_scripts(alloc, demo_sites, scripts, now)?;
    let lost = run_agents(alloc, demo_sites, draws, now)?;
    Ok(lost)
}

/// Runs the scripts of a block, in the order of the databases.
#[tactic(auto, using(crate::proofs::Chains::joined, crate::proofs::Chains::prefix_stops, crate::proofs::Chains::rest_stops))]
fn run_scripts(
    alloc: Global,
    demo_sites: &mut Branches,
    scripts: Scripts,
    now: i64,
) -> Result<(), Stop>
    ensures ok { OnOk result (AllRan (task_at Cons scripts.cons.items ++ task_at R1 scripts.r1.items ++ task_at R2 scripts.r2.items ++ task_at R3 scripts.r3.items) demo_sites.old demo_sites.new) }
    ensures err { IfErr result (StopCause (StopsAmong (task_at Cons scripts.cons.items ++ task_at R1 scripts.r1.items ++ task_at R2 scripts.r2.items ++ task_at R3 scripts.r3.items) demo_sites.old)) }
{
    let Scripts { cons, r1, r2, r3 } = scripts;
    run_script(alloc, demo_sites, DemoSite::Cons, cons, now)?;
    run_script(alloc, demo_sites, DemoSite::R1, r1, now)?;
    run_script(alloc, demo_sites, DemoSite::R2, r2, now)?;
    run_script(alloc, demo_sites, DemoSite::R3, r3, now)?;
    Ok(())
}

/// Runs a database's script of a block, where it has one.
#[tactic(auto, using(crate::proofs::Chains::nothing_ran, crate::proofs::Chains::task_ran, crate::proofs::Chains::task_stops))]
fn run_script(
    alloc: Global,
    demo_sites: &mut Branches,
    demo_site: DemoSite,
    script: Vec<u8>,
    now: i64,
) -> Result<(), Stop>
    ensures ok { OnOk result (AllRan (task_at demo_site script.items) demo_sites.old demo_sites.new) }
    ensures err { IfErr result (StopCause (StopsAmong (task_at demo_site script.items) demo_sites.old)) }
{
    if script.as_slice().is_empty() {
        return Ok(());
    }
    run_sql(alloc, demo_sites, demo_site, script, now)?;
    Ok(())
}

/// Runs the agent on each database. Answers how many messages were lost.
#[tactic(auto, using(crate::proofs::Endings::agent_stops, crate::proofs::Endings::behind_agent))]
fn run_agents(
    alloc: Global,
    demo_sites: &mut Branches,
    draws: &mut Draws,
    now: i64,
) -> Result<u64, Stop>
    ensures ran { IfOk result (AgentsRan draws.old demo_sites.old draws.new demo_sites.new) }
    ensures err { IfErr result (StopCause (AgentStops all_demo_sites draws.old demo_sites.old)) }
{
    let cons = run_and_lose(alloc, demo_sites, DemoSite::Cons, draws, now)?;
    let r1 = run_and_lose(alloc, demo_sites, DemoSite::R1, draws, now)?;
    let r2 = run_and_lose(alloc, demo_sites, DemoSite::R2, draws, now)?;
    let r3 = run_and_lose(alloc, demo_sites, DemoSite::R3, draws, now)?;
    Ok(sum_of_four(cons, r1, r2, r3)?)
}

/// Runs the agent on a database, and loses some of the messages that it put. Answers how many.
fn run_and_lose(
    alloc: Global,
    demo_sites: &mut Branches,
    demo_site: DemoSite,
    draws: &mut Draws,
    now: i64,
) -> Result<u64, Stop>
    ensures ran { IfOk result (AgentRan demo_site draws.old demo_sites.old draws.new demo_sites.new) }
    ensures err { IfErr result (StopCause (Stopped (agent_of demo_site) demo_sites.old)) }
{
    let before = demo_sites.puts();
    run_agent(alloc, demo_sites, demo_site, now)?;
    Ok(demo_sites.lose(alloc, before, draws)?)
}
