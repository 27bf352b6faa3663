//! The end: each database has a last row or three, and all settle.

ghost use Rattle.std.specs.Prelude.{IfErr, OnOk};
ghost use Rattle.dbremote_demo.specs.Courses.{AllRan, StopsAmong, last_at, lasts, round, settling};
ghost use Rattle.dbremote_demo.specs.Runs.{RanWell, Stopped};
ghost use Rattle.dbremote_demo.specs.Inner.Runs.{StopCause};

use crate::branches::Branches;
use crate::inner::{run_agent, run_sql};
use crate::scripts::last_script;
use crate::stop::Stop;
use dbremote_demo_draws::DemoSite;
use std::alloc::Global;

/// Inserts the last rows, and runs all agents four times. Nothing is lost.
#[tactic(auto, using(crate::proofs::Chains::joined, crate::proofs::Chains::prefix_stops, crate::proofs::Chains::rest_stops))]
pub(crate) fn settle(alloc: Global, demo_sites: &mut Branches, now: i64) -> Result<(), Stop>
    ensures ok { OnOk result (AllRan settling demo_sites.old demo_sites.new) }
    ensures err { IfErr result (StopCause (StopsAmong settling demo_sites.old)) }
{
    insert_all(alloc, demo_sites, now)?;
    run_round(alloc, demo_sites, now)?;
    run_round(alloc, demo_sites, now)?;
    run_round(alloc, demo_sites, now)?;
    run_round(alloc, demo_sites, now)?;
    Ok(())
}

/// Inserts the last rows of each.
#[tactic(auto, using(crate::proofs::Chains::four_ran, crate::proofs::Chains::first_stops, crate::proofs::Chains::later_stops), unfolding(crate::specs::Courses::lasts))]
fn insert_all(alloc: Global, demo_sites: &mut Branches, now: i64) -> Result<(), Stop>
    ensures ok { OnOk result (AllRan lasts demo_sites.old demo_sites.new) }
    ensures err { IfErr result (StopCause (StopsAmong lasts demo_sites.old)) }
{
    insert_last(alloc, demo_sites, DemoSite::Cons, now)?;
    insert_last(alloc, demo_sites, DemoSite::R1, now)?;
    insert_last(alloc, demo_sites, DemoSite::R2, now)?;
    insert_last(alloc, demo_sites, DemoSite::R3, now)?;
    Ok(())
}

/// The last rows of a database.
fn insert_last(
    alloc: Global,
    demo_sites: &mut Branches,
    demo_site: DemoSite,
    now: i64,
) -> Result<(), Stop>
    ensures ok { OnOk result (RanWell (last_at demo_site) demo_sites.old demo_sites.new) }
    ensures err { IfErr result (StopCause (Stopped (last_at demo_site) demo_sites.old)) }
{
    let script = Vec::from_slice(alloc, last_script(demo_site))?;
    run_sql(alloc, demo_sites, demo_site, script, now)?;
    Ok(())
}

/// Runs each agent once.
#[tactic(auto, using(crate::proofs::Chains::four_ran, crate::proofs::Chains::first_stops, crate::proofs::Chains::later_stops), unfolding(crate::specs::Courses::round))]
fn run_round(alloc: Global, demo_sites: &mut Branches, now: i64) -> Result<(), Stop>
    ensures ok { OnOk result (AllRan round demo_sites.old demo_sites.new) }
    ensures err { IfErr result (StopCause (StopsAmong round demo_sites.old)) }
{
    run_agent(alloc, demo_sites, DemoSite::Cons, now)?;
    run_agent(alloc, demo_sites, DemoSite::R1, now)?;
    run_agent(alloc, demo_sites, DemoSite::R2, now)?;
    run_agent(alloc, demo_sites, DemoSite::R3, now)?;
    Ok(())
}
