//! How the four databases are made.

ghost use Rattle.std.specs.Prelude.{IfErr, OnOk};
ghost use Rattle.dbremote_demo.specs.Courses.{AllRan, StopsAmong, first_script, made_at, making};
ghost use Rattle.dbremote_demo.specs.Runs.{RanWell, Stopped, script_of};
ghost use Rattle.dbremote_demo.specs.Inner.Runs.{StopCause};

use crate::branches::Branches;
use crate::inner::{run_init, run_sql};
use crate::scripts::first_script;
use crate::stop::Stop;
use dbremote_demo_draws::DemoSite;
use std::alloc::Global;

/// Makes each database, and runs its first script.
#[tactic(auto, using(crate::proofs::Chains::joined, crate::proofs::Chains::prefix_stops, crate::proofs::Chains::rest_stops))]
pub(crate) fn make_all(alloc: Global, demo_sites: &mut Branches, now: i64) -> Result<(), Stop>
    ensures ok { OnOk result (AllRan making demo_sites.old demo_sites.new) }
    ensures err { IfErr result (StopCause (StopsAmong making demo_sites.old)) }
{
    make(alloc, demo_sites, DemoSite::Cons, now)?;
    make(alloc, demo_sites, DemoSite::R1, now)?;
    make(alloc, demo_sites, DemoSite::R2, now)?;
    make(alloc, demo_sites, DemoSite::R3, now)?;
    Ok(())
}

/// Makes a database, and runs its first script.
#[tactic(auto, using(crate::proofs::Chains::two_ran, crate::proofs::Chains::first_stops, crate::proofs::Chains::later_stops), unfolding(crate::specs::Courses::made_at))]
fn make(alloc: Global, demo_sites: &mut Branches, demo_site: DemoSite, now: i64) -> Result<(), Stop>
    ensures ok { OnOk result (AllRan (made_at demo_site) demo_sites.old demo_sites.new) }
    ensures err { IfErr result (StopCause (StopsAmong (made_at demo_site) demo_sites.old)) }
{
    run_init(alloc, demo_sites, demo_site, now)?;
    run_first(alloc, demo_sites, demo_site, now)?;
    Ok(())
}

/// Runs a database's first script.
fn run_first(
    alloc: Global,
    demo_sites: &mut Branches,
    demo_site: DemoSite,
    now: i64,
) -> Result<(), Stop>
    ensures ok { OnOk result (RanWell (script_of demo_site (first_script demo_site)) demo_sites.old demo_sites.new) }
    ensures err { IfErr result (StopCause (Stopped (script_of demo_site (first_script demo_site)) demo_sites.old)) }
{
    let script = Vec::from_slice(alloc, first_script(demo_site))?;
    run_sql(alloc, demo_sites, demo_site, script, now)?;
    Ok(())
}
