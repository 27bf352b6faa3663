ghost use Rattle.std.specs.Prelude.{◌≡◌, ◌≤◌, ℕ, IfOk, IfErr, IsTrue};
ghost use Rattle.dbremote_command.specs.Reports.{Wrote};
ghost use Rattle.dbremote_demo.specs.Courses.{Course, CourseStops};
ghost use Rattle.dbremote_demo.specs.Demonstrations.{CameTo, Demonstrated};
ghost use Rattle.dbremote_demo.specs.Inner.Runs.{StopCause};
ghost use Rattle.dbremote_demo_draws.specs.Places.{nothing_made};

use crate::blocks::run_blocks;
use crate::branches::Branches;
use crate::closing::settle;
use crate::making::make_all;
use crate::stop::Stop;
use dbremote_command::{Fault, tell};
use dbremote_demo_draws::{Draws, lines_of, summed};
use sr_database::DatabaseFault;
use sr_session::say;
use sr_site::Sink;
use std::alloc::Global;

/// Runs the demonstration of a seed with so many statements, and prints its summary. Answers the exit status.
///
/// It is 0 where each run inside it answered 0 or 1; that of the first one that answered another, whose last line is written; 7 where the sink
/// failed; and 8 for want of memory, also of a run inside it or of its devices.
pub fn demo<O: Sink>(alloc: Global, seed: u64, count: u32, output: &mut O, now: i64) -> u8
    requires few { count ≤ 100000 }
    ensures demonstrated { Demonstrated seed count (O.seen output.old) (O.seen output.new) result }
{
    match lines(alloc, seed, count, now) {
        Ok(lines) => show(alloc, output, lines),
        Err(Stop::Memory) => tell(alloc, output, Fault::Database(DatabaseFault::Memory)),
        Err(Stop::Run { status, line }) => end(output, status, line),
    }
}

/// Writes the summary.
#[tactic(auto, using(crate::proofs::Telling::shown_so, crate::proofs::Telling::unshown_so))]
fn show<O: Sink>(alloc: Global, output: &mut O, lines: Vec<u8>) -> u8
    ensures shown { (seed statements : ℕ) → CameTo seed statements lines.items → Demonstrated seed statements (O.seen output.old) (O.seen output.new) result }
{
    let said = say(output, lines.as_slice());
    drop(lines);
    match said {
        Ok(()) => 0,
        Err(_) => tell(alloc, output, Fault::Sink),
    }
}

/// Writes the last line of a run that ended the demonstration.
fn end<O: Sink>(output: &mut O, status: u8, line: Vec<u8>) -> u8
    ensures status { result ≡ status }
    ensures written { IsTrue (O.seen output.old).observable → Wrote line.items (O.seen output.old) (O.seen output.new) }
{
    let said = say(output, line.as_slice());
    drop(line);
    match said {
        Ok(()) => status,
        Err(_) => status,
    }
}

/// Makes the databases, does all, and makes the lines of what it came to.
fn lines(alloc: Global, seed: u64, count: u32, now: i64) -> Result<Vec<u8>, Stop>
    requires few { count ≤ 100000 }
    ensures came { IfOk result (λ lines. CameTo seed count lines.items) }
    ensures stop { IfErr result (StopCause (CourseStops seed count)) }
{
    let mut branches = Branches::new(alloc);
    match run_all(alloc, &mut branches, seed, count, now) {
        Ok(lost) => {
            let demo_sites = branches.closed();
            let summary = summed(alloc, demo_sites, count, lost)?;
            Ok(lines_of(alloc, &summary)?)
        }
        Err(stop) => {
            drop(branches);
            Err(stop)
        }
    }
}

/// Makes all runs. Answers how many messages were lost.
#[tactic(auto, using(crate::proofs::Endings::making_stops, crate::proofs::Endings::working_stops, crate::proofs::Endings::settling_stops, crate::proofs::Endings::course_so))]
fn run_all(
    alloc: Global,
    demo_sites: &mut Branches,
    seed: u64,
    count: u32,
    now: i64,
) -> Result<u64, Stop>
    requires few { count ≤ 100000 }
    ensures course { demo_sites.old ≡ nothing_made → IfOk result (Course seed count demo_sites.new) }
    ensures stop { demo_sites.old ≡ nothing_made → IfErr result (StopCause (CourseStops seed count)) }
{
    let mut draws = Draws::new(seed);
    make_all(alloc, demo_sites, now)?;
    let lost = run_blocks(alloc, demo_sites, &mut draws, count, now)?;
    settle(alloc, demo_sites, now)?;
    Ok(lost)
}
