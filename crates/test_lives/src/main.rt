//! `test_lives`: makes two databases over devices in memory, has them live, and prints what each deed came to, a line each: of a run its status and the lines that it
//! wrote, with ` / ` before each. It reads nothing. What it prints was reckoned from what the runs are to do, and does not come from this program.
//!
//! They run scripts and agents, calls fail, a run is stopped, a machine crashes, files are lost on their way. Whatever is done, the runs so far are lives as the
//! law on them asks (`runs_make_one_world` of sr_world_runs), and so they are runs of one good world: `live` says so where it comes to its end.
//!
//! It stands on dbremote_run for the runs, on world_lives_kept for the sites, on sr_memsite for their devices and on sr_world_runs for the law. It is nothing but a
//! test: it shows that the law's premises can be met. Nothing but the files that a database stands on and the folder goes from run to run; each run reads its files
//! anew.
#![tactic(auto)]

mod deeds;
mod life;
mod lives;
mod office;
mod place;

use crate::life::live;
use crate::office::Broken;
use std::process::ExitCode;
use test_rows::print;

/// The status of a life that was broken off.
const FAILED: u8 = 8;

fn main(rt: HostRuntime) -> ExitCode {
    let mut lines = Vec::new(rt.alloc());
    let lived = live(rt.alloc(), &mut lines, 0);
    let printed = print(rt, lines.as_slice());
    match lived {
        Ok(lives) => {
            drop(lives);
            ExitCode::from(printed)
        }
        Err(Broken::Memory | Broken::NotMade | Broken::Unknown) => ExitCode::from(FAILED),
    }
}
