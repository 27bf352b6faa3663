//! `dbremote`: SQL databases, and the scripts that are run on them.
//!
//! `run` of dbremote_run does all that the program does. Here it is given the host's devices: files, standard input and standard output.
#![tactic(auto)]

use dbremote_run::{Fault, report, run};
use sr_hostsite::{HostSink, HostSite, HostSource};
use std::process::ExitCode;

fn main(rt: HostRuntime) -> ExitCode {
    let mut output = HostSink::new(rt);
    let words = match sr_hostsite::words(rt.alloc(), &rt) {
        Ok(words) => words,
        Err(refused) => {
            let told = report(rt.alloc(), &mut output, Fault::from(refused));
            return ExitCode::from(told.status());
        }
    };
    let (mut site, mut input) = (HostSite::new(rt), HostSource::new(rt));
    let now = sr_hostsite::now(&rt);
    ExitCode::from(run(
        rt.alloc(),
        words.as_slice(),
        &mut site,
        &mut input,
        &mut output,
        now,
    ))
}
