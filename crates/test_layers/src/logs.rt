//! A log on devices in memory that is stopped after each number of calls, crashed and opened again.

ghost use Rattle.std.specs.Prelude.{◌≡◌, true, IsTrue, IfOk};
ghost use Rattle.sr_logfile.specs.Inner.Logs.{HasLog};
ghost use Rattle.sr_logfile.specs.Records.{IsBody};

use sr_base::{NoMemory, Offset};
use sr_logfile::{LogFault, LogFile, frame, fresh, open};
use sr_memsite::{MemorySite, SharedMail};
use sr_site::{Disk, File};
use std::alloc::Global;
use test_rows::{number, say, say_number};

/// The place in the file that a record may not pass.
const BOUND: u64 = 1_006_632_960;

/// How far the log of a run came: nothing, a log without records, one record of 75 bytes, and a second one of 28.
#[derive(Clone, Copy)]
struct Committed {
    made: bool,
    end: u64,
}

/// Puts a record of so many bytes into the log; whether it was committed.
fn put<S: Disk>(
    alloc: Global,
    site: &mut S,
    log: &mut LogFile,
    body: &[u8],
) -> Result<bool, NoMemory>
    requires body { IsBody body.now }
    requires usable { log.old.usable ≡ true }
    requires log { IsTrue (S.seen site.old).observable → HasLog log.old (S.seen site.old).files }
    ensures usable { IfOk result (λ done. IsTrue done → log.new.usable ≡ true) }
    ensures log { IsTrue (S.seen site.old).observable → IfOk result (λ done. IsTrue done → HasLog log.new (S.seen site.new).files) }
    ensures told { (S.seen site.new).observable ≡ (S.seen site.old).observable }
{
    let framed = frame(alloc, body)?;
    match log.commit(site, framed.as_slice(), BOUND) {
        Ok(_) => Ok(true),
        Err(_) => Ok(false),
    }
}

/// Makes a log and commits two records, until a call fails.
fn run<S: Disk>(alloc: Global, site: &mut S) -> Result<Committed, NoMemory> {
    let mut done = Committed {
        made: false,
        end: 0,
    };
    if fresh(site, File::Log0, Offset(0)).is_err() {
        return Ok(done);
    }
    done.made = true;
    let Ok(mut log) = open(site, File::Log0) else {
        return Ok(done);
    };
    if !put(alloc, site, &mut log, &[7; 70])? {
        return Ok(done);
    }
    done.end = 75;
    if put(alloc, site, &mut log, &[9; 23])? {
        done.end = 103;
    }
    Ok(done)
}

/// What a log is opened as.
#[derive(Clone, Copy)]
enum Opened {
    /// A log with this end.
    Log(u64),
    Damaged(u64),
    Otherwise,
}

fn opened_log<S: Disk>(site: &mut S) -> Opened {
    match open(site, File::Log0) {
        Ok(log) => Opened::Log(log.end().0),
        Err(LogFault::Damaged { at }) => Opened::Damaged(at),
        Err(_) => Opened::Otherwise,
    }
}

/// How far a run came that was stopped after so many calls, and what stands behind a crash.
fn crashed(alloc: Global, calls: u64, pick: u64) -> Result<(Committed, Opened), NoMemory> {
    let mut site = MemorySite::new(alloc, SharedMail::new(alloc));
    let found = crashed_on(alloc, calls, pick, &mut site);
    drop(site);
    found
}

fn crashed_on(
    alloc: Global,
    calls: u64,
    pick: u64,
    site: &mut MemorySite,
) -> Result<(Committed, Opened), NoMemory> {
    site.stop_after(calls);
    let done = run(alloc, site)?;
    site.crash(alloc, pick)?;
    site.stop_after(u64::MAX);
    Ok((done, opened_log(site)))
}

/// A log ends at a record, never below one that was committed; one that was not made may be damaged at its header.
fn is_right(done: Committed, opened: Opened) -> bool {
    match opened {
        Opened::Log(end) => (end == 0 || end == 75 || end == 103) && end >= done.end,
        Opened::Damaged(at) => at == 0 && !done.made,
        Opened::Otherwise => false,
    }
}

/// The first number of calls, of so many, and the first pick, of so many, with which something else is left, or the last number of calls does not commit
/// both records.
fn first_wrong(alloc: Global, stops: u64, picks: u64) -> Result<Option<(u64, u64)>, NoMemory> {
    for calls in 0..stops {
        for pick in 0..picks {
            let (done, opened) = crashed(alloc, calls, pick)?;
            if !is_right(done, opened) || calls == stops.wrapping_sub(1) && done.end != 103 {
                return Ok(Some((calls, pick)));
            }
        }
    }
    Ok(None)
}

/// Says behind which stop and which crash a log is left otherwise than it is to be: of so many stops, each with so many crashes.
pub fn say_crashes(alloc: Global, given: &str, out: &mut Vec<u8>) -> Result<(), NoMemory> {
    match first_wrong(alloc, number(given, 0), number(given, 1))? {
        None => say(out, "none"),
        Some((calls, pick)) => {
            say_number(out, "", calls)?;
            say_number(out, " ", pick)
        }
    }
}
