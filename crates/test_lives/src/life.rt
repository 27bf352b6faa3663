//! One life with all that may befall it.

ghost use Rattle.std.specs.Prelude.{◌≡◌, ◌++◌, ◌∷◌, [], IfOk};
ghost use Rattle.test_lives.specs.Inner.Deeds.{beginning_runs, conflict_runs, fragment_runs, leaving_runs, loss_runs, paper_runs, whose_runs};
ghost use Rattle.test_lives.specs.Inner.Lives.{HaveOneWorld, offices_of};
ghost use Rattle.test_lives.specs.declared.place.Place.TheVariants.{Above};

use crate::deeds::{Deed, do_deeds};
use crate::lives::Lives;
use crate::office::Broken;
use crate::place::Place;
use sr_base::NoMemory;
use std::alloc::Global;

/// A table in two partitions, of which r1 has the one, and a trigger that inserts a row; a first row comes to r1.
const BEGINNINGS: [Deed<'static>; 7] = [
    Deed::Run(
        Place::Above,
        "sql cons",
        "CREATE TABLE cust (id INTEGER PRIMARY KEY, rep VARCHAR(8), qty INTEGER); \
         CREATE PUBLICATION p (TABLE cust SUBSCRIBE BY rep); \
         GRANT REMOTE TO r1; \
         GRANT REMOTE TO r2; \
         CREATE SUBSCRIPTION TO p ('A') FOR r1; \
         CREATE SUBSCRIPTION TO p ('B') FOR r2; \
         START SUBSCRIPTION TO p ('A') FOR r1; \
         START SUBSCRIPTION TO p ('B') FOR r2;",
    ),
    Deed::Run(
        Place::Below,
        "sql r1",
        "CREATE TABLE cust (id INTEGER PRIMARY KEY, rep VARCHAR(8), qty INTEGER); \
         GRANT CONSOLIDATE TO cons; \
         CREATE PUBLICATION p (TABLE cust); \
         CREATE SUBSCRIPTION TO p FOR cons; \
         START SUBSCRIPTION TO p FOR cons;",
    ),
    Deed::Run(
        Place::Above,
        "sql cons",
        "CREATE TRIGGER fix RESOLVE UPDATE OF qty ON cust REFERENCING NEW AS n FOR EACH ROW \
         BEGIN INSERT INTO cust VALUES (9, 'A', 1); END;",
    ),
    Deed::Run(
        Place::Above,
        "sql cons",
        "INSERT INTO cust VALUES (1, 'A', 10); COMMIT;",
    ),
    Deed::Run(Place::Above, "agent cons --mail m", ""),
    Deed::Run(Place::Below, "agent r1 --mail m", ""),
    Deed::Run(Place::Above, "agent cons --mail m", ""),
];

/// Both update the row, twice: at the first update that r1 sends the trigger inserts its row, which goes to r1; at the second one the key of that is held, and
/// so the update clashes.
const CONFLICTS: [Deed<'static>; 10] = [
    Deed::Run(
        Place::Below,
        "sql r1",
        "UPDATE cust SET qty = 7 WHERE id = 1; COMMIT;",
    ),
    Deed::Run(
        Place::Above,
        "sql cons",
        "UPDATE cust SET qty = 8 WHERE id = 1; COMMIT;",
    ),
    Deed::Run(Place::Below, "agent r1 --mail m", ""),
    Deed::Run(Place::Above, "agent cons --mail m", ""),
    Deed::Run(Place::Below, "agent r1 --mail m", ""),
    Deed::Run(
        Place::Above,
        "sql cons",
        "UPDATE cust SET qty = 6 WHERE id = 1; COMMIT;",
    ),
    Deed::Run(
        Place::Below,
        "sql r1",
        "UPDATE cust SET qty = 5 WHERE id = 1; COMMIT;",
    ),
    Deed::Run(Place::Below, "agent r1 --mail m", ""),
    Deed::Run(Place::Above, "agent cons --mail m", ""),
    Deed::Run(Place::Below, "agent r1 --mail m", ""),
];

/// The row leaves the partition that r1 has. The file that says so comes twice.
const LEAVES: [Deed<'static>; 4] = [
    Deed::Run(
        Place::Above,
        "sql cons",
        "UPDATE cust SET rep = 'B' WHERE id = 1; COMMIT;",
    ),
    Deed::Run(Place::Above, "agent cons --mail m", ""),
    Deed::Repeat("r1", "cons.0000000000000004", "again"),
    Deed::Run(Place::Below, "agent r1 --mail m", ""),
];

/// The first of two files is lost, and is asked for. The machine of the one above crashes, and all that it had written is left. A run that takes what comes
/// instead is stopped, and its machine crashes: the entry that it had written and not synced is gone, and the next run takes it all.
const LOSSES: [Deed<'static>; 12] = [
    Deed::Run(
        Place::Above,
        "sql cons",
        "INSERT INTO cust VALUES (2, 'A', 5); COMMIT;",
    ),
    Deed::Run(Place::Above, "agent cons --mail m", ""),
    Deed::Run(
        Place::Above,
        "sql cons",
        "INSERT INTO cust VALUES (3, 'A', 6); COMMIT;",
    ),
    Deed::Run(Place::Above, "agent cons --mail m", ""),
    Deed::Lose("r1", "cons.0000000000000005"),
    Deed::Run(Place::Below, "agent r1 --mail m", ""),
    Deed::Run(Place::Above, "agent cons --mail m", ""),
    Deed::Crash(Place::Above, 1),
    Deed::Stopped(Place::Below, "agent r1 --mail m", "", CALLS),
    Deed::Crash(Place::Below, 0),
    Deed::Run(Place::Below, "agent r1 --mail m", ""),
    Deed::Run(Place::Below, "sql r1", "SELECT * FROM cust;"),
];

/// How many calls the stopped run makes: the last is the write of the first entry that it takes, and the one that would sync it fails.
const CALLS: u64 = 85;

/// A table for long texts.
const PAPERS: [Deed<'static>; 2] = [
    Deed::Run(
        Place::Above,
        "sql cons",
        "CREATE TABLE doc (id INTEGER PRIMARY KEY, body VARCHAR(32767)); \
         CREATE PUBLICATION q (TABLE doc); \
         CREATE SUBSCRIPTION TO q FOR r1; \
         START SUBSCRIPTION TO q FOR r1;",
    ),
    Deed::Run(
        Place::Below,
        "sql r1",
        "CREATE TABLE doc (id INTEGER PRIMARY KEY, body VARCHAR(32767));",
    ),
];

/// A transaction that is sent in two files, of which the second comes first.
const FRAGMENTS: [Deed<'static>; 6] = [
    Deed::Run(Place::Above, "agent cons --mail m -l 10000", ""),
    Deed::Hold("r1", "cons.0000000000000008"),
    Deed::Run(Place::Below, "agent r1 --mail m", ""),
    Deed::Release,
    Deed::Run(Place::Below, "agent r1 --mail m", ""),
    Deed::Run(Place::Below, "sql r1", "SELECT id FROM doc;"),
];

/// How many letters the long text has.
const LETTERS: usize = 12000;

/// A script that inserts a row with a long text.
fn paper(alloc: Global) -> Result<String, NoMemory> {
    let mut script = String::new(alloc);
    script.push_str("INSERT INTO doc VALUES (1, '")?;
    for _ in 0..LETTERS {
        script.push('x')?;
    }
    script.push_str("'); COMMIT;")?;
    Ok(script)
}

/// Until the first row has come.
fn beginnings(lives: Lives, alloc: Global, out: &mut Vec<u8>, now: i64) -> Result<Lives, Broken>
    ensures places { IfOk result (λ done. done.places ≡ lives.places ++ beginning_runs) }
{
    do_deeds(lives, alloc, &BEGINNINGS, out, now)
}

/// Until the second update has clashed.
fn conflicts(lives: Lives, alloc: Global, out: &mut Vec<u8>, now: i64) -> Result<Lives, Broken>
    ensures places { IfOk result (λ done. done.places ≡ lives.places ++ conflict_runs) }
{
    do_deeds(lives, alloc, &CONFLICTS, out, now)
}

/// Until the row has left its partition.
fn leaves(lives: Lives, alloc: Global, out: &mut Vec<u8>, now: i64) -> Result<Lives, Broken>
    ensures places { IfOk result (λ done. done.places ≡ lives.places ++ leaving_runs) }
{
    do_deeds(lives, alloc, &LEAVES, out, now)
}

/// Until the lost file is made good.
fn losses(lives: Lives, alloc: Global, out: &mut Vec<u8>, now: i64) -> Result<Lives, Broken>
    ensures places { IfOk result (λ done. done.places ≡ lives.places ++ loss_runs) }
{
    do_deeds(lives, alloc, &LOSSES, out, now)
}

/// Until the second table is there.
fn papers(lives: Lives, alloc: Global, out: &mut Vec<u8>, now: i64) -> Result<Lives, Broken>
    ensures places { IfOk result (λ done. done.places ≡ lives.places ++ paper_runs) }
{
    do_deeds(lives, alloc, &PAPERS, out, now)
}

/// Until the transaction in two files is taken.
fn fragments(lives: Lives, alloc: Global, out: &mut Vec<u8>, now: i64) -> Result<Lives, Broken>
    ensures places { IfOk result (λ done. done.places ≡ lives.places ++ fragment_runs) }
{
    do_deeds(lives, alloc, &FRAGMENTS, out, now)
}

/// The second table is filled.
fn filled(
    lives: Lives,
    alloc: Global,
    script: &str,
    out: &mut Vec<u8>,
    now: i64,
) -> Result<Lives, Broken>
    ensures places { IfOk result (λ done. done.places ≡ lives.places ++ Above ∷ []) }
{
    lives.deed(alloc, Deed::Run(Place::Above, "sql cons", script), out, now)
}

/// Makes two databases and has them live: scripts and agents run, a trigger fires and inserts a row, an update clashes, a row leaves the partition that the one
/// below has, a file comes twice, a file is lost and asked for, both machines crash, one of them in a run that is stopped, and a transaction comes in two files,
/// the second one first. What each deed came to is appended, a line each.
///
/// Where it comes to its end, the runs are those of the one above and of the one below in this order, and they are runs of one good world.
pub fn live(alloc: Global, out: &mut Vec<u8>, now: i64) -> Result<Lives, Broken>
    ensures places { IfOk result (λ lives. lives.places ≡ whose_runs) }
    ensures world { IfOk result (λ lives. HaveOneWorld (offices_of lives) lives.put lives.places) }
{
    let script = paper(alloc)?;
    let begun = Lives::begin(alloc, now)?;
    let come = beginnings(begun, alloc, out, now)?;
    let clashed = conflicts(come, alloc, out, now)?;
    let left = leaves(clashed, alloc, out, now)?;
    let regained = losses(left, alloc, out, now)?;
    let tabled = papers(regained, alloc, out, now)?;
    let written = filled(tabled, alloc, script.as_str(), out, now)?;
    let lives = fragments(written, alloc, out, now)?;
    lives.have_lived();
    Ok(lives)
}
