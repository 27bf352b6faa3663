ghost use Rattle.std.specs.Prelude.{◌≡◌, [], ℕ, true, List, length, IsTrue, IfOk, IfErr, OnOk};
ghost use Rattle.sr_book.specs.Entries.{Name as AName};
ghost use Rattle.sr_database_history.specs.Recorded.{Recorded};
ghost use Rattle.sr_logfile.specs.Inner.Log.{InOrder};
ghost use Rattle.sr_logfile.specs.Inner.Moments.{IsAsRead};
ghost use Rattle.sr_rows.specs.Inner.Steps.{at_mark};
ghost use Rattle.sr_site.specs.Causes.{DiskStays};
ghost use Rattle.sr_site.specs.Files.{bytes_of};
ghost use Rattle.sr_site.specs.Images.{IsImage, IsSettled, RestsThroughout};
ghost use Rattle.sr_database_meaning.specs.Events.{attaches_in};
ghost use Rattle.sr_database_meaning.specs.Standing.{StandsFor, StandFrom};
ghost use Rattle.sr_snapshot.specs.Inner.Beginnings.{beginning_in};
ghost use Rattle.sr_snapshot.specs.Beginnings.{Beginning, IsBeginning};
ghost use Rattle.sr_database.specs.Inner.Causes.{OpenCause, IsDiskOrMemory};
ghost use Rattle.sr_database_files.specs.Inner.Openings.{SyncedAlone, ReadAlone, IsWholeLog, LogCause};
ghost use Rattle.sr_database_replay.specs.Inner.Replays.{IsReplayed, ReplayCause};
ghost use Rattle.sr_database.specs.Inner.Opened.{IsReplayedBehind, IsOpened};
ghost use Rattle.sr_database.specs.Databases.{IsFrom, IsDatabase, IsDatabaseFrom, HasBeginning};
ghost use Rattle.sr_database.specs.InForce.{HasLogInForce};
ghost use Rattle.sr_database.specs.Inner.Sound.{IsSound};

use crate::database::Database;
use sr_base::Copied;
use sr_catalog::Catalog;
use sr_database_files::{DatabaseFault, files_in_force, open_records, read_snapshot};
use sr_database_replay::{Replay, replay_all};
use sr_logfile::LogFile;
use sr_site::{Disk, File, Site};
use sr_snapshot::State;
use std::alloc::Global;

impl Database {
    /// Opens the database.
    ///
    /// `Missing` comes exactly where the root has no byte. `Damaged { file, at }` comes exactly where the files stand neither for a history nor behind a
    /// beginning of which there is none: the snapshot at the first byte of the field that breaks; the log at 0 where its header breaks, at 8 where its base
    /// is not that of the snapshot, at the gate of the first record that is not as written, and where each is, at that of the first one that does not fit
    /// what stands before it. Of several, the first in this order. Each file is synced before it is read, so that what was read stays. It reads the snapshot
    /// of the generation that the root names, through a window of 64 KiB; then the log front to back, first five bytes a record and then whole ones, in a
    /// buffer of the longest record's length.
    pub fn open<S: Site>(alloc: Global, site: &mut S) -> Result<Database, DatabaseFault>
        ensures ready { IfOk result (λ db. (db.log.usable ≡ true) × (db.pending ≡ [])) }
        ensures opened { IsTrue (S.seen site.old).observable → IfOk result (λ db. HasBeginning db (S.seen site.new)) }
        ensures in_force { IsTrue (S.seen site.old).observable → IfOk result (λ db. HasLogInForce db (S.seen site.new)) }
        ensures sound { IfOk result IsSound }
        ensures stood { IsTrue (S.seen site.old).observable → (publisher : AName) (es : List Recorded) (base : ℕ) → StandsFor publisher es base (S.seen site.old).files
            → IfOk result (λ db. IsDatabase db publisher es (S.seen site.new)) × IfErr result IsDiskOrMemory }
        ensures stood_behind { IsTrue (S.seen site.old).observable → (b : Beginning) (es : List Recorded) → StandFrom b es (S.seen site.old).files
            → IfOk result (λ db. IsDatabaseFrom db b es (S.seen site.new)) × IfErr result IsDiskOrMemory }
        ensures files { IsTrue (S.seen site.old).observable → (S.seen site.new).files ≡ (S.seen site.old).files }
        ensures moments { IsTrue (S.seen site.old).observable → RestsThroughout (IsImage (S.seen site.old)) (S.seen site.old) (S.seen site.new) }
        ensures attached { IsTrue (S.seen site.old).observable → attaches_in (S.seen site.new).happened ≡ attaches_in (S.seen site.old).happened }
        ensures stays { DiskStays (S.seen site.old) (S.seen site.new) }
        ensures steady { OnOk result ((S.seen site.new).disk_faults ≡ (S.seen site.old).disk_faults) }
        ensures cause { IfErr result (OpenCause (S.seen site.old) (S.seen site.new)) }
    {
        open_files(alloc, site)
    }
}

/// Opens the files that are in force.
fn open_files<S: Site>(alloc: Global, site: &mut S) -> Result<Database, DatabaseFault>
    ensures ready { IfOk result (λ db. (db.log.usable ≡ true) × (db.pending ≡ [])) }
    ensures opened { IsTrue (S.seen site.old).observable → IfOk result (λ db. HasBeginning db (S.seen site.new)) }
    ensures synced { SyncedAlone (S.seen site.old) (S.seen site.new) }
    ensures steady { OnOk result ((S.seen site.new).disk_faults ≡ (S.seen site.old).disk_faults) }
    ensures cause { IfErr result (OpenCause (S.seen site.old) (S.seen site.new)) }
{
    let files = files_in_force(site)?;
    let state = read_snapshot(alloc, site, files.snapshot)?;
    open_log(alloc, site, files.log, state)
}

/// Syncs the log, and reads its entries behind the state of the snapshot, up to the first closed gate.
fn open_log<S: Site>(
    alloc: Global,
    site: &mut S,
    log: File,
    state: State,
) -> Result<Database, DatabaseFault>
    requires beginning { IsBeginning (beginning_in state) }
    requires marked { state.rows ≡ at_mark state.rows.rows }
    ensures ready { IfOk result (λ db. (db.log.usable ≡ true) × (db.pending ≡ [])) }
    ensures opened { IfOk result (λ db. IsOpened db log (beginning_in state) (S.seen site.old)) }
    ensures settled { IsTrue (S.seen site.old).observable → OnOk result (IsSettled (IsAsRead log (S.seen site.new)) (S.seen site.new)) }
    ensures synced { SyncedAlone (S.seen site.old) (S.seen site.new) }
    ensures steady { OnOk result ((S.seen site.new).disk_faults ≡ (S.seen site.old).disk_faults) }
    ensures cause { IfErr result (LogCause log (beginning_in state) (S.seen site.old) (S.seen site.new)) }
{
    open_records(site, log, state.offset.0)?;
    read_entries(alloc, site, log, state)
}

/// Reads the entries of a log whose records are whole, up to the first closed gate.
fn read_entries<S: Site>(
    alloc: Global,
    site: &mut S,
    log: File,
    state: State,
) -> Result<Database, DatabaseFault>
    requires beginning { IsBeginning (beginning_in state) }
    requires marked { state.rows ≡ at_mark state.rows.rows }
    requires whole { IsTrue (S.seen site.old).observable → IsWholeLog state.offset.0 (bytes_of (S.seen site.old).files log) }
    ensures ready { IfOk result (λ db. (db.log.usable ≡ true) × (db.pending ≡ [])) }
    ensures opened { IfOk result (λ db. IsOpened db log (beginning_in state) (S.seen site.old)) }
    ensures read { ReadAlone (S.seen site.old) (S.seen site.new) }
    ensures steady { OnOk result ((S.seen site.new).disk_faults ≡ (S.seen site.old).disk_faults) }
    ensures cause { IfErr result (ReplayCause log (beginning_in state) (S.seen site.old) (S.seen site.new)) }
{
    let size = site.length(log)?;
    let base = state.offset.0;
    let base_catalog = state.catalog.copy(alloc)?;
    let mut replay = Replay::behind(alloc, state)?;
    match replay_all(alloc, site, log, &mut replay, base, size) {
        Ok(end) => Ok(database_of(alloc, replay, base_catalog, log, base, end)),
        Err(fault) => {
            drop(replay);
            drop(base_catalog);
            Err(fault)
        }
    }
}

/// The database of what was read behind the base of its log.
fn database_of(
    alloc: Global,
    replay: Replay,
    base_catalog: Catalog,
    log: File,
    base: u64,
    end: u64,
) -> Database
    requires order { InOrder base end }
    requires replayed { IsReplayedBehind replay.catalog replay.rows replay.books end base base_catalog }
    ensures ready { (result.log.usable ≡ true) × (result.pending ≡ []) }
    ensures file { result.log.file ≡ log }
    ensures is { (b : Beginning) (es : List Recorded) → IsReplayed replay.catalog replay.rows replay.books end b es → base ≡ b.place → base_catalog ≡ b.state.catalog → IsFrom result b es }
{
    let Replay {
        catalog,
        rows,
        books,
        buffer: _,
    } = replay;
    Database {
        catalog,
        base_catalog,
        rows,
        pending: Vec::new(alloc),
        books,
        log: LogFile::at(log, base, end),
    }
}
