//! The log of a database, begun anew at an offset.

ghost use Rattle.std.specs.Prelude.{◌≡◌, ◌≢◌, ◌≤◌, List, true, IsTrue, IfOk, IfErr, OnOk};
ghost use Rattle.sr_book.specs.Entries.{Name as AName};
ghost use Rattle.sr_catalog_script_laws.specs.Scripts.{IsSpellable};
ghost use Rattle.sr_database_files.specs.Inner.Openings.{ReadAlone, SnapshotCause};
ghost use Rattle.sr_database_files.specs.declared.fault.DatabaseFault.TheVariants.{Disk as no_disk};
ghost use Rattle.sr_database_history.specs.Recorded.{Recorded};
ghost use Rattle.sr_database_meaning.specs.Generations.{log_of, snapshot_of, generation_of, other_of};
ghost use Rattle.sr_database_meaning.specs.Restarts.{StandsAtEither, MayGoOver, IsQuiet};
ghost use Rattle.sr_database_meaning.specs.Standing.{StandsFor};
ghost use Rattle.sr_database_restart.specs.Inner.Restarting.{KeepsInForce};
ghost use Rattle.sr_logfile_carry.specs.Carried.{carried};
ghost use Rattle.sr_rows.specs.Inner.Steps.{at_mark};
ghost use Rattle.sr_site.specs.Causes.{DiskStays};
ghost use Rattle.sr_site.specs.Files.{bytes_of};
ghost use Rattle.sr_site.specs.Images.{RestsThroughout};
ghost use Rattle.sr_snapshot.specs.Beginnings.{Beginning, IsBeginning};
ghost use Rattle.sr_snapshot.specs.Inner.Beginnings.{beginning_in};
ghost use Rattle.sr_snapshot.specs.Snapshots.{IsSnapshot};
ghost use Rattle.sr_database.specs.Databases.{HasBeginning, IsDatabase};
ghost use Rattle.sr_database.specs.Inner.Restarts.{AnewCause, BeginCause, HasBegun, HasLogFrom, HoldsOwn, IsLogFrom, IsPartedAt, IsRestartFault, IsSpentAt, MayGoAnew, StateCause};
ghost use Rattle.sr_database.specs.Restarts.{BeginsAnew};

use crate::at_end::{begin_at_end, is_at_rest};
use crate::database::Database;
use sr_base::Offset;
use sr_catalog::Catalog;
use sr_database_files::{DatabaseFault, snapshot_fault};
use sr_database_replay::{Books, state_at};
use sr_database_restart::{RestartFault, restart_files};
use sr_logfile::LogFile;
use sr_rows::Rows;
use sr_site::{Disk, File, Site};
use sr_snapshot::State;
use sr_snapshot_read::read_state;
use std::alloc::Global;
use std::mem;

impl Database {
    /// Begins the log anew at `keep`, its base or the end of an entry past it.
    ///
    /// Where `keep` is the end and nothing is pending, the state there is what the value holds; else it reads the snapshot in force and the log up to there
    /// again. It writes that state as the snapshot of the other generation, and a log that begins there and has the entries behind it; and then it has the
    /// root name that generation. History, value and end are as they were. At each moment every
    /// crash leaves files that stand for the history, and while the root is not synced both generations do. `Long` comes where the snapshot would be longer
    /// than 1 GiB, before anything is written. After `Long`, `Damaged` and `Memory` nothing in force and nothing of the value has changed; after `Disk` the
    /// value is not used again. Where the disk tells what it holds, it is `Damaged` only where no entry ends at `keep`.
    pub fn restart_log<S: Site>(
        &mut self,
        alloc: Global,
        site: &mut S,
        keep: Offset,
    ) -> Result<(), DatabaseFault>
        requires usable { self.old.log.usable ≡ true }
        requires keep { (self.old.log.base ≤ keep.0) × (keep.0 ≤ self.old.log.end) }
        requires stands { IsTrue (S.seen site.old).observable → HasBeginning self.old (S.seen site.old) }
        ensures value { OnOk result (BeginsAnew keep.0 self.old self.new) }
        ensures beginning { IsTrue (S.seen site.old).observable → OnOk result (HasBeginning self.new (S.seen site.new)) }
        ensures database { IsTrue (S.seen site.old).observable → (publisher : AName) (es : List Recorded) → IsDatabase self.old publisher es (S.seen site.old)
            → OnOk result (IsDatabase self.new publisher es (S.seen site.new)) }
        ensures moments { IsTrue (S.seen site.old).observable → (publisher : AName) (es : List Recorded) → IsDatabase self.old publisher es (S.seen site.old)
            → RestsThroughout (StandsAtEither publisher es self.old.log.base keep.0) (S.seen site.old) (S.seen site.new) }
        ensures both { IsTrue (S.seen site.old).observable → (publisher : AName) (es : List Recorded) → IsDatabase self.old publisher es (S.seen site.old)
            → MayGoOver (generation_of self.old.log.file) publisher es self.old.log.base keep.0 (S.seen site.old) (S.seen site.new) }
        ensures stopped { IsTrue (S.seen site.old).observable → (publisher : AName) (es : List Recorded) → IsDatabase self.old publisher es (S.seen site.old)
            → IfErr result (λ fault. fault ≢ no_disk → RestsThroughout (StandsFor publisher es self.old.log.base) (S.seen site.old) (S.seen site.new)) }
        ensures left { IsTrue (S.seen site.old).observable → IfErr result (λ fault. fault ≢ no_disk → HasBeginning self.new (S.seen site.new)) }
        ensures same { IsTrue (S.seen site.old).observable → (publisher : AName) (es : List Recorded) → IsDatabase self.old publisher es (S.seen site.old)
            → IfErr result (λ fault. fault ≢ no_disk → IsDatabase self.new publisher es (S.seen site.new)) }
        ensures quiet { IsTrue (S.seen site.old).observable → IsQuiet (S.seen site.old).happened (S.seen site.new).happened }
        ensures stays { DiskStays (S.seen site.old) (S.seen site.new) }
        ensures steady { OnOk result ((S.seen site.new).disk_faults ≡ (S.seen site.old).disk_faults) }
        ensures cause { IfErr result (AnewCause self.old self.new keep (S.seen site.old) (S.seen site.new)) }
    {
        let is_own = is_at_rest(&self.log, &self.pending, keep);
        match begin_with(
            alloc,
            site,
            &self.log,
            &self.catalog,
            &mut self.rows,
            &self.books,
            keep,
            is_own,
        ) {
            Ok(anew) => {
                take_over(&mut self.log, &mut self.base_catalog, anew);
                Ok(())
            }
            Err(fault) => {
                spend_at(&mut self.log, fault);
                Err(fault)
            }
        }
    }
}

/// A log that was begun anew, and the catalog at its base.
#[derive(Drop)]
pub(crate) struct Anew {
    pub(crate) log: LogFile,
    pub(crate) base_catalog: Catalog,
}

/// Puts them in place of others.
fn take_over(log: &mut LogFile, base_catalog: &mut Catalog, anew: Anew)
    ensures log { log.new ≡ anew.log }
    ensures catalog { base_catalog.new ≡ anew.base_catalog }
{
    let Anew {
        log: new_log,
        base_catalog: new_catalog,
    } = anew;
    drop(mem::replace(log, new_log));
    drop(mem::replace(base_catalog, new_catalog));
}

/// Has a log not used again where the disk refused.
fn spend_at(log: &mut LogFile, fault: DatabaseFault)
    ensures { IsSpentAt fault log.old log.new }
{
    match fault {
        DatabaseFault::Disk => log.spend(),
        DatabaseFault::Missing
        | DatabaseFault::Exists
        | DatabaseFault::Damaged { .. }
        | DatabaseFault::Full { .. }
        | DatabaseFault::Long { .. }
        | DatabaseFault::Memory => {}
    }
}

/// Puts the generation that a log is not of in force: with what the value holds where that stands at the offset, else with the state that is read there.
fn begin_with<S: Site>(
    alloc: Global,
    site: &mut S,
    log: &LogFile,
    catalog: &Catalog,
    rows: &mut Rows,
    books: &Books,
    keep: Offset,
    is_own: bool,
) -> Result<Anew, DatabaseFault>
    requires usable { log.now.usable ≡ true }
    requires order { (log.now.base ≤ keep.0) × (keep.0 ≤ log.now.end) }
    requires spellable { IsSpellable catalog.now }
    requires stands { IsTrue (S.seen site.old).observable → HasLogFrom log.now (S.seen site.old) }
    requires own { is_own ≡ true → HoldsOwn log.now keep.0 catalog.now rows.old.rows books.now (S.seen site.old) }
    ensures rows { rows.new ≡ rows.old }
    ensures log { IfOk result (λ anew. anew.log ≡ carried log.now keep.0 (log_of (other_of (generation_of log.now.file)))) }
    ensures catalog { IfOk result (λ anew. IsSpellable anew.base_catalog) }
    ensures begun { IsTrue (S.seen site.old).observable → (b : Beginning) (es : List Recorded) → IsLogFrom log.now b es (S.seen site.old)
        → IfOk result (λ anew. HasBegun log.now keep.0 b es (S.seen site.old) (S.seen site.new) anew.base_catalog) }
    ensures moments { IsTrue (S.seen site.old).observable → (b : Beginning) (es : List Recorded) → IsLogFrom log.now b es (S.seen site.old)
        → MayGoAnew log.now keep.0 b es (S.seen site.old) (S.seen site.new) }
    ensures stopped { IsTrue (S.seen site.old).observable → IfErr result (λ fault. fault ≢ no_disk → RestsThroughout (KeepsInForce (generation_of log.now.file) (S.seen site.old)) (S.seen site.old) (S.seen site.new)) }
    ensures quiet { IsTrue (S.seen site.old).observable → IsQuiet (S.seen site.old).happened (S.seen site.new).happened }
    ensures stays { DiskStays (S.seen site.old) (S.seen site.new) }
    ensures steady { OnOk result ((S.seen site.new).disk_faults ≡ (S.seen site.old).disk_faults) }
    ensures cause { IfErr result (BeginCause log.now keep.0 (S.seen site.old) (S.seen site.new)) }
{
    if is_own {
        begin_at_end(alloc, site, log, catalog, rows, books, keep)
    } else {
        begin_anew(alloc, site, log, keep)
    }
}

/// Puts the generation that a log is not of in force: with the state at an offset of the log, and the entries behind it.
fn begin_anew<S: Site>(
    alloc: Global,
    site: &mut S,
    log: &LogFile,
    keep: Offset,
) -> Result<Anew, DatabaseFault>
    requires usable { log.now.usable ≡ true }
    requires order { (log.now.base ≤ keep.0) × (keep.0 ≤ log.now.end) }
    requires stands { IsTrue (S.seen site.old).observable → HasLogFrom log.now (S.seen site.old) }
    ensures log { IfOk result (λ anew. anew.log ≡ carried log.now keep.0 (log_of (other_of (generation_of log.now.file)))) }
    ensures catalog { IfOk result (λ anew. IsSpellable anew.base_catalog) }
    ensures begun { IsTrue (S.seen site.old).observable → (b : Beginning) (es : List Recorded) → IsLogFrom log.now b es (S.seen site.old)
        → IfOk result (λ anew. HasBegun log.now keep.0 b es (S.seen site.old) (S.seen site.new) anew.base_catalog) }
    ensures moments { IsTrue (S.seen site.old).observable → (b : Beginning) (es : List Recorded) → IsLogFrom log.now b es (S.seen site.old)
        → MayGoAnew log.now keep.0 b es (S.seen site.old) (S.seen site.new) }
    ensures stopped { IsTrue (S.seen site.old).observable → IfErr result (λ fault. fault ≢ no_disk → RestsThroughout (KeepsInForce (generation_of log.now.file) (S.seen site.old)) (S.seen site.old) (S.seen site.new)) }
    ensures quiet { IsTrue (S.seen site.old).observable → IsQuiet (S.seen site.old).happened (S.seen site.new).happened }
    ensures stays { DiskStays (S.seen site.old) (S.seen site.new) }
    ensures steady { OnOk result ((S.seen site.new).disk_faults ≡ (S.seen site.old).disk_faults) }
    ensures cause { IfErr result (BeginCause log.now keep.0 (S.seen site.old) (S.seen site.new)) }
{
    let state = state_behind(alloc, site, log, keep)?;
    match restart_files(alloc, site, log, &state) {
        Ok(new) => Ok(anew_of(new, state)),
        Err(fault) => {
            drop(state);
            Err(restart_fault(fault))
        }
    }
}

/// A log that begins at a state, with its catalog.
fn anew_of(log: LogFile, state: State) -> Anew
    ensures log { result.log ≡ log }
    ensures catalog { result.base_catalog ≡ state.catalog }
{
    let State {
        offset: _,
        catalog,
        rows: _,
        books: _,
    } = state;
    Anew {
        log,
        base_catalog: catalog,
    }
}

/// The fault of a database whose files are not begun anew.
pub(crate) fn restart_fault(fault: RestartFault) -> DatabaseFault
    ensures { IsRestartFault fault result }
{
    match fault {
        RestartFault::Disk => DatabaseFault::Disk,
        RestartFault::Memory => DatabaseFault::Memory,
        RestartFault::Long { length, limit } => DatabaseFault::Long { length, limit },
        RestartFault::Damaged { file, at } => DatabaseFault::Damaged { file, at },
    }
}

/// The state at an offset of a log: what its snapshot has, and the entries up to there.
fn state_behind<S: Site>(
    alloc: Global,
    site: &mut S,
    log: &LogFile,
    keep: Offset,
) -> Result<State, DatabaseFault>
    requires order { (log.now.base ≤ keep.0) × (keep.0 ≤ log.now.end) }
    requires stands { IsTrue (S.seen site.old).observable → HasLogFrom log.now (S.seen site.old) }
    ensures beginning { IfOk result (λ state. IsBeginning (beginning_in state)) }
    ensures offset { IfOk result (λ state. state.offset.0 ≡ keep.0) }
    ensures parted { IsTrue (S.seen site.old).observable → (b : Beginning) (es : List Recorded) → IsLogFrom log.now b es (S.seen site.old)
        → IfOk result (λ state. IsPartedAt b es keep.0 (beginning_in state)) }
    ensures read { ReadAlone (S.seen site.old) (S.seen site.new) }
    ensures steady { OnOk result ((S.seen site.new).disk_faults ≡ (S.seen site.old).disk_faults) }
    ensures cause { IfErr result (StateCause log.now keep.0 (S.seen site.old) (S.seen site.new)) }
{
    let file = log.file();
    let base = log.base().0;
    let size = site.length(file)?;
    let state = kept_state(alloc, site, snapshot_beside(file))?;
    let found = state.offset.0;
    if found != base {
        drop(state);
        return Err(DatabaseFault::Damaged { file, at: 8 });
    }
    state_at(alloc, site, file, state, keep, size)
}

/// The snapshot of the generation that a log is of.
fn snapshot_beside(log: File) -> File
    ensures { result ≡ snapshot_of (generation_of log) }
{
    match log {
        File::Root | File::Log0 | File::Snap0 => File::Snap0,
        File::Log1 | File::Snap1 => File::Snap1,
    }
}

/// The state of a snapshot that was synced when it was read before.
fn kept_state<S: Site>(alloc: Global, site: &mut S, snapshot: File) -> Result<State, DatabaseFault>
    ensures beginning { IfOk result (λ state. IsBeginning (beginning_in state)) }
    ensures marked { IfOk result (λ state. state.rows ≡ at_mark state.rows.rows) }
    ensures snapshot { IsTrue (S.seen site.old).observable → IfOk result (λ state. IsSnapshot (beginning_in state) (bytes_of (S.seen site.old).files snapshot)) }
    ensures read { ReadAlone (S.seen site.old) (S.seen site.new) }
    ensures steady { OnOk result ((S.seen site.new).disk_faults ≡ (S.seen site.old).disk_faults) }
    ensures cause { IfErr result (SnapshotCause snapshot (S.seen site.old) (S.seen site.new)) }
{
    match read_state(alloc, site, snapshot) {
        Ok(state) => Ok(state),
        Err(fault) => Err(snapshot_fault(snapshot, fault)),
    }
}
