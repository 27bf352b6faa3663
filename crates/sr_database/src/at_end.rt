//! The log of a database, begun anew at its end: with what the value holds.

ghost use Rattle.std.specs.Prelude.{◌≡◌, ◌≢◌, ◌≤◌, [], List, true, IsTrue, IfOk, IfErr, OnOk, OnErr};
ghost use Rattle.sr_catalog_script_laws.specs.Scripts.{IsSpellable};
ghost use Rattle.sr_database_files.specs.declared.fault.DatabaseFault.TheVariants.{Disk as no_disk};
ghost use Rattle.sr_database_history.specs.Recorded.{Recorded};
ghost use Rattle.sr_database_meaning.specs.Generations.{log_of, generation_of, other_of};
ghost use Rattle.sr_database_meaning.specs.Restarts.{IsQuiet};
ghost use Rattle.sr_database_restart.specs.Inner.Restarting.{KeepsInForce};
ghost use Rattle.sr_logfile_carry.specs.Carried.{carried};
ghost use Rattle.sr_site.specs.Causes.{DiskStays};
ghost use Rattle.sr_site.specs.Images.{RestsThroughout};
ghost use Rattle.sr_snapshot.specs.Beginnings.{Beginning};
ghost use Rattle.sr_snapshot.specs.Inner.Beginnings.{beginning_in};
ghost use Rattle.sr_database.specs.Inner.Restarts.{BeginCause, HasBegun, HasLogFrom, HoldsOwn, IsLogFrom, MayGoAnew, own_beginning};

use crate::restarting::{Anew, restart_fault};
use sr_base::{Copied, NoMemory, Offset, Seq};
use sr_catalog::Catalog;
use sr_database_files::DatabaseFault;
use sr_database_replay::{Books, lines_of};
use sr_database_restart::restart_files;
use sr_logfile::LogFile;
use sr_logform::Change;
use sr_rows::Rows;
use sr_site::Site;
use sr_snapshot::State;
use std::alloc::Global;
use std::mem;

/// Whether what a value holds stands at an offset: it is the end of its log, and nothing is pending.
pub(crate) fn is_at_rest(log: &LogFile, pending: &[Change], keep: Offset) -> bool
    ensures { result ≡ true → (keep.0 ≡ log.now.end) × (pending.now ≡ []) }
{
    keep.0 == log.end().0 && pending.is_empty()
}

/// Puts the generation that a log is not of in force, with what a value holds as the state at the log's end.
///
/// The rows are walked once for their length and once for their bytes. None is copied, and they are as they were behind it, whatever comes of it.
pub(crate) fn begin_at_end<S: Site>(
    alloc: Global,
    site: &mut S,
    log: &LogFile,
    catalog: &Catalog,
    rows: &mut Rows,
    books: &Books,
    keep: Offset,
) -> Result<Anew, DatabaseFault>
    requires usable { log.now.usable ≡ true }
    requires order { (log.now.base ≤ keep.0) × (keep.0 ≤ log.now.end) }
    requires spellable { IsSpellable catalog.now }
    requires stands { IsTrue (S.seen site.old).observable → HasLogFrom log.now (S.seen site.old) }
    requires own { HoldsOwn log.now keep.0 catalog.now rows.old.rows books.now (S.seen site.old) }
    ensures rows { rows.new ≡ rows.old }
    ensures log { IfOk result (λ anew. anew.log ≡ carried log.now keep.0 (log_of (other_of (generation_of log.now.file)))) }
    ensures catalog { IfOk result (λ anew. IsSpellable anew.base_catalog) }
    ensures begun { IsTrue (S.seen site.old).observable → (b : Beginning) (es : List Recorded) → IsLogFrom log.now b es (S.seen site.old)
        → IfOk result (λ anew. HasBegun log.now keep.0 b es (S.seen site.old) (S.seen site.new) anew.base_catalog) }
    ensures moments { IsTrue (S.seen site.old).observable → (b : Beginning) (es : List Recorded) → IsLogFrom log.now b es (S.seen site.old)
        → MayGoAnew log.now keep.0 b es (S.seen site.old) (S.seen site.new) }
    ensures stopped { IsTrue (S.seen site.old).observable → IfErr result (λ fault. fault ≢ no_disk → RestsThroughout (KeepsInForce (generation_of log.now.file) (S.seen site.old)) (S.seen site.old) (S.seen site.new)) }
    ensures quiet { IsTrue (S.seen site.old).observable → IsQuiet (S.seen site.old).happened (S.seen site.new).happened }
    ensures stays { DiskStays (S.seen site.old) (S.seen site.new) }
    ensures steady { OnOk result ((S.seen site.new).disk_faults ≡ (S.seen site.old).disk_faults) }
    ensures cause { IfErr result (BeginCause log.now keep.0 (S.seen site.old) (S.seen site.new)) }
{
    let state = own_state(alloc, catalog, rows, books, keep)?;
    let restarted = restart_files(alloc, site, log, &state);
    let base_catalog = give_back(rows, state);
    match restarted {
        Ok(new) => Ok(Anew {
            log: new,
            base_catalog,
        }),
        Err(fault) => {
            drop(base_catalog);
            Err(restart_fault(fault))
        }
    }
}

/// What a value holds, as the state at an offset: its rows themselves, and copies of its catalog and its books. Where there is no memory for these the rows
/// are where they were.
fn own_state(
    alloc: Global,
    catalog: &Catalog,
    rows: &mut Rows,
    books: &Books,
    keep: Offset,
) -> Result<State, NoMemory>
    ensures state { IfOk result (λ state. beginning_in state ≡ own_beginning catalog.now rows.old.rows books.now keep.0) }
    ensures rows { IfOk result (λ state. state.rows ≡ rows.old) }
    ensures left { OnErr result (rows.new ≡ rows.old) }
{
    let lines = lines_of(alloc, books, catalog.users())?;
    let catalog = catalog.copy(alloc)?;
    let rows = mem::replace(rows, Rows::new(alloc));
    Ok(State {
        offset: keep,
        catalog,
        rows,
        books: Seq::from_vec(lines),
    })
}

/// Puts the rows of a state back, and answers its catalog.
fn give_back(rows: &mut Rows, state: State) -> Catalog
    ensures rows { rows.new ≡ state.rows }
    ensures catalog { result ≡ state.catalog }
{
    let State {
        offset: _,
        catalog,
        rows: own,
        books: _,
    } = state;
    drop(mem::replace(rows, own));
    catalog
}
