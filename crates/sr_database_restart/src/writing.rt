//! The two files of the generation that is not in force.

ghost use Rattle.std.specs.Prelude.{◌≡◌, ◌≢◌, ◌≤◌, List, ℕ, length, true, IsTrue, IfOk, OnOk, IfErr};
ghost use Rattle.sr_database_meaning.specs.Generations.{log_of, generation_of, other_of};
ghost use Rattle.sr_logfile_carry.specs.Carried.{carried};
ghost use Rattle.sr_database_restart.specs.Inner.Generations.{IsLogFile, parts_of};
ghost use Rattle.sr_database_restart.specs.Inner.Restarting.{RestartCause};
ghost use Rattle.sr_database_restart.specs.Inner.Writing.{HasWritten, Touches, TouchesOther};
ghost use Rattle.sr_logfile.specs.Inner.Logs.{IsAt};
ghost use Rattle.sr_logfile_carry.specs.Inner.Carrying.{IsParted, IsReplaced, log_of_records};
ghost use Rattle.sr_site.specs.declared.file.File.{File as AFile};
ghost use Rattle.sr_snapshot.specs.Inner.Beginnings.{beginning_in};
ghost use Rattle.sr_snapshot.specs.Parts.{longest};
ghost use Rattle.sr_snapshot.specs.Snapshots.{snapshot_spelling};

use crate::fault::{RestartFault, log_fault, snapshot_fault};
use crate::generations::Other;
use sr_base::Offset;
use sr_logfile::LogFile;
use sr_logfile_carry::carry;
use sr_site::{Disk, File};
use sr_snapshot::{State, write_state};
use std::alloc::Global;

/// Writes the generation that the log is not of: the snapshot of the state, and the log from the state's offset on.
pub(crate) fn write_generation<S: Disk>(
    alloc: Global,
    site: &mut S,
    log: &LogFile,
    state: &State,
    other: Other,
) -> Result<LogFile, RestartFault>
    requires file { IsTrue (S.seen site.old).observable → IsLogFile log.now.file }
    requires usable { log.now.usable ≡ true }
    requires order { (log.now.base ≤ state.now.offset.0) × (state.now.offset.0 ≤ log.now.end) }
    requires parted { IsTrue (S.seen site.old).observable → IsParted log.now state.now.offset.0 (S.seen site.old).files }
    requires other { other ≡ parts_of (other_of (generation_of log.now.file)) }
    ensures written { IsTrue (S.seen site.old).observable → OnOk result ((done left : List (List ℕ)) → IsAt log.now state.now.offset.0 done left (S.seen site.old).files → HasWritten (generation_of log.now.file) (snapshot_spelling (beginning_in state.now)) (log_of_records state.now.offset.0 left) (S.seen site.old) (S.seen site.new)) }
    ensures log { IfOk result (λ new. new ≡ carried log.now state.now.offset.0 (log_of (other_of (generation_of log.now.file)))) }
    ensures short { OnOk result (length (snapshot_spelling (beginning_in state.now)) ≤ longest) }
    ensures touches { TouchesOther (generation_of log.now.file) (S.seen site.old) (S.seen site.new) }
    ensures steady { OnOk result ((S.seen site.new).disk_faults ≡ (S.seen site.old).disk_faults) }
    ensures cause { IfErr result (RestartCause (length (snapshot_spelling (beginning_in state.now))) log.now.file (S.seen site.old) (S.seen site.new)) }
{
    write_snapshot(alloc, site, other.snapshot, state)?;
    let new = write_log(alloc, site, log, state.offset, other.log)?;
    Ok(new)
}

/// Writes a state in place of a snapshot, and syncs it.
fn write_snapshot<S: Disk>(
    alloc: Global,
    site: &mut S,
    file: File,
    state: &State,
) -> Result<(), RestartFault>
    ensures replaced { IsTrue (S.seen site.old).observable → OnOk result (IsReplaced file (snapshot_spelling (beginning_in state.now)) (S.seen site.old) (S.seen site.new)) }
    ensures short { OnOk result (length (snapshot_spelling (beginning_in state.now)) ≤ longest) }
    ensures touches { Touches file (S.seen site.old) (S.seen site.new) }
    ensures steady { OnOk result ((S.seen site.new).disk_faults ≡ (S.seen site.old).disk_faults) }
    ensures cause { IfErr result (λ fault. (log : AFile) → RestartCause (length (snapshot_spelling (beginning_in state.now))) log (S.seen site.old) (S.seen site.new) fault) }
{
    match write_state(alloc, site, file, state) {
        Ok(()) => Ok(()),
        Err(fault) => Err(snapshot_fault(file, fault)),
    }
}

/// Writes what a log has behind a position in place of another log, and syncs it.
fn write_log<S: Disk>(
    alloc: Global,
    site: &mut S,
    log: &LogFile,
    keep: Offset,
    into: File,
) -> Result<LogFile, RestartFault>
    requires other { log.now.file ≢ into }
    requires usable { log.now.usable ≡ true }
    requires order { (log.now.base ≤ keep.0) × (keep.0 ≤ log.now.end) }
    requires parted { IsTrue (S.seen site.old).observable → IsParted log.now keep.0 (S.seen site.old).files }
    ensures replaced { IsTrue (S.seen site.old).observable → OnOk result ((done left : List (List ℕ)) → IsAt log.now keep.0 done left (S.seen site.old).files → IsReplaced into (log_of_records keep.0 left) (S.seen site.old) (S.seen site.new)) }
    ensures log { IfOk result (λ new. new ≡ carried log.now keep.0 into) }
    ensures touches { Touches into (S.seen site.old) (S.seen site.new) }
    ensures steady { OnOk result ((S.seen site.new).disk_faults ≡ (S.seen site.old).disk_faults) }
    ensures cause { IfErr result (λ fault. (size : ℕ) → size ≤ longest → RestartCause size log.now.file (S.seen site.old) (S.seen site.new) fault) }
{
    match carry(alloc, site, log, keep, into) {
        Ok(new) => Ok(new),
        Err(fault) => Err(log_fault(log.file(), fault)),
    }
}
