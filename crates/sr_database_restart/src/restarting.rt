ghost use Rattle.std.specs.Prelude.{◌≡◌, ◌≢◌, ◌≤◌, List, ℕ, length, true, IsTrue, IfOk, OnOk, IfErr};
ghost use Rattle.sr_database_meaning.specs.Generations.{log_of, generation_of, other_of};
ghost use Rattle.sr_database_meaning.specs.Restarts.{IsQuiet};
ghost use Rattle.sr_logfile_carry.specs.Carried.{carried};
ghost use Rattle.sr_database_restart.specs.Inner.Generations.{IsLogFile};
ghost use Rattle.sr_database_restart.specs.Inner.Restarting.{IsRestarted, KeepsInForce, RestartCause, WentOn};
ghost use Rattle.sr_database_restart.specs.declared.fault.RestartFault.TheVariants.{Disk as no_disk};
ghost use Rattle.sr_logfile.specs.Inner.Logs.{IsAt, IsLog};
ghost use Rattle.sr_logfile_carry.specs.Inner.Carrying.{IsParted, log_of_records};
ghost use Rattle.sr_site.specs.Causes.{DiskStays};
ghost use Rattle.sr_site.specs.Images.{RestsThroughout};
ghost use Rattle.sr_snapshot.specs.Inner.Beginnings.{beginning_in};
ghost use Rattle.sr_snapshot.specs.Parts.{longest};
ghost use Rattle.sr_snapshot.specs.Snapshots.{snapshot_spelling};

use crate::fault::RestartFault;
use crate::generations::other_than;
use crate::naming::name_generation;
use crate::writing::write_generation;
use sr_logfile::LogFile;
use sr_site::Disk;
use sr_snapshot::State;
use std::alloc::Global;

/// Begins the files of a database anew at the offset of a state, the base of its log or the offset of a record, and answers the log that is in force then.
///
/// In the generation that the log is not of it writes the snapshot of the state, and a log that begins at its offset and has the records behind it, and syncs both.
/// Then it puts the byte that names that generation into the root's first place, and syncs the root. `Long` comes before any call of a device. After `Disk` the root
/// may name either generation, and both are whole where it names the other one.
pub fn restart_files<S: Disk>(
    alloc: Global,
    site: &mut S,
    log: &LogFile,
    state: &State,
) -> Result<LogFile, RestartFault>
    requires file { IsTrue (S.seen site.old).observable → IsLogFile log.now.file }
    requires usable { log.now.usable ≡ true }
    requires order { (log.now.base ≤ state.now.offset.0) × (state.now.offset.0 ≤ log.now.end) }
    requires parted { IsTrue (S.seen site.old).observable → IsParted log.now state.now.offset.0 (S.seen site.old).files }
    ensures restarted { IsTrue (S.seen site.old).observable → OnOk result ((done left : List (List ℕ)) → IsAt log.now state.now.offset.0 done left (S.seen site.old).files → IsRestarted (generation_of log.now.file) (snapshot_spelling (beginning_in state.now)) (log_of_records state.now.offset.0 left) (S.seen site.old) (S.seen site.new)) }
    ensures kept { IsTrue (S.seen site.old).observable → IfOk result (λ new. (done left : List (List ℕ)) → IsAt log.now state.now.offset.0 done left (S.seen site.old).files → IsLog new left (S.seen site.new).files) }
    ensures log { IfOk result (λ new. new ≡ carried log.now state.now.offset.0 (log_of (other_of (generation_of log.now.file)))) }
    ensures short { OnOk result (length (snapshot_spelling (beginning_in state.now)) ≤ longest) }
    ensures moments { IsTrue (S.seen site.old).observable → (done left : List (List ℕ)) → IsAt log.now state.now.offset.0 done left (S.seen site.old).files → WentOn (generation_of log.now.file) (snapshot_spelling (beginning_in state.now)) (log_of_records state.now.offset.0 left) (S.seen site.old) (S.seen site.new) }
    ensures stopped { IsTrue (S.seen site.old).observable → IfErr result (λ fault. fault ≢ no_disk → RestsThroughout (KeepsInForce (generation_of log.now.file) (S.seen site.old)) (S.seen site.old) (S.seen site.new)) }
    ensures quiet { IsTrue (S.seen site.old).observable → IsQuiet (S.seen site.old).happened (S.seen site.new).happened }
    ensures stays { DiskStays (S.seen site.old) (S.seen site.new) }
    ensures steady { OnOk result ((S.seen site.new).disk_faults ≡ (S.seen site.old).disk_faults) }
    ensures cause { IfErr result (RestartCause (length (snapshot_spelling (beginning_in state.now))) log.now.file (S.seen site.old) (S.seen site.new)) }
{
    let other = other_than(log.file());
    let new = write_generation(alloc, site, log, state, other)?;
    name_generation(site, other.byte)?;
    Ok(new)
}
