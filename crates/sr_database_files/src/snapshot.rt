//! The snapshot of a database, as it is read.

ghost use Rattle.std.specs.Prelude.{◌≡◌, IsTrue, IfOk, IfErr, OnOk};
ghost use Rattle.sr_logfile.specs.Inner.Moments.{IsAsRead};
ghost use Rattle.sr_rows.specs.Inner.Steps.{at_mark};
ghost use Rattle.sr_site.specs.Files.{bytes_of};
ghost use Rattle.sr_site.specs.Images.{IsSettled};
ghost use Rattle.sr_snapshot.specs.Inner.Beginnings.{beginning_in};
ghost use Rattle.sr_snapshot.specs.Beginnings.{IsBeginning};
ghost use Rattle.sr_snapshot.specs.Snapshots.{IsSnapshot};
ghost use Rattle.sr_database_files.specs.Inner.Openings.{SyncedAlone, IsSnapFault, SnapshotCause};

use crate::fault::DatabaseFault;
use sr_site::{Disk, File, Site};
use sr_snapshot::{SnapFault, State};
use sr_snapshot_read::read_state;
use std::alloc::Global;

/// Syncs the snapshot, and reads the state of which it is the snapshot.
pub fn read_snapshot<S: Site>(
    alloc: Global,
    site: &mut S,
    snapshot: File,
) -> Result<State, DatabaseFault>
    ensures beginning { IfOk result (λ state. IsBeginning (beginning_in state)) }
    ensures marked { IfOk result (λ state. state.rows ≡ at_mark state.rows.rows) }
    ensures snapshot { IsTrue (S.seen site.old).observable → IfOk result (λ state. IsSnapshot (beginning_in state) (bytes_of (S.seen site.old).files snapshot)) }
    ensures settled { IsTrue (S.seen site.old).observable → OnOk result (IsSettled (IsAsRead snapshot (S.seen site.new)) (S.seen site.new)) }
    ensures synced { SyncedAlone (S.seen site.old) (S.seen site.new) }
    ensures steady { OnOk result ((S.seen site.new).disk_faults ≡ (S.seen site.old).disk_faults) }
    ensures cause { IfErr result (SnapshotCause snapshot (S.seen site.old) (S.seen site.new)) }
{
    site.sync(snapshot)?;
    match read_state(alloc, site, snapshot) {
        Ok(state) => Ok(state),
        Err(fault) => Err(snapshot_fault(snapshot, fault)),
    }
}

/// The fault of a database whose snapshot is not read.
pub fn snapshot_fault(snapshot: File, fault: SnapFault) -> DatabaseFault
    ensures { IsSnapFault snapshot fault result }
{
    match fault {
        SnapFault::Disk => DatabaseFault::Disk,
        SnapFault::Long { length, limit } => DatabaseFault::Long { length, limit },
        SnapFault::Damaged { at } => DatabaseFault::Damaged { file: snapshot, at },
        SnapFault::Memory => DatabaseFault::Memory,
    }
}
