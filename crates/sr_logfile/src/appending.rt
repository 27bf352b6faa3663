ghost use Rattle.std.specs.Prelude.{◌≡◌, ◌+◌, ◌^◌, ◌≤◌, ◌<◌, [], ◌∷◌, ◌++◌, length, IsTrue, OnOk, OnErr, is_ok};
ghost use Rattle.sr_site.specs.Inner.Happenings.{Made};
ghost use Rattle.sr_site.specs.Images.{IsSettled, RestsThroughout};
ghost use Rattle.sr_logfile.specs.Inner.Calls.{commit_calls};
ghost use Rattle.sr_logfile.specs.Inner.Moments.{IsAsRead, IsPartPut};
ghost use Rattle.sr_site.specs.Files.{bytes_of, OthersStay};
ghost use Rattle.sr_logfile.specs.Inner.Appends.{LeavesPart, LeavesRecord};
ghost use Rattle.sr_site.specs.Causes.{DiskStays, Rose};

use sr_site::{Disk, Failed, File};

/// The four calls of a commit: writes the framed record behind the gate at the place `gate`, syncs, opens the gate and syncs.
#[tactic(auto, using(sr_site::specs::Inner::Growing::disk_stays_on))]
pub(crate) fn append<S: Disk>(
    site: &mut S,
    file: File,
    gate: u64,
    framed: &[u8],
) -> Result<(), Failed>
    requires place { gate + 1 + length framed.now < 2 ^ 64 }
    requires inside { IsTrue (S.seen site.old).observable → gate + 1 ≤ length (bytes_of (S.seen site.old).files file) }
    ensures bytes { IsTrue (S.seen site.old).observable → OnOk result (LeavesRecord gate framed.now (bytes_of (S.seen site.old).files file) (bytes_of (S.seen site.new).files file)) }
    ensures part { IsTrue (S.seen site.old).observable → OnErr result (LeavesPart gate framed.now (bytes_of (S.seen site.old).files file) (bytes_of (S.seen site.new).files file)) }
    ensures others { IsTrue (S.seen site.old).observable → OthersStay file (S.seen site.old).files (S.seen site.new).files }
    ensures happened { IsTrue (S.seen site.old).observable → Made (commit_calls file gate framed.now) (S.seen site.old).happened (S.seen site.new).happened (is_ok result) }
    ensures moments { IsTrue (S.seen site.old).observable → RestsThroughout (IsPartPut gate framed.now file (S.seen site.old)) (S.seen site.old) (S.seen site.new) }
    ensures settled { IsTrue (S.seen site.old).observable → OnOk result (IsSettled (IsAsRead file (S.seen site.new)) (S.seen site.new)) }
    ensures stays { DiskStays (S.seen site.old) (S.seen site.new) }
    ensures steady { OnOk result ((S.seen site.new).disk_faults ≡ (S.seen site.old).disk_faults) }
    ensures cause { OnErr result (Rose (S.seen site.old).disk_faults (S.seen site.new).disk_faults) }
{
    site.write_at(file, gate + 1, framed)?;
    site.sync(file)?; // The record, while its gate is closed.
    site.write_at(file, gate, &[1])?;
    site.sync(file)?; // The gate.
    Ok(())
}
