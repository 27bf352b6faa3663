ghost use Rattle.std.specs.Prelude.{◌≡◌, ◌≢◌, [], ◌∷◌, true, false, IsTrue, IfOk, IfErr, OnOk, OnErr, is_ok};
ghost use Rattle.sr_base.specs.Fields.{IsName};
ghost use Rattle.sr_logfile.specs.Inner.Records.{fresh_bytes};
ghost use Rattle.sr_site.specs.Causes.{DiskStays, Rose};
ghost use Rattle.sr_site.specs.Images.{IsImage, IsSettled, RestsThroughout};
ghost use Rattle.sr_database_meaning.specs.Events.{attaches_in};
ghost use Rattle.sr_database_meaning.specs.Inner.Snapshots.{fresh_snapshot as snapshot_of_new};
ghost use Rattle.sr_database_meaning.specs.Standing.{StandsFor};
ghost use Rattle.sr_database_files.specs.Inner.Refusing.{CreateCause};
ghost use Rattle.sr_database_files.specs.Fresh.{IsNoneOrNew, IsThere};
ghost use Rattle.sr_database_files.specs.Inner.Fresh.{AreNamed, AreNew, AreNewOf, IsNoneOrNewOf};
ghost use Rattle.sr_database_files.specs.Inner.Making.{HasNew, HasNoRoot, HasSyncedRoot, IsReplaced};
ghost use Rattle.sr_database_files.specs.Inner.Touching.{HappenedOn, HappenedOff};

use crate::fault::DatabaseFault;
use sr_base::{Name, NoMemory, Offset, write_name};
use sr_logfile::fresh;
use sr_site::{Disk, Failed, File, Site};
use std::alloc::Global;

/// Makes the five files those of a database of this publisher that has no entry.
///
/// `Exists` comes exactly where the root has a byte; then nothing is written. Both generations are written anew and synced before the root gets
/// its byte, so that at each moment a crash leaves no database or the new one, whatever byte the root then has; and where there was one
/// before, a crash leaves its files. For want of memory no device was called.
pub fn create<S: Site>(alloc: Global, site: &mut S, publisher: &Name) -> Result<(), DatabaseFault>
    ensures both { IsTrue (S.seen site.old).observable → OnOk result (AreNew publisher.now (S.seen site.new).files) }
    ensures made { IsTrue (S.seen site.old).observable → OnOk result (StandsFor publisher.now [] 0 (S.seen site.new).files) }
    ensures settled { IsTrue (S.seen site.old).observable → OnOk result (IsSettled (StandsFor publisher.now [] 0) (S.seen site.new)) }
    ensures missing { IsTrue (S.seen site.old).observable → OnOk result ((S.seen site.old).files.root ≡ []) }
    ensures moments { IsTrue (S.seen site.old).observable → IsSettled (IsNoneOrNew publisher.now) (S.seen site.old) → RestsThroughout (IsNoneOrNew publisher.now) (S.seen site.old) (S.seen site.new) }
    ensures there { IsTrue (S.seen site.old).observable → IsSettled IsThere (S.seen site.old) → RestsThroughout (IsImage (S.seen site.old)) (S.seen site.old) (S.seen site.new) }
    ensures attached { IsTrue (S.seen site.old).observable → attaches_in (S.seen site.new).happened ≡ attaches_in (S.seen site.old).happened }
    ensures stays { DiskStays (S.seen site.old) (S.seen site.new) }
    ensures steady { OnOk result ((S.seen site.new).disk_faults ≡ (S.seen site.old).disk_faults) }
    ensures cause { IfErr result (CreateCause (S.seen site.old) (S.seen site.new)) }
{
    let snapshot = fresh_snapshot(alloc, publisher)?;
    if has_root(site)? {
        return Err(DatabaseFault::Exists);
    }
    make_new(site, snapshot.as_slice())?;
    Ok(())
}

/// Writes both generations anew, and then the byte that names the even one into a root without a byte.
fn make_new<S: Site>(site: &mut S, snapshot: &[u8]) -> Result<(), Failed>
    requires none { IsTrue (S.seen site.old).observable → (S.seen site.old).files.root ≡ [] }
    ensures files { IsTrue (S.seen site.old).observable → OnOk result (AreNamed snapshot.now (S.seen site.new).files) }
    ensures settled { IsTrue (S.seen site.old).observable → OnOk result (IsSettled (AreNamed snapshot.now) (S.seen site.new)) }
    ensures moments { IsTrue (S.seen site.old).observable → IsSettled HasNoRoot (S.seen site.old) → RestsThroughout (IsNoneOrNewOf snapshot.now) (S.seen site.old) (S.seen site.new) }
    ensures attached { IsTrue (S.seen site.old).observable → attaches_in (S.seen site.new).happened ≡ attaches_in (S.seen site.old).happened }
    ensures stays { DiskStays (S.seen site.old) (S.seen site.new) }
    ensures steady { OnOk result ((S.seen site.new).disk_faults ≡ (S.seen site.old).disk_faults) }
    ensures cause { OnErr result (Rose (S.seen site.old).disk_faults (S.seen site.new).disk_faults) }
{
    make_generations(site, snapshot)?;
    name_generation(site)?;
    Ok(())
}

/// The bytes before the publisher's name in a snapshot without entries: SRSNP001 and the offset 0.
const SNAPSHOT_PREFIX: [u8; 16] = [
    b'S', b'R', b'S', b'N', b'P', b'0', b'0', b'1', 0, 0, 0, 0, 0, 0, 0, 0,
];

/// The bytes behind it: no statement, no table, no book.
const NO_LISTS: [u8; 12] = [0, 0, 0, 0, 0, 0, 0, 0, 0, 0, 0, 0];

/// The snapshot of a database of this publisher that has no entry.
fn fresh_snapshot(alloc: Global, publisher: &Name) -> Result<Vec<u8>, NoMemory>
    ensures bytes { IfOk result (λ bytes. bytes.items ≡ snapshot_of_new publisher.now) }
    ensures name { OnOk result (IsName publisher.now) }
{
    let mut bytes = Vec::new(alloc);
    bytes.extend_from_slice(&SNAPSHOT_PREFIX)?;
    write_name(alloc, publisher, &mut bytes)?;
    bytes.extend_from_slice(&NO_LISTS)?;
    Ok(bytes)
}

/// Whether the root has a byte, once it is synced.
fn has_root<S: Site>(site: &mut S) -> Result<bool, Failed>
    ensures none { IsTrue (S.seen site.old).observable → IfOk result (λ there. there ≡ false → (S.seen site.old).files.root ≡ []) }
    ensures some { IsTrue (S.seen site.old).observable → IfOk result (λ there. there ≡ true → (S.seen site.old).files.root ≢ []) }
    ensures files { IsTrue (S.seen site.old).observable → (S.seen site.new).files ≡ (S.seen site.old).files }
    ensures happened { IsTrue (S.seen site.old).observable → HasSyncedRoot (is_ok result) (S.seen site.old) (S.seen site.new) }
    ensures stays { DiskStays (S.seen site.old) (S.seen site.new) }
    ensures steady { OnOk result ((S.seen site.new).disk_faults ≡ (S.seen site.old).disk_faults) }
    ensures cause { OnErr result (Rose (S.seen site.old).disk_faults (S.seen site.new).disk_faults) }
{
    site.sync(File::Root)?;
    let length = site.length(File::Root)?;
    if length == 0 {
        return Ok(false);
    }
    Ok(true)
}

/// Writes both generations anew, each file as that of a database without entries, and syncs them.
fn make_generations<S: Site>(site: &mut S, snapshot: &[u8]) -> Result<(), Failed>
    ensures files { IsTrue (S.seen site.old).observable → OnOk result (HasNew snapshot.now (S.seen site.old).files.root (S.seen site.new).files) }
    ensures settled { IsTrue (S.seen site.old).observable → OnOk result (IsSettled (AreNewOf snapshot.now) (S.seen site.new)) }
    ensures happened { IsTrue (S.seen site.old).observable → HappenedOff File.Root (S.seen site.old).happened (S.seen site.new).happened }
    ensures stays { DiskStays (S.seen site.old) (S.seen site.new) }
    ensures steady { OnOk result ((S.seen site.new).disk_faults ≡ (S.seen site.old).disk_faults) }
    ensures cause { OnErr result (Rose (S.seen site.old).disk_faults (S.seen site.new).disk_faults) }
{
    make_log(site, File::Log0)?;
    make_log(site, File::Log1)?;
    replace(site, File::Snap0, snapshot)?;
    replace(site, File::Snap1, snapshot)?;
    Ok(())
}

/// Writes a log without records in place of the file, and syncs it.
fn make_log<S: Site>(site: &mut S, file: File) -> Result<(), Failed>
    ensures replaced { IsTrue (S.seen site.old).observable → OnOk result (IsReplaced file (fresh_bytes 0) (S.seen site.old) (S.seen site.new)) }
    ensures happened { IsTrue (S.seen site.old).observable → HappenedOn file (S.seen site.old).happened (S.seen site.new).happened }
    ensures stays { DiskStays (S.seen site.old) (S.seen site.new) }
    ensures steady { OnOk result ((S.seen site.new).disk_faults ≡ (S.seen site.old).disk_faults) }
    ensures cause { OnErr result (Rose (S.seen site.old).disk_faults (S.seen site.new).disk_faults) }
{
    match fresh(site, file, Offset(0)) {
        Ok(()) => Ok(()),
        Err(_) => Err(Failed),
    }
}

/// Writes these bytes in place of the file, and syncs it.
fn replace<S: Site>(site: &mut S, file: File, bytes: &[u8]) -> Result<(), Failed>
    ensures replaced { IsTrue (S.seen site.old).observable → OnOk result (IsReplaced file bytes.now (S.seen site.old) (S.seen site.new)) }
    ensures happened { IsTrue (S.seen site.old).observable → HappenedOn file (S.seen site.old).happened (S.seen site.new).happened }
    ensures stays { DiskStays (S.seen site.old) (S.seen site.new) }
    ensures steady { OnOk result ((S.seen site.new).disk_faults ≡ (S.seen site.old).disk_faults) }
    ensures cause { OnErr result (Rose (S.seen site.old).disk_faults (S.seen site.new).disk_faults) }
{
    site.cut(file, 0)?;
    site.write_at(file, 0, bytes)?;
    site.sync(file)?;
    Ok(())
}

/// Writes the byte that names the even generation into a root without a byte, and syncs it.
fn name_generation<S: Site>(site: &mut S) -> Result<(), Failed>
    ensures files { IsTrue (S.seen site.old).observable → (S.seen site.old).files.root ≡ [] → OnOk result ((S.seen site.new).files ≡ record (S.seen site.old).files { root = 0 ∷ [] }) }
    ensures happened { IsTrue (S.seen site.old).observable → HappenedOn File.Root (S.seen site.old).happened (S.seen site.new).happened }
    ensures settled { IsTrue (S.seen site.old).observable → (S.seen site.old).files.root ≡ [] → OnOk result (IsSettled (λ image. image.root ≡ 0 ∷ []) (S.seen site.new)) }
    ensures stays { DiskStays (S.seen site.old) (S.seen site.new) }
    ensures steady { OnOk result ((S.seen site.new).disk_faults ≡ (S.seen site.old).disk_faults) }
    ensures cause { OnErr result (Rose (S.seen site.old).disk_faults (S.seen site.new).disk_faults) }
{
    site.write_at(File::Root, 0, &[0])?;
    site.sync(File::Root)?;
    Ok(())
}
