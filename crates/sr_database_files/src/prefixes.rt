//! Which files a root puts in force, and whether the log in force has its shape.

ghost use Rattle.std.specs.Prelude.{◌≡◌, IsTrue, IfOk, IfErr, OnOk};
ghost use Rattle.sr_logfile.specs.Inner.Moments.{IsAsRead};
ghost use Rattle.sr_logfile.specs.Records.{HasHeader};
ghost use Rattle.sr_site.specs.Files.{bytes_of};
ghost use Rattle.sr_site.specs.Images.{IsSettled};
ghost use Rattle.sr_database_meaning.specs.Generations.{snapshot_of, log_of};
ghost use Rattle.sr_database_files.specs.Inner.Openings.{SyncedAlone, ReadAlone, BeginsWithByte, named_by, AreInForce, RootCause, IsWholeLog, HasRefused, ShapeRefusal, ShapeCause, BaseCause, IsLogFault};

use crate::fault::DatabaseFault;
use sr_logfile::{LogFault, base_of, open};
use sr_site::{Disk, File, Site};

/// The snapshot and the log of the generation that a root names.
#[derive(Clone, Copy)]
pub struct InForce {
    pub snapshot: File,
    pub log: File,
}

/// Syncs the root, and tells which files it puts in force: those of the even generation or those of the odd one, as its first byte is.
pub fn files_in_force<S: Site>(site: &mut S) -> Result<InForce, DatabaseFault>
    ensures named { IfOk result (λ files. AreInForce files.snapshot files.log (S.seen site.old)) }
    ensures settled { IsTrue (S.seen site.old).observable → OnOk result (IsSettled (IsAsRead File.Root (S.seen site.new)) (S.seen site.new)) }
    ensures synced { SyncedAlone (S.seen site.old) (S.seen site.new) }
    ensures steady { OnOk result ((S.seen site.new).disk_faults ≡ (S.seen site.old).disk_faults) }
    ensures cause { IfErr result (RootCause (S.seen site.old) (S.seen site.new)) }
{
    match first_byte(site) {
        Ok(byte) => Ok(in_force(byte)),
        Err(fault) => Err(fault),
    }
}

/// Syncs the root, and reads its first byte.
fn first_byte<S: Site>(site: &mut S) -> Result<u8, DatabaseFault>
    ensures first { IsTrue (S.seen site.old).observable → IfOk result (λ byte. BeginsWithByte byte (S.seen site.old).files.root) }
    ensures settled { IsTrue (S.seen site.old).observable → OnOk result (IsSettled (IsAsRead File.Root (S.seen site.new)) (S.seen site.new)) }
    ensures synced { SyncedAlone (S.seen site.old) (S.seen site.new) }
    ensures steady { OnOk result ((S.seen site.new).disk_faults ≡ (S.seen site.old).disk_faults) }
    ensures cause { IfErr result (RootCause (S.seen site.old) (S.seen site.new)) }
{
    site.sync(File::Root)?;
    let length = site.length(File::Root)?;
    if length == 0 {
        return Err(DatabaseFault::Missing);
    }
    let mut first = [0; 1];
    let _count = site.read_at(File::Root, 0, &mut first)?;
    let [byte] = first;
    Ok(byte)
}

/// The files of the generation that a byte names.
fn in_force(byte: u8) -> InForce
    ensures snapshot { result.snapshot ≡ snapshot_of (named_by byte) }
    ensures log { result.log ≡ log_of (named_by byte) }
{
    if byte % 2 == 0 {
        return InForce {
            snapshot: File::Snap0,
            log: File::Log0,
        };
    }
    InForce {
        snapshot: File::Snap1,
        log: File::Log1,
    }
}

/// Syncs the log, and looks whether it has a header of this base and whole records up to the first closed gate.
pub fn open_records<S: Site>(site: &mut S, log: File, base: u64) -> Result<(), DatabaseFault>
    ensures whole { IsTrue (S.seen site.old).observable → OnOk result (IsWholeLog base (bytes_of (S.seen site.old).files log)) }
    ensures settled { IsTrue (S.seen site.old).observable → OnOk result (IsSettled (IsAsRead log (S.seen site.new)) (S.seen site.new)) }
    ensures synced { SyncedAlone (S.seen site.old) (S.seen site.new) }
    ensures steady { OnOk result ((S.seen site.new).disk_faults ≡ (S.seen site.old).disk_faults) }
    ensures cause { IfErr result (ShapeCause base log (S.seen site.old) (S.seen site.new)) }
{
    match open(site, log) {
        Ok(found) => {
            if found.base().0 != base {
                return Err(DatabaseFault::Damaged { file: log, at: 8 });
            }
            Ok(())
        }
        Err(fault) => Err(refused_shape(site, log, base, fault)),
    }
}

/// Why the log's header or a record is refused, where the log's own opening is: where its header has another base, this comes first.
fn refused_shape<S: Site>(site: &mut S, log: File, base: u64, fault: LogFault) -> DatabaseFault
    requires damaged { HasRefused fault log (S.seen site.old) }
    ensures read { ReadAlone (S.seen site.old) (S.seen site.new) }
    ensures cause { ShapeRefusal base log fault (S.seen site.old) (S.seen site.new) result }
{
    match fault {
        LogFault::Damaged { at } => match check_base(site, log, base) {
            Ok(()) => DatabaseFault::Damaged { file: log, at },
            Err(refused) => refused,
        },
        LogFault::Disk => DatabaseFault::Disk,
        LogFault::Full { .. } => DatabaseFault::Disk,
    }
}

/// Whether the log has a header, of this base.
fn check_base<S: Site>(site: &mut S, log: File, base: u64) -> Result<(), DatabaseFault>
    ensures header { IsTrue (S.seen site.old).observable → OnOk result (HasHeader base (bytes_of (S.seen site.old).files log)) }
    ensures read { ReadAlone (S.seen site.old) (S.seen site.new) }
    ensures steady { OnOk result ((S.seen site.new).disk_faults ≡ (S.seen site.old).disk_faults) }
    ensures cause { IfErr result (BaseCause base log (S.seen site.old) (S.seen site.new)) }
{
    match base_of(site, log) {
        Ok(found) => {
            if found != base {
                return Err(DatabaseFault::Damaged { file: log, at: 8 });
            }
            Ok(())
        }
        Err(fault) => Err(log_fault(log, fault)),
    }
}

/// The fault of a database whose log refuses.
pub fn log_fault(log: File, fault: LogFault) -> DatabaseFault
    ensures { IsLogFault log fault result }
{
    match fault {
        LogFault::Disk => DatabaseFault::Disk,
        LogFault::Full { end, need } => DatabaseFault::Full { end, need },
        LogFault::Damaged { at } => DatabaseFault::Damaged { file: log, at },
    }
}
