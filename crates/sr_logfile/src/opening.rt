ghost use Rattle.std.specs.Prelude.{◌≡◌, ◌∷◌, ◌+◌, ◌≤◌, ◌<◌, List, ℕ, length, take, drop, true, IsTrue, IfOk, OnOk, IfErr, IfSome, IsErr, IsNone};
ghost use Rattle.std.specs.Option.{SomeIff};
ghost use Rattle.sr_base.specs.Values.{farthest_offset};
ghost use Rattle.sr_site.specs.Images.{IsSettled, KeepsOthers, RestsThroughout};
ghost use Rattle.sr_logfile.specs.Inner.Calls.{HasSynced};
ghost use Rattle.sr_logfile.specs.Inner.Moments.{IsAsRead};
ghost use Rattle.sr_site.specs.Causes.{DiskStays};
ghost use Rattle.sr_site.specs.Files.{bytes_of};
ghost use Rattle.sr_logfile.specs.Damage.{IsDamaged};
ghost use Rattle.sr_logfile.specs.Inner.Faults.{HeaderCause, IsDisk, IsDiskOrDamaged, OpenCause};
ghost use Rattle.sr_logfile.specs.Inner.Heads.{FitsBody, IsRecordEnd, RecordCause, RecordsCause, SpellsTo};
ghost use Rattle.sr_logfile.specs.Inner.Log.{InOrder};
ghost use Rattle.sr_logfile.specs.Inner.Logs.{HasLog, IsLog};
ghost use Rattle.sr_logfile.specs.Records.{HasHeader, Spells, header, header_size, place_in};

use crate::fault::LogFault;
use crate::head::{Head, LONGEST_BODY, RECORD_HEAD, head_at, place_in};
use crate::log::LogFile;
use sr_base::FARTHEST_OFFSET;
use sr_site::{Disk, File};

/// Opens the file as a log: its records are those up to the first closed gate.
///
/// It syncs, so that what it reads is durable, and reads front to back once, five bytes a record. `Damaged` comes exactly where the header or
/// an open record is not as written, with the place of that record's gate, or 0. It takes no memory.
pub fn open<S: Disk>(site: &mut S, file: File) -> Result<LogFile, LogFault>
    ensures log { IsTrue (S.seen site.old).observable → IfOk result (λ log. HasLog log (S.seen site.new).files) }
    ensures usable { IfOk result (λ log. (log.file ≡ file) × (log.usable ≡ true)) }
    ensures spelled { IsTrue (S.seen site.old).observable → (base : ℕ) (bodies : List (List ℕ)) → Spells base bodies (bytes_of (S.seen site.old).files file) → IfOk result (λ log. (log.base ≡ base) × IsLog log bodies (S.seen site.new).files) × IfErr result IsDisk }
    ensures damaged { IsTrue (S.seen site.old).observable → (place : ℕ) → IsDamaged (bytes_of (S.seen site.old).files file) place → IsErr result × IfErr result (IsDiskOrDamaged place) }
    ensures files { IsTrue (S.seen site.old).observable → (S.seen site.new).files ≡ (S.seen site.old).files }
    ensures happened { IsTrue (S.seen site.old).observable → HasSynced file result (S.seen site.old) (S.seen site.new) }
    ensures beside { IsTrue (S.seen site.old).observable → RestsThroughout (KeepsOthers file (S.seen site.old)) (S.seen site.old) (S.seen site.new) }
    ensures settled { IsTrue (S.seen site.old).observable → OnOk result (IsSettled (IsAsRead file (S.seen site.new)) (S.seen site.new)) }
    ensures stays { DiskStays (S.seen site.old) (S.seen site.new) }
    ensures steady { OnOk result ((S.seen site.new).disk_faults ≡ (S.seen site.old).disk_faults) }
    ensures cause { IfErr result (OpenCause file (S.seen site.old) (S.seen site.new)) }
{
    read_records(site, file)
}

/// Syncs the file and reads it up to the first closed gate.
#[tactic(auto, using(sr_site::specs::Inner::Growing::disk_stays_on))]
fn read_records<S: Disk>(site: &mut S, file: File) -> Result<LogFile, LogFault>
    ensures log { IsTrue (S.seen site.old).observable → IfOk result (λ log. HasLog log (S.seen site.new).files) }
    ensures usable { IfOk result (λ log. (log.file ≡ file) × (log.usable ≡ true)) }
    ensures files { IsTrue (S.seen site.old).observable → (S.seen site.new).files ≡ (S.seen site.old).files }
    ensures happened { IsTrue (S.seen site.old).observable → HasSynced file result (S.seen site.old) (S.seen site.new) }
    ensures settled { IsTrue (S.seen site.old).observable → OnOk result (IsSettled (IsAsRead file (S.seen site.new)) (S.seen site.new)) }
    ensures stays { DiskStays (S.seen site.old) (S.seen site.new) }
    ensures steady { OnOk result ((S.seen site.new).disk_faults ≡ (S.seen site.old).disk_faults) }
    ensures cause { IfErr result (OpenCause file (S.seen site.old) (S.seen site.new)) }
{
    site.sync(file)?;
    let size = site.length(file)?;
    let base = base_of(site, file)?;
    let end = end_of(site, file, base, size)?;
    Ok(LogFile::at(file, base, end))
}

/// The base that the file's header has, where a gate stands behind it. `Damaged { at: 0 }` comes exactly where there is no such header.
pub fn base_of<S: Disk>(site: &mut S, file: File) -> Result<u64, LogFault>
    ensures header { IsTrue (S.seen site.old).observable → IfOk result (λ base. HasHeader base (bytes_of (S.seen site.old).files file)) }
    ensures limit { IfOk result (λ base. base ≤ farthest_offset) }
    ensures files { IsTrue (S.seen site.old).observable → (S.seen site.new).files ≡ (S.seen site.old).files }
    ensures happened { IsTrue (S.seen site.old).observable → (S.seen site.new).happened ≡ (S.seen site.old).happened }
    ensures stays { DiskStays (S.seen site.old) (S.seen site.new) }
    ensures steady { OnOk result ((S.seen site.new).disk_faults ≡ (S.seen site.old).disk_faults) }
    ensures cause { IfErr result (HeaderCause file (S.seen site.old) (S.seen site.new)) }
{
    let mut prefix = [0; 17];
    let count = site.read_at(file, 0, &mut prefix)?;
    match base_in(&prefix) {
        Some(base) if count == 17 => Ok(base),
        _ => Err(LogFault::Damaged { at: 0 }),
    }
}

/// The base in the header at the front of 17 bytes, if they have one.
fn base_in(prefix: &[u8; 17]) -> Option<u64>
    ensures some { IfSome result (λ base. (take header_size prefix.now ≡ header base) × (base ≤ farthest_offset)) }
    ensures none { IsNone result → (base : ℕ) → base ≤ farthest_offset → take header_size prefix.now ≡ header base → ⊥ }
{
    let [
        b'S',
        b'R',
        b'L',
        b'O',
        b'G',
        b'0',
        b'0',
        b'1',
        a,
        b,
        c,
        d,
        e,
        f,
        g,
        h,
        _,
    ] = *prefix
    else {
        return None;
    };
    let base = u64::from_be_bytes([a, b, c, d, e, f, g, h]);
    if base > FARTHEST_OFFSET {
        None
    } else {
        Some(base)
    }
}

/// The position of the first closed gate: that of the header's gate is `base`, and the file has `size` bytes.
#[tactic(auto, using(crate::proofs::Scans::scanning))]
fn end_of<S: Disk>(site: &mut S, file: File, base: u64, size: u64) -> Result<u64, LogFault>
    requires limit { base ≤ farthest_offset }
    requires header { IsTrue (S.seen site.old).observable → HasHeader base (bytes_of (S.seen site.old).files file) }
    requires size { IsTrue (S.seen site.old).observable → size ≡ length (bytes_of (S.seen site.old).files file) }
    ensures spelled { IsTrue (S.seen site.old).observable → IfOk result (λ end. SpellsTo base end (bytes_of (S.seen site.old).files file)) }
    ensures order { IfOk result (λ end. InOrder base end) }
    ensures files { IsTrue (S.seen site.old).observable → (S.seen site.new).files ≡ (S.seen site.old).files }
    ensures happened { IsTrue (S.seen site.old).observable → (S.seen site.new).happened ≡ (S.seen site.old).happened }
    ensures stays { DiskStays (S.seen site.old) (S.seen site.new) }
    ensures steady { OnOk result ((S.seen site.new).disk_faults ≡ (S.seen site.old).disk_faults) }
    ensures cause { IfErr result (RecordsCause file (S.seen site.old) (S.seen site.new)) }
{
    let mut position = base;
    'records: while let Some(end) = record_end(site, file, base, position, size)? {
        position = end;
    }
    Ok(position)
}

/// The position behind the record whose gate stands at `position`, in a file of `size` bytes; `None` where that gate is closed. `Damaged` comes
/// exactly where the gate is open and no whole record follows it, with the gate's place.
pub fn record_end<S: Disk>(
    site: &mut S,
    file: File,
    base: u64,
    position: u64,
    size: u64,
) -> Result<Option<u64>, LogFault>
    requires order { InOrder base position }
    requires size { IsTrue (S.seen site.old).observable → size ≡ length (bytes_of (S.seen site.old).files file) }
    ensures record { IsTrue (S.seen site.old).observable → IfOk result (IsRecordEnd position (drop (place_in base position) (bytes_of (S.seen site.old).files file))) }
    ensures onward { IfOk result (λ found. IfSome found (λ end. (position < end) × (end ≤ farthest_offset))) }
    ensures files { IsTrue (S.seen site.old).observable → (S.seen site.new).files ≡ (S.seen site.old).files }
    ensures happened { IsTrue (S.seen site.old).observable → (S.seen site.new).happened ≡ (S.seen site.old).happened }
    ensures stays { DiskStays (S.seen site.old) (S.seen site.new) }
    ensures steady { OnOk result ((S.seen site.new).disk_faults ≡ (S.seen site.old).disk_faults) }
    ensures cause { IfErr result (RecordCause file (place_in base position) position (S.seen site.old) (S.seen site.new)) }
{
    let place = place_in(base, position);
    match head_at(site, file, place)? {
        Head::Closed => Ok(None),
        Head::Cut => Err(LogFault::Damaged { at: place }),
        Head::Open { length } => match end_behind(place, position, length, size) {
            Some(end) => Ok(Some(end)),
            None => Err(LogFault::Damaged { at: place }),
        },
    }
}

/// The position behind a body of that length whose gate stands at `place`, where it is whole in a file of `size` bytes.
fn end_behind(place: u64, position: u64, length: u32, size: u64) -> Option<u64>
    requires place { place ≤ farthest_offset + header_size }
    requires position { position ≤ farthest_offset }
    ensures { SomeIff result (FitsBody place position length size) (position + 5 + length) }
{
    let length = length as u64;
    let end = position + RECORD_HEAD + length;
    if length == 0
        || length > LONGEST_BODY
        || place + RECORD_HEAD + length >= size
        || end > FARTHEST_OFFSET
    {
        return None;
    }
    Some(end)
}
