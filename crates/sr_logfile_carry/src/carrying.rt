ghost use Rattle.std.specs.Prelude.{◌≡◌, ◌≢◌, ◌^◌, ◌≤◌, ◌<◌, [], ◌∷◌, ◌++◌, List, ℕ, length, true, IsTrue, IfOk, OnOk, IfErr};
ghost use Rattle.sr_logfile.specs.Inner.Logs.{IsAt, IsLog};
ghost use Rattle.sr_logfile.specs.Records.{header};
ghost use Rattle.sr_logfile_carry.specs.Carried.{carried};
ghost use Rattle.sr_logfile_carry.specs.Inner.Carrying.{CarryCause, HasNow, HasSettled, IsParted, IsReplaced, StepCause, bytes_in, log_of_records, part_of};
ghost use Rattle.sr_logfile_carry.specs.Inner.Touching.{HappenedOn};
ghost use Rattle.sr_logfile_carry.specs.declared.fault.CarryFault.TheVariants.{Memory};
ghost use Rattle.sr_site.specs.Causes.{DiskStays};
ghost use Rattle.sr_site.specs.Files.{bytes_of, OthersStay};

use crate::copying::{HEADER, Part, copy};
use crate::fault::CarryFault;
use sr_base::Offset;
use sr_logfile::{LogFile, place_in};
use sr_site::{Disk, File};
use std::alloc::Global;

/// So many bytes are copied at once: 64 KiB.
const PIECE: usize = 65_536;

/// Makes another file the log that begins at `keep`, the base of this log or the offset of one of its records, and has the records behind it.
///
/// It cuts the file to nothing, writes the header, copies the bytes from the gate at `keep` up to the log's first closed gate, 64 KiB at a time, writes one closed
/// gate and syncs. So the gates come along, and where `keep` is the log's end no byte is copied. On a site that tells its files the log is never `Damaged`.
pub fn carry<S: Disk>(
    alloc: Global,
    site: &mut S,
    log: &LogFile,
    keep: Offset,
    into: File,
) -> Result<LogFile, CarryFault>
    requires other { log.now.file ≢ into }
    requires usable { log.now.usable ≡ true }
    requires order { (log.now.base ≤ keep.0) × (keep.0 ≤ log.now.end) }
    requires parted { IsTrue (S.seen site.old).observable → IsParted log.now keep.0 (S.seen site.old).files }
    ensures replaced { IsTrue (S.seen site.old).observable → OnOk result ((done left : List (List ℕ)) → IsAt log.now keep.0 done left (S.seen site.old).files → IsReplaced into (log_of_records keep.0 left) (S.seen site.old) (S.seen site.new)) }
    ensures kept { IsTrue (S.seen site.old).observable → IfOk result (λ new. (done left : List (List ℕ)) → IsAt log.now keep.0 done left (S.seen site.old).files → IsLog new left (S.seen site.new).files) }
    ensures log { IfOk result (λ new. new ≡ carried log.now keep.0 into) }
    ensures others { IsTrue (S.seen site.old).observable → OthersStay into (S.seen site.old).files (S.seen site.new).files }
    ensures happened { IsTrue (S.seen site.old).observable → HappenedOn into (S.seen site.old).happened (S.seen site.new).happened }
    ensures stays { DiskStays (S.seen site.old) (S.seen site.new) }
    ensures steady { OnOk result ((S.seen site.new).disk_faults ≡ (S.seen site.old).disk_faults) }
    ensures cause { IfErr result (CarryCause (S.seen site.old) (S.seen site.new)) }
{
    let mut buffer = room_for_piece(alloc)?;
    let part = part_behind(log, keep);
    replace(site, part, keep, into, buffer.as_mut_slice())?;
    Ok(LogFile::at(into, keep.0, log.end().0))
}

/// Room for the bytes that are copied at once.
fn room_for_piece(alloc: Global) -> Result<Vec<u8>, CarryFault>
    ensures room { IfOk result (λ buffer. 0 < length buffer.items) }
    ensures cause { IfErr result (λ fault. fault ≡ Memory) }
{
    let mut buffer = Vec::with_capacity(alloc, PIECE)?;
    buffer.resize(PIECE, 0u8)?;
    Ok(buffer)
}

/// Where the records of a log behind a position stand, each with the gate before it.
fn part_behind(log: &LogFile, keep: Offset) -> Part
    requires order { (log.now.base ≤ keep.0) × (keep.0 ≤ log.now.end) }
    ensures part { result ≡ part_of log.now keep.0 }
    ensures limit { result.end ≤ 2 ^ 63 }
{
    let base = log.base().0;
    let end = log.end().0;
    Part {
        file: log.file(),
        at: place_in(base, keep.0),
        end: place_in(base, end),
    }
}

/// Writes the header of a log, a part of another file and a closed gate in place of a file, and syncs it.
fn replace<S: Disk>(
    site: &mut S,
    part: Part,
    keep: Offset,
    into: File,
    buffer: &mut [u8],
) -> Result<(), CarryFault>
    requires other { part.file ≢ into }
    requires order { part.at ≤ part.end }
    requires limit { part.end ≤ 2 ^ 63 }
    requires some { 0 < length buffer.old }
    requires source { IsTrue (S.seen site.old).observable → part.end ≤ length (bytes_of (S.seen site.old).files part.file) }
    ensures replaced { OnOk result (HasSettled into ((header keep.0 ++ bytes_in (S.seen site.old).files part) ++ 0 ∷ []) (S.seen site.old) (S.seen site.new)) }
    ensures cause { IfErr result (StepCause into (S.seen site.old) (S.seen site.new)) }
{
    begin(site, into, keep.0)?;
    copy(site, part, into, buffer)?;
    close(site, into, HEADER + (part.end - part.at))?;
    Ok(())
}

/// Cuts a file to nothing and writes the header of a log into it.
fn begin<S: Disk>(site: &mut S, into: File, base: u64) -> Result<(), CarryFault>
    ensures begun { OnOk result (HasNow into (header base) (S.seen site.old) (S.seen site.new)) }
    ensures cause { IfErr result (StepCause into (S.seen site.old) (S.seen site.new)) }
{
    let bytes = header_of(base);
    site.cut(into, 0)?;
    site.write_at(into, 0, &bytes)?;
    Ok(())
}

/// The 16 bytes before the first gate.
fn header_of(base: u64) -> [u8; 16]
    ensures { result ≡ header base }
{
    let [a, b, c, d, e, f, g, h] = base.to_be_bytes();
    [
        b'S', b'R', b'L', b'O', b'G', b'0', b'0', b'1', a, b, c, d, e, f, g, h,
    ]
}

/// Puts a closed gate at the end of a file, which is the place `at`, and syncs it.
fn close<S: Disk>(site: &mut S, into: File, at: u64) -> Result<(), CarryFault>
    requires target { IsTrue (S.seen site.old).observable → at ≡ length (bytes_of (S.seen site.old).files into) }
    ensures closed { OnOk result (HasSettled into (bytes_of (S.seen site.old).files into ++ 0 ∷ []) (S.seen site.old) (S.seen site.new)) }
    ensures cause { IfErr result (StepCause into (S.seen site.old) (S.seen site.new)) }
{
    site.write_at(into, at, &[0])?;
    site.sync(into)?;
    Ok(())
}
