ghost use Rattle.std.specs.Prelude.{◌≡◌, List, ℕ, drop, IsTrue, IfOk, OnOk, IfErr};
ghost use Rattle.sr_site.specs.Causes.{DiskStays};
ghost use Rattle.sr_site.specs.Files.{bytes_of};
ghost use Rattle.sr_site.specs.Reads.{HasRead};
ghost use Rattle.sr_logfile.specs.Inner.Heads.{HeadCause, IsHead};
ghost use Rattle.sr_logfile.specs.Inner.Log.{InOrder};
ghost use Rattle.sr_logfile.specs.Records.{place_in};

use crate::fault::LogFault;
use sr_site::{Disk, File};

/// The bytes before the first gate.
const HEADER: u64 = 16;

/// The place in the file of the gate at a stream position, in a log that begins at `base`.
pub fn place_in(base: u64, position: u64) -> u64
    requires order { InOrder base position }
    ensures place { result ≡ place_in base position }
{
    HEADER + (position - base)
}

/// The bytes of a gate and the length behind it.
pub(crate) const RECORD_HEAD: u64 = 5;

/// The longest body: 64 MiB.
pub(crate) const LONGEST_BODY: u64 = 67_108_864;

/// What stands at the place of a gate.
#[derive(Clone, Copy)]
pub(crate) enum Head {
    /// A gate that is not open.
    Closed,
    /// The file's end, or an open gate and fewer than four bytes.
    Cut,
    /// An open gate and a body's length.
    Open { length: u32 },
}

/// Reads the gate at a place of the file, and the length behind it.
pub(crate) fn head_at<S: Disk>(site: &mut S, file: File, place: u64) -> Result<Head, LogFault>
    ensures head { IsTrue (S.seen site.old).observable → IfOk result (IsHead (drop place (bytes_of (S.seen site.old).files file))) }
    ensures files { IsTrue (S.seen site.old).observable → (S.seen site.new).files ≡ (S.seen site.old).files }
    ensures happened { IsTrue (S.seen site.old).observable → (S.seen site.new).happened ≡ (S.seen site.old).happened }
    ensures stays { DiskStays (S.seen site.old) (S.seen site.new) }
    ensures steady { OnOk result ((S.seen site.new).disk_faults ≡ (S.seen site.old).disk_faults) }
    ensures cause { IfErr result (HeadCause (S.seen site.old) (S.seen site.new)) }
{
    let mut head = [0; 5];
    let count = site.read_at(file, place, &mut head)?;
    Ok(head_of(&head, count))
}

/// What the first `count` of five bytes say, where a read of five bytes gave so many.
fn head_of(head: &[u8; 5], count: usize) -> Head
    ensures { (bytes : List ℕ) (place : ℕ) → HasRead bytes place 5 count head.now → IsHead (drop place bytes) result }
{
    let [gate, a, b, c, d] = *head;
    if count > 0 && gate != 1 {
        return Head::Closed;
    }
    if count < 5 {
        return Head::Cut;
    }
    Head::Open {
        length: u32::from_be_bytes([a, b, c, d]),
    }
}
