ghost use Rattle.std.specs.Prelude.{◌≡◌, ◌≤◌, ◌⊎◌, [], ◌∷◌, length, IsTrue, OnOk, OnErr, IfErr, is_ok};
ghost use Rattle.sr_base.specs.Values.{farthest_offset};
ghost use Rattle.sr_site.specs.Inner.Happenings.{Made};
ghost use Rattle.sr_site.specs.Images.{IsSettled, RestsThroughout};
ghost use Rattle.sr_logfile.specs.Inner.Calls.{fresh_calls};
ghost use Rattle.sr_logfile.specs.Inner.Moments.{IsAsRead, IsPartFresh};
ghost use Rattle.sr_site.specs.Causes.{DiskStays};
ghost use Rattle.sr_site.specs.Files.{bytes_of, with_bytes, OthersStay};
ghost use Rattle.sr_logfile.specs.Inner.Faults.{FreshCause};
ghost use Rattle.sr_logfile.specs.Records.{Spells};
ghost use Rattle.sr_logfile.specs.Inner.Records.{empty_log, fresh_bytes};

use crate::fault::LogFault;
use sr_base::Offset;
use sr_site::{Disk, File};

/// Makes the file a log without records: the 17 bytes of a header with this base, at most 2^62, and a closed gate.
///
/// It cuts the file to nothing, writes the 17 bytes and syncs. After `Disk` the file is no longer than it was, or has no more than
/// these 17 bytes; nothing is said of which they are. A crash at any moment leaves no more of it, and the other files as they were.
pub fn fresh<S: Disk>(site: &mut S, file: File, base: Offset) -> Result<(), LogFault>
    requires base { base.0 ≤ farthest_offset }
    ensures bytes { IsTrue (S.seen site.old).observable → OnOk result ((S.seen site.new).files ≡ with_bytes (S.seen site.old).files file (fresh_bytes base.0)) }
    ensures empty { IsTrue (S.seen site.old).observable → OnOk result (Spells base.0 [] (bytes_of (S.seen site.new).files file)) }
    ensures left { IsTrue (S.seen site.old).observable → OnErr result ((length (bytes_of (S.seen site.new).files file) ≤ length (bytes_of (S.seen site.old).files file)) ⊎ (length (bytes_of (S.seen site.new).files file) ≤ empty_log)) }
    ensures others { IsTrue (S.seen site.old).observable → OthersStay file (S.seen site.old).files (S.seen site.new).files }
    ensures happened { IsTrue (S.seen site.old).observable → Made (fresh_calls file base.0) (S.seen site.old).happened (S.seen site.new).happened (is_ok result) }
    ensures moments { IsTrue (S.seen site.old).observable → RestsThroughout (IsPartFresh file (S.seen site.old)) (S.seen site.old) (S.seen site.new) }
    ensures settled { IsTrue (S.seen site.old).observable → OnOk result (IsSettled (IsAsRead file (S.seen site.new)) (S.seen site.new)) }
    ensures stays { DiskStays (S.seen site.old) (S.seen site.new) }
    ensures steady { OnOk result ((S.seen site.new).disk_faults ≡ (S.seen site.old).disk_faults) }
    ensures cause { IfErr result (FreshCause (S.seen site.old) (S.seen site.new)) }
{
    let bytes = fresh_log(base.0);
    site.cut(file, 0)?;
    site.write_at(file, 0, &bytes)?;
    site.sync(file)?;
    Ok(())
}

/// The 17 bytes of a log without records.
fn fresh_log(base: u64) -> [u8; 17]
    ensures { result ≡ fresh_bytes base }
{
    let [a, b, c, d, e, f, g, h] = base.to_be_bytes();
    [
        b'S', b'R', b'L', b'O', b'G', b'0', b'0', b'1', a, b, c, d, e, f, g, h, 0,
    ]
}
