//! The byte of the root that names a generation.

ghost use Rattle.std.specs.Prelude.{◌≡◌, IsTrue, OnOk, OnErr};
ghost use Rattle.sr_database_restart.specs.Inner.Writing.{IsNamedInPart, Touches, named_by};
ghost use Rattle.sr_site.specs.Causes.{Rose};
ghost use Rattle.sr_site.specs.Files.{with_bytes};
ghost use Rattle.sr_site.specs.Images.{IsSettled, RestsThroughout};

use sr_site::{Disk, Failed, File};

/// Puts a byte into the root's first place, and syncs the root.
pub(crate) fn name_generation<S: Disk>(site: &mut S, byte: u8) -> Result<(), Failed>
    ensures files { IsTrue (S.seen site.old).observable → OnOk result ((S.seen site.new).files ≡ with_bytes (S.seen site.old).files File.Root (named_by byte (S.seen site.old).files)) }
    ensures settled { IsTrue (S.seen site.old).observable → OnOk result (IsSettled (λ image. image.root ≡ named_by byte (S.seen site.old).files) (S.seen site.new)) }
    ensures moments { IsTrue (S.seen site.old).observable → RestsThroughout (IsNamedInPart byte (S.seen site.old)) (S.seen site.old) (S.seen site.new) }
    ensures touches { Touches File.Root (S.seen site.old) (S.seen site.new) }
    ensures steady { OnOk result ((S.seen site.new).disk_faults ≡ (S.seen site.old).disk_faults) }
    ensures cause { OnErr result (Rose (S.seen site.old).disk_faults (S.seen site.new).disk_faults) }
{
    site.write_at(File::Root, 0, &[byte])?;
    site.sync(File::Root)?;
    Ok(())
}
