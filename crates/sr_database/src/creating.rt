ghost use Rattle.std.specs.Prelude.{◌≡◌, [], IsTrue, IfErr, OnOk};
ghost use Rattle.sr_site.specs.Causes.{DiskStays};
ghost use Rattle.sr_site.specs.Images.{IsImage, IsSettled, RestsThroughout};
ghost use Rattle.sr_database_meaning.specs.Events.{attaches_in};
ghost use Rattle.sr_database_meaning.specs.Standing.{StandsFor};
ghost use Rattle.sr_database_files.specs.Fresh.{IsNoneOrNew, IsThere};
ghost use Rattle.sr_database_files.specs.Inner.Fresh.{AreNew};
ghost use Rattle.sr_database_files.specs.Inner.Refusing.{CreateCause};

use crate::database::Database;
use sr_base::Name;
use sr_database_files::{DatabaseFault, create};
use sr_site::Site;
use std::alloc::Global;

impl Database {
    /// Makes the five files those of a database of this publisher that has no entry.
    ///
    /// `Exists` comes exactly where the root has a byte; then nothing is written. Both generations are written anew and synced before the root gets
    /// its byte, so that at each moment a crash leaves no database or the new one, whatever byte the root then has; and where there was one
    /// before, a crash leaves its files. For want of memory no device was called.
    pub fn create<S: Site>(
        alloc: Global,
        site: &mut S,
        publisher: &Name,
    ) -> Result<(), DatabaseFault>
        ensures both { IsTrue (S.seen site.old).observable → OnOk result (AreNew publisher.now (S.seen site.new).files) }
        ensures made { IsTrue (S.seen site.old).observable → OnOk result (StandsFor publisher.now [] 0 (S.seen site.new).files) }
        ensures settled { IsTrue (S.seen site.old).observable → OnOk result (IsSettled (StandsFor publisher.now [] 0) (S.seen site.new)) }
        ensures missing { IsTrue (S.seen site.old).observable → OnOk result ((S.seen site.old).files.root ≡ []) }
        ensures moments { IsTrue (S.seen site.old).observable → IsSettled (IsNoneOrNew publisher.now) (S.seen site.old) → RestsThroughout (IsNoneOrNew publisher.now) (S.seen site.old) (S.seen site.new) }
        ensures there { IsTrue (S.seen site.old).observable → IsSettled IsThere (S.seen site.old) → RestsThroughout (IsImage (S.seen site.old)) (S.seen site.old) (S.seen site.new) }
        ensures attached { IsTrue (S.seen site.old).observable → attaches_in (S.seen site.new).happened ≡ attaches_in (S.seen site.old).happened }
        ensures stays { DiskStays (S.seen site.old) (S.seen site.new) }
        ensures steady { OnOk result ((S.seen site.new).disk_faults ≡ (S.seen site.old).disk_faults) }
        ensures cause { IfErr result (CreateCause (S.seen site.old) (S.seen site.new)) }
    {
        create(alloc, site, publisher)
    }
}
