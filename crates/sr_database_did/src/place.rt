//! A database together with the site that it stands on.

ghost use Rattle.std.specs.Prelude.{◌≡◌, true, IsTrue};
ghost use Rattle.sr_database.specs.InForce.{HasLogInForce};
ghost use Rattle.sr_database.specs.Inner.Commits.{CanCommit, CanCommitSome};
ghost use Rattle.sr_database_history.specs.Recorded.{Recorded};

use sr_base::Offset;
use sr_database::{Database, DatabaseFault};
use sr_logform::Entry;
use sr_site::Site;
use std::alloc::Global;

/// A database on its site, and the memory for what is done there.
#[derive(Drop)]
pub struct Place<'d, 's, S: Site> {
    pub alloc: Global,
    pub db: &'d mut Database,
    pub site: &'s mut S,
}

impl<'d, 's, S: Site> Place<'d, 's, S> {
    ghost use Rattle.sr_database_did.specs.Inner.Did.{Commits};
    ghost use Rattle.sr_database_did.specs.Inner.Places.{IsLent, at};

    /// Commits an entry, as `Database::commit` does.
    pub fn commit(&mut self, entry: &Entry) -> Result<Offset, DatabaseFault>
        requires usable { self.old.db.now.log.usable ≡ true }
        requires entry { CanCommitSome self.old.db.now entry.now }
        requires stands { IsTrue (S.seen self.old.site.now).observable → HasLogInForce self.old.db.now (S.seen self.old.site.now) }
        ensures lent { IsLent self.old self.new }
        ensures did { (r : Recorded) → CanCommit self.old.db.now entry.now r → Commits (at S.seen self.old) (at S.seen self.new) r result }
    {
        self.db.commit(self.alloc, self.site, entry)
    }
}
