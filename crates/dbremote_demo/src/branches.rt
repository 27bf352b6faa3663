//! The four databases: their files, the mail between them, and those that are open.

ghost use Rattle.std.specs.Prelude.{◌≡◌, [], drop, length, IfOk};
ghost use Rattle.dbremote_demo.specs.Inner.Branches.{IsKeptAt};
ghost use Rattle.dbremote_demo_draws.specs.Losses.{some_lost};
ghost use Rattle.sr_memsite_disk.specs.Stores.{no_bytes};
ghost use Rattle.sr_memsite.specs.Disks.{begun_with};
ghost use Rattle.dbremote_demo_draws.specs.Places.{disk_at, nothing_made, with_disk};

use crate::kept::Kept;
use dbremote_demo_draws::{DemoSite, DemoSites, Draws, lose_some};
use sr_base::NoMemory;
use sr_database::Database;
use sr_memsite::{MemoryDisk, SharedMail};
use std::alloc::Global;
use std::marker::Model;

/// What a run has of a database: its files, the mail of all, and the database itself where it is open.
#[derive(Drop)]
pub(crate) struct Lent {
    pub(crate) disk: MemoryDisk,
    pub(crate) mail: SharedMail,
    pub(crate) kept: Option<Database>,
}

/// The files of the four databases, the mail between them, and the databases that stay open from one run to the next.
///
/// Contracts see the files and the mail. Each database that is open can be used, has no change pending, and is what its files hold.
#[derive(Drop)]
pub(crate) struct Branches {
    demo_sites: DemoSites,
    kept: Kept,
}

impl Model for Branches {
    ghost use Rattle.dbremote_demo_draws.specs.declared.demo_sites.DemoSites.{DemoSites};

    ghost Value = { DemoSites };

    ghost use Rattle.dbremote_demo.specs.Inner.Branches.{AreKept};

    ghost view = { λ b. b.demo_sites };

    ghost invariant = { λ b. AreKept b.demo_sites b.kept };
}

impl Branches {
    /// No files and no mail, and nothing is open. It takes no memory.
    pub(crate) fn new(alloc: Global) -> Branches
        ensures nothing { result ≡ nothing_made }
    {
        Branches {
            demo_sites: DemoSites::new(alloc),
            kept: Kept::none(),
        }
    }

    /// Lends what a run on a database has. Empty files stand in the place of its files until then, and no mail.
    pub(crate) fn lend(&mut self, alloc: Global, demo_site: DemoSite) -> Lent
        ensures disk { result.disk ≡ disk_at demo_site self.old }
        ensures mail { result.mail ≡ self.old.mail }
        ensures kept { IsKeptAt result.kept (disk_at demo_site self.old) }
        ensures left { self.new ≡ record (with_disk demo_site (begun_with no_bytes) self.old) { mail = record { files = []; puts = [] } } }
    {
        let disk = self.demo_sites.swap_disk(demo_site, MemoryDisk::new(alloc));
        let mail = self.demo_sites.swap_mail(SharedMail::new(alloc));
        let kept = self.kept.swap(demo_site, None);
        Lent { disk, mail, kept }
    }

    /// Takes back what a run on a database left.
    pub(crate) fn take_back(&mut self, demo_site: DemoSite, lent: Lent)
        requires kept { IsKeptAt lent.kept lent.disk }
        ensures back { self.new ≡ record (with_disk demo_site lent.disk self.old) { mail = lent.mail } }
    {
        let Lent { disk, mail, kept } = lent;
        drop(self.demo_sites.swap_disk(demo_site, disk));
        drop(self.demo_sites.swap_mail(mail));
        drop(self.kept.swap(demo_site, kept));
    }

    /// How many messages were put.
    pub(crate) fn puts(&self) -> usize
        ensures puts { result ≡ length self.now.mail.puts }
    {
        self.demo_sites.mail.puts().len()
    }

    /// Loses some of the messages that were put behind the first `before`. Answers how many.
    pub(crate) fn lose(
        &mut self,
        alloc: Global,
        before: usize,
        draws: &mut Draws,
    ) -> Result<u64, NoMemory>
        ensures lost { IfOk result (λ count. some_lost draws.old (drop before self.old.mail.puts) self.old.mail ≡ record { state = draws.new; mail = self.new.mail; count = count }) }
        ensures files { self.new ≡ record self.old { mail = self.new.mail } }
    {
        lose_some(alloc, &mut self.demo_sites.mail, before, draws)
    }

    /// The files and the mail. No database is open any more.
    pub(crate) fn closed(self) -> DemoSites
        ensures demo_sites { result ≡ self }
    {
        let Branches { demo_sites, kept } = self;
        drop(kept);
        demo_sites
    }
}
