//! Databases that are open.

ghost use Rattle.std.specs.Prelude.{◌≡◌};
ghost use Rattle.dbremote_demo.specs.Inner.Branches.{kept_at, none_kept, with_kept};

use dbremote_demo_draws::DemoSite;
use sr_database::Database;
use std::mem::replace;

/// Each of the four databases, where it is open.
#[derive(Drop)]
pub(crate) struct Kept {
    cons: Option<Database>,
    r1: Option<Database>,
    r2: Option<Database>,
    r3: Option<Database>,
}

impl Kept {
    /// None is open.
    pub(crate) fn none() -> Kept
        ensures none { result ≡ none_kept }
    {
        Kept {
            cons: None,
            r1: None,
            r2: None,
            r3: None,
        }
    }

    /// Puts a database, open or not, in the place of that of an site, and answers that.
    pub(crate) fn swap(
        &mut self,
        demo_site: DemoSite,
        database: Option<Database>,
    ) -> Option<Database>
        ensures before { result ≡ kept_at demo_site self.old }
        ensures swapped { self.new ≡ with_kept demo_site database self.old }
    {
        match demo_site {
            DemoSite::Cons => replace(&mut self.cons, database),
            DemoSite::R1 => replace(&mut self.r1, database),
            DemoSite::R2 => replace(&mut self.r2, database),
            DemoSite::R3 => replace(&mut self.r3, database),
        }
    }
}
