ghost use Rattle.std.specs.Prelude.{◌≡◌, ◌<◌, ◌%◌, IfOk};
ghost use Rattle.sr_base.specs.Names.{lowered};
ghost use Rattle.dbremote_demo_draws.specs.Names.{number_of_site, demo_site_at, text_of};

use sr_base::{Name, NoMemory, Text, name_of};
use std::alloc::{AllocError, Global};

/// One of the four databases: the consolidated one, and the three below it.
#[derive(Clone, Copy)]
pub enum DemoSite {
    Cons,
    R1,
    R2,
    R3,
}

impl DemoSite {
    /// The database of this number: 0 is the consolidated one, and the others go on from it.
    pub fn of(number: u32) -> DemoSite
        ensures demo_site { result ≡ demo_site_at number }
    {
        match number {
            0 => DemoSite::Cons,
            1 => DemoSite::R1,
            2 => DemoSite::R2,
            _ => DemoSite::R3,
        }
    }

    /// Its number.
    pub fn number(self) -> u32
        ensures number { result ≡ number_of_site self }
        ensures small { result < 4 }
    {
        match self {
            DemoSite::Cons => 0,
            DemoSite::R1 => 1,
            DemoSite::R2 => 2,
            DemoSite::R3 => 3,
        }
    }

    /// Its publisher's name, which is also that of its files.
    pub fn text(self) -> &'static str
        ensures text { result.now ≡ text_of self }
    {
        match self {
            DemoSite::Cons => "cons",
            DemoSite::R1 => "r1",
            DemoSite::R2 => "r2",
            DemoSite::R3 => "r3",
        }
    }

    /// The name of its files.
    pub fn place(self, alloc: Global) -> Result<Text, NoMemory>
        ensures place { IfOk result (λ place. place ≡ text_of self) }
    {
        Text::from_str(alloc, self.text())
    }

    /// Its publisher's name, as a name.
    pub fn name(self, alloc: Global) -> Result<Name, NoMemory>
        ensures name { IfOk result (λ name. name ≡ text_of self) }
    {
        name_in(alloc, self.text().as_bytes())
    }
}

/// The name of bytes that are one.
pub fn name_in(alloc: Global, bytes: &[u8]) -> Result<Name, NoMemory>
    ensures name { IfOk result (λ name. name ≡ lowered bytes.now) }
{
    match name_of(alloc, bytes) {
        Ok(name) => Ok(name),
        Err(_) => Err(AllocError),
    }
}
