ghost use Rattle.std.specs.Prelude.{◌≡◌, IfOk};
ghost use Rattle.test_lives.specs.Inner.Names.{name_at};

use sr_base::{Name, NoMemory, Text, name_of};
use std::alloc::{AllocError, Global};

/// One of the two databases: the one above, `cons`, or the one below, `r1`.
#[derive(Clone, Copy)]
pub enum Place {
    Above,
    Below,
}

impl Place {
    /// Its publisher's name, which is also that of its files.
    pub fn text(self) -> &'static str
        ensures text { result.now ≡ name_at self }
    {
        match self {
            Place::Above => "cons",
            Place::Below => "r1",
        }
    }

    /// The name of its files.
    pub fn files(self, alloc: Global) -> Result<Text, NoMemory>
        ensures files { IfOk result (λ files. files ≡ name_at self) }
    {
        Text::from_str(alloc, self.text())
    }

    /// Its publisher's name, as a name.
    pub fn name(self, alloc: Global) -> Result<Name, NoMemory>
        ensures name { IfOk result (λ name. name ≡ name_at self) }
    {
        match name_of(alloc, self.text().as_bytes()) {
            Ok(name) => Ok(name),
            Err(_) => Err(AllocError),
        }
    }
}
