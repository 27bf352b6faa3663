ghost use Rattle.std.specs.Prelude.{◌≡◌};
ghost use Rattle.sr_database_meaning.specs.Generations.{generation_of, other_of};
ghost use Rattle.sr_database_restart.specs.Inner.Generations.{parts_of};

use sr_site::File;

/// The generation that is not in force: its snapshot and its log, and the byte that names it in the root's first place.
#[derive(Clone, Copy)]
pub(crate) struct Other {
    pub(crate) snapshot: File,
    pub(crate) log: File,
    pub(crate) byte: u8,
}

/// The generation that a file is not of.
pub(crate) fn other_than(file: File) -> Other
    ensures other { result ≡ parts_of (other_of (generation_of file)) }
{
    match file {
        File::Root | File::Log0 | File::Snap0 => Other {
            snapshot: File::Snap1,
            log: File::Log1,
            byte: 1,
        },
        File::Log1 | File::Snap1 => Other {
            snapshot: File::Snap0,
            log: File::Log0,
            byte: 0,
        },
    }
}
