use sr_base::{Name, Offset, Text};
use sr_logform::Clash;

/// What a pass has to tell.
#[derive(Drop)]
pub enum Report {
    /// The folder has more files than were listed.
    More,
    /// The file of this name is no message.
    Junk {
        name: Text,
    },
    /// The message of this file is not for this database, is from no partner of it, or confirms or asks for what lies past its log.
    Stranger {
        name: Text,
    },
    /// The op of this number, from 1, of the user's transaction that ends at this offset met another value.
    Conflict {
        user: Name,
        at: Offset,
        op: u32,
    },
    /// It was skipped.
    Clash {
        user: Name,
        at: Offset,
        op: u32,
        clash: Clash,
    },
    /// The bytes of a window are no transactions of it.
    Torn {
        user: Name,
        prev: Offset,
        upto: Offset,
    },
    /// A window of the user's lies past what was received, and is not whole.
    Gap {
        user: Name,
        received: Offset,
        upto: Offset,
    },
}
