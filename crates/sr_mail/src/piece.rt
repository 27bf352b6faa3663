ghost use Rattle.std.specs.Prelude.{◌≡◌};
ghost use Rattle.sr_mail.specs.Seen.{window_of, piece_of};

use crate::window::Window;
use sr_base::{Copied, NoMemory, Offset, Text};
use sr_msgform::Message;
use std::alloc::Global;

/// A fragment that was seen: the name of its message file, and where it stands.
#[derive(Drop)]
pub struct Piece {
    pub name: Text,
    /// The place in the window's body at which the fragment begins,
    pub start: u32,
    /// and its bytes.
    pub length: u32,
    /// The bytes of the whole body.
    pub total: u32,
    /// The window holds what the sender's log gives past this offset,
    pub prev: Offset,
    /// and up to this one.
    pub upto: Offset,
}

impl Copied for Piece {
    fn copy(&self, alloc: Global) -> Result<Piece, NoMemory> {
        Ok(Piece {
            name: self.name.copy(alloc)?,
            start: self.start,
            length: self.length,
            total: self.total,
            prev: self.prev,
            upto: self.upto,
        })
    }
}

/// What is kept of a message that came under this name.
pub(crate) fn piece_of(name: Text, message: &Message) -> Piece
    ensures { result ≡ piece_of name message.now }
{
    let size = message.fragment.as_slice().len();
    Piece {
        name,
        start: message.start,
        length: if size < u32::MAX as usize {
            size as u32
        } else {
            u32::MAX
        },
        total: message.total,
        prev: message.prev,
        upto: message.upto,
    }
}

impl Piece {
    /// The window that it is of.
    pub fn window(&self) -> Window
        ensures { result ≡ window_of self.now }
    {
        Window {
            prev: self.prev.0,
            upto: self.upto.0,
            total: self.total,
        }
    }
}
