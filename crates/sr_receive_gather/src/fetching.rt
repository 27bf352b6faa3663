//! The files of a window's pieces fetched again.

ghost use Rattle.std.specs.Prelude.{◌≡◌, ◌↔◌, IsTrue, Some, IfOk, IfErr, IfSome, IfNone, option_map};
ghost use Rattle.sr_mail.specs.Assembled.{IsItsPiece};
ghost use Rattle.sr_msgform.specs.declared.message.Message.{Message as AMessage};
ghost use Rattle.sr_receive_gather.specs.Fetches.{FetchStop};
ghost use Rattle.sr_receive_gather.specs.Inner.Fetches.{FetchOneStop, FoundOne, FoundAll};
ghost use Rattle.sr_receive_gather.specs.Windows.{IsStill};

use crate::fault::ReceiveFault;
use crate::gathering::LONGEST_FETCH;
use sr_base::Name;
use sr_mail::Piece;
use sr_msgform::{Message, read_message};
use sr_site::Site;
use std::alloc::Global;

/// Fetches the files of pieces again, one after the other. `None` where one gives no file, or none of the same message but for what it confirms and asks.
pub fn fetch_all<S: Site>(
    alloc: Global,
    site: &mut S,
    publisher: &Name,
    user: &Name,
    pieces: Vec<Piece>,
) -> Result<Option<Vec<(Piece, Message)>>, ReceiveFault>
    ensures found { IfOk result (λ found. FoundAll publisher.now user.now pieces.items (S.seen site.old) (S.seen site.new) (option_map (λ pairs. pairs.items) found)) }
    ensures cause { IfErr result (FetchStop publisher.now user.now pieces.items (S.seen site.old) (S.seen site.new)) }
{
    let mut pairs = Vec::new(alloc);
    'pieces: for piece in pieces {
        match fetch_one(alloc, site, publisher, user, &piece)? {
            None => return Ok(None),
            Some(message) => pairs.push((piece, message))?,
        }
    }
    Ok(Some(pairs))
}

/// Fetches the file of a piece again.
fn fetch_one<S: Site>(
    alloc: Global,
    site: &mut S,
    publisher: &Name,
    user: &Name,
    piece: &Piece,
) -> Result<Option<Message>, ReceiveFault>
    ensures found { IfOk result (FoundOne publisher.now user.now piece.now (S.seen site.old) (S.seen site.new)) }
    ensures cause { IfErr result (FetchOneStop publisher.now piece.now (S.seen site.old) (S.seen site.new)) }
{
    match site.fetch(alloc, publisher, &piece.name, LONGEST_FETCH)? {
        None => Ok(None),
        Some(bytes) => {
            let read = read_message(alloc, bytes.as_slice());
            drop(bytes);
            Ok(still(publisher, user, piece, read?))
        }
    }
}

/// The message, where it is still that of the piece.
fn still(publisher: &Name, user: &Name, piece: &Piece, found: Option<Message>) -> Option<Message>
    ensures found { IfSome result (λ m. (found ≡ Some m) × IsStill publisher.now user.now (piece.now, m)) }
    ensures none { IfNone result ((m : AMessage) → found ≡ Some m → ¬ (IsStill publisher.now user.now (piece.now, m))) }
{
    match found {
        None => None,
        Some(message) => {
            if is_still(publisher, user, piece, &message) {
                return Some(message);
            }
            drop(message);
            None
        }
    }
}

/// Whether a message is still that of the piece.
fn is_still(publisher: &Name, user: &Name, piece: &Piece, message: &Message) -> bool
    ensures { IsTrue result ↔ IsStill publisher.now user.now (piece.now, message.now) }
{
    message.to.bytes() == publisher.bytes()
        && message.from.bytes() == user.bytes()
        && is_its(piece, message)
}

/// Whether a message has the window of a piece, its start and its fragment's length.
fn is_its(piece: &Piece, message: &Message) -> bool
    ensures { IsTrue result ↔ IsItsPiece (piece.now, message.now) }
{
    message.prev.0 == piece.prev.0
        && message.upto.0 == piece.upto.0
        && message.total == piece.total
        && message.start == piece.start
        && message.fragment.as_slice().len() == piece.length as usize
}
