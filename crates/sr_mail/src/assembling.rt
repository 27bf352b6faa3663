//! Bodies put together of fragments.

ghost use Rattle.std.specs.Prelude.{◌≡◌, ℕ, ◌+◌, ◌-◌, ◌<◌, ◌≤◌, ◌↔◌, [], Some, map, length, get_or, IfOk, IfSome, IfNone, IsTrue};
ghost use Rattle.std.specs.List.{AllByRecursion};
ghost use Rattle.sr_mail.specs.Assembled.{IsItsPiece, CanAssemble, IsAssembled, byte_at, total_of};
ghost use Rattle.sr_mail.specs.Inner.Assembled.{AreOfOneWindow};
ghost use Rattle.sr_mail.specs.Seen.{Cover};

use crate::piece::Piece;
use crate::reach::Reach;
use sr_base::NoMemory;
use sr_msgform::Message;
use std::alloc::Global;

/// The body that these fragments of one window have together. Where they overlap, the earlier in the list gives the bytes.
///
/// `None` comes exactly where a message is not its piece (its window, start or fragment length differs) or where the pieces leave a gap.
/// It takes the memory of one body beside a few bytes a piece, and a time linear in the fragments beside that of sorting the pieces.
pub fn assemble(alloc: Global, pieces: &[(Piece, Message)]) -> Result<Option<Vec<u8>>, NoMemory>
    requires some { ¬ (pieces.now ≡ []) }
    requires one_window { AreOfOneWindow pieces.now }
    ensures found { IfOk result (λ found. IfSome found (λ bytes. IsAssembled pieces.now bytes.items)) }
    ensures none { IfOk result (λ found. IfNone found (¬ (CanAssemble pieces.now))) }
{
    let total = total_of(pieces);
    if !are_own(pieces) {
        return Ok(None);
    }
    if !have_all(alloc, pieces, total)? {
        return Ok(None);
    }
    let mut bytes = Vec::new(alloc);
    bytes.resize(total as usize, 0)?;
    fill(pieces, bytes.as_mut_slice());
    Ok(Some(bytes))
}

/// The length of the window's body.
fn total_of(pieces: &[(Piece, Message)]) -> u32
    ensures { result ≡ total_of pieces.now }
{
    match pieces.split_first() {
        Some(((piece, _), _)) => piece.total,
        None => 0,
    }
}

/// Writes each fragment at its place, the last of the list first.
fn fill(pieces: &[(Piece, Message)], bytes: &mut [u8])
    requires { AllByRecursion IsItsPiece pieces.now }
    ensures { (place byte : ℕ) → place < length bytes.old → byte_at pieces.now place ≡ Some byte → get_or bytes.new place 0 ≡ byte }
{
    let mut left = pieces;
    'pieces: while let Some((pair, before)) = left.split_last() {
        overwrite(bytes, pair.0.start as usize, pair.1.fragment.as_slice());
        left = before;
    }
}

/// Whether each message is its piece's.
fn are_own(pieces: &[(Piece, Message)]) -> bool
    ensures { IsTrue result ↔ AllByRecursion IsItsPiece pieces.now }
{
    let mut left = pieces;
    'pieces: while let Some(((piece, message), behind)) = left.split_first() {
        if !is_its(piece, message) {
            return false;
        }
        left = behind;
    }
    true
}

/// Whether the message is the piece's.
fn is_its(piece: &Piece, message: &Message) -> bool
    ensures { IsTrue result ↔ IsItsPiece (piece.now, message.now) }
{
    message.prev.0 == piece.prev.0
        && message.upto.0 == piece.upto.0
        && message.total == piece.total
        && message.start == piece.start
        && message.fragment.as_slice().len() == piece.length as usize
}

/// Whether the pieces have every byte. It takes the time of sorting them.
fn have_all(alloc: Global, pieces: &[(Piece, Message)], total: u32) -> Result<bool, NoMemory>
    ensures { IfOk result (λ all. IsTrue all ↔ Cover (map (λ pair. pair.0) pieces.now) total) }
{
    let mut reach = Reach::new(alloc);
    for (piece, _) in pieces {
        reach.add(piece.start, piece.length)?;
    }
    Ok(total as u64 <= reach.reached)
}

/// Writes the bytes at a place, as far as they lie within.
fn overwrite(bytes: &mut [u8], place: usize, fragment: &[u8])
    ensures inside { (i : ℕ) → place ≤ i → i < place + length fragment.now → i < length bytes.old → get_or bytes.new i 0 ≡ get_or fragment.now (i - place) 0 }
    ensures before { (i : ℕ) → i < place → get_or bytes.new i 0 ≡ get_or bytes.old i 0 }
    ensures behind { (i : ℕ) → place + length fragment.now ≤ i → get_or bytes.new i 0 ≡ get_or bytes.old i 0 }
{
    if place < bytes.len() {
        let (_, behind) = bytes.split_at_mut(place);
        let size = if behind.len() < fragment.len() {
            behind.len()
        } else {
            fragment.len()
        };
        let (written, _) = behind.split_at_mut(size);
        let (taken, _) = fragment.split_at(size);
        written.copy_from_slice(taken);
    }
}
