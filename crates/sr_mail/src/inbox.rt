//! The inbox.

ghost use Rattle.std.specs.Prelude.{◌≡◌, ◌+◌, ◌≤◌, ◌<◌, ◌⊎◌, [], Some, slice_get, length, take, drop, Bool, IfOk, IfSome, IfNone, OnOk, OnErr, if◌then◌else◌};
ghost use Rattle.std.specs.List.{AllByRecursion};
ghost use Rattle.sr_mail.specs.declared.window.Window.{Window as AWindow};
ghost use Rattle.sr_mail.specs.Inboxes.{Gathered, pieces_of, is_dropped, IsSeen, IsGreatest};
ghost use Rattle.sr_mail.specs.Inner.Inboxes.{is_seen, IsWholeWindow, IsNext, Adds};
ghost use Rattle.sr_mail.specs.Reaching.{Leads, IsFar};
ghost use Rattle.sr_mail.specs.Seen.{same_window, window_of, piece_of};
ghost use Rattle.sr_mail.specs.Inner.Shelves.{EndsPast, AllBefore, AllBehind, AreInOrder, all_of, added, IsFirstPast, IsLeading};

use crate::held::Held;
use crate::piece::{Piece, piece_of};
use crate::shelf::Shelf;
use crate::window::Window;
use sr_base::{NoMemory, Offset, Text};
use sr_msgform::Message;
use std::alloc::Global;
use std::marker::Model;

/// How many windows stand on a shelf at most.
const LONGEST_SHELF: usize = 512;

/// What was seen of the messages of one sender: for each window the fragments that came, of which the names and places are kept.
///
/// The windows stand in their order on shelves, so that a call takes a time of about the square root of their number: with 65,536
/// messages some hundred steps.
#[derive(Drop)]
pub struct Inbox {
    shelves: Vec<Shelf>,
    /// The end of the window that ends last.
    farthest: u64,
}

impl Model for Inbox {
    ghost use Rattle.std.specs.Prelude.{List};
    ghost use Rattle.sr_mail.specs.Inboxes.{Gathered};
    ghost use Rattle.sr_mail.specs.Inner.Shelves.{all_of, IsInbox};

    ghost Value = { List Gathered };

    ghost view = { λ i. all_of i.shelves.items };

    ghost invariant = { λ i. IsInbox (all_of i.shelves.items) i.farthest };
}

impl Inbox {
    /// An inbox with nothing in it. It takes no memory.
    pub fn new(alloc: Global) -> Inbox
        ensures empty { result ≡ [] }
    {
        Inbox {
            shelves: Vec::new(alloc),
            farthest: 0,
        }
    }

    /// Adds a message that came under this name: its name and where its fragment stands are kept.
    pub fn add(&mut self, alloc: Global, name: Text, message: &Message) -> Result<(), NoMemory>
        // The window of the message has a piece more, and no other window has.
        ensures added { OnOk result (Adds self.old (piece_of name message.now) self.new) }
        ensures dropped { OnOk result ((w : AWindow) → is_dropped self.new w ≡ is_dropped self.old w) }
        ensures err { OnErr result (self.new ≡ self.old) }
    {
        let piece = piece_of(name, message);
        let farthest = later(self.farthest, piece.upto.0);
        begin_shelf(alloc, &mut self.shelves)?;
        add_piece(alloc, &mut self.shelves, piece)?;
        self.farthest = farthest;
        Ok(())
    }

    /// The greatest offset that whole windows reach from `received`, one after the other.
    pub fn far(&self, _alloc: Global, received: Offset) -> Result<Offset, NoMemory>
        ensures far { IfOk result (λ far. IsFar (IsWholeWindow self.now) received.0 far.0) }
    {
        let mut far = received.0;
        'windows: while let Some(upto) = self.upto_from(far) {
            far = upto;
        }
        Ok(Offset(far))
    }

    /// Pieces that cover the whole window which is to be taken next: of those with `prev <= received < upto` the one of least prev,
    /// then least upto, then least total. `None` exactly where there is none.
    pub fn next(&self, alloc: Global, received: Offset) -> Result<Option<Vec<Piece>>, NoMemory>
        ensures found { IfOk result (λ found. IfSome found (λ pieces. IsNext self.now received.0 pieces.items)) }
        ensures none { IfOk result (λ found. IfNone found ((w : AWindow) → IsWholeWindow self.now w → ¬ (Leads w received.0))) }
    {
        match self.leading_from(received.0) {
            Some(held) => Ok(Some(held.cover(alloc)?)),
            None => Ok(None),
        }
    }

    /// The greatest end of a window past `taken`, whole or not, dropped or not. `None` exactly where none ends past it.
    pub fn past(&self, taken: Offset) -> Option<Offset>
        ensures found { IfSome result (λ upto. (taken.0 < upto.0) × IsGreatest self.now upto.0) }
        ensures none { IfNone result ((w : AWindow) → IsSeen self.now w → w.upto ≤ taken.0) }
    {
        if taken.0 < self.farthest {
            return Some(Offset(self.farthest));
        }
        None
    }

    /// Drops a window of which a piece was added: it is not whole from now on, whatever is added to it. It takes no memory.
    pub fn drop_window(&mut self, prev: Offset, upto: Offset, total: u32)
        ensures pieces { (w : AWindow) → pieces_of self.new w ≡ pieces_of self.old w }
        ensures dropped { (w : AWindow) → is_dropped self.new w ≡ (if same_window (record { prev = prev.0; upto = upto.0; total = total }) w then is_seen self.old w else is_dropped self.old w) }
    {
        if self.shelves.is_empty() {
            return;
        }
        let window = Window {
            prev: prev.0,
            upto: upto.0,
            total,
        };
        let at = shelf_of(self.shelves.as_slice(), window);
        self.shelves[at].drop_window(window);
    }

    /// The whole window that is to be taken next.
    fn leading_from(&self, received: u64) -> Option<&Held>
        ensures found { IfSome result (λ held. IsLeading self.now received held.now) }
        ensures none { IfNone result ((w : AWindow) → IsWholeWindow self.now w → ¬ (Leads w received)) }
    {
        match first_past(self.shelves.as_slice(), received) {
            Some(held) => {
                if held.window().prev <= received {
                    Some(held)
                } else {
                    None
                }
            }
            None => None,
        }
    }

    /// Where it ends.
    fn upto_from(&self, received: u64) -> Option<u64>
        ensures found { IfSome result (λ upto. (w : AWindow) × IsWholeWindow self.now w × Leads w received × (w.upto ≡ upto)) }
        ensures none { IfNone result ((w : AWindow) → IsWholeWindow self.now w → ¬ (Leads w received)) }
    {
        match self.leading_from(received) {
            Some(held) => Some(held.window().upto),
            None => None,
        }
    }
}

/// The later of two offsets.
fn later(offset: u64, other: u64) -> u64
    ensures first { offset ≤ result }
    ensures second { other ≤ result }
    ensures one { (result ≡ offset) ⊎ (result ≡ other) }
{
    if offset < other { other } else { offset }
}

/// The first of the ready windows that end past an offset.
fn first_past(shelves: &[Shelf], offset: u64) -> Option<&Held>
    ensures first { IfSome result (λ held. IsFirstPast offset (all_of shelves.now) held.now) }
    ensures none { IfNone result (AllByRecursion (λ g. ¬ (EndsPast offset g)) (all_of shelves.now)) }
{
    let mut left = shelves;
    'shelves: while let Some((shelf, behind)) = left.split_first() {
        if let Some(held) = shelf.first_past(offset) {
            return Some(held);
        }
        left = behind;
    }
    None
}

/// The shelf on which a window stands or comes to stand: all windows before it come before that one, and all behind it behind.
fn shelf_of(shelves: &[Shelf], window: Window) -> usize
    requires some { 0 < length shelves.now }
    ensures within { result < length shelves.now }
    ensures before { AllBefore (all_of (take result shelves.now)) window }
    ensures behind { AreInOrder (all_of shelves.now) → AllBehind (all_of (drop (result + 1) shelves.now)) window }
{
    let mut at = 0;
    'shelves: while at + 1 < shelves.len() {
        if !shelves[at].ends_before(window) {
            break;
        }
        at += 1;
    }
    at
}

/// One piece more. A shelf that is full by it is parted, where there is memory for another one.
fn add_piece(alloc: Global, shelves: &mut Vec<Shelf>, piece: Piece) -> Result<(), NoMemory>
    requires some { 0 < length shelves.old.items }
    requires order { AreInOrder (all_of shelves.old.items) }
    ensures ok { OnOk result (all_of shelves.new.items ≡ added piece (all_of shelves.old.items)) }
    ensures err { OnErr result (all_of shelves.new.items ≡ all_of shelves.old.items) }
{
    let at = shelf_of(shelves.as_slice(), piece.window());
    shelves[at].add(alloc, piece)?;
    if shelves[at].len() > LONGEST_SHELF {
        part(alloc, shelves, at);
    }
    Ok(())
}

/// Sees that there is a shelf.
fn begin_shelf(alloc: Global, shelves: &mut Vec<Shelf>) -> Result<(), NoMemory>
    ensures some { OnOk result (0 < length shelves.new.items) }
    ensures same { all_of shelves.new.items ≡ all_of shelves.old.items }
{
    if shelves.is_empty() {
        shelves.push(Shelf::new(alloc))?;
    }
    Ok(())
}

/// Parts a shelf into two, where there is memory for another one.
fn part(alloc: Global, shelves: &mut Vec<Shelf>, at: usize)
    requires { at < length shelves.old.items }
    ensures { all_of shelves.new.items ≡ all_of shelves.old.items }
{
    match shelves.insert(at + 1, Shelf::new(alloc)) {
        Ok(()) => {}
        Err(_) => return,
    }
    move_half(shelves, at);
}

/// Moves the later half of a shelf to the empty one behind it, where there is memory for it.
fn move_half(shelves: &mut Vec<Shelf>, at: usize)
    requires within { at + 1 < length shelves.old.items }
    requires empty { slice_get shelves.old.items (at + 1) ≡ Some [] }
    ensures { all_of shelves.new.items ≡ all_of shelves.old.items }
{
    match shelves[at].split() {
        Ok(behind) => shelves[at + 1] = behind,
        Err(_) => {}
    }
}
