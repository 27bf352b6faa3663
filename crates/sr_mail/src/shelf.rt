//! Some windows in their order.

ghost use Rattle.std.specs.Prelude.{◌≡◌, false, ◌++◌, ◌<◌, ◌≤◌, ◌↔◌, [], ◌∷◌, length, take, drop, IsTrue, IfOk, OnOk, OnErr, IfSome, IfNone, MatchOption};
ghost use Rattle.std.specs.List.{AllByRecursion};
ghost use Rattle.std.specs.Option.{option_copied};
ghost use Rattle.sr_mail.specs.Inboxes.{Gathered};
ghost use Rattle.sr_mail.specs.Seen.{ComesBefore, window_of};
ghost use Rattle.sr_mail.specs.Inner.Shelves.{IsReady, EndsPast, AllBefore, BeginsBehind, StandsFirst, AreInOrder, EndBy, added, without, first_dropped, IsFirstPast};

use crate::held::Held;
use crate::piece::Piece;
use crate::window::{Window, is_before, same_window};
use sr_base::NoMemory;
use std::alloc::Global;
use std::marker::Model;

/// Windows in their order. No ready one of them ends past `farthest`.
#[derive(Drop)]
pub(crate) struct Shelf {
    windows: Vec<Held>,
    farthest: u64,
}

impl Model for Shelf {
    ghost use Rattle.std.specs.Prelude.{List};
    ghost use Rattle.sr_mail.specs.Inboxes.{Gathered};
    ghost use Rattle.sr_mail.specs.Inner.Shelves.{AreInOrder, EndBy};

    ghost Value = { List Gathered };

    ghost view = { λ s. s.windows.items };

    ghost invariant = { λ s. AreInOrder s.windows.items × EndBy s.farthest s.windows.items };
}

impl Shelf {
    /// A shelf with nothing on it. It takes no memory.
    pub(crate) fn new(alloc: Global) -> Shelf
        ensures { result ≡ [] }
    {
        Shelf {
            windows: Vec::new(alloc),
            farthest: 0,
        }
    }

    /// How many windows stand on it.
    pub(crate) fn len(&self) -> usize
        ensures { result ≡ length self.now }
    {
        self.windows.len()
    }

    /// Whether all of its windows come before this one. Where they do not, what comes behind them all comes behind it.
    pub(crate) fn ends_before(&self, window: Window) -> bool
        ensures all { IsTrue result → AllBefore self.now window }
        ensures not_all { (result ≡ false) → (other : Window) → AllBefore self.now other → ComesBefore window other }
    {
        match self.windows.as_slice().last() {
            Some(held) => is_before(held.window(), window),
            None => true,
        }
    }

    /// Whether this window stands at a place.
    fn has_at(&self, place: usize, window: Window) -> bool
        ensures { IsTrue result ↔ StandsFirst (drop place self.now) window }
    {
        match self.windows.as_slice().get(place) {
            Some(held) => same_window(held.window(), window),
            None => false,
        }
    }

    /// One piece more.
    pub(crate) fn add(&mut self, alloc: Global, piece: Piece) -> Result<(), NoMemory>
        ensures ok { OnOk result (self.new ≡ added piece self.old) }
        ensures err { OnErr result (self.new ≡ self.old) }
    {
        let window = piece.window();
        let place = place_of(self.windows.as_slice(), window);
        if self.has_at(place, window) {
            self.add_at(place, piece)
        } else {
            self.insert_at(alloc, place, piece)
        }
    }

    /// One piece more of the window at a place.
    fn add_at(&mut self, place: usize, piece: Piece) -> Result<(), NoMemory>
        requires there { StandsFirst (drop place self.old) (window_of piece) }
        ensures ok { OnOk result (self.new ≡ take place self.old ++ added piece (drop place self.old)) }
        ensures err { OnErr result (self.new ≡ self.old) }
    {
        self.windows[place].add(piece)?;
        self.farthest = farther(self.farthest, &self.windows[place]);
        Ok(())
    }

    /// The first piece of a window that comes to stand at a place.
    fn insert_at(&mut self, alloc: Global, place: usize, piece: Piece) -> Result<(), NoMemory>
        requires within { place ≤ length self.old }
        requires before { AllBefore (take place self.old) (window_of piece) }
        requires behind { BeginsBehind (drop place self.old) (window_of piece) }
        requires new { ¬ (StandsFirst (drop place self.old) (window_of piece)) }
        ensures ok { OnOk result (self.new ≡ take place self.old ++ added piece (drop place self.old)) }
        ensures err { OnErr result (self.new ≡ self.old) }
    {
        let held = Held::begin(alloc, piece)?;
        let farthest = farther(self.farthest, &held);
        self.windows.insert(place, held)?;
        self.farthest = farthest;
        Ok(())
    }

    /// Moves its later half to a new shelf.
    pub(crate) fn split(&mut self) -> Result<Shelf, NoMemory>
        ensures ok { IfOk result (λ behind. self.old ≡ self.new ++ behind) }
        ensures err { OnErr result (self.new ≡ self.old) }
    {
        let windows = self.windows.split_off(self.windows.len() / 2)?;
        self.farthest = farthest_of(self.windows.as_slice());
        let farthest = farthest_of(windows.as_slice());
        Ok(Shelf { windows, farthest })
    }

    /// Drops a window, where it stands here. It takes a time linear in the shelf.
    pub(crate) fn drop_window(&mut self, window: Window)
        ensures { self.new ≡ without window self.old }
    {
        let place = place_of(self.windows.as_slice(), window);
        if self.has_at(place, window) {
            self.drop_at(place);
        }
    }

    /// Drops the window at a place.
    fn drop_at(&mut self, place: usize)
        requires { place < length self.old }
        ensures { self.new ≡ take place self.old ++ first_dropped (drop place self.old) }
    {
        self.windows[place].set_dropped();
        self.farthest = farthest_of(self.windows.as_slice());
    }

    /// The first of the ready windows that end past an offset. It takes a time linear in the shelf, and hardly any where no ready one does.
    pub(crate) fn first_past(&self, offset: u64) -> Option<&Held>
        ensures first { IfSome result (λ held. IsFirstPast offset self.now held.now) }
        ensures none { IfNone result (AllByRecursion (λ g. ¬ (EndsPast offset g)) self.now) }
    {
        if self.farthest <= offset {
            return None;
        }
        first_past(self.windows.as_slice(), offset)
    }
}

/// How many of the windows come before this one. It takes a time linear in their number.
fn place_of(windows: &[Held], window: Window) -> usize
    ensures within { result ≤ length windows.now }
    ensures before { AllBefore (take result windows.now) window }
    ensures behind { BeginsBehind (drop result windows.now) window }
{
    let mut place = 0;
    let mut left = windows;
    'windows: while let Some((held, behind)) = left.split_first() {
        if !is_before(held.window(), window) {
            break;
        }
        place += 1;
        left = behind;
    }
    place
}

/// The first of the ready windows that end past an offset.
fn first_past(windows: &[Held], offset: u64) -> Option<&Held>
    ensures first { IfSome result (λ held. IsFirstPast offset windows.now held.now) }
    ensures none { IfNone result (AllByRecursion (λ g. ¬ (EndsPast offset g)) windows.now) }
{
    let mut left = windows;
    'windows: while let Some((held, behind)) = left.split_first() {
        if ends_past(held, offset) {
            return Some(held);
        }
        left = behind;
    }
    None
}

/// Whether the window is ready, and ends past an offset.
fn ends_past(held: &Held, offset: u64) -> bool
    ensures { IsTrue result ↔ EndsPast offset held.now }
{
    if held.window().upto <= offset {
        return false;
    }
    held.is_ready()
}

/// The end of the ready window that ends last, or 0.
fn farthest_of(windows: &[Held]) -> u64
    ensures { EndBy result windows.now }
{
    let mut farthest = 0;
    for held in windows {
        farthest = farther(farthest, held);
    }
    farthest
}

/// The later of an end and that of a window, where this one is ready.
fn farther(farthest: u64, held: &Held) -> u64
    ensures before { farthest ≤ result }
    ensures ready { IsReady held.now → held.now.window.upto ≤ result }
{
    let upto = held.window().upto;
    if farthest < upto && held.is_ready() {
        return upto;
    }
    farthest
}
