//! What came of one window.

ghost use Rattle.std.specs.Prelude.{◌≡◌, ◌++◌, ◌↔◌, false, true, [], ◌∷◌, IsTrue, IfOk, OnOk, OnErr};
ghost use Rattle.std.specs.List.{AllByRecursion, Contains};
ghost use Rattle.sr_mail.specs.Inboxes.{Gathered};
ghost use Rattle.sr_mail.specs.Seen.{window_of, Cover};
ghost use Rattle.sr_mail.specs.Inner.Shelves.{IsReady};

use crate::covering::choose;
use crate::piece::Piece;
use crate::reach::Reach;
use crate::window::Window;
use sr_base::NoMemory;
use std::alloc::Global;
use std::marker::Model;

/// The pieces of one window, at least one, in the order in which they were added.
#[derive(Drop)]
pub(crate) struct Held {
    window: Window,
    pieces: Vec<Piece>,
    reach: Reach,
    dropped: bool,
}

impl Model for Held {
    ghost use Rattle.sr_mail.specs.Inboxes.{Gathered};
    ghost use Rattle.sr_mail.specs.Inner.Tracking.{IsHeld};

    ghost Value = { Gathered };

    ghost view = { λ h. record { window = h.window; pieces = h.pieces.items; dropped = h.dropped } };

    ghost invariant = { λ h. IsHeld h.window h.pieces.items h.reach };
}

impl Held {
    /// The window of a first piece.
    pub(crate) fn begin(alloc: Global, piece: Piece) -> Result<Held, NoMemory>
        ensures { IfOk result (λ held. held ≡ record { window = window_of piece; pieces = piece ∷ []; dropped = false }) }
    {
        let window = piece.window();
        let mut reach = Reach::new(alloc);
        reach.add(piece.start, piece.length)?;
        let mut pieces = Vec::new(alloc);
        pieces.push(piece)?;
        Ok(Held {
            window,
            pieces,
            reach,
            dropped: false,
        })
    }

    pub(crate) fn window(&self) -> Window
        ensures { result ≡ self.now.window }
    {
        self.window
    }

    /// One piece more of the window.
    pub(crate) fn add(&mut self, piece: Piece) -> Result<(), NoMemory>
        requires { window_of piece ≡ self.old.window }
        ensures ok { OnOk result (self.new ≡ record { window = self.old.window; pieces = self.old.pieces ++ piece ∷ []; dropped = self.old.dropped }) }
        ensures err { OnErr result (self.new ≡ self.old) }
    {
        let start = piece.start;
        let length = piece.length;
        self.pieces.push(piece)?;
        if let Err(refused) = self.reach.add(start, length) {
            self.pieces.pop();
            return Err(refused);
        }
        Ok(())
    }

    /// Whether every byte has come, and the window was not dropped.
    pub(crate) fn is_ready(&self) -> bool
        ensures { IsTrue result ↔ IsReady self.now }
    {
        !self.dropped && self.window.total as u64 <= self.reach.reached
    }

    pub(crate) fn set_dropped(&mut self)
        ensures { self.new ≡ record { window = self.old.window; pieces = self.old.pieces; dropped = true } }
    {
        self.dropped = true;
    }

    /// Few pieces that have every byte.
    pub(crate) fn cover(&self, alloc: Global) -> Result<Vec<Piece>, NoMemory>
        requires { Cover self.now.pieces self.now.window.total }
        ensures own { IfOk result (λ chosen. AllByRecursion (λ piece. (window_of piece ≡ self.now.window) × Contains self.now.pieces piece) chosen.items) }
        ensures some { IfOk result (λ chosen. ¬ (chosen.items ≡ [])) }
        ensures covered { IfOk result (λ chosen. Cover chosen.items self.now.window.total) }
    {
        choose(alloc, self.pieces.as_slice(), self.window.total)
    }
}
