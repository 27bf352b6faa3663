//! How far a body has come from its front.

ghost use Rattle.std.specs.Prelude.{◌≡◌, ◌<◌, ◌++◌, List, [], ◌∷◌, length, false, IsTrue, OnOk, OnErr};
ghost use Rattle.sr_mail.specs.declared.piece.Piece.{Piece as APiece};
ghost use Rattle.sr_mail.specs.Inner.Tracking.{Follows, IsSettled, IsSame, NowWaits, BeginsWithin};

use sr_base::NoMemory;
use std::alloc::Global;
use std::collections::BTreeMap;

/// How many bytes have come from the front of a body without a gap, and the fragments behind them that came already.
#[derive(Drop)]
pub(crate) struct Reach {
    /// Every byte before this place has come.
    pub(crate) reached: u64,
    /// The fragments that begin behind it: where each ends, by where it begins. Of several that begin together it is the longest.
    pub(crate) waiting: BTreeMap<u32, u64>,
}

impl Reach {
    pub(crate) fn new(alloc: Global) -> Reach
        ensures follows { Follows result [] }
        ensures settled { IsSettled result }
    {
        Reach {
            reached: 0,
            waiting: BTreeMap::new(alloc),
        }
    }

    /// One fragment more. Each fragment waits once at most, so that a call takes logarithmic time in the mean.
    pub(crate) fn add(&mut self, start: u32, length: u32) -> Result<(), NoMemory>
        requires { IsSettled self.old }
        ensures follows { OnOk result ((pieces : List APiece) (piece : APiece) → piece.start ≡ start → piece.length ≡ length → Follows self.old pieces → Follows self.new (pieces ++ piece ∷ [])) }
        ensures settled { IsSettled self.new }
        ensures err { OnErr result ((pieces : List APiece) → Follows self.old pieces → Follows self.new pieces) }
    {
        let end = start as u64 + length as u64;
        if end <= self.reached {
            return Ok(());
        }
        if self.reached < start as u64 {
            return self.wait(start, end);
        }
        self.reached = end;
        self.settle();
        Ok(())
    }

    /// Keeps a fragment that begins behind what has come.
    fn wait(&mut self, start: u32, end: u64) -> Result<(), NoMemory>
        ensures ok { OnOk result (NowWaits self.old start end self.new) }
        ensures err { OnErr result (IsSame self.old self.new) }
    {
        if let Some(other) = self.waiting.get(&start) {
            if end <= *other {
                return Ok(());
            }
        }
        self.waiting.insert(start, end)?;
        Ok(())
    }

    /// Goes on over the fragments that begin in what has come.
    fn settle(&mut self)
        ensures follows { (pieces : List APiece) → Follows self.old pieces → Follows self.new pieces }
        ensures settled { IsSettled self.new }
    {
        'waiting: while self.begins_within() {
            self.take_first();
        }
    }

    /// Whether a fragment that waits begins in what has come.
    fn begins_within(&self) -> bool
        ensures within { IsTrue result → BeginsWithin self.now }
        ensures none { result ≡ false → IsSettled self.now }
    {
        match self.waiting.first_key_value() {
            Some((start, _)) => *start as u64 <= self.reached,
            None => false,
        }
    }

    /// Goes on over the first fragment that waits.
    fn take_first(&mut self)
        requires { BeginsWithin self.old }
        ensures follows { (pieces : List APiece) → Follows self.old pieces → Follows self.new pieces }
        ensures fewer { length self.new.waiting.entries < length self.old.waiting.entries }
    {
        if let Some((_, end)) = self.waiting.pop_first() {
            if self.reached < end {
                self.reached = end;
            }
        }
    }
}
