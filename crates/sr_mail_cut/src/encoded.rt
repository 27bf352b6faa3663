//! An encoding that is taken apart into fragments while it is written.

ghost use Rattle.std.specs.Prelude.{◌≡◌, ◌<◌, ◌≤◌, ◌++◌, ◌∷◌, [], false, length, IsTrue, IfOk, OnOk};
ghost use Rattle.std.specs.List.{concat, AllByRecursion};
ghost use Rattle.sr_mail_cut.specs.declared.head.Head.{Head as AHead};
ghost use Rattle.sr_mail_cut.specs.Cuts.{file_length, AreFragments};
ghost use Rattle.sr_mail_cut.specs.Inner.Encodings.{parted, IsParted};

use sr_base::{Field, NoMemory, Seq};
use std::alloc::{AllocError, Global};
use std::marker::Model;
use std::mem::replace;

/// The longest spelling of a part that is written at once, in bytes: a name's. What is left has room for it behind a whole fragment, so
/// that it need not grow.
const LONGEST_PART: usize = 65;

/// So many bytes are made room for at first: most transactions take no more, and then the room need not grow.
const FIRST_ROOM: usize = 256;

/// Bytes in parts: full fragments, and what is left behind them. Contracts see the bytes, and how many of them a fragment takes.
///
/// So an encoding never stands as a whole beside the messages that carry it: a fragment is moved to its message.
#[derive(Drop)]
pub(crate) struct Encoded {
    /// How many bytes a fragment takes.
    room: u32,
    /// The fragments that are full.
    full: Vec<Seq<u8>>,
    /// What is left behind them, at most as much as a fragment takes.
    left: Vec<u8>,
}

impl Model for Encoded {
    ghost use Rattle.sr_mail_cut.specs.Inner.Encodings.{Encoding, parted, IsParted};

    ghost Value = { Encoding };

    ghost view = { λ e. record { room = e.room; bytes = parted e.full.items e.left.items } };

    ghost invariant = { λ e. IsParted e.room e.full.items e.left.items };
}

impl Encoded {
    /// No bytes yet.
    pub(crate) fn new(alloc: Global, room: u32) -> Result<Encoded, NoMemory>
        requires { 0 < room }
        ensures { IfOk result (λ encoded. encoded ≡ record { room = room; bytes = [] }) }
    {
        Ok(Encoded {
            room,
            full: Vec::new(alloc),
            left: Vec::with_capacity(alloc, FIRST_ROOM)?,
        })
    }

    /// Adds the spelling of a part. What of it has no room in a fragment is copied once more.
    pub(crate) fn add<T: Field>(&mut self, alloc: Global, part: &T) -> Result<(), NoMemory>
        requires { T.can_write part.now }
        ensures room { OnOk result (self.new.room ≡ self.old.room) }
        ensures bytes { OnOk result (self.new.bytes ≡ self.old.bytes ++ T.spelling part.now) }
    {
        part.write(&mut self.left)?;
        if self.left.len() > self.room as usize {
            settle(alloc, self.room, &mut self.full, &mut self.left)?;
        }
        Ok(())
    }

    /// Adds bytes. They are copied once.
    pub(crate) fn add_bytes(&mut self, alloc: Global, bytes: &[u8]) -> Result<(), NoMemory>
        ensures room { OnOk result (self.new.room ≡ self.old.room) }
        ensures bytes { OnOk result (self.new.bytes ≡ self.old.bytes ++ bytes.now) }
    {
        pour(alloc, self.room, &mut self.full, &mut self.left, bytes)?;
        Ok(())
    }

    /// How many bytes there are.
    pub(crate) fn size(&self) -> Result<u64, NoMemory>
        ensures { IfOk result (λ size. size ≡ length self.now.bytes) }
    {
        let Some(full) = (self.full.len() as u64).checked_mul(self.room as u64) else {
            return Err(AllocError);
        };
        match full.checked_add(self.left.len() as u64) {
            Some(size) => Ok(size),
            None => Err(AllocError),
        }
    }

    /// Whether one fragment takes them.
    pub(crate) fn is_one(&self) -> bool
        ensures one { IsTrue result → length self.now.bytes ≤ self.now.room }
        ensures several { result ≡ false → self.now.room < length self.now.bytes }
    {
        self.full.is_empty()
    }

    /// The bytes, where one fragment takes them.
    pub(crate) fn into_bytes(self) -> Vec<u8>
        requires { length self.bytes ≤ self.room }
        ensures { result.items ≡ self.bytes }
    {
        self.left
    }

    /// The fragments: each but the last is full.
    pub(crate) fn into_fragments(self) -> Result<Vec<Seq<u8>>, NoMemory>
        requires { 0 < length self.bytes }
        ensures parts { IfOk result (λ fragments. (head : AHead) → AreFragments head (file_length head self.room) fragments.items) }
        ensures whole { IfOk result (λ fragments. concat fragments.items ≡ self.bytes) }
    {
        let Encoded { full, left, .. } = self;
        let mut fragments = full;
        fragments.push(Seq::from_vec(left))?;
        Ok(fragments)
    }
}

/// Takes what is left apart, where it is longer than a fragment. For want of memory what is too much is lost.
fn settle(
    alloc: Global,
    room: u32,
    full: &mut Vec<Seq<u8>>,
    left: &mut Vec<u8>,
) -> Result<(), NoMemory>
    requires wide { 0 < room }
    requires each { AllByRecursion (λ f. length f ≡ room) full.old.items }
    requires over { room < length left.old.items }
    ensures parted { IsParted room full.new.items left.new.items }
    ensures bytes { OnOk result (parted full.new.items left.new.items ≡ parted full.old.items left.old.items) }
{
    match left.split_off(room as usize) {
        Ok(over) => {
            let settled = pour(alloc, room, full, left, over.as_slice());
            drop(over);
            settled
        }
        Err(refused) => {
            left.truncate(room as usize);
            Err(refused)
        }
    }
}

/// Adds bytes: what is left takes as many as it has room for, and where more come it becomes a fragment.
fn pour(
    alloc: Global,
    room: u32,
    full: &mut Vec<Seq<u8>>,
    left: &mut Vec<u8>,
    bytes: &[u8],
) -> Result<(), NoMemory>
    requires { IsParted room full.old.items left.old.items }
    ensures parted { IsParted room full.new.items left.new.items }
    ensures bytes { OnOk result (parted full.new.items left.new.items ≡ parted full.old.items left.old.items ++ bytes.now) }
{
    let (prefix, behind) = prefix_of(bytes, room as usize - left.len());
    left.extend_from_slice(prefix)?;
    let mut rest = behind;
    'fragments: while !rest.is_empty() {
        let (prefix, behind) = prefix_of(rest, room as usize);
        begin(alloc, room, full, left, prefix)?;
        rest = behind;
    }
    Ok(())
}

/// As many bytes of the front as there is room for, and those behind them.
fn prefix_of(bytes: &[u8], room: usize) -> (&[u8], &[u8])
    ensures whole { bytes.now ≡ result.0.now ++ result.1.now }
    ensures short { length result.0.now ≤ room }
    ensures full { 0 < length result.1.now → length result.0.now ≡ room }
{
    if bytes.len() < room {
        bytes.split_at(bytes.len())
    } else {
        bytes.split_at(room)
    }
}

/// What is left is full, and becomes a fragment; these bytes are left now.
fn begin(
    alloc: Global,
    room: u32,
    full: &mut Vec<Seq<u8>>,
    left: &mut Vec<u8>,
    bytes: &[u8],
) -> Result<(), NoMemory>
    requires parted { IsParted room full.old.items left.old.items }
    requires full { length left.old.items ≡ room }
    requires some { 0 < length bytes.now }
    requires short { length bytes.now ≤ room }
    ensures parted { IsParted room full.new.items left.new.items }
    ensures full { OnOk result (full.new.items ≡ full.old.items ++ left.old.items ∷ []) }
    ensures left { OnOk result (left.new.items ≡ bytes.now) }
{
    let mut fresh = Vec::with_capacity(alloc, room as usize + LONGEST_PART)?;
    fresh.extend_from_slice(bytes)?;
    let fragment = replace(left, fresh);
    full.push(Seq::from_vec(fragment))?;
    Ok(())
}
