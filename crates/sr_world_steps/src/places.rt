//! Where a database stands among others, by its name, and its log with an entry more.

ghost use Rattle.std.specs.Prelude.{◌≡◌, ◌<◌, length, IfSome, OnOk, OnErr, None};
ghost use Rattle.sr_world_steps.specs.Inner.Places.{NoneIs, StandsAt, with_entry};

use sr_base::{Name, NoMemory, Offset, Seq};
use sr_logform::Entry;
use sr_world_entries::is_same;
use std::alloc::AllocError;

/// A database by its name, with the entries of its log and the offsets at which they end.
pub(crate) type History = (Name, Seq<(Offset, Entry)>);

/// The place of the first database of this name, with its log. It goes through the names.
#[tactic(auto, using(crate::proofs::Found::passed_none, crate::proofs::Found::passed_more, crate::proofs::Found::passed_here, crate::proofs::Found::passed_all))]
pub(crate) fn found<'a>(
    histories: &'a [History],
    name: &Name,
) -> Option<(usize, &'a [(Offset, Entry)])>
    ensures there { IfSome result (λ f. StandsAt name.now histories.now f.0 f.1.now) }
    ensures none { result ≡ None → NoneIs name.now histories.now }
{
    let mut place = 0;
    let mut left = histories;
    'histories: while let Some((history, rest)) = left.split_first() {
        if is_same(&history.0, name) {
            return Some((place, history.1.as_slice()));
        }
        place += 1;
        left = rest;
    }
    None
}

/// Adds an entry to the log at a place. For want of memory all stays as it was.
pub(crate) fn push_entry(
    histories: &mut Vec<History>,
    place: usize,
    item: (Offset, Entry),
) -> Result<(), NoMemory>
    requires within { place < length histories.old.items }
    ensures ok { OnOk result (histories.new.items ≡ with_entry place item histories.old.items) }
    ensures err { OnErr result (histories.new.items ≡ histories.old.items) }
{
    match histories[place].1.push(item) {
        Ok(()) => Ok(()),
        Err(returned) => {
            drop(returned);
            Err(AllocError)
        }
    }
}
