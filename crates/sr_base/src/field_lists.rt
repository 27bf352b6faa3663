//! Lists as fields: a u32 count, then the items.

ghost use Rattle.std.specs.Prelude.{◌≡◌, ◌++◌, ◌<◌, ◌^◌, length, OnOk, OnErr};
ghost use Rattle.sr_base.specs.Fields.{list_spelling, IsListOf};
ghost use Rattle.sr_base.specs.Reading.{list_at, items_at};
ghost use Rattle.sr_base.specs.Inner.ListLaws.{list_format};
ghost use Rattle.sr_base.specs.Inner.Reading.{Gives};

use crate::broken::Broken;
use crate::copied::NoMemory;
use crate::field::Field;
use crate::seq::Seq;
use std::alloc::Global;

/// So many items are made room for before they are read: a count that lies takes no more.
const FIRST_ROOM: usize = 16;

/// So many items.
pub(crate) fn items_of<T: Field>(
    alloc: Global,
    count: u32,
    bytes: &[u8],
) -> Result<(Vec<T>, &[u8]), Broken>
    ensures { Gives (λ x. (x.0.items, x.1.now)) result (items_at T.reading count bytes.now) }
{
    let mut items = Vec::with_capacity(alloc, FIRST_ROOM.min(count as usize))?;
    let mut rest = bytes;
    for _ in 0..count {
        let (item, after) = T::read(alloc, rest)?;
        items.push(item)?;
        rest = after;
    }
    Ok((items, rest))
}

impl<T: Field> Field for Seq<T> {
    ghost can_write = { IsListOf T.can_write };

    ghost fits = { IsListOf T.fits };

    ghost spelling = { list_spelling T.spelling };

    ghost reading = { list_at T.reading };

    ghost format = { list_format T.format };

    #[tactic(auto, unfolding(crate::specs::Reading::list_at))]
    fn read(alloc: Global, bytes: &[u8]) -> Result<(Seq<T>, &[u8]), Broken> {
        let (count, rest) = u32::read(alloc, bytes)?;
        let (items, rest) = items_of::<T>(alloc, count, rest)?;
        Ok((Seq::from_vec(items), rest))
    }

    fn write(&self, out: &mut Vec<u8>) -> Result<(), NoMemory> {
        write_items(self.as_slice(), out)
    }
}

/// Adds the spelling of a list of these items at the end. For want of memory `out` stays as it was.
pub(crate) fn write_items<T: Field>(items: &[T], out: &mut Vec<u8>) -> Result<(), NoMemory>
    requires { IsListOf T.can_write items.now }
    ensures ok { OnOk result (out.new.items ≡ out.old.items ++ list_spelling T.spelling items.now) }
    ensures err { OnErr result (out.new.items ≡ out.old.items) }
    ensures kept { OnOk result (IsListOf T.fits items.now) }
{
    let before = out.len();
    (items.len() as u32).write(out)?;
    for item in items {
        if let Err(refused) = item.write(out) {
            out.truncate(before);
            return Err(refused);
        }
    }
    Ok(())
}
