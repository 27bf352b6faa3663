//! A list of changes as a field. Changes of one table that follow one another, as most transactions have them, share its name.

ghost use Rattle.std.specs.Prelude.{◌≡◌, Ok, List, ℕ, IfSome};
ghost use Rattle.sr_base.specs.Fields.{name_at};
ghost use Rattle.sr_base.specs.Reading.{items_at};
ghost use Rattle.sr_base.specs.Inner.Reading.{Gives};
ghost use Rattle.sr_logform.specs.Inner.Outcomes.{change_at};
ghost use Rattle.sr_logform.specs.Inner.Rules.{filled_at};

use crate::change::Change;
use crate::field_change::Images;
use sr_base::{Broken, Copied, Field, Name, Seq};
use std::alloc::Global;

/// So many changes are made room for before they are read: a count that lies takes no more.
const FIRST_ROOM: usize = 16;

/// A list of changes that is not empty.
#[tactic(auto, unfolding(sr_base::specs::Reading::list_at, crate::specs::Inner::Rules::filled_at, crate::specs::Inner::Rules::checked_at))]
pub(crate) fn filled_changes(alloc: Global, bytes: &[u8]) -> Result<(Seq<Change>, &[u8]), Broken>
    ensures { Gives (λ x. (x.0, x.1.now)) result (filled_at change_at bytes.now) }
{
    let (count, behind) = u32::read(alloc, bytes)?;
    let (changes, rest) = changes_of(alloc, count, behind)?;
    if changes.is_empty() {
        return Err(Broken::Left(bytes.len()));
    }
    Ok((Seq::from_vec(changes), rest))
}

/// So many changes.
fn changes_of(alloc: Global, count: u32, bytes: &[u8]) -> Result<(Vec<Change>, &[u8]), Broken>
    ensures { Gives (λ x. (x.0.items, x.1.now)) result (items_at change_at count bytes.now) }
{
    let mut changes = Vec::with_capacity(alloc, FIRST_ROOM.min(count as usize))?;
    let mut rest = bytes;
    for _ in 0..count {
        let (change, after) = next_change(alloc, changes.as_slice(), rest)?;
        changes.push(change)?;
        rest = after;
    }
    Ok((changes, rest))
}

/// The change behind others. Where its table is spelled as that of the last one, the name is shared and not read again.
fn next_change<'a>(
    alloc: Global,
    changes: &[Change],
    bytes: &'a [u8],
) -> Result<(Change, &'a [u8]), Broken>
    ensures { Gives (λ x. (x.0, x.1.now)) result (change_at bytes.now) }
{
    let Some(last) = changes.last() else {
        return Change::read(alloc, bytes);
    };
    match behind_name(bytes, &last.table) {
        Some(behind) => change_of_table(alloc, &last.table, behind),
        None => Change::read(alloc, bytes),
    }
}

/// What stands behind the spelling of this name, where the bytes begin with it.
fn behind_name<'a>(bytes: &'a [u8], name: &Name) -> Option<&'a [u8]>
    ensures behind { IfSome result (λ behind. name_at bytes.now ≡ Ok (name.now, behind.now)) }
{
    let (size, rest) = bytes.split_first()?;
    let letters = name.bytes();
    let length = letters.len();
    if *size as usize != length || rest.len() < length {
        return None;
    }
    let (prefix, behind) = rest.split_at(length);
    if prefix != letters {
        return None;
    }
    Some(behind)
}

/// The change of this table whose rows stand at the front.
#[tactic(auto, unfolding(crate::specs::Inner::Outcomes::change_at, sr_base::specs::Inner::Fields::pair_at, sr_base::specs::Reading::mapped_at))]
fn change_of_table<'a>(
    alloc: Global,
    table: &Name,
    behind: &'a [u8],
) -> Result<(Change, &'a [u8]), Broken>
    ensures { (bytes : List ℕ) → name_at bytes ≡ Ok (table.now, behind.now) → Gives (λ x. (x.0, x.1.now)) result (change_at bytes) }
{
    let table = table.copy(alloc)?;
    let (images, rest) = Images::read(alloc, behind)?;
    let (before, after) = images.into_rows();
    let change = Change {
        table,
        before,
        after,
    };
    Ok((change, rest))
}
