//! Entries read in brief.

ghost use Rattle.std.specs.Prelude.{◌≡◌, ◌++◌, ◌∷◌, [], ℕ, List, length, true, IfSome, IfErr};
ghost use Rattle.std.specs.List.{flat_map, AllByRecursion};
ghost use Rattle.sr_base.specs.declared.value.Value.{Value as Cell};
ghost use Rattle.sr_base.specs.Fields.{name_spelling, IsName, list_spelling};
ghost use Rattle.sr_base.specs.Inner.Reading.{IsBad};
ghost use Rattle.sr_base.specs.Values.{IsValue};
ghost use Rattle.sr_logform.specs.declared.entry.Entry.{Entry as Body};
ghost use Rattle.sr_logform.specs.declared.op.Op.{Op as AnOp};
ghost use Rattle.sr_logform.specs.declared.outcome.Outcome.{Outcome as AnOutcome};
ghost use Rattle.sr_logform.specs.Entries.{entry_spelling, judged_spelling, IsEntry};
ghost use Rattle.sr_logform.specs.Inner.Entries.{body_at};
ghost use Rattle.sr_logform.specs.Ops.{op_spelling, column_spelling, IsOp, AreValues};
ghost use Rattle.sr_survey_brief.specs.Inner.Briefs.{IsBrief, IsReadBrief, IsBriefOp, IsBriefOf, AreBrief, AreTakenBrief, is_passed, IsJudged};

use crate::parts::part;
use crate::passing::{past_columns, past_name};
use sr_base::{Bad, Copied, Name, Offset, Seq};
use sr_logform::{Entry, Op, Outcome, read_entry};
use std::alloc::Global;

/// So many ops are made room for before they are read: a count that lies takes no more.
const FIRST_ROOM: usize = 16;

/// The byte that a transaction begins with that was taken.
const TAKEN: u8 = 2;

/// The byte that an op begins with that inserts.
const INSERTS: u8 = 1;

/// The entry that these bytes spell, all of the bytes, in brief: of a transaction that was taken it passes over the ops that inserted rows, in the place of
/// each of which stands another one that ran no statement; their outcomes are those of the entry. It breaks as `read_entry` does.
pub fn read_brief(alloc: Global, bytes: &[u8]) -> Result<Entry, Bad>
    ensures brief { (entry : Body) → IsEntry entry → bytes.now ≡ entry_spelling entry → IsReadBrief result entry }
    ensures place { IfErr result (IsBad (body_at bytes.now) (length bytes.now)) }
{
    match taken_in_brief(alloc, bytes) {
        Some(entry) => Ok(entry),
        None => read_whole(alloc, bytes),
    }
}

/// The entry that these bytes spell, as it is.
fn read_whole(alloc: Global, bytes: &[u8]) -> Result<Entry, Bad>
    ensures brief { (entry : Body) → IsEntry entry → bytes.now ≡ entry_spelling entry → IsReadBrief result entry }
    ensures place { IfErr result (IsBad (body_at bytes.now) (length bytes.now)) }
{
    read_entry(alloc, bytes)
}

/// A transaction that was taken, in brief; nothing where the bytes spell another entry or none, or memory lacks.
fn taken_in_brief(alloc: Global, bytes: &[u8]) -> Option<Entry>
    ensures brief { IfSome result (λ brief. (entry : Body) → IsEntry entry → bytes.now ≡ entry_spelling entry → IsBrief entry brief) }
{
    let (tag, behind) = bytes.split_first()?;
    if *tag != TAKEN {
        return None;
    }
    let (user, placed) = part::<Name>(alloc, behind)?;
    let (at, judged) = part::<Offset>(alloc, placed)?;
    let ops = ops_in_brief(alloc, &user, judged)?;
    Some(Entry::From { user, at, ops })
}

/// Ops with their outcomes, in brief.
fn ops_in_brief(alloc: Global, user: &Name, bytes: &[u8]) -> Option<Seq<(Op, Outcome)>>
    ensures brief { IfSome result (AreTakenBrief bytes.now) }
{
    let (count, rest) = part::<u32>(alloc, bytes)?;
    let items = so_many_in_brief(alloc, user, count, rest)?;
    Some(Seq::from_vec(items))
}

/// So many ops with their outcomes, in brief. It takes one pass over their bytes.
fn so_many_in_brief(
    alloc: Global,
    user: &Name,
    count: u32,
    bytes: &[u8],
) -> Option<Vec<(Op, Outcome)>>
    ensures brief { IfSome result (λ found. (ops : List (AnOp × AnOutcome)) (rest : List ℕ) → length ops ≡ count → AllByRecursion IsJudged ops → bytes.now ≡ flat_map judged_spelling ops ++ rest → AreBrief ops found.items) }
{
    let mut items = room_for(alloc, count)?;
    let mut rest = bytes;
    for _ in 0..count {
        let (judged, after) = judged_in_brief(alloc, user, rest)?;
        add(&mut items, judged)?;
        rest = after;
    }
    Some(items)
}

/// No ops yet, with room for so many of them.
fn room_for(alloc: Global, count: u32) -> Option<Vec<(Op, Outcome)>>
    ensures empty { IfSome result (λ items. items.items ≡ []) }
{
    match Vec::with_capacity(alloc, FIRST_ROOM.min(count as usize)) {
        Ok(items) => Some(items),
        Err(_) => None,
    }
}

/// Puts one behind others, if there is memory for it.
fn add(items: &mut Vec<(Op, Outcome)>, judged: (Op, Outcome)) -> Option<()>
    ensures added { IfSome result (λ done. items.new.items ≡ items.old.items ++ judged ∷ []) }
{
    match items.push(judged) {
        Ok(()) => Some(()),
        Err(_) => None,
    }
}

/// An op with its outcome, in brief, and what follows it.
fn judged_in_brief<'a>(
    alloc: Global,
    user: &Name,
    bytes: &'a [u8],
) -> Option<((Op, Outcome), &'a [u8])>
    ensures brief { IfSome result (λ x. (judged : AnOp × AnOutcome) (rest : List ℕ) → IsJudged judged → bytes.now ≡ judged_spelling judged ++ rest → IsBriefOf judged x.0 × (x.1.now ≡ rest)) }
{
    let (op, rest) = op_in_brief(alloc, user, bytes)?;
    let (outcome, rest) = part::<Outcome>(alloc, rest)?;
    Some(((op, outcome), rest))
}

/// An op in brief, and what follows it: one that inserts is passed over.
#[tactic(auto, using(crate::proofs::Briefs::op_read))]
fn op_in_brief<'a>(alloc: Global, user: &Name, bytes: &'a [u8]) -> Option<(Op, &'a [u8])>
    ensures brief { IfSome result (λ x. (op : AnOp) (rest : List ℕ) → IsOp op → bytes.now ≡ op_spelling op ++ rest → IsBriefOp op x.0 × (x.1.now ≡ rest)) }
{
    let (tag, rest) = bytes.split_first()?;
    if *tag == INSERTS {
        let (op, left) = passed(alloc, user, rest)?;
        return Some((op, left));
    }
    let (op, left) = part::<Op>(alloc, bytes)?;
    Some((op, left))
}

/// An op that stands for one that inserts, and what follows that.
fn passed<'a>(alloc: Global, user: &Name, bytes: &'a [u8]) -> Option<(Op, &'a [u8])>
    ensures passed { IfSome result (λ x. is_passed x.0 ≡ true) }
    ensures behind { IfSome result (λ x. (table : List ℕ) (values : List (List ℕ × Cell)) (rest : List ℕ) → IsName table → AreValues IsName IsValue values → bytes.now ≡ (name_spelling table ++ list_spelling column_spelling values) ++ rest → x.1.now ≡ rest) }
{
    let rest = past_name(bytes)?;
    let left = past_columns(alloc, rest)?;
    let Ok(table) = user.copy(alloc) else {
        return None;
    };
    Some((Op::Clear { table }, left))
}
