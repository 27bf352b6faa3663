//! Fields that are passed over, and not read.

ghost use Rattle.std.specs.Prelude.{◌≡◌, ◌++◌, ◌∷◌, ℕ, List, length, IfSome};
ghost use Rattle.std.specs.List.{flat_map, AllByRecursion};
ghost use Rattle.sr_base.specs.declared.value.Value.{Value as Cell};
ghost use Rattle.sr_base.specs.Fields.{name_spelling, IsName, bytes_spelling, IsText, list_spelling, IsListOf};
ghost use Rattle.sr_base.specs.Values.{value_spelling, IsValue};
ghost use Rattle.sr_logform.specs.Ops.{column_spelling};
ghost use Rattle.sr_survey_brief.specs.Inner.Passing.{IsPast, IsColumn};

use crate::parts::{behind, part};
use std::alloc::Global;

/// What follows a name.
#[tactic(auto, using(crate::proofs::Past::name_past))]
pub(crate) fn past_name(bytes: &[u8]) -> Option<&[u8]>
    ensures past { IfSome result (λ left. IsPast IsName name_spelling bytes.now left.now) }
{
    let (size, rest) = bytes.split_first()?;
    let left = behind(rest, *size as usize)?;
    Some(left)
}

/// What follows a text.
fn past_text(alloc: Global, bytes: &[u8]) -> Option<&[u8]>
    ensures past { IfSome result (λ left. IsPast IsText bytes_spelling bytes.now left.now) }
{
    let (size, rest) = part::<u32>(alloc, bytes)?;
    let left = behind(rest, size as usize)?;
    Some(left)
}

/// What follows a value.
fn past_value(alloc: Global, bytes: &[u8]) -> Option<&[u8]>
    ensures past { IfSome result (λ left. IsPast IsValue value_spelling bytes.now left.now) }
{
    let (tag, rest) = bytes.split_first()?;
    let left = past_tagged(alloc, *tag, rest)?;
    Some(left)
}

/// What follows a value, behind its tag.
fn past_tagged(alloc: Global, tag: u8, rest: &[u8]) -> Option<&[u8]>
    ensures past { IfSome result (λ left. IsPast IsValue value_spelling (tag ∷ rest.now) left.now) }
{
    match tag {
        0 => Some(rest),
        1 => {
            let left = behind(rest, 4)?;
            Some(left)
        }
        2 => {
            let left = behind(rest, 8)?;
            Some(left)
        }
        3 => {
            let left = past_text(alloc, rest)?;
            Some(left)
        }
        4 => {
            let left = behind(rest, 4)?;
            Some(left)
        }
        _ => None,
    }
}

/// What follows the name of a column and its value.
fn past_column(alloc: Global, bytes: &[u8]) -> Option<&[u8]>
    ensures past { IfSome result (λ left. IsPast IsColumn column_spelling bytes.now left.now) }
{
    let rest = past_name(bytes)?;
    let left = past_value(alloc, rest)?;
    Some(left)
}

/// What follows columns, each with its value. It takes one pass over them.
pub(crate) fn past_columns(alloc: Global, bytes: &[u8]) -> Option<&[u8]>
    ensures past { IfSome result (λ left. IsPast (IsListOf IsColumn) (list_spelling column_spelling) bytes.now left.now) }
{
    let (count, rest) = part::<u32>(alloc, bytes)?;
    let left = past_many(alloc, count, rest)?;
    Some(left)
}

/// What follows so many columns.
fn past_many(alloc: Global, count: u32, bytes: &[u8]) -> Option<&[u8]>
    ensures past { IfSome result (λ left. (xs : List (List ℕ × Cell)) (rest : List ℕ) → length xs ≡ count → AllByRecursion IsColumn xs → bytes.now ≡ flat_map column_spelling xs ++ rest → left.now ≡ rest) }
{
    let mut rest = bytes;
    for _ in 0..count {
        let after = past_column(alloc, rest)?;
        rest = after;
    }
    Some(rest)
}
