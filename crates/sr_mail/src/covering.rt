//! Few pieces that cover a body.

ghost use Rattle.std.specs.Prelude.{◌≡◌, ◌++◌, ◌<◌, ◌≤◌, [], ◌∷◌, ℕ, List, map, IfOk, IfSome, IfNone, MatchOption};
ghost use Rattle.std.specs.List.{AllByRecursion, Contains, list_any};
ghost use Rattle.sr_mail.specs.Seen.{Cover, covers};
ghost use Rattle.sr_mail.specs.Inner.Spans.{spans_from, has_place, SpansCover, AreSorted, BeginsLater, IsSoFar, SpanOf};

use crate::piece::Piece;
use sr_base::{Copied, NoMemory};
use std::alloc::Global;

/// Where a piece begins, where it ends, and its number.
type Span = (u32, u64, usize);

/// Few of the pieces that cover a body of `total` bytes as they all do: no three of those that are chosen have one byte.
/// It takes the time of sorting them.
pub(crate) fn choose(alloc: Global, pieces: &[Piece], total: u32) -> Result<Vec<Piece>, NoMemory>
    requires some { ¬ (pieces.now ≡ []) }
    requires covered { Cover pieces.now total }
    ensures own { IfOk result (λ chosen. AllByRecursion (Contains pieces.now) chosen.items) }
    ensures some { IfOk result (λ chosen. ¬ (chosen.items ≡ [])) }
    ensures covered { IfOk result (λ chosen. Cover chosen.items total) }
{
    if total == 0 {
        return first_of(alloc, pieces);
    }
    let spans = sorted_spans(alloc, pieces)?;
    let chosen = covering(alloc, spans.as_slice(), total as u64)?;
    copies(alloc, pieces, chosen.as_slice())
}

/// The first piece alone.
fn first_of(alloc: Global, pieces: &[Piece]) -> Result<Vec<Piece>, NoMemory>
    requires { ¬ (pieces.now ≡ []) }
    ensures own { IfOk result (λ chosen. AllByRecursion (Contains pieces.now) chosen.items) }
    ensures some { IfOk result (λ chosen. ¬ (chosen.items ≡ [])) }
{
    let mut chosen = Vec::new(alloc);
    if let Some(piece) = pieces.first() {
        chosen.push(piece.copy(alloc)?)?;
    }
    Ok(chosen)
}

/// The spans of the pieces, in the order in which they begin.
fn sorted_spans(alloc: Global, pieces: &[Piece]) -> Result<Vec<Span>, NoMemory>
    ensures sorted { IfOk result (λ spans. AreSorted spans.items) }
    ensures own { IfOk result (λ spans. AllByRecursion (SpanOf pieces.now) spans.items) }
    ensures covered { IfOk result (λ spans. (place : ℕ) → list_any (has_place place) spans.items ≡ list_any (covers place) pieces.now) }
{
    let mut spans = spans_of(alloc, pieces)?;
    spans.sort()?;
    Ok(spans)
}

/// The spans of the pieces.
fn spans_of(alloc: Global, pieces: &[Piece]) -> Result<Vec<Span>, NoMemory>
    ensures { IfOk result (λ spans. spans.items ≡ spans_from 0 pieces.now) }
{
    let mut spans = Vec::new(alloc);
    for number in 0..pieces.len() {
        let piece = &pieces[number];
        let end = piece.start as u64 + piece.length as u64;
        spans.push((piece.start, end, number))?;
    }
    Ok(spans)
}

/// The pieces of the spans.
fn copies(alloc: Global, pieces: &[Piece], spans: &[Span]) -> Result<Vec<Piece>, NoMemory>
    requires { AllByRecursion (SpanOf pieces.now) spans.now }
    ensures own { IfOk result (λ chosen. AllByRecursion (Contains pieces.now) chosen.items) }
    ensures covered { IfOk result (λ chosen. (place : ℕ) → list_any (covers place) chosen.items ≡ list_any (has_place place) spans.now) }
{
    let mut chosen = Vec::new(alloc);
    let mut left = spans;
    'spans: while let Some((span, behind)) = left.split_first() {
        chosen.push(pieces[span.2].copy(alloc)?)?;
        left = behind;
    }
    Ok(chosen)
}

/// Few of the spans that cover as much as all of them. Each span is looked at once.
fn covering(alloc: Global, spans: &[Span], total: u64) -> Result<Vec<Span>, NoMemory>
    requires sorted { AreSorted spans.now }
    requires covered { SpansCover spans.now total }
    ensures own { IfOk result (λ chosen. AllByRecursion (Contains spans.now) chosen.items) }
    ensures covered { IfOk result (λ chosen. SpansCover chosen.items total) }
{
    let mut chosen = Vec::new(alloc);
    let mut left = spans;
    let mut reached = 0;
    'spans: while reached < total {
        match farthest_of(left, reached) {
            Some((farthest, behind)) => {
                chosen.push(farthest)?;
                left = behind;
                reached = farthest.1;
            }
            None => return Ok(chosen),
        }
    }
    Ok(chosen)
}

/// Of the spans at the front that begin at `reached` or before it the one that ends last, and the spans behind them. `None` where there is none.
fn farthest_of(spans: &[Span], reached: u64) -> Option<(Span, &[Span])>
    ensures found { IfSome result (λ found. IsSoFar spans.now reached found.0 found.1.now) }
    ensures later { IfSome result (λ found. BeginsLater reached found.1.now) }
    ensures none { IfNone result (BeginsLater reached spans.now) }
{
    match spans.split_first() {
        Some((first, rest)) => {
            if reached < first.0 as u64 {
                return None;
            }
            Some(farthest_from(*first, rest, reached))
        }
        None => None,
    }
}

/// The same, of a first span that begins there and those behind it.
fn farthest_from(first: Span, rest: &[Span], reached: u64) -> (Span, &[Span])
    requires { first.0 ≤ reached }
    ensures found { IsSoFar (first ∷ rest.now) reached result.0 result.1.now }
    ensures later { BeginsLater reached result.1.now }
{
    let mut farthest = first;
    let mut left = rest;
    'spans: while let Some((span, behind)) = left.split_first() {
        if reached < span.0 as u64 {
            break;
        }
        if farthest.1 < span.1 {
            farthest = *span;
        }
        left = behind;
    }
    (farthest, left)
}
