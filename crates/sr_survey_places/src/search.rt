//! The first place past an offset.

ghost use Rattle.std.specs.Prelude.{◌≡◌, ◌≤◌, ◌<◌, ℕ, List, length, min, IsTrue, IfSome, false};
ghost use Rattle.std.specs.List.{AllWithin, Contains};
ghost use Rattle.sr_survey_places.specs.Inner.Search.{InOrder, IsOwn, IsWithin, IsFirstOther, earlier};

use crate::place::Place;

/// How many of the places end at an offset or before it. It takes logarithmic time, and none where all of them do.
pub(crate) fn count_passed(places: &[Place], sent: u64) -> usize
    requires { InOrder places.now }
    ensures bound { result ≤ length places.now }
    ensures passed { AllWithin (λ p. p.end ≤ sent) places.now 0 result }
    ensures left { AllWithin (λ p. sent < p.end) places.now result (length places.now) }
{
    if are_passed(places, sent) {
        return places.len();
    }
    count_searched(places, sent)
}

/// The same by a search.
fn count_searched(places: &[Place], sent: u64) -> usize
    requires { InOrder places.now }
    ensures bound { result ≤ length places.now }
    ensures passed { AllWithin (λ p. p.end ≤ sent) places.now 0 result }
    ensures left { AllWithin (λ p. sent < p.end) places.now result (length places.now) }
{
    places.partition_point(|place| place.end <= sent)
}

/// Whether all of the places end at an offset or before it, as the last one tells.
fn are_passed(places: &[Place], sent: u64) -> bool
    requires { InOrder places.now }
    ensures passed { IsTrue result → AllWithin (λ p. p.end ≤ sent) places.now 0 (length places.now) }
{
    let count = places.len();
    if count == 0 {
        return true;
    }
    places[count - 1].end <= sent
}

/// How many of the places end before an offset. It takes logarithmic time.
fn count_before(places: &[Place], end: u64) -> usize
    requires { InOrder places.now }
    ensures bound { result ≤ length places.now }
    ensures passed { AllWithin (λ p. p.end < end) places.now 0 result }
    ensures left { AllWithin (λ p. end ≤ p.end) places.now result (length places.now) }
{
    places.partition_point(|place| place.end < end)
}

/// Whether a place is among others, by its end. It takes logarithmic time.
pub(crate) fn is_own(own: &[Place], place: Place) -> bool
    requires { InOrder own.now }
    ensures own { IsTrue result → IsOwn own.now place }
    ensures other { result ≡ false → ¬ (IsOwn own.now place) }
{
    let at = count_before(own, place.end);
    at < own.len() && own[at].end == place.end
}

/// The same, which takes no search where the other one with this number is the place.
fn is_own_near(own: &[Place], near: usize, place: Place) -> bool
    requires { InOrder own.now }
    ensures own { IsTrue result → IsOwn own.now place }
    ensures other { result ≡ false → ¬ (IsOwn own.now place) }
{
    if near < own.len() && own[near].end == place.end {
        return true;
    }
    is_own(own, place)
}

/// The first of the places that ends past an offset, within a limit where there is one, and is none of others. It takes logarithmic time, and as much again
/// for each place that it leaves out, but none for those at the front that are the next of the others one by one.
pub(crate) fn first_other(
    places: &[Place],
    own: &[Place],
    passed: u64,
    limit: Option<u64>,
) -> Option<Place>
    requires order { InOrder places.now }
    requires own { InOrder own.now }
    ensures first { IsFirstOther (Contains places.now) own.now passed limit result }
{
    let mut at = count_passed(places, passed);
    let mut near = count_passed(own, passed);
    'places: while at < places.len() {
        let place = places[at];
        if !lies_within(limit, place.end) {
            return None;
        }
        if !is_own_near(own, near, place) {
            return Some(place);
        }
        at += 1;
        near = near.saturating_add(1);
    }
    None
}

/// Whether an offset lies within a limit, where there is one.
fn lies_within(limit: Option<u64>, at: u64) -> bool
    ensures within { IsTrue result → IsWithin limit at }
    ensures behind { result ≡ false → ¬ (IsWithin limit at) }
{
    match limit {
        None => true,
        Some(limit) => at <= limit,
    }
}

/// Where the last of the next places ends, of those that end past an offset: so many and one, or as many as there are; nothing where there is none. It takes
/// logarithmic time.
pub(crate) fn end_of_some(places: &[Place], passed: u64, many: usize) -> Option<u64>
    requires { InOrder places.now }
    ensures further { IfSome result (λ end. passed < end) }
{
    let at = count_passed(places, passed);
    if places.len() <= at {
        return None;
    }
    let last = lesser(at.saturating_add(many), places.len() - 1);
    Some(places[last].end)
}

/// The lesser of two numbers.
fn lesser(number: usize, other: usize) -> usize
    ensures lesser { result ≡ min number other }
{
    if number <= other { number } else { other }
}

/// The one of two places that ends first, where there are two.
pub(crate) fn earlier(place: Option<Place>, other: Option<Place>) -> Option<Place>
    ensures earlier { result ≡ earlier place other }
{
    match (place, other) {
        (None, other) => other,
        (Some(place), None) => Some(place),
        (Some(place), Some(other)) => {
            if place.end <= other.end {
                Some(place)
            } else {
                Some(other)
            }
        }
    }
}
