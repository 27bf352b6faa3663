//! Values at places.

ghost use Rattle.std.specs.Prelude.{◌≡◌, ◌<◌, List, length, slice_get};
ghost use Rattle.std.specs.Option.{option_copied};
ghost use Rattle.sr_base.specs.declared.value.Value.{Value as Cell};
ghost use Rattle.sr_eval.specs.Inner.Bounds.{values_of};

use crate::bound::Bound;
use sr_base::Value;

/// The values that a resolved expression is evaluated over, at places from 0 on, wherever they lie.
pub trait Values {
    ghost values: { Self → List Cell };

    /// The value at a place, if there is one.
    fn value_at(&self, place: usize) -> Option<&Value>
        ensures value { option_copied result ≡ slice_get (values self.now) place };
}

/// A row.
impl Values for &[Value] {
    ghost values = { λ row. row.now };

    #[inline(always)]
    fn value_at(&self, place: usize) -> Option<&Value> {
        self.get(place)
    }
}

/// A combination of rows, one source after the other. A look-up passes over the sources before.
impl<'a> Values for &[Bound<'a>] {
    ghost values = { λ sources. values_of sources.now };

    #[inline(always)]
    fn value_at(&self, place: usize) -> Option<&Value> {
        value_at_place(self, place)
    }
}

/// The value at a place among the values of several sources, one source after the other. It passes over the sources before.
#[tactic(auto, using(crate::proofs::Places::place_rules))]
pub fn value_at_place<'a>(sources: &[Bound<'a>], place: usize) -> Option<&'a Value>
    ensures { option_copied result ≡ slice_get (values_of sources.now) place }
{
    let Some((source, after)) = sources.split_first() else {
        return None;
    };
    let count = source.values.len();
    if place < count {
        return source.values.get(place);
    }
    value_at_place(after, place - count)
}
