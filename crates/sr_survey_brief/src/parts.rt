//! Parts at the front of bytes.

ghost use Rattle.std.specs.Prelude.{◌≡◌, ◌++◌, ℕ, List, drop, IfSome};

use sr_base::Field;
use std::alloc::Global;

/// The value at the front of bytes, and what follows it; nothing where none stands there, or memory lacks.
pub(crate) fn part<T: Field>(alloc: Global, bytes: &[u8]) -> Option<(T, &[u8])>
    ensures part { IfSome result (λ x. (value : T) (rest : List ℕ) → T.fits value → bytes.now ≡ T.spelling value ++ rest → (x.0 ≡ value) × (x.1.now ≡ rest)) }
{
    match T::read(alloc, bytes) {
        Ok((value, rest)) => Some((value, rest)),
        Err(_) => None,
    }
}

/// What follows so many bytes, where there are as many.
pub(crate) fn behind(bytes: &[u8], count: usize) -> Option<&[u8]>
    ensures behind { IfSome result (λ left. left.now ≡ drop count bytes.now) }
{
    if bytes.len() < count {
        return None;
    }
    let (_, left) = bytes.split_at(count);
    Some(left)
}
