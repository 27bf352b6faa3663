//! Options, pairs and triples as fields.

ghost use Rattle.std.specs.Prelude.{◌≡◌, ◌++◌, IfSome, OnOk, OnErr};
ghost use Rattle.sr_base.specs.Fields.{option_spelling, pair_spelling, triple_spelling};
ghost use Rattle.sr_base.specs.Inner.Fields.{option_at, pair_at, triple_at};
ghost use Rattle.sr_base.specs.Inner.PartLaws.{option_format, pair_format, triple_format};

use crate::broken::Broken;
use crate::copied::NoMemory;
use crate::field::Field;
use std::alloc::Global;

impl<T: Field> Field for Option<T> {
    ghost can_write = { λ o. IfSome o T.can_write };

    ghost fits = { λ o. IfSome o T.fits };

    ghost spelling = { option_spelling T.spelling };

    ghost reading = { option_at T.reading };

    ghost format = { option_format T.format };

    #[tactic(auto, unfolding(crate::specs::Inner::Fields::option_at))]
    fn read(alloc: Global, bytes: &[u8]) -> Result<(Option<T>, &[u8]), Broken> {
        match bytes {
            [] => Err(Broken::Left(0)),
            [0, rest @ ..] => Ok((None, rest)),
            [1, rest @ ..] => {
                let (value, rest) = T::read(alloc, rest)?;
                Ok((Some(value), rest))
            }
            [_, ..] => Err(Broken::Left(bytes.len())),
        }
    }

    fn write(&self, out: &mut Vec<u8>) -> Result<(), NoMemory> {
        let before = out.len();
        match self {
            None => {
                out.push(0)?;
            }
            Some(value) => {
                out.push(1)?;
                if let Err(refused) = value.write(out) {
                    out.truncate(before);
                    return Err(refused);
                }
            }
        }
        Ok(())
    }
}

/// Adds the spellings of two values, one after the other. For want of memory `out` stays as it was.
pub fn write_pair<A: Field, B: Field>(
    first: &A,
    second: &B,
    out: &mut Vec<u8>,
) -> Result<(), NoMemory>
    requires first { A.can_write first.now }
    requires second { B.can_write second.now }
    ensures ok { OnOk result (out.new.items ≡ out.old.items ++ (A.spelling first.now ++ B.spelling second.now)) }
    ensures err { OnErr result (out.new.items ≡ out.old.items) }
    ensures kept { OnOk result (A.fits first.now × B.fits second.now) }
{
    let before = out.len();
    first.write(out)?;
    if let Err(refused) = second.write(out) {
        out.truncate(before);
        return Err(refused);
    }
    Ok(())
}

/// Adds the spellings of three values, one after the other. For want of memory `out` stays as it was.
pub fn write_triple<A: Field, B: Field, C: Field>(
    first: &A,
    second: &B,
    third: &C,
    out: &mut Vec<u8>,
) -> Result<(), NoMemory>
    requires first { A.can_write first.now }
    requires second { B.can_write second.now }
    requires third { C.can_write third.now }
    ensures ok { OnOk result (out.new.items ≡ out.old.items ++ (A.spelling first.now ++ B.spelling second.now ++ C.spelling third.now)) }
    ensures err { OnErr result (out.new.items ≡ out.old.items) }
    ensures kept { OnOk result (A.fits first.now × B.fits second.now × C.fits third.now) }
{
    let before = out.len();
    write_pair(first, second, out)?;
    if let Err(refused) = third.write(out) {
        out.truncate(before);
        return Err(refused);
    }
    Ok(())
}

impl<A: Field, B: Field> Field for (A, B) {
    ghost can_write = { λ p. A.can_write p.0 × B.can_write p.1 };

    ghost fits = { λ p. A.fits p.0 × B.fits p.1 };

    ghost spelling = { pair_spelling A.spelling B.spelling };

    ghost reading = { pair_at A.reading B.reading };

    ghost format = { pair_format A.format B.format };

    #[tactic(auto, unfolding(crate::specs::Inner::Fields::pair_at))]
    fn read(alloc: Global, bytes: &[u8]) -> Result<((A, B), &[u8]), Broken> {
        let (first, rest) = A::read(alloc, bytes)?;
        let (second, rest) = B::read(alloc, rest)?;
        Ok(((first, second), rest))
    }

    fn write(&self, out: &mut Vec<u8>) -> Result<(), NoMemory> {
        write_pair(&self.0, &self.1, out)
    }
}

impl<A: Field, B: Field, C: Field> Field for (A, B, C) {
    ghost can_write = { λ p. A.can_write p.0 × B.can_write p.1 × C.can_write p.2 };

    ghost fits = { λ p. A.fits p.0 × B.fits p.1 × C.fits p.2 };

    ghost spelling = { triple_spelling A.spelling B.spelling C.spelling };

    ghost reading = { triple_at A.reading B.reading C.reading };

    ghost format = { triple_format A.format B.format C.format };

    #[tactic(auto, unfolding(crate::specs::Inner::Fields::triple_at))]
    fn read(alloc: Global, bytes: &[u8]) -> Result<((A, B, C), &[u8]), Broken> {
        let (first, rest) = A::read(alloc, bytes)?;
        let (second, rest) = B::read(alloc, rest)?;
        let (third, rest) = C::read(alloc, rest)?;
        Ok(((first, second, third), rest))
    }

    fn write(&self, out: &mut Vec<u8>) -> Result<(), NoMemory> {
        write_triple(&self.0, &self.1, &self.2, out)
    }
}
