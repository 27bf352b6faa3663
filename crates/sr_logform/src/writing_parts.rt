//! Adding several values, one after the other.

ghost use Rattle.std.specs.Prelude.{◌≡◌, ◌++◌, OnOk, OnErr};

use sr_base::{Field, NoMemory, write_pair, write_triple};

/// Adds the spellings of four values. For want of memory `out` stays as it was.
pub(crate) fn write_four<A: Field, B: Field, C: Field, D: Field>(
    one: &A,
    two: &B,
    three: &C,
    four: &D,
    out: &mut Vec<u8>,
) -> Result<(), NoMemory>
    requires one { A.can_write one.now }
    requires two { B.can_write two.now }
    requires three { C.can_write three.now }
    requires four { D.can_write four.now }
    ensures ok { OnOk result (out.new.items ≡ out.old.items ++ (A.spelling one.now ++ B.spelling two.now ++ C.spelling three.now ++ D.spelling four.now)) }
    ensures err { OnErr result (out.new.items ≡ out.old.items) }
    ensures kept { OnOk result (A.fits one.now × B.fits two.now × C.fits three.now × D.fits four.now) }
{
    let before = out.len();
    write_triple(one, two, three, out)?;
    if let Err(refused) = four.write(out) {
        out.truncate(before);
        return Err(refused);
    }
    Ok(())
}

/// Adds the spellings of five values. For want of memory `out` stays as it was.
pub(crate) fn write_five<A: Field, B: Field, C: Field, D: Field, E: Field>(
    one: &A,
    two: &B,
    three: &C,
    four: &D,
    five: &E,
    out: &mut Vec<u8>,
) -> Result<(), NoMemory>
    requires one { A.can_write one.now }
    requires two { B.can_write two.now }
    requires three { C.can_write three.now }
    requires four { D.can_write four.now }
    requires five { E.can_write five.now }
    ensures ok { OnOk result (out.new.items ≡ out.old.items
        ++ (A.spelling one.now ++ B.spelling two.now ++ C.spelling three.now ++ D.spelling four.now ++ E.spelling five.now)) }
    ensures err { OnErr result (out.new.items ≡ out.old.items) }
    ensures kept { OnOk result (A.fits one.now × B.fits two.now × C.fits three.now × D.fits four.now × E.fits five.now) }
{
    let before = out.len();
    write_triple(one, two, three, out)?;
    if let Err(refused) = write_pair(four, five, out) {
        out.truncate(before);
        return Err(refused);
    }
    Ok(())
}
