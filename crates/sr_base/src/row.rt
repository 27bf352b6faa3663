ghost use Rattle.std.specs.Prelude.{◌≡◌, IfOk};
ghost use Rattle.sr_base.specs.Inner.Cells.{all_values};

use crate::copied::{Copied, NoMemory};
use crate::seq::Seq;
use crate::value::Value;
use std::alloc::{AllocError, Global};
use std::marker::Model;
use std::rc::Rc;

/// The values of a row, in table order. The copies of a row share its memory, and so do rows that were made of one `RowBlock`.
#[derive(Drop)]
pub struct Row {
    pub(crate) shared: Rc<Cells>,
    pub(crate) start: u32,
    pub(crate) width: u32,
}

/// A block of memory that rows share. Two values, as many rows have, lie beside the count of those that share it; others lie in a list.
#[derive(Drop)]
pub(crate) enum Cells {
    Two([Value; 2]),
    Many(Seq<Value>),
}

impl Model for Row {
    ghost use Rattle.std.specs.Prelude.{List};
    ghost use Rattle.sr_base.specs.declared.value.Value.{Value as Cell};
    ghost use Rattle.sr_base.specs.Inner.Cells.{values_of, LiesIn};

    ghost Value = { List Cell };

    ghost view = { λ r. values_of r.shared.value r.start r.width };

    ghost invariant = { λ r. LiesIn r.shared.value r.start r.width };
}

impl Row {
    /// The row of these values. 2^32 values are taken for want of memory.
    pub fn new(alloc: Global, values: Seq<Value>) -> Result<Row, NoMemory>
        ensures values { IfOk result (λ r. r ≡ values) }
    {
        let Ok(width) = u32::try_from(values.as_slice().len()) else {
            return Err(AllocError);
        };
        Ok(Row {
            shared: Rc::new(alloc, hold(values))?,
            start: 0,
            width,
        })
    }

    /// The row of two values. It takes one block of memory.
    pub fn two(alloc: Global, values: [Value; 2]) -> Result<Row, NoMemory>
        ensures values { IfOk result (λ r. r ≡ values) }
    {
        Ok(Row {
            shared: Rc::new(alloc, Cells::Two(values))?,
            start: 0,
            width: 2,
        })
    }

    /// The values, in table order.
    #[inline(always)]
    pub fn values(&self) -> &[Value]
        ensures values { result.now ≡ self.now }
    {
        let start = self.start as usize;
        let end = start + self.width as usize;
        &all_values(self.shared.as_ref())[start..end]
    }
}

/// All values of a block of memory.
#[inline(always)]
fn all_values(cells: &Cells) -> &[Value]
    ensures values { result.now ≡ all_values cells.now }
{
    match cells {
        Cells::Two(pair) => pair.as_slice(),
        Cells::Many(values) => values.as_slice(),
    }
}

/// The values of a list, two of them without the list.
fn hold(values: Seq<Value>) -> Cells
    ensures values { all_values result ≡ values }
{
    match <[Value; 2]>::try_from(values.into_vec()) {
        Ok(pair) => Cells::Two(pair),
        Err(items) => Cells::Many(Seq::from_vec(items)),
    }
}

impl Copied for Row {
    #[inline(always)]
    fn copy(&self, _alloc: Global) -> Result<Row, NoMemory> {
        Ok(Row {
            shared: self.shared.clone()?,
            start: self.start,
            width: self.width,
        })
    }
}
