ghost use Rattle.std.specs.Prelude.{◌≡◌, ◌≤◌, length, take, drop, IfOk, OnErr};

use crate::copied::NoMemory;
use crate::row::{Cells, Row};
use crate::seq::Seq;
use crate::value::Value;
use std::alloc::{AllocError, Global};
use std::marker::Model;
use std::rc::Rc;

/// Values of several rows, one row after the other, of which the rows are made: these share one block of memory. It is given back when the
/// last one of them is gone, so rows that may go one by one should be few in a block, and small. Contracts see the values that are left.
#[derive(Drop)]
pub struct RowBlock {
    shared: Rc<Cells>,
    next: u32,
}

impl Model for RowBlock {
    ghost use Rattle.std.specs.Prelude.{List};
    ghost use Rattle.sr_base.specs.declared.value.Value.{Value as Cell};
    ghost use Rattle.sr_base.specs.Inner.Cells.{values_left, IsBlock};

    ghost Value = { List Cell };

    ghost view = { λ b. values_left b.shared.value b.next };

    ghost invariant = { λ b. IsBlock b.shared.value b.next };
}

impl RowBlock {
    /// A block of these values. 2^32 values are taken for want of memory.
    pub fn new(alloc: Global, values: Vec<Value>) -> Result<RowBlock, NoMemory>
        ensures values { IfOk result (λ block. block ≡ values.items) }
    {
        if u32::try_from(values.len()).is_err() {
            return Err(AllocError);
        }
        Ok(RowBlock {
            shared: Rc::new(alloc, Cells::Many(Seq::from_vec(values)))?,
            next: 0,
        })
    }

    /// The next row, of so many values.
    #[inline(always)]
    pub fn row(&mut self, width: usize) -> Result<Row, NoMemory>
        requires there { width ≤ length self.old }
        ensures row { IfOk result (λ row. row ≡ take width self.old) }
        ensures left { IfOk result (λ _. self.new ≡ drop width self.old) }
        ensures err { OnErr result (self.new ≡ self.old) }
    {
        let row = Row {
            shared: self.shared.clone()?,
            start: self.next,
            width: width as u32,
        };
        self.next += width as u32;
        Ok(row)
    }
}
