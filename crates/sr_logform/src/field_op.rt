//! Ops and transactions as fields.

ghost use Rattle.sr_base.specs.Fields.{list_spelling};
ghost use Rattle.sr_base.specs.Values.{value_spelling, IsValue, IsShort};
ghost use Rattle.std.specs.Prelude.{◌≡◌, ⊤};
ghost use Rattle.sr_base.specs.declared.value.Value.TheVariants.{Null};
ghost use Rattle.sr_base.specs.Fields.{IsName};
ghost use Rattle.sr_logform.specs.Inner.OpLaws.{present_format, op_format, transaction_format};
ghost use Rattle.sr_logform.specs.Ops.{op_spelling, IsOp, IsShortOp, transaction_spelling, IsTransaction};
ghost use Rattle.sr_logform.specs.Inner.Ops.{present_at, op_at, transaction_at, IsShortTransaction};

use crate::filled::{Columns, Filled};
use crate::op::{Op, Transaction};
use crate::values::Values;
use crate::writing_parts::write_four;
use sr_base::{Broken, Field, Name, NoMemory, Offset, Text, Value, write_pair, write_triple};
use std::alloc::Global;

type InsertParts = (Name, Values);

type RemoveParts = (Name, Columns<(Name, Value)>);

type SetParts = (Name, Columns<(Name, Value)>, Columns<(Name, Value, Value)>);

impl Field for Op {
    ghost can_write = { IsShortOp };

    ghost fits = { IsOp };

    ghost spelling = { op_spelling };

    ghost reading = { op_at };

    ghost format = { op_format };

    #[tactic(auto, unfolding(crate::specs::Inner::Ops::op_at))]
    fn read(alloc: Global, bytes: &[u8]) -> Result<(Op, &[u8]), Broken> {
        match bytes {
            [] => Err(Broken::Left(0)),
            [1, rest @ ..] => {
                let ((table, values), rest) = InsertParts::read(alloc, rest)?;
                let values = values.into_seq();
                Ok((Op::Insert { table, values }, rest))
            }
            [2, rest @ ..] => {
                let ((table, key), rest) = RemoveParts::read(alloc, rest)?;
                let key = key.into_seq();
                Ok((Op::Remove { table, key }, rest))
            }
            [3, rest @ ..] => {
                let ((table, key, columns), rest) = SetParts::read(alloc, rest)?;
                let key = key.into_seq();
                let columns = columns.into_seq();
                let op = Op::Set {
                    table,
                    key,
                    columns,
                };
                Ok((op, rest))
            }
            [4, rest @ ..] => {
                let (table, rest) = Name::read(alloc, rest)?;
                Ok((Op::Clear { table }, rest))
            }
            [5, rest @ ..] => {
                let (text, rest) = Text::read(alloc, rest)?;
                Ok((Op::Exec { text }, rest))
            }
            [_, ..] => Err(Broken::Left(bytes.len())),
        }
    }

    #[tactic(auto, unfolding(crate::specs::Ops::op_spelling, crate::specs::Ops::OpHas))]
    fn write(&self, out: &mut Vec<u8>) -> Result<(), NoMemory> {
        match self {
            Op::Insert { table, values } => write_triple(&1u8, table, values, out),
            Op::Remove { table, key } => write_triple(&2u8, table, key, out),
            Op::Set {
                table,
                key,
                columns,
            } => write_four(&3u8, table, key, columns, out),
            Op::Clear { table } => write_pair(&4u8, table, out),
            Op::Exec { text } => write_pair(&5u8, text, out),
        }
    }
}

impl Field for Transaction {
    ghost can_write = { IsShortTransaction };

    ghost fits = { IsTransaction };

    ghost spelling = { transaction_spelling };

    ghost reading = { transaction_at };

    ghost format = { transaction_format };

    #[tactic(auto, unfolding(crate::specs::Inner::Ops::transaction_at))]
    fn read(alloc: Global, bytes: &[u8]) -> Result<(Transaction, &[u8]), Broken> {
        let ((at, ops), rest) = <(Offset, Filled<Op>)>::read(alloc, bytes)?;
        let ops = ops.into_seq();
        Ok((Transaction { at, ops }, rest))
    }

    fn write(&self, out: &mut Vec<u8>) -> Result<(), NoMemory> {
        write_pair(&self.at, &self.ops, out)
    }
}
