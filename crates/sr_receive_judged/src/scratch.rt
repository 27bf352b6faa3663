//! A state apart from the database, on which ops are judged that change the catalog.

ghost use Rattle.std.specs.Prelude.{◌≡◌, ◌∷◌, [], ℕ, List, map, None, is_ok, IfOk, IsSome, OnOk, if◌then◌else◌};
ghost use Rattle.std.specs.FinMap.{insert};
ghost use Rattle.std.specs.List.{AllByRecursion};
ghost use Rattle.sr_base.specs.Values.{offset_from};
ghost use Rattle.sr_base.specs.declared.value.Value.{Value as Cell};
ghost use Rattle.sr_exec_dml.specs.Fitting.{RowsFit};
ghost use Rattle.sr_database_history.specs.Fitting.{DoneFits};
ghost use Rattle.sr_database_history.specs.Folds.{State, after_done};
ghost use Rattle.sr_database_history.specs.Recorded.{Done, done_of, IsLawfulDone};
ghost use Rattle.sr_logform.specs.Ops.{IsShortOp};
ghost use Rattle.sr_logform.specs.declared.entry.Entry.TheVariants.{From};
ghost use Rattle.sr_rows.specs.Marks.{rows_of_table};
ghost use Rattle.sr_rows.specs.Inner.Steps.{at_mark};
ghost use Rattle.sr_catalog_schema.specs.Members.{table_name, user_name};
ghost use Rattle.sr_catalog_schema.specs.Names.{named};
ghost use Rattle.sr_receive_judged.specs.Judged.{AreJudgedAs};
ghost use Rattle.sr_receive_judged.specs.Inner.Judged.{is_among, state_in};
ghost use Rattle.sr_receive_judged.specs.Inner.OneOp.{ScratchMore};
ghost use Rattle.sr_receive_judged.specs.Inner.Copies.{HasCopied, IsCopyOf};

use crate::judging::{entry_with, judge_pair, push_where};
use sr_base::{Copied, Key, Name, NoMemory, Offset, Row};
use sr_catalog::{Catalog, Table};
use sr_database_fold::takes_effect;
use sr_logform::{Entry, Op, Outcome};
use sr_rows::Rows;
use std::alloc::Global;

/// A catalog and rows.
#[derive(Drop)]
struct Scratch {
    catalog: Catalog,
    rows: Rows,
}

/// The ops with their outcomes, each judged on a copy of catalog and rows that those before it have changed. The log of a database gives no
/// transaction with a statement beside other ops; so the copy is made for none that a database sent.
pub(crate) fn judge_apart(
    alloc: Global,
    catalog: &Catalog,
    rows: &Rows,
    user: &Name,
    above: bool,
    ops: &[Op],
) -> Result<Vec<(Op, Outcome)>, NoMemory>
    requires rows { RowsFit catalog.now rows.now.rows }
    requires known { IsSome (named user_name user.now catalog.now.users) }
    requires short { AllByRecursion IsShortOp ops.now }
    ensures judged { IfOk result (λ judged. (after : State) × AreJudgedAs (state_in catalog.now rows.now.rows) after above ops.now judged.items) }
{
    let mut scratch = copied(alloc, catalog, rows)?;
    let judged = judge_on(alloc, &mut scratch, user, above, ops);
    drop(scratch);
    judged
}

/// The ops with their outcomes, each judged on the state that those before it leave there.
fn judge_on(
    alloc: Global,
    scratch: &mut Scratch,
    user: &Name,
    above: bool,
    ops: &[Op],
) -> Result<Vec<(Op, Outcome)>, NoMemory>
    requires rows { RowsFit scratch.old.catalog scratch.old.rows.rows }
    requires fresh { scratch.old.rows ≡ at_mark scratch.old.rows.rows }
    requires known { IsSome (named user_name user.now scratch.old.catalog.users) }
    requires short { AllByRecursion IsShortOp ops.now }
    ensures judged { IfOk result (λ judged. AreJudgedAs (state_in scratch.old.catalog scratch.old.rows.rows) (state_in scratch.new.catalog scratch.new.rows.rows) above ops.now judged.items) }
{
    let mut judged = Vec::new(alloc);
    let mut left = ops;
    'ops: while let Some((op, rest)) = left.split_first() {
        judge_next(alloc, scratch, user, above, op, &mut judged)?;
        left = rest;
    }
    Ok(judged)
}

/// Judges an op, puts it behind others with its outcome, and goes on to the state behind it.
fn judge_next(
    alloc: Global,
    scratch: &mut Scratch,
    user: &Name,
    above: bool,
    op: &Op,
    judged: &mut Vec<(Op, Outcome)>,
) -> Result<(), NoMemory>
    requires rows { RowsFit scratch.old.catalog scratch.old.rows.rows }
    requires fresh { scratch.old.rows ≡ at_mark scratch.old.rows.rows }
    requires known { IsSome (named user_name user.now scratch.old.catalog.users) }
    ensures more { OnOk result (ScratchMore (state_in scratch.old.catalog scratch.old.rows.rows) (state_in scratch.new.catalog scratch.new.rows.rows) above op.now judged.old.items judged.new.items) }
    ensures fresh { scratch.new.rows ≡ at_mark scratch.new.rows.rows }
{
    let pair = judge_pair(alloc, &scratch.catalog, &scratch.rows, above, op)?;
    let taken = take_on(alloc, scratch, user, &pair);
    push_where(judged, pair, taken)
}

/// The state behind an op with its outcome.
fn take_on(
    alloc: Global,
    scratch: &mut Scratch,
    user: &Name,
    pair: &(Op, Outcome),
) -> Result<(), NoMemory>
    requires rows { RowsFit scratch.old.catalog scratch.old.rows.rows }
    requires fresh { scratch.old.rows ≡ at_mark scratch.old.rows.rows }
    requires known { IsSome (named user_name user.now scratch.old.catalog.users) }
    requires fits { (d : Done) × (done_of d ≡ pair.now) × IsLawfulDone d × DoneFits (state_in scratch.old.catalog scratch.old.rows.rows) d }
    ensures after { (d : Done) → done_of d ≡ pair.now → IsLawfulDone d → DoneFits (state_in scratch.old.catalog scratch.old.rows.rows) d
        → OnOk result (state_in scratch.new.catalog scratch.new.rows.rows ≡ after_done d (state_in scratch.old.catalog scratch.old.rows.rows)) }
    ensures fresh { scratch.new.rows ≡ at_mark scratch.new.rows.rows }
{
    let entry = entry_of(alloc, user, pair)?;
    let outcome = takes_effect(alloc, &mut scratch.catalog, &mut scratch.rows, &entry);
    drop(entry);
    outcome
}

/// The entry of one op with its outcome.
fn entry_of(alloc: Global, user: &Name, pair: &(Op, Outcome)) -> Result<Entry, NoMemory>
    ensures entry { IfOk result (λ entry. entry ≡ From user.now (offset_from 0) (pair.now ∷ [])) }
{
    let mut ops = Vec::new(alloc);
    ops.push(pair.copy(alloc)?)?;
    entry_with(alloc, user, Offset(0), ops)
}

/// Copies of a catalog and of the rows of its tables.
fn copied(alloc: Global, catalog: &Catalog, rows: &Rows) -> Result<Scratch, NoMemory>
    requires rows { RowsFit catalog.now rows.now.rows }
    ensures catalog { IfOk result (λ scratch. scratch.catalog ≡ catalog.now) }
    ensures rows { IfOk result (λ scratch. scratch.rows ≡ at_mark rows.now.rows) }
{
    let copy = rows_of(alloc, catalog.tables(), rows)?;
    match catalog.copy(alloc) {
        Ok(catalog) => Ok(Scratch {
            catalog,
            rows: copy,
        }),
        Err(refused) => {
            drop(copy);
            Err(refused)
        }
    }
}

/// A copy of the rows of these tables. It takes the time of going through them.
fn rows_of(alloc: Global, tables: &[Table], rows: &Rows) -> Result<Rows, NoMemory>
    ensures fresh { IfOk result (λ copy. copy ≡ at_mark copy.rows) }
    ensures rows { IfOk result (λ copy. IsCopyOf rows.now.rows (map table_name tables.now) copy.rows) }
{
    let mut copy = Rows::new(alloc);
    let mut left = tables;
    'tables: while let Some((table, rest)) = left.split_first() {
        copy_table(alloc, &table.name, rows, &mut copy)?;
        left = rest;
    }
    Ok(copy)
}

/// Copies the rows of a table.
fn copy_table(alloc: Global, table: &Name, rows: &Rows, copy: &mut Rows) -> Result<(), NoMemory>
    requires fresh { copy.old ≡ at_mark copy.old.rows }
    ensures fresh { OnOk result (copy.new ≡ at_mark copy.new.rows) }
    ensures copied { OnOk result (HasCopied rows.now.rows table.now copy.old.rows copy.new.rows) }
{
    let mut walk = rows.walk(table);
    'rows: while let Some((key, row)) = walk.next() {
        copy_row(alloc, table, key, row, copy)?;
    }
    Ok(())
}

/// Copies a row.
fn copy_row(
    alloc: Global,
    table: &Name,
    key: &Key,
    row: &Row,
    copy: &mut Rows,
) -> Result<(), NoMemory>
    requires fresh { copy.old ≡ at_mark copy.old.rows }
    ensures row { OnOk result (copy.new ≡ at_mark (insert copy.old.rows (table.now, key.now) row.now)) }
{
    copy.put_at_mark(alloc, table, key.copy(alloc)?, row.copy(alloc)?)
}
