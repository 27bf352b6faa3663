ghost use Rattle.std.specs.Prelude.{◌≡◌, [], ℕ, List, Option, Ok, IfSome, OnOk};
ghost use Rattle.sr_ast.specs.declared.expr.Expr.{Expr as AnExpr};
ghost use Rattle.std.specs.Option.{option_copied};
ghost use Rattle.sr_exec_where.specs.Checks.{bad_sets, bad_condition};
ghost use Rattle.sr_catalog_schema.specs.Members.{scope_of};
ghost use Rattle.sr_exec_dml.specs.Inner.Conditions.{Answers, AnswersBy};
ghost use Rattle.sr_exec_dml.specs.Fitting.{TableFits};
ghost use Rattle.sr_exec_dml.specs.Inner.Edits.{picks_of, with_pick, prefixed, Picks};
ghost use Rattle.sr_exec_where.specs.Inner.Fixing.{only_key};
ghost use Rattle.sr_exec_where.specs.Inner.Preparing.{IsPrepared, resolution_in};
ghost use Rattle.sr_exec_dml.specs.Inner.Making.{selected_at, effect_by};
ghost use Rattle.sr_exec_dml.specs.Statements.{moved_selected};
ghost use Rattle.sr_rows.specs.Walks.{table_rows};

use crate::changes::Changes;
use crate::edits::edits_of_picks;
use crate::effect::RowEffect;
use crate::placing::unmoved;
use crate::settling::settle;
use crate::single::moved_at;
use crate::updating::updated_row;
use sr_ast::Expr;
use sr_base::{Copied, Key, Name, NoMemory, Row, Value};
use sr_catalog_schema::{DmlFault, Table};
use sr_eval::{EvalFault, Resolved, is_resolved_true};
use sr_exec_where::{Prepared, only_key, prepare, push};
use sr_logform::Change;
use sr_rows::Rows;
use std::alloc::Global;

/// The changes where the selected rows are taken, and put as the assignments of an UPDATE make them; a DELETE has none.
pub(crate) fn moved(
    alloc: Global,
    table: &Table,
    rows: &Rows,
    sets: Option<&[(Name, Expr)]>,
    condition: &Option<Expr>,
    spare: Vec<Change>,
) -> Result<Changes, DmlFault>
    requires rows { TableFits table.now rows.now.rows }
    requires condition { bad_condition (scope_of table.now) table.now.name condition.now ≡ None }
    requires sets { IfSome (option_copied sets) (λ s. bad_sets (scope_of table.now) [] s ≡ None) }
    ensures answer { Answers result (moved_selected table.now (option_copied sets.entry) condition.now (table_rows rows.now.rows table.now.name)) }
{
    let prepared = prepare(alloc, table, sets, condition)?;
    if let Some(key) = only_key(alloc, table, condition)? {
        return moved_at(alloc, table, rows, &prepared, &key, spare);
    }
    if let Some(changes) = unmoved(alloc, table, rows, &prepared, spare)? {
        return Ok(changes);
    }
    let picks = picks_along(alloc, table, rows, &prepared)?;
    settle_picks(alloc, table, rows, picks)
}

/// The changes of selected rows of which some may get other keys: they are taken, and put under the keys that they get. Each takes
/// logarithmic time.
pub(crate) fn settle_picks(
    alloc: Global,
    table: &Table,
    rows: &Rows,
    picks: Vec<(Key, Option<Row>)>,
) -> Result<Changes, DmlFault>
    ensures answer { (sets : Option (List (List ℕ × AnExpr))) (condition : Option AnExpr) → picks_of table.now sets condition (table_rows rows.now.rows table.now.name) ≡ Ok picks.items
        → Answers result (moved_selected table.now sets condition (table_rows rows.now.rows table.now.name)) }
{
    let count = picks.len() as u64;
    let edits = edits_of_picks(alloc, table, picks)?;
    let list = settle(alloc, &table.name, rows, edits)?;
    Ok(Changes { list, count })
}

/// What is picked of all rows, in the order of their keys. Each row of the table takes the time of its condition.
fn picks_along(
    alloc: Global,
    table: &Table,
    rows: &Rows,
    prepared: &Prepared,
) -> Result<Vec<(Key, Option<Row>)>, DmlFault>
    requires prepared { IsPrepared table.now prepared.now }
    ensures answer { AnswersBy result (λ picks. picks.items) (picks_of table.now (option_copied prepared.now.sets) prepared.now.condition.now (table_rows rows.now.rows table.now.name)) }
{
    let mut picks = Vec::new(alloc);
    let mut walk = rows.walk(&table.name);
    'rows: while let Some((key, row)) = walk.next() {
        let effect = effect_of(alloc, table, prepared, row.values())?;
        note_effect(alloc, &mut picks, key, effect)?;
    }
    Ok(picks)
}

fn note_effect(
    alloc: Global,
    picks: &mut Vec<(Key, Option<Row>)>,
    key: &Key,
    effect: RowEffect,
) -> Result<(), NoMemory>
    ensures noted { OnOk result ((rest : Picks) → prefixed picks.old.items (with_pick key.now (Ok effect) rest) ≡ prefixed picks.new.items rest) }
{
    match effect {
        RowEffect::Stays => Ok(()),
        RowEffect::Goes => push(picks, (key.copy(alloc)?, None)),
        RowEffect::Becomes(row) => push(picks, (key.copy(alloc)?, Some(row))),
    }
}

/// What becomes of a row.
#[tactic(auto, using(crate::proofs::Readied::by_names))]
#[inline(always)]
pub(crate) fn effect_of(
    alloc: Global,
    table: &Table,
    prepared: &Prepared,
    row: &[Value],
) -> Result<RowEffect, DmlFault>
    requires prepared { IsPrepared table.now prepared.now }
    ensures answer { Answers result (effect_by table.now prepared.now row.now) }
{
    if !selected(&prepared.resolved_condition, row)? {
        return Ok(RowEffect::Stays);
    }
    if prepared.sets.is_none() {
        return Ok(RowEffect::Goes);
    }
    let new = updated_row(
        alloc,
        row,
        prepared.resolved_sets.as_slice(),
        table.columns.as_slice(),
    )?;
    Ok(RowEffect::Becomes(new))
}

/// Whether a row is selected: where the condition is true, or where there is none.
#[inline(always)]
pub(crate) fn selected(condition: &Option<Resolved>, row: &[Value]) -> Result<bool, DmlFault>
    ensures answer { Answers result (selected_at row.now (resolution_in condition.now)) }
{
    let Some(condition) = condition else {
        return Ok(true);
    };
    match is_resolved_true(condition, &row) {
        Ok(held) => Ok(held),
        Err(EvalFault::Overflow) => Err(DmlFault::Overflow),
        Err(EvalFault::Memory) => Err(DmlFault::Memory),
    }
}
