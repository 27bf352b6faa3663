//! The outcome of an op.

ghost use Rattle.std.specs.Prelude.{◌≡◌, None, Ok, IfOk};
ghost use Rattle.sr_exec_dml.specs.Fitting.{RowsFit};
ghost use Rattle.sr_resolve.specs.Judging.{judged, judged_exec, IsPrintedBy, IsStatementOf, IsJudged};

use crate::clearing::judge_clear;
use crate::executing::execute;
use crate::inserting::judge_insert;
use crate::removing::judge_remove;
use crate::setting::judge_set;
use sr_ast::Stmt;
use sr_base::{NoMemory, Text};
use sr_catalog::Catalog;
use sr_logform::{Clash, Op, Outcome};
use sr_parse::printed_statement;
use sr_rows::Rows;
use std::alloc::Global;

/// The outcome of an op, with the statement that it carries where it is an Exec of a text that prints one.
#[derive(Drop)]
pub struct Judgement {
    pub outcome: Outcome,
    pub statement: Option<Stmt>,
}

impl Judgement {
    /// The outcome of an op that carries no statement.
    fn alone(outcome: Outcome) -> Judgement
        ensures outcome { result.outcome ≡ outcome }
        ensures statement { result.statement ≡ None }
    {
        Judgement {
            outcome,
            statement: None,
        }
    }

    /// The outcome, where there was memory for it, and the statement.
    fn of(
        outcome: Result<Outcome, NoMemory>,
        statement: Option<Stmt>,
    ) -> Result<Judgement, NoMemory>
        ensures outcome { IfOk result (λ j. outcome ≡ Ok j.outcome) }
        ensures statement { IfOk result (λ j. j.statement ≡ statement) }
    {
        match outcome {
            Ok(outcome) => Ok(Judgement { outcome, statement }),
            Err(refused) => {
                drop(statement);
                Err(refused)
            }
        }
    }

    /// The outcome alone.
    fn into_outcome(self) -> Outcome
        ensures { result ≡ self.outcome }
    {
        let Judgement { outcome, statement } = self;
        drop(statement);
        outcome
    }
}

/// What becomes of an op on a catalog and rows, each of which fits its table. `above` says that it came from above. It changes nothing.
///
/// The first case that fits is the outcome; each value is first fitted to its column (docs/REPLICATION.md, "Judging"). An op that can't be
/// done is a Clash, and says why. An update from below of a row that has another value than it took for the stored one is a Conflict:
/// the triggers of the table decide it, in order of creation. Everything else is Plain, with its changes.
pub fn judge(
    alloc: Global,
    catalog: &Catalog,
    rows: &Rows,
    above: bool,
    op: &Op,
) -> Result<Outcome, NoMemory>
    requires rows { RowsFit catalog.now rows.now.rows }
    ensures judged { IfOk result (IsJudged catalog.now rows.now.rows above op.now) }
{
    let judgement = judge_op(alloc, catalog, rows, above, op)?;
    Ok(judgement.into_outcome())
}

/// What becomes of an op, as `judge` says, with the statement that it carries: so whoever takes the op need not read its text again.
pub fn judge_op(
    alloc: Global,
    catalog: &Catalog,
    rows: &Rows,
    above: bool,
    op: &Op,
) -> Result<Judgement, NoMemory>
    requires rows { RowsFit catalog.now rows.now.rows }
    ensures carried { IfOk result (λ j. IsStatementOf j.statement op.now) }
    ensures judged { IfOk result (λ j. j.outcome ≡ judged catalog.now rows.now.rows above op.now j.statement) }
{
    match op {
        Op::Insert { table, values } => {
            let outcome = judge_insert(alloc, catalog, rows, table, values.as_slice())?;
            Ok(Judgement::alone(outcome))
        }
        Op::Remove { table, key } => {
            let outcome = judge_remove(alloc, catalog, rows, table, key.as_slice())?;
            Ok(Judgement::alone(outcome))
        }
        Op::Set {
            table,
            key,
            columns,
        } => {
            let key = key.as_slice();
            let outcome = judge_set(alloc, catalog, rows, above, table, key, columns.as_slice())?;
            Ok(Judgement::alone(outcome))
        }
        Op::Clear { table } => {
            let outcome = judge_clear(alloc, catalog, rows, above, table)?;
            Ok(Judgement::alone(outcome))
        }
        Op::Exec { text } => judge_exec(alloc, catalog, rows, above, text),
    }
}

/// The outcome of an Exec, with the statement that its text prints, if there is one.
fn judge_exec(
    alloc: Global,
    catalog: &Catalog,
    rows: &Rows,
    above: bool,
    text: &Text,
) -> Result<Judgement, NoMemory>
    requires rows { RowsFit catalog.now rows.now.rows }
    ensures carried { IfOk result (λ j. IsPrintedBy j.statement text.now) }
    ensures judged { IfOk result (λ j. j.outcome ≡ judged_exec catalog.now rows.now.rows above j.statement) }
{
    let statement = carried(alloc, text)?;
    let outcome = execute(alloc, catalog, rows, above, &statement);
    Judgement::of(outcome, statement)
}

/// The statement that a text prints, if there is one.
fn carried(alloc: Global, text: &Text) -> Result<Option<Stmt>, NoMemory>
    ensures carried { IfOk result (λ statement. IsPrintedBy statement text.now) }
{
    match printed_statement(alloc, text)? {
        None => Ok(None),
        Some(stmt) => Ok(Some(stmt)),
    }
}
