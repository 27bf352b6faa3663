//! A trigger that runs, and the values of its expressions.

ghost use Rattle.std.specs.Prelude.{◌≡◌, ◌++◌, map, IfOk, OnOk};
ghost use Rattle.sr_ast.specs.Exprs.{term_of};
ghost use Rattle.sr_eval.specs.Inner.Bounds.{AreRows, columns_of, values_of as values_over};
ghost use Rattle.sr_resolve_triggers.specs.Actions.{value_in, truth_in};
ghost use Rattle.sr_resolve_triggers.specs.Inner.Running.{update_conflict_of, columns_behind, behind_alias, IsReady, AliasesFit, columns_left, values_left};
ghost use Rattle.sr_resolve_triggers.specs.Bindings.{row_of, values_of, UpdateConflictFits, BindingsFits};
ghost use Rattle.sr_catalog_triggers.specs.Triggers.{trigger_scope, variables_scope};

use crate::bindings::Bindings;
use crate::conflict::Conflict;
use sr_ast::{CreateTrigger, Expr, Image, Scope};
use sr_base::{Copied, Kind, Name, NoMemory, Seq, Value};
use sr_catalog::Table;
use sr_eval::{Bound, EvalFault, is_true_over, value_over};
use std::alloc::{AllocError, Global};

/// A trigger that runs: the conflict that fired it, its statement, and what its expressions may name: its variables, and behind each alias
/// the columns of the table.
#[derive(Drop)]
pub(crate) struct Running<'a> {
    pub conflict: Conflict<'a>,
    pub trigger: &'a CreateTrigger,
    pub variables: Scope,
    pub aliases: Vec<(Image, Scope)>,
}

/// A trigger that a conflict fires, with the names of its variables and columns, which are copied once.
pub(crate) fn ready<'a>(
    alloc: Global,
    conflict: &Conflict<'a>,
    trigger: &'a CreateTrigger,
) -> Result<Running<'a>, NoMemory>
    ensures conflict { IfOk result (λ r. r.conflict ≡ conflict.now) }
    ensures trigger { IfOk result (λ r. r.trigger.now ≡ trigger.now) }
    ensures ready { IfOk result IsReady }
{
    let variables = variables_scope(alloc, trigger.variables.as_slice())?;
    let aliases = aliases_behind(alloc, conflict.table, trigger.aliases.as_slice())?;
    Ok(Running {
        conflict: *conflict,
        trigger,
        variables,
        aliases,
    })
}

/// The variables as columns without an alias.
fn variables_scope(alloc: Global, variables: &[(Name, Kind)]) -> Result<Scope, NoMemory>
    ensures scope { IfOk result (λ scope. scope ≡ variables_scope variables.now) }
{
    let mut scope = Vec::new(alloc);
    let mut rest = variables;
    'variables: while let Some((variable, after)) = rest.split_first() {
        scope.push((None, variable.0.copy(alloc)?, variable.1))?;
        rest = after;
    }
    Ok(Seq::from_vec(scope))
}

/// Each alias with the columns behind it. There are three at most.
fn aliases_behind(
    alloc: Global,
    table: &Table,
    aliases: &[(Image, Name)],
) -> Result<Vec<(Image, Scope)>, NoMemory>
    ensures aliases { IfOk result (λ scopes. scopes.items ≡ map (behind_alias table.now) aliases.now) }
{
    let mut scopes = Vec::new(alloc);
    let mut rest = aliases;
    'aliases: while let Some((alias, after)) = rest.split_first() {
        scopes.push((alias.0, columns_behind(alloc, table, &alias.1)?))?;
        rest = after;
    }
    Ok(scopes)
}

/// The columns of a table behind an alias.
fn columns_behind(alloc: Global, table: &Table, alias: &Name) -> Result<Scope, NoMemory>
    ensures scope { IfOk result (λ scope. scope ≡ columns_behind table.now alias.now) }
{
    let mut scope = Vec::new(alloc);
    let mut rest = table.columns.as_slice();
    'columns: while let Some((column, after)) = rest.split_first() {
        let alias = Some(alias.copy(alloc)?);
        scope.push((alias, column.name.copy(alloc)?, column.kind))?;
        rest = after;
    }
    Ok(Seq::from_vec(scope))
}

/// The value of an expression; none where a number passes its type's end. Each column that is named takes one pass over the names.
#[tactic(auto, unfolding(crate::specs::Actions::value_in))]
pub(crate) fn value(
    alloc: Global,
    running: &Running,
    bindings: &Bindings,
    expr: &Expr,
) -> Result<Option<Value>, NoMemory>
    requires ready { IsReady running.now }
    requires base { UpdateConflictFits (update_conflict_of running.now.conflict) }
    requires bindings { BindingsFits (update_conflict_of running.now.conflict) running.now.trigger.now.variables bindings.now }
    ensures value { IfOk result (λ v. v ≡ value_in (update_conflict_of running.now.conflict) running.now.trigger.now bindings.now (term_of expr.now)) }
{
    let sources = sources(alloc, running, bindings)?;
    match value_over(alloc, expr, sources.as_slice()) {
        Ok(value) => Ok(Some(value)),
        Err(EvalFault::Overflow) => Ok(None),
        Err(EvalFault::Memory) => Err(AllocError),
    }
}

/// Whether a condition is true; none where a number passes its type's end.
#[tactic(auto, unfolding(crate::specs::Actions::truth_in))]
pub(crate) fn truth(
    alloc: Global,
    running: &Running,
    bindings: &Bindings,
    expr: &Expr,
) -> Result<Option<bool>, NoMemory>
    requires ready { IsReady running.now }
    requires base { UpdateConflictFits (update_conflict_of running.now.conflict) }
    requires bindings { BindingsFits (update_conflict_of running.now.conflict) running.now.trigger.now.variables bindings.now }
    ensures truth { IfOk result (λ t. t ≡ truth_in (update_conflict_of running.now.conflict) running.now.trigger.now bindings.now (term_of expr.now)) }
{
    let sources = sources(alloc, running, bindings)?;
    match is_true_over(expr, sources.as_slice()) {
        Ok(held) => Ok(Some(held)),
        Err(EvalFault::Overflow) => Ok(None),
        Err(EvalFault::Memory) => Err(AllocError),
    }
}

/// What an expression is evaluated over: the variables, and behind them a row for each alias. No value is copied.
fn sources<'a>(
    alloc: Global,
    running: &'a Running<'a>,
    bindings: &'a Bindings,
) -> Result<Vec<Bound<'a>>, NoMemory>
    requires ready { IsReady running.now }
    requires base { UpdateConflictFits (update_conflict_of running.now.conflict) }
    requires bindings { BindingsFits (update_conflict_of running.now.conflict) running.now.trigger.now.variables bindings.now }
    ensures columns { IfOk result (λ s. columns_of s.items ≡ trigger_scope running.now.trigger.now running.now.conflict.table.now) }
    ensures values { IfOk result (λ s. values_over s.items ≡ values_of (update_conflict_of running.now.conflict) running.now.trigger.now bindings.now) }
    ensures rows { IfOk result (λ s. AreRows s.items) }
{
    let mut sources = Vec::new(alloc);
    let variables = Bound {
        scope: &running.variables,
        values: bindings.variables(),
    };
    sources.push(variables)?;
    add_rows(running, bindings, running.aliases.as_slice(), &mut sources)?;
    Ok(sources)
}

/// A row more for each alias.
#[tactic(auto, using(crate::proofs::Sources::one_more))]
fn add_rows<'a>(
    running: &'a Running<'a>,
    bindings: &'a Bindings,
    aliases: &'a [(Image, Scope)],
    sources: &mut Vec<Bound<'a>>,
) -> Result<(), NoMemory>
    requires fit { AliasesFit (update_conflict_of running.now.conflict) bindings.now aliases.now }
    requires rows { AreRows sources.old.items }
    ensures columns { OnOk result (columns_of sources.new.items ≡ columns_of sources.old.items ++ columns_left aliases.now) }
    ensures values { OnOk result (values_over sources.new.items ≡ values_over sources.old.items
        ++ values_left (update_conflict_of running.now.conflict) bindings.now aliases.now) }
    ensures rows { OnOk result (AreRows sources.new.items) }
{
    let Some((alias, after)) = aliases.split_first() else {
        return Ok(());
    };
    let row = Bound {
        scope: &alias.1,
        values: row_of(&running.conflict, bindings, alias.0),
    };
    sources.push(row)?;
    add_rows(running, bindings, after, sources)
}

/// The row that an alias stands for.
fn row_of<'a>(conflict: &Conflict<'a>, bindings: &'a Bindings, image: Image) -> &'a [Value]
    ensures row { result.now ≡ row_of (update_conflict_of conflict.now) bindings.now image }
{
    match image {
        Image::Old => conflict.stored,
        Image::New => bindings.row(),
        Image::Remote => conflict.remote,
    }
}
