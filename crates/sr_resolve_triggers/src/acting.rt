//! The actions of a trigger, one after the other.

ghost use Rattle.std.specs.Prelude.{◌∷◌, [], IfOk, OnOk};
ghost use Rattle.sr_ast.specs.Actions.{chain_of};
ghost use Rattle.sr_resolve_triggers.specs.Actions.{acted};
ghost use Rattle.sr_resolve_triggers.specs.Inner.Running.{update_conflict_of, IsReady, Went};
ghost use Rattle.sr_resolve_triggers.specs.Bindings.{UpdateConflictFits, BindingsFits};

use crate::bindings::Bindings;
use crate::inserting::insert;
use crate::running::{Running, truth};
use crate::setting::set;
use sr_ast::{Action, Actions};
use sr_base::NoMemory;
use std::alloc::Global;

/// Actions in order, up to the first that fails. Tells whether all went well.
#[cycle(acting)]
#[tactic(auto, using(crate::proofs::Chained::one_by_one))]
pub(crate) fn act_all(
    alloc: Global,
    running: &Running,
    bindings: &mut Bindings,
    actions: &Actions,
) -> Result<bool, NoMemory>
    requires ready { IsReady running.now }
    requires base { UpdateConflictFits (update_conflict_of running.now.conflict) }
    requires bindings { BindingsFits (update_conflict_of running.now.conflict) running.now.trigger.now.variables bindings.old }
    ensures acted { IfOk result (λ went. Went went bindings.new (acted (update_conflict_of running.now.conflict) running.now.trigger.now actions.now bindings.old)) }
    ensures bindings { OnOk result (BindingsFits (update_conflict_of running.now.conflict) running.now.trigger.now.variables bindings.new) }
{
    'actions: for action in actions.as_slice() {
        if !act(alloc, running, bindings, action)? {
            return Ok(false);
        }
    }
    Ok(true)
}

/// An action. Of an IF the branch is taken by the truth of its condition: what is false or unknown goes to ELSE.
#[cycle(acting)]
#[tactic(auto, using(crate::proofs::Chained::alone))]
fn act(
    alloc: Global,
    running: &Running,
    bindings: &mut Bindings,
    action: &Action,
) -> Result<bool, NoMemory>
    requires ready { IsReady running.now }
    requires base { UpdateConflictFits (update_conflict_of running.now.conflict) }
    requires bindings { BindingsFits (update_conflict_of running.now.conflict) running.now.trigger.now.variables bindings.old }
    ensures acted { IfOk result (λ went. Went went bindings.new (acted (update_conflict_of running.now.conflict) running.now.trigger.now (chain_of
        (action.now ∷ [])) bindings.old)) }
    ensures bindings { OnOk result (BindingsFits (update_conflict_of running.now.conflict) running.now.trigger.now.variables bindings.new) }
{
    match action {
        Action::Set(alias, name, expr) => set(alloc, running, bindings, alias, name, expr),
        Action::Insert(table, columns, exprs) => insert(
            alloc,
            running,
            bindings,
            table,
            columns.as_slice(),
            exprs.as_slice(),
        ),
        Action::If(condition, taken) => match truth(alloc, running, bindings, condition)? {
            None => Ok(false),
            Some(true) => act_all(alloc, running, bindings, taken),
            Some(false) => Ok(true),
        },
        Action::IfElse(condition, taken, other) => match truth(
            alloc, running, bindings, condition,
        )? {
            None => Ok(false),
            Some(true) => act_all(alloc, running, bindings, taken),
            Some(false) => act_all(alloc, running, bindings, other),
        },
    }
}
