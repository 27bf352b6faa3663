ghost use Rattle.std.specs.Prelude.{◌≡◌, IfOk};
ghost use Rattle.sr_ast.specs.Actions.{chain_of};

use crate::copying::copy_three;
use crate::expr::Expr;
use sr_base::{Copied, Name, NoMemory, Seq};
use std::alloc::Global;
use std::marker::Model;

/// An action of a trigger.
#[cycle(action)]
#[derive(Drop)]
pub enum Action {
    /// `SET alias.name = value`, or without an alias a variable.
    Set(Option<Name>, Name, Expr),
    /// `INSERT INTO table (columns) VALUES (values)`; no columns where none are written.
    Insert(Name, Seq<Name>, Seq<Expr>),
    /// `IF condition THEN actions END IF`
    If(Expr, Actions),
    /// `IF condition THEN actions ELSE actions END IF`
    IfElse(Expr, Actions, Actions),
}

/// Actions in order. Contracts see them as the chain that they are.
#[cycle(action)]
#[derive(Drop)]
pub struct Actions {
    actions: Vec<Action>,
}

impl Model for Actions {
    ghost use Rattle.sr_ast.specs.Chains.{Chain};
    ghost use Rattle.sr_ast.specs.Inner.Chains.{chain_code, chain_size};

    ghost Value = { Chain };

    ghost coded = { chain_code };

    ghost use Rattle.sr_ast.specs.Actions.{chain_of};

    ghost view = { λ a. chain_of a.actions.items };

    ghost size = { chain_size };

    ghost use Rattle.sr_ast.specs.Inner.ActionFalls.{actions_fall};

    ghost size_decreases = { λ a h. actions_fall a.actions.items };
}

impl Actions {
    /// The actions of `actions`, in their order.
    pub fn from_vec(actions: Vec<Action>) -> Actions
        ensures chain { result ≡ chain_of actions.items }
    {
        Actions { actions }
    }

    /// The actions in order.
    pub fn as_slice(&self) -> &[Action]
        ensures chain { chain_of result.now ≡ self.now }
    {
        self.actions.as_slice()
    }
}

impl Copied for Action {
    fn copy(&self, alloc: Global) -> Result<Action, NoMemory> {
        copy_action(self, alloc)
    }
}

impl Copied for Actions {
    fn copy(&self, alloc: Global) -> Result<Actions, NoMemory> {
        copy_actions(self, alloc)
    }
}

#[cycle(copying_actions)]
fn copy_action(action: &Action, alloc: Global) -> Result<Action, NoMemory>
    ensures equal { IfOk result (λ copy. copy ≡ action.now) }
{
    match action {
        Action::Set(alias, name, value) => copy_set(alias, name, value, alloc),
        Action::Insert(table, columns, values) => copy_insert(table, columns, values, alloc),
        Action::If(condition, taken) => copy_if(condition, copy_actions(taken, alloc)?, alloc),
        Action::IfElse(condition, taken, other) => {
            let taken = copy_actions(taken, alloc)?;
            copy_if_else(condition, taken, copy_actions(other, alloc)?, alloc)
        }
    }
}

fn copy_set(
    alias: &Option<Name>,
    name: &Name,
    value: &Expr,
    alloc: Global,
) -> Result<Action, NoMemory>
    ensures equal { IfOk result (λ copy. copy ≡ Action.Set alias.now name.now value.now) }
{
    let (alias, name, value) = copy_three(alias, name, value, alloc)?;
    Ok(Action::Set(alias, name, value))
}

fn copy_insert(
    table: &Name,
    columns: &Seq<Name>,
    values: &Seq<Expr>,
    alloc: Global,
) -> Result<Action, NoMemory>
    ensures equal { IfOk result (λ copy. copy ≡ Action.Insert table.now columns.now values.now) }
{
    let (table, columns, values) = copy_three(table, columns, values, alloc)?;
    Ok(Action::Insert(table, columns, values))
}

/// An IF with a copy of this condition.
fn copy_if(condition: &Expr, taken: Actions, alloc: Global) -> Result<Action, NoMemory>
    ensures equal { IfOk result (λ copy. copy ≡ Action.If condition.now taken) }
{
    Ok(Action::If(condition.copy(alloc)?, taken))
}

/// An IF with an ELSE, with a copy of this condition.
fn copy_if_else(
    condition: &Expr,
    taken: Actions,
    other: Actions,
    alloc: Global,
) -> Result<Action, NoMemory>
    ensures equal { IfOk result (λ copy. copy ≡ Action.IfElse condition.now taken other) }
{
    Ok(Action::IfElse(condition.copy(alloc)?, taken, other))
}

#[cycle(copying_actions)]
fn copy_actions(actions: &Actions, alloc: Global) -> Result<Actions, NoMemory>
    ensures equal { IfOk result (λ copy. copy ≡ actions.now) }
{
    let mut copies = Vec::new(alloc);
    'actions: for action in actions.as_slice() {
        copies.push(copy_action(action, alloc)?)?;
    }
    Ok(Actions::from_vec(copies))
}
