//! Looking through the actions of a trigger, in the order of the text.

ghost use Rattle.std.specs.Prelude.{◌≡◌, ◌∷◌, [], List, ℕ, Option, map, IfOk};
ghost use Rattle.sr_ast.specs.Actions.{chain_of};
ghost use Rattle.sr_ast.specs.Exprs.{term_of};
ghost use Rattle.sr_catalog_triggers.specs.Triggers.{Part, first_in};
ghost use Rattle.sr_catalog_triggers.specs.Triggers.Part.{assigned, inserted, tested};

use sr_ast::{Action, Actions, Expr};
use sr_base::{Name, NoMemory};
use std::alloc::Global;

/// What is looked for in the parts of a trigger's actions.
pub trait Look: Drop {
    ghost finds: { Self → Part → Option (List ℕ) };

    /// What a SET gives.
    fn in_set(
        &self,
        alloc: Global,
        alias: &Option<Name>,
        name: &Name,
        value: &Expr,
    ) -> Result<Option<Name>, NoMemory>
        ensures found { IfOk result (λ found. found ≡ finds self.now (assigned alias.now name.now (term_of value.now))) };

    /// What an INSERT gives.
    fn in_insert(
        &self,
        alloc: Global,
        table: &Name,
        columns: &[Name],
        values: &[Expr],
    ) -> Result<Option<Name>, NoMemory>
        ensures found { IfOk result (λ found. found ≡ finds self.now (inserted table.now columns.now (map term_of values.now))) };

    /// What the condition of an IF gives.
    fn in_condition(&self, alloc: Global, condition: &Expr) -> Result<Option<Name>, NoMemory>
        ensures found { IfOk result (λ found. found ≡ finds self.now (tested (term_of condition.now))) };
}

/// What the first part gives that gives something.
#[cycle(looking)]
pub fn first_in<L: Look>(
    look: &L,
    alloc: Global,
    actions: &Actions,
) -> Result<Option<Name>, NoMemory>
    ensures found { IfOk result (λ found. found ≡ first_in (L.finds look.now) actions.now) }
{
    'actions: for action in actions.as_slice() {
        if let Some(name) = first_at(look, alloc, action)? {
            return Ok(Some(name));
        }
    }
    Ok(None)
}

#[cycle(looking)]
fn first_at<L: Look>(look: &L, alloc: Global, action: &Action) -> Result<Option<Name>, NoMemory>
    ensures found { IfOk result (λ found. found ≡ first_in (L.finds look.now) (chain_of (action.now ∷ []))) }
{
    match action {
        Action::Set(alias, name, value) => look.in_set(alloc, alias, name, value),
        Action::Insert(table, columns, values) => {
            look.in_insert(alloc, table, columns.as_slice(), values.as_slice())
        }
        Action::If(condition, taken) => {
            if let Some(name) = look.in_condition(alloc, condition)? {
                return Ok(Some(name));
            }
            first_in(look, alloc, taken)
        }
        Action::IfElse(condition, taken, other) => {
            if let Some(name) = look.in_condition(alloc, condition)? {
                return Ok(Some(name));
            }
            if let Some(name) = first_in(look, alloc, taken)? {
                return Ok(Some(name));
            }
            first_in(look, alloc, other)
        }
    }
}
