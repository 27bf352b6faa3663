//! SET.

ghost use Rattle.std.specs.Prelude.{◌≡◌, IfOk, OnOk, Some, None};
ghost use Rattle.sr_ast.specs.Exprs.{term_of};
ghost use Rattle.sr_resolve_triggers.specs.Actions.{after_set, value_in};
ghost use Rattle.sr_resolve_triggers.specs.Inner.Running.{update_conflict_of, IsReady, Went};
ghost use Rattle.sr_resolve_triggers.specs.Bindings.{UpdateConflictFits, BindingsFits};
ghost use Rattle.sr_catalog_triggers.specs.Triggers.{image_of, is_new, is_target};

use crate::bindings::Bindings;
use crate::columns::{held_by, held_in, is_of_key};
use crate::running::{Running, value};
use sr_ast::{CreateTrigger, Expr, Image};
use sr_base::{Name, NoMemory, Value};
use sr_catalog::Table;
use sr_catalog_schema::{item_at, item_named, place_named};
use std::alloc::Global;

/// SET of a variable, or of a column of NEW that is not of the key. It fails where the value passes its type's end, does not fit, or is a
/// NULL that may not stand.
pub(crate) fn set(
    alloc: Global,
    running: &Running,
    bindings: &mut Bindings,
    alias: &Option<Name>,
    name: &Name,
    expr: &Expr,
) -> Result<bool, NoMemory>
    requires ready { IsReady running.now }
    requires base { UpdateConflictFits (update_conflict_of running.now.conflict) }
    requires bindings { BindingsFits (update_conflict_of running.now.conflict) running.now.trigger.now.variables bindings.old }
    ensures set { IfOk result (λ went. Went went bindings.new (after_set (update_conflict_of running.now.conflict) running.now.trigger.now alias.now name.now
        (value_in (update_conflict_of running.now.conflict) running.now.trigger.now bindings.old (term_of expr.now)) bindings.old)) }
    ensures bindings { OnOk result (BindingsFits (update_conflict_of running.now.conflict) running.now.trigger.now.variables bindings.new) }
{
    let value = value(alloc, running, bindings, expr)?;
    match alias {
        None => Ok(set_variable(running, bindings, name, value)),
        Some(alias) => Ok(set_new(running, bindings, alias, name, value)),
    }
}

/// SET of a variable.
#[tactic(auto, unfolding(crate::specs::Actions::after_set))]
fn set_variable(
    running: &Running,
    bindings: &mut Bindings,
    name: &Name,
    value: Option<Value>,
) -> bool
    requires bindings { BindingsFits (update_conflict_of running.now.conflict) running.now.trigger.now.variables bindings.old }
    ensures set { Went result bindings.new (after_set (update_conflict_of running.now.conflict) running.now.trigger.now None name.now value bindings.old) }
    ensures bindings { BindingsFits (update_conflict_of running.now.conflict) running.now.trigger.now.variables bindings.new }
{
    let variables = running.trigger.variables.as_slice();
    let Some(place) = place_named(name, variables) else {
        return false;
    };
    let Some(variable) = item_at(variables, place) else {
        return false;
    };
    let Some(held) = held_in(variable, value) else {
        return false;
    };
    bindings.set_variable(place, held);
    true
}

/// SET of a column of NEW. It looks at each column up to that one, and at those of the key.
#[tactic(auto, unfolding(crate::specs::Actions::after_set))]
fn set_new(
    running: &Running,
    bindings: &mut Bindings,
    alias: &Name,
    name: &Name,
    value: Option<Value>,
) -> bool
    requires bindings { BindingsFits (update_conflict_of running.now.conflict) running.now.trigger.now.variables bindings.old }
    ensures set { Went result bindings.new (after_set (update_conflict_of running.now.conflict) running.now.trigger.now (Some alias.now) name.now value bindings.old) }
    ensures bindings { BindingsFits (update_conflict_of running.now.conflict) running.now.trigger.now.variables bindings.new }
{
    let table = running.conflict.table;
    if !is_target(running.trigger, table, alias, name) {
        return false;
    }
    let columns = table.columns.as_slice();
    let Some(place) = place_named(name, columns) else {
        return false;
    };
    let Some(column) = item_at(columns, place) else {
        return false;
    };
    let Some(held) = held_by(column, value) else {
        return false;
    };
    bindings.set_row(place, held);
    true
}

/// Whether SET may write a column behind an alias: the alias is that of NEW, and the column is not of the key.
fn is_target(trigger: &CreateTrigger, table: &Table, alias: &Name, name: &Name) -> bool
    ensures { result ≡ is_target trigger.now table.now (Some alias.now) name.now }
{
    if !is_new(trigger, alias) {
        return false;
    }
    !is_of_key(table, name)
}

/// Whether an alias is that of NEW.
fn is_new(trigger: &CreateTrigger, alias: &Name) -> bool
    ensures { result ≡ is_new (image_of trigger.now.aliases alias.now) }
{
    match item_named(alias, trigger.aliases.as_slice()) {
        None => false,
        Some(alias) => match alias.0 {
            Image::New => true,
            Image::Old => false,
            Image::Remote => false,
        },
    }
}
