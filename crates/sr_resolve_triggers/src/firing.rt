//! Which triggers a conflict fires, and what they leave.

ghost use Rattle.std.specs.Prelude.{◌≡◌, IfOk, OnOk};
ghost use Rattle.std.specs.List.{list_any};
ghost use Rattle.std.specs.Option.{option_copied};
ghost use Rattle.sr_exec_fits.specs.Rows.{IsRow};
ghost use Rattle.sr_resolve_triggers.specs.Actions.{acted};
ghost use Rattle.sr_resolve_triggers.specs.Firing.{after_trigger, entered, fired, firing, is_fired};
ghost use Rattle.sr_resolve_triggers.specs.Inner.Running.{update_conflict_of, Went};
ghost use Rattle.sr_resolve_triggers.specs.Bindings.{UpdateConflictFits};
ghost use Rattle.sr_catalog_schema.specs.Firsts.{has};

use crate::acting::act_all;
use crate::bindings::Bindings;
use crate::conflict::Conflict;
use crate::fired::Fired;
use crate::running::ready;
use sr_ast::{CreateTrigger, Stmt};
use sr_base::{Name, NoMemory, Value};
use sr_catalog::Trigger;
use std::alloc::Global;

/// What the triggers of the table make of a conflict in which these columns of the update differ, where `row` is the stored row with the
/// values that came in. None where a trigger fails.
///
/// Triggers fire in order of creation, one that names columns behind OF where one of them differs. Each begins with its variables NULL
/// and with the row and the inserts that the one before has left. It takes a look at each trigger of the catalog, and the time of the
/// actions of those that fire.
#[tactic(auto, unfolding(crate::specs::Firing::fired))]
pub fn fire(
    alloc: Global,
    conflict: &Conflict,
    differing: &[Name],
    row: Vec<Value>,
) -> Result<Option<Fired>, NoMemory>
    requires base { UpdateConflictFits (update_conflict_of conflict.now) }
    requires row { IsRow conflict.now.table.now.columns row.items }
    ensures fired { IfOk result (λ f. f ≡ fired (update_conflict_of conflict.now) differing.now row.items) }
{
    let mut bindings = Bindings::begin(alloc, row);
    let mut left = conflict.catalog.triggers();
    'triggers: while let Some((trigger, rest)) = left.split_first() {
        let rule = firing(&conflict.table.name, differing, trigger);
        if !run(alloc, conflict, rule, &mut bindings)? {
            return Ok(None);
        }
        left = rest;
    }
    Ok(Some(bindings.into_fired(alloc)?))
}

/// A trigger's statement, where it stands on the table and fires.
fn firing<'a>(table: &Name, differing: &[Name], trigger: &'a Trigger) -> Option<&'a CreateTrigger>
    ensures rule { option_copied result ≡ firing table.now differing.now trigger.now }
{
    if table.bytes() != trigger.table.bytes() {
        return None;
    }
    match &trigger.stmt {
        Stmt::CreateTrigger(rule) => {
            if is_fired(differing, rule.columns.as_slice()) {
                Some(rule)
            } else {
                None
            }
        }
        _ => None,
    }
}

/// Whether a trigger fires that names these columns: one of them differs, or it names none. Each looks at the columns that differ.
fn is_fired(differing: &[Name], columns: &[Name]) -> bool
    ensures { result ≡ is_fired differing.now columns.now }
{
    match columns {
        [] => true,
        [_, ..] => is_any_among(differing, columns),
    }
}

/// Whether one of these columns differs.
fn is_any_among(differing: &[Name], columns: &[Name]) -> bool
    ensures { result ≡ list_any (has differing.now) columns.now }
{
    columns.iter().any(|name| is_among(differing, name))
}

/// Whether a name is among names.
fn is_among(names: &[Name], name: &Name) -> bool
    ensures { result ≡ has names.now name.now }
{
    names.iter().any(|other| other.bytes() == name.bytes())
}

/// Runs a trigger, if it fires. Tells whether its actions went well.
fn run(
    alloc: Global,
    conflict: &Conflict,
    rule: Option<&CreateTrigger>,
    bindings: &mut Bindings,
) -> Result<bool, NoMemory>
    requires base { UpdateConflictFits (update_conflict_of conflict.now) }
    requires row { IsRow conflict.now.table.now.columns bindings.old.new }
    ensures ran { IfOk result (λ went. Went went bindings.new (after_trigger (update_conflict_of conflict.now) (option_copied rule.entry) bindings.old)) }
    ensures row { OnOk result (IsRow conflict.now.table.now.columns bindings.new.new) }
{
    let Some(rule) = rule else {
        return Ok(true);
    };
    run_rule(alloc, conflict, rule, bindings)
}

/// Runs a trigger that fires.
fn run_rule(
    alloc: Global,
    conflict: &Conflict,
    rule: &CreateTrigger,
    bindings: &mut Bindings,
) -> Result<bool, NoMemory>
    requires base { UpdateConflictFits (update_conflict_of conflict.now) }
    requires row { IsRow conflict.now.table.now.columns bindings.old.new }
    ensures ran { IfOk result (λ went. Went went bindings.new (acted (update_conflict_of conflict.now) rule.now rule.now.actions (entered rule.now bindings.old))) }
    ensures row { OnOk result (IsRow conflict.now.table.now.columns bindings.new.new) }
{
    bindings.enter(alloc, rule)?;
    let running = ready(alloc, conflict, rule)?;
    act_all(alloc, &running, bindings, &rule.actions)
}
