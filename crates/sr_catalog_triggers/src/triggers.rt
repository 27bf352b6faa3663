//! What speaks against CREATE TRIGGER and DROP TRIGGER, and the trigger that is made.

ghost use Rattle.std.specs.Prelude.{◌≡◌, nat_le, length, IfOk};
ghost use Rattle.std.specs.Option.{option_copied};
ghost use Rattle.sr_catalog_schema.specs.Causes.{first_fault};
ghost use Rattle.sr_catalog_schema.specs.Firsts.{where_true};
ghost use Rattle.sr_catalog_triggers.specs.Triggers.{taken_or_twice, twice_in, create_trigger_causes, trigger_of, drop_trigger_causes};
ghost use Rattle.sr_catalog_triggers.specs.Inner.Triggers.{fault_behind, inside_fault};

use crate::absent::absent_behind;
use crate::bad::bad_behind;
use crate::looking::{Look, first_in};
use crate::scope::TriggerScope;
use sr_ast::{CreateTrigger, Expr, Stmt};
use sr_base::{Copied, Name, NoMemory};
use sr_catalog_schema::{
    DdlFault, Schema, Table, Trigger, first_twice, is_full, limit_where, missing_fault, owned,
    too_many_fault, where_true,
};
use std::alloc::Global;

/// The fault that refuses CREATE TRIGGER. Each is looked for where those before do not hold, in a time linear in the statement.
#[tactic(auto, unfolding(crate::specs::Triggers::create_trigger_causes, sr_catalog_schema::specs::Causes::first_fault))]
pub fn create_trigger_fault(
    schema: &Schema,
    alloc: Global,
    rule: &CreateTrigger,
) -> Result<Option<DdlFault>, NoMemory>
    ensures { IfOk result (λ fault. fault ≡ first_fault (create_trigger_causes schema.now rule.now)) }
{
    if let Some(name) = exists(schema, alloc, rule)? {
        return Ok(Some(DdlFault::Exists { name }));
    }
    if let Some(fault) = inside_fault(schema, alloc, rule, schema.table(&rule.table))? {
        return Ok(Some(fault));
    }
    Ok(too_many_fault(too_many(schema)))
}

/// What a trigger names that is not there, or else a fault in its variables and actions.
#[tactic(auto, unfolding(crate::specs::Triggers::absent_in_trigger, crate::specs::Triggers::bad_in_trigger))]
fn inside_fault(
    schema: &Schema,
    alloc: Global,
    rule: &CreateTrigger,
    table: Option<&Table>,
) -> Result<Option<DdlFault>, NoMemory>
    ensures { IfOk result (λ fault. fault ≡ inside_fault schema.now.tables rule.now (option_copied table.entry)) }
{
    match table {
        None => Ok(Some(DdlFault::Missing {
            name: rule.table.copy(alloc)?,
        })),
        Some(table) => fault_behind(schema, alloc, rule, table),
    }
}

/// The same, where its table is there. The scope is made for both.
fn fault_behind(
    schema: &Schema,
    alloc: Global,
    rule: &CreateTrigger,
    table: &Table,
) -> Result<Option<DdlFault>, NoMemory>
    ensures { IfOk result (λ fault. fault ≡ fault_behind schema.now.tables rule.now table.now) }
{
    let scope = TriggerScope::new(alloc, rule, table)?;
    let found = fault_in(schema, alloc, &scope);
    drop(scope);
    found
}

/// The same over its scope.
fn fault_in(
    schema: &Schema,
    alloc: Global,
    scope: &TriggerScope,
) -> Result<Option<DdlFault>, NoMemory>
    ensures { IfOk result (λ fault. fault ≡ fault_behind schema.now.tables scope.now.0 scope.now.1) }
{
    if let Some(name) = absent_behind(schema, alloc, scope)? {
        return Ok(Some(DdlFault::Missing { name }));
    }
    if let Some(name) = bad_behind(schema, alloc, scope)? {
        return Ok(Some(DdlFault::BadType { name }));
    }
    Ok(None)
}

fn exists(schema: &Schema, alloc: Global, rule: &CreateTrigger) -> Result<Option<Name>, NoMemory>
    ensures { IfOk result (λ found. found ≡ taken_or_twice schema.now rule.now) }
{
    if schema.has_trigger(&rule.name) {
        return Ok(Some(rule.name.copy(alloc)?));
    }
    if let Some(column) = first_twice(alloc, rule.columns.as_slice())? {
        return Ok(Some(column.copy(alloc)?));
    }
    first_in(&Twice {}, alloc, &rule.actions)
}

/// 1,024 triggers already.
fn too_many(schema: &Schema) -> Option<u64>
    ensures { result ≡ where_true (nat_le 1024 (length schema.now.triggers)) 1024 }
{
    limit_where(is_full(schema.triggers().len(), 1024), 1024)
}

/// The fault that refuses DROP TRIGGER.
#[tactic(auto, unfolding(crate::specs::Triggers::drop_trigger_causes, sr_catalog_schema::specs::Causes::first_fault))]
pub fn drop_trigger_fault(
    schema: &Schema,
    alloc: Global,
    name: &Name,
) -> Result<Option<DdlFault>, NoMemory>
    ensures { IfOk result (λ fault. fault ≡ first_fault (drop_trigger_causes schema.now name.now)) }
{
    let missing = owned(alloc, where_true(!schema.has_trigger(name), name))?;
    Ok(missing_fault(missing))
}

/// The trigger that CREATE TRIGGER makes.
pub fn trigger_of(alloc: Global, rule: &CreateTrigger) -> Result<Trigger, NoMemory>
    ensures { IfOk result (λ trigger. trigger ≡ trigger_of rule.now) }
{
    Ok(Trigger {
        name: rule.name.copy(alloc)?,
        table: rule.table.copy(alloc)?,
        stmt: Stmt::CreateTrigger(rule.copy(alloc)?),
    })
}

/// Looks for a column that an INSERT names twice.
#[derive(Drop)]
struct Twice {}

impl Look for Twice {
    ghost finds = { λ s part. twice_in part };

    fn in_set(
        &self,
        _alloc: Global,
        _alias: &Option<Name>,
        _name: &Name,
        _value: &Expr,
    ) -> Result<Option<Name>, NoMemory> {
        Ok(None)
    }

    fn in_insert(
        &self,
        alloc: Global,
        _table: &Name,
        columns: &[Name],
        _values: &[Expr],
    ) -> Result<Option<Name>, NoMemory> {
        let found = first_twice(alloc, columns)?;
        owned(alloc, found)
    }

    fn in_condition(&self, _alloc: Global, _condition: &Expr) -> Result<Option<Name>, NoMemory> {
        Ok(None)
    }
}
