//! Which tables a trigger names.

ghost use Rattle.std.specs.Prelude.{◌≡◌, is_some, IfOk};
ghost use Rattle.std.specs.List.{list_any};
ghost use Rattle.sr_catalog_triggers.specs.Triggers.{inserts_into, stmt_names, trigger_names};

use crate::looking::{Look, first_in};
use sr_ast::{Expr, Stmt};
use sr_base::{Name, NoMemory};
use sr_catalog_schema::{Trigger, owned, where_true};
use std::alloc::Global;

/// Whether one of the triggers stands on a table or inserts into it.
pub fn is_named(alloc: Global, table: &Name, triggers: &[Trigger]) -> Result<bool, NoMemory>
    ensures { IfOk result (λ named. named ≡ list_any (trigger_names table.now) triggers.now) }
{
    let mut rest = triggers;
    'triggers: while let Some((trigger, after)) = rest.split_first() {
        if trigger_names(alloc, table, trigger)? {
            return Ok(true);
        }
        rest = after;
    }
    Ok(false)
}

#[tactic(auto, unfolding(crate::specs::Triggers::trigger_names))]
fn trigger_names(alloc: Global, table: &Name, trigger: &Trigger) -> Result<bool, NoMemory>
    ensures { IfOk result (λ named. named ≡ trigger_names table.now trigger.now) }
{
    let inserted = stmt_names(alloc, table, &trigger.stmt)?;
    Ok(table.bytes() == trigger.table.bytes() || inserted)
}

fn stmt_names(alloc: Global, table: &Name, stmt: &Stmt) -> Result<bool, NoMemory>
    ensures { IfOk result (λ named. named ≡ stmt_names table.now stmt.now) }
{
    match stmt {
        Stmt::CreateTrigger(rule) => {
            let found = first_in(&InsertsInto { table }, alloc, &rule.actions)?;
            Ok(is_found(found))
        }
        _ => Ok(false),
    }
}

/// Looks for an INSERT into a table.
#[derive(Drop)]
struct InsertsInto<'a> {
    table: &'a Name,
}

impl<'a> Look for InsertsInto<'a> {
    ghost finds = { λ s part. inserts_into s.table.now part };

    fn in_set(
        &self,
        _alloc: Global,
        _alias: &Option<Name>,
        _name: &Name,
        _value: &Expr,
    ) -> Result<Option<Name>, NoMemory> {
        Ok(None)
    }

    fn in_insert(
        &self,
        alloc: Global,
        table: &Name,
        _columns: &[Name],
        _values: &[Expr],
    ) -> Result<Option<Name>, NoMemory> {
        owned(
            alloc,
            where_true(self.table.bytes() == table.bytes(), table),
        )
    }

    fn in_condition(&self, _alloc: Global, _condition: &Expr) -> Result<Option<Name>, NoMemory> {
        Ok(None)
    }
}

fn is_found(name: Option<Name>) -> bool
    ensures { result ≡ is_some name }
{
    match name {
        None => false,
        Some(_) => true,
    }
}
