//! What a trigger names that is not there.

ghost use Rattle.std.specs.Prelude.{◌≡◌, map, IfOk};
ghost use Rattle.std.specs.Option.{option_copied};
ghost use Rattle.sr_ast.specs.Exprs.{term_of};
ghost use Rattle.sr_catalog_schema.specs.Firsts.{first_among};
ghost use Rattle.sr_catalog_triggers.specs.Triggers.{absent_behind, absent_ref, absent_of, absent_target, absent_columns, absent_in_part, trigger_scope};

use crate::looking::{Look, first_in};
use crate::scope::TriggerScope;
use sr_ast::{Columns, Expr};
use sr_base::{Copied, Name, NoMemory};
use sr_catalog_schema::{Schema, Table, add_refs, first_absent_column};
use std::alloc::Global;

/// The first column behind OF, or what its actions name, that is not there.
pub(crate) fn absent_behind(
    schema: &Schema,
    alloc: Global,
    scope: &TriggerScope,
) -> Result<Option<Name>, NoMemory>
    ensures { IfOk result (λ found. found ≡ absent_behind schema.now.tables scope.now.0 scope.now.1) }
{
    let rule = scope.rule();
    if let Some(column) = first_absent_column(alloc, scope.table(), rule.columns.as_slice())? {
        return Ok(Some(column));
    }
    first_in(&Absent { schema, scope }, alloc, &rule.actions)
}

/// Looks for what is not there.
#[derive(Drop)]
struct Absent<'a> {
    schema: &'a Schema,
    scope: &'a TriggerScope<'a>,
}

impl<'a> Look for Absent<'a> {
    ghost finds = { λ s part. absent_in_part s.schema.now.tables s.scope.now.0.aliases (trigger_scope s.scope.now.0 s.scope.now.1) part };

    #[tactic(auto, unfolding(crate::specs::Triggers::absent_in_part))]
    fn in_set(
        &self,
        alloc: Global,
        alias: &Option<Name>,
        name: &Name,
        value: &Expr,
    ) -> Result<Option<Name>, NoMemory> {
        if let Some(target) = absent_target(alloc, self.scope, alias, name)? {
            return Ok(Some(target));
        }
        absent_of(alloc, self.scope, value)
    }

    #[tactic(auto, unfolding(crate::specs::Triggers::absent_in_part))]
    fn in_insert(
        &self,
        alloc: Global,
        table: &Name,
        columns: &[Name],
        values: &[Expr],
    ) -> Result<Option<Name>, NoMemory> {
        if let Some(outside) = absent_columns(alloc, table, columns, self.schema.table(table))? {
            return Ok(Some(outside));
        }
        first_absent_of(alloc, self.scope, values)
    }

    #[tactic(auto, unfolding(crate::specs::Triggers::absent_in_part))]
    fn in_condition(&self, alloc: Global, condition: &Expr) -> Result<Option<Name>, NoMemory> {
        absent_of(alloc, self.scope, condition)
    }
}

/// What stands behind an alias that is there, and is no column.
fn absent_target(
    alloc: Global,
    scope: &TriggerScope,
    alias: &Option<Name>,
    name: &Name,
) -> Result<Option<Name>, NoMemory>
    ensures { IfOk result (λ found. found ≡ absent_target scope.now.0.aliases (trigger_scope scope.now.0 scope.now.1) alias.now name.now) }
{
    let Some(behind) = alias else {
        return Ok(None);
    };
    if scope.has_alias(behind) {
        absent_ref(alloc, scope, alias, name)
    } else {
        Ok(None)
    }
}

/// A column behind an alias, where it is not there.
fn absent_ref(
    alloc: Global,
    scope: &TriggerScope,
    alias: &Option<Name>,
    name: &Name,
) -> Result<Option<Name>, NoMemory>
    ensures { IfOk result (λ found. found ≡ absent_ref (trigger_scope scope.now.0 scope.now.1) alias.now name.now) }
{
    if alias.is_none() {
        return Ok(None);
    }
    match scope.kind_of(alias, name) {
        Some(_) => Ok(None),
        None => Ok(Some(name.copy(alloc)?)),
    }
}

/// The leftmost column behind an alias that is not there.
fn absent_of(alloc: Global, scope: &TriggerScope, expr: &Expr) -> Result<Option<Name>, NoMemory>
    ensures { IfOk result (λ found. found ≡ absent_of (trigger_scope scope.now.0 scope.now.1) (term_of expr.now)) }
{
    let mut found = Vec::new(alloc);
    add_refs(alloc, expr, &mut found)?;
    let mut rest = found.as_slice();
    'refs: while let Some((reference, after)) = rest.split_first() {
        if let Some(name) = absent_ref(alloc, scope, &reference.0, &reference.1)? {
            return Ok(Some(name));
        }
        rest = after;
    }
    Ok(None)
}

fn first_absent_of(
    alloc: Global,
    scope: &TriggerScope,
    values: &[Expr],
) -> Result<Option<Name>, NoMemory>
    ensures { IfOk result (λ found. found ≡ first_among (absent_of (trigger_scope scope.now.0 scope.now.1)) (map term_of values.now)) }
{
    let mut rest = values;
    'values: while let Some((value, after)) = rest.split_first() {
        if let Some(name) = absent_of(alloc, scope, value)? {
            return Ok(Some(name));
        }
        rest = after;
    }
    Ok(None)
}

/// The table of an INSERT, or the first of its columns, that is not there.
fn absent_columns(
    alloc: Global,
    name: &Name,
    columns: &[Name],
    table: Option<&Table>,
) -> Result<Option<Name>, NoMemory>
    ensures { IfOk result (λ found. found ≡ absent_columns name.now columns.now (option_copied table.entry)) }
{
    match table {
        None => Ok(Some(name.copy(alloc)?)),
        Some(table) => first_absent_column(alloc, table, columns),
    }
}
