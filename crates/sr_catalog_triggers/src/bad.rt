//! What may not stand in a trigger: a wrong target, a wrong count of values, an undeclared variable or a wrong class.

ghost use Rattle.std.specs.Prelude.{◌≡◌, map, nat_eq, is_some, not, IfOk};
ghost use Rattle.std.specs.List.{list_any};
ghost use Rattle.std.specs.Option.{option_copied};
ghost use Rattle.sr_ast.specs.Exprs.{term_of};
ghost use Rattle.sr_ast.specs.Uses.{gives_truth, gives_value};
ghost use Rattle.sr_catalog_schema.specs.Firsts.{where_true, first_twice};
ghost use Rattle.sr_catalog_triggers.specs.Triggers.{variable_name, is_undeclared, has_undeclared, is_bad_expr, is_target, wanted, is_bad_part, bad_behind, trigger_scope};

use crate::looking::{Look, first_in};
use crate::scope::TriggerScope;
use sr_ast::{CreateTrigger, Expr, class_among, gives_truth, gives_value};
use sr_base::{Copied, Name, NoMemory};
use sr_catalog_schema::{Schema, Table, add_refs, first_twice_of, owned, where_true};
use std::alloc::Global;

/// The trigger's name, where it declares a variable twice or has a bad part.
pub(crate) fn bad_behind(
    schema: &Schema,
    alloc: Global,
    scope: &TriggerScope,
) -> Result<Option<Name>, NoMemory>
    ensures { IfOk result (λ found. found ≡ bad_behind schema.now.tables scope.now.0 scope.now.1) }
{
    let rule = scope.rule();
    if declares_twice(alloc, rule)? {
        return Ok(Some(rule.name.copy(alloc)?));
    }
    first_in(&Bad { schema, scope }, alloc, &rule.actions)
}

fn declares_twice(alloc: Global, rule: &CreateTrigger) -> Result<bool, NoMemory>
    ensures { IfOk result (λ twice. twice ≡ is_some (first_twice (map variable_name rule.now.variables))) }
{
    match first_twice_of(alloc, rule.variables.as_slice())? {
        None => Ok(false),
        Some(_) => Ok(true),
    }
}

/// Looks for a wrong target, a wrong count of values, an undeclared variable or a wrong class.
#[derive(Drop)]
struct Bad<'a> {
    schema: &'a Schema,
    scope: &'a TriggerScope<'a>,
}

impl<'a> Look for Bad<'a> {
    ghost finds = { λ s part. where_true (is_bad_part s.scope.now.0 s.schema.now.tables s.scope.now.1 (trigger_scope s.scope.now.0 s.scope.now.1) part) s.scope.now.0.name };

    #[tactic(auto, unfolding(crate::specs::Triggers::is_bad_part))]
    fn in_set(
        &self,
        alloc: Global,
        alias: &Option<Name>,
        name: &Name,
        value: &Expr,
    ) -> Result<Option<Name>, NoMemory> {
        let bad = !is_target(self.scope, alias, name) || is_bad_value(alloc, self.scope, value)?;
        owned(alloc, where_true(bad, &self.scope.rule().name))
    }

    #[tactic(auto, unfolding(crate::specs::Triggers::is_bad_part))]
    fn in_insert(
        &self,
        alloc: Global,
        table: &Name,
        columns: &[Name],
        values: &[Expr],
    ) -> Result<Option<Name>, NoMemory> {
        let wanted = wanted(columns, self.schema.table(table));
        let other = is_other_count(values.len(), wanted);
        let bad = other || has_bad_value(alloc, self.scope, values)?;
        owned(alloc, where_true(bad, &self.scope.rule().name))
    }

    #[tactic(auto, unfolding(crate::specs::Triggers::is_bad_part))]
    fn in_condition(&self, alloc: Global, condition: &Expr) -> Result<Option<Name>, NoMemory> {
        let bad = is_bad_condition(alloc, self.scope, condition)?;
        owned(alloc, where_true(bad, &self.scope.rule().name))
    }
}

/// Whether SET may write it: a variable, or a column of NEW that is not of the key.
fn is_target(scope: &TriggerScope, alias: &Option<Name>, name: &Name) -> bool
    ensures { result ≡ is_target scope.now.0 scope.now.1 alias.now name.now }
{
    match alias {
        None => scope.has_variable(name),
        Some(alias) => scope.is_new(alias) && !scope.is_in_key(name),
    }
}

fn is_other_count(count: usize, wanted: usize) -> bool
    ensures { result ≡ not (nat_eq count wanted) }
{
    count != wanted
}

/// How many values an INSERT has to give.
fn wanted(columns: &[Name], table: Option<&Table>) -> usize
    ensures { result ≡ wanted columns.now (option_copied table.entry) }
{
    match table {
        None => columns.len(),
        Some(table) => {
            if columns.len() == 0 {
                table.columns.as_slice().len()
            } else {
                columns.len()
            }
        }
    }
}

fn has_undeclared(alloc: Global, scope: &TriggerScope, expr: &Expr) -> Result<bool, NoMemory>
    ensures { IfOk result (λ found. found ≡ has_undeclared scope.now.0.variables (term_of expr.now)) }
{
    let mut found = Vec::new(alloc);
    add_refs(alloc, expr, &mut found)?;
    Ok(is_any_undeclared(scope, found.as_slice()))
}

fn is_any_undeclared(scope: &TriggerScope, references: &[(Option<Name>, Name)]) -> bool
    ensures { result ≡ list_any (λ r. is_undeclared scope.now.0.variables r.0 r.1) references.now }
{
    references.iter().any(|reference| is_undeclared(scope, &reference.0, &reference.1))
}

/// Whether a name without a dot is no variable.
fn is_undeclared(scope: &TriggerScope, alias: &Option<Name>, name: &Name) -> bool
    ensures { result ≡ is_undeclared scope.now.0.variables alias.now name.now }
{
    match alias {
        None => !scope.has_variable(name),
        Some(_) => false,
    }
}

fn is_bad_value(alloc: Global, scope: &TriggerScope, expr: &Expr) -> Result<bool, NoMemory>
    ensures { IfOk result (λ bad. bad ≡ is_bad_expr gives_value scope.now.0.variables (trigger_scope scope.now.0 scope.now.1) (term_of expr.now)) }
{
    if has_undeclared(alloc, scope, expr)? {
        return Ok(true);
    }
    Ok(!gives_value(class_among(alloc, scope, expr)?))
}

fn is_bad_condition(alloc: Global, scope: &TriggerScope, expr: &Expr) -> Result<bool, NoMemory>
    ensures { IfOk result (λ bad. bad ≡ is_bad_expr gives_truth scope.now.0.variables (trigger_scope scope.now.0 scope.now.1) (term_of expr.now)) }
{
    if has_undeclared(alloc, scope, expr)? {
        return Ok(true);
    }
    Ok(!gives_truth(class_among(alloc, scope, expr)?))
}

fn has_bad_value(alloc: Global, scope: &TriggerScope, values: &[Expr]) -> Result<bool, NoMemory>
    ensures { IfOk result (λ bad. bad ≡ list_any (is_bad_expr gives_value scope.now.0.variables (trigger_scope scope.now.0 scope.now.1)) (map term_of values.now)) }
{
    let mut rest = values;
    'values: while let Some((value, after)) = rest.split_first() {
        if is_bad_value(alloc, scope, value)? {
            return Ok(true);
        }
        rest = after;
    }
    Ok(false)
}
