//! What a trigger's expressions may name.

ghost use Rattle.std.specs.Prelude.{◌≡◌, IfOk};
ghost use Rattle.sr_catalog_schema.specs.Firsts.{has};
ghost use Rattle.sr_catalog_schema.specs.Members.{key_names};
ghost use Rattle.sr_catalog_schema.specs.Names.{taken};
ghost use Rattle.sr_catalog_triggers.specs.Inner.Scopes.{variable_kind, column_kind, kind_behind, kind_behind_any};
ghost use Rattle.sr_catalog_triggers.specs.Triggers.{alias_name, image_of, is_new, trigger_scope, variable_name};

use sr_ast::{Columns, CreateTrigger, Image};
use sr_base::{Kind, Name, NoMemory};
use sr_catalog_schema::{Column, Named, Table, key_names};
use std::alloc::Global;
use std::marker::Model;

/// What a trigger's expressions may name: its variables, and behind each alias the columns of its table. A look-up takes constant
/// time. Contracts see the trigger and its table.
#[derive(Drop)]
pub(crate) struct TriggerScope<'a> {
    rule: &'a CreateTrigger,
    table: &'a Table,
    variables: Named<(Name, Kind)>,
    aliases: Named<(Image, Name)>,
    columns: Named<Column>,
    key: Named<Name>,
}

impl<'a> Model for TriggerScope<'a> {
    ghost use Rattle.std.specs.Coded.{codes};
    ghost use Rattle.sr_ast.specs.Inner.Terms.{term_code};
    ghost use Rattle.sr_ast.specs.Inner.Chains.{chain_code};
    ghost use Rattle.sr_ast.specs.declared.create.CreateTrigger.{CreateTrigger as Rule};
    ghost use Rattle.sr_catalog_schema.specs.declared.table.Table.{Table as Made};

    ghost Value = { Rule × Made };

    ghost coded = { Prim.hlevel (codes, term_code, chain_code) };

    ghost use Rattle.sr_catalog_triggers.specs.Inner.Scopes.{IsIndexed};

    ghost view = { λ s. (s.rule.now, s.table.now) };

    ghost invariant = { IsIndexed };
}

impl<'a> TriggerScope<'a> {
    /// The scope of a trigger's actions. It takes as many steps as there are variables, aliases and columns.
    pub(crate) fn new(
        alloc: Global,
        rule: &'a CreateTrigger,
        table: &'a Table,
    ) -> Result<TriggerScope<'a>, NoMemory>
        ensures scope { IfOk result (λ scope. scope ≡ (rule.now, table.now)) }
    {
        let names = key_names(alloc, table)?;
        let variables = Named::firsts_of(alloc, rule.variables.as_slice())?;
        let aliases = Named::firsts_of(alloc, rule.aliases.as_slice())?;
        let columns = Named::firsts_of(alloc, table.columns.as_slice())?;
        let key = Named::firsts_of(alloc, names.as_slice())?;
        Ok(TriggerScope {
            rule,
            table,
            variables,
            aliases,
            columns,
            key,
        })
    }

    /// The trigger.
    pub(crate) fn rule(&self) -> &CreateTrigger
        ensures rule { result.now ≡ self.now.0 }
    {
        self.rule
    }

    /// Its table.
    pub(crate) fn table(&self) -> &Table
        ensures table { result.now ≡ self.now.1 }
    {
        self.table
    }

    /// Whether a variable has this name.
    pub(crate) fn has_variable(&self, name: &Name) -> bool
        ensures taken { result ≡ taken variable_name name.now self.now.0.variables }
    {
        self.variables.holds(name)
    }

    /// Whether an alias has this name.
    pub(crate) fn has_alias(&self, name: &Name) -> bool
        ensures taken { result ≡ taken alias_name name.now self.now.0.aliases }
    {
        self.aliases.holds(name)
    }

    /// Whether a column of the table's key has this name.
    pub(crate) fn is_in_key(&self, name: &Name) -> bool
        ensures has { result ≡ has (key_names self.now.1) name.now }
    {
        self.key.holds(name)
    }

    /// Whether an alias stands for the new row.
    pub(crate) fn is_new(&self, alias: &Name) -> bool
        ensures new { result ≡ is_new (image_of self.now.0.aliases alias.now) }
    {
        match self.aliases.get(alias) {
            None => false,
            Some(alias) => is_new_row(alias.0),
        }
    }

    /// The type of the first variable of this name.
    fn variable_kind(&self, name: &Name) -> Option<Kind>
        ensures kind { result ≡ variable_kind self.now.0 name.now }
    {
        match self.variables.get(name) {
            None => None,
            Some(variable) => Some(variable.1),
        }
    }

    /// The type of the column of this name.
    fn column_kind(&self, name: &Name) -> Option<Kind>
        ensures kind { result ≡ column_kind self.now.1 name.now }
    {
        match self.columns.get(name) {
            None => None,
            Some(column) => Some(column.kind),
        }
    }

    /// The type of the column of this name, where there is an alias.
    fn kind_behind_any(&self, name: &Name) -> Option<Kind>
        ensures kind { result ≡ kind_behind_any self.now.0 self.now.1 name.now }
    {
        match self.rule.aliases.as_slice().split_first() {
            None => None,
            Some(_) => self.column_kind(name),
        }
    }

    /// The type of the column of this name behind an alias.
    fn kind_behind(&self, alias: &Name, name: &Name) -> Option<Kind>
        ensures kind { result ≡ kind_behind self.now.0 self.now.1 alias.now name.now }
    {
        if self.has_alias(alias) {
            self.column_kind(name)
        } else {
            None
        }
    }
}

impl<'a> Columns for TriggerScope<'a> {
    ghost scope = { λ s. trigger_scope s.0 s.1 };

    #[tactic(auto, using(crate::proofs::Scopes::scope_alone, crate::proofs::Scopes::scope_behind))]
    fn kind_of(&self, table: &Option<Name>, name: &Name) -> Option<Kind> {
        match table {
            Some(alias) => self.kind_behind(alias, name),
            None => match self.variable_kind(name) {
                Some(kind) => Some(kind),
                None => self.kind_behind_any(name),
            },
        }
    }
}

fn is_new_row(image: Image) -> bool
    ensures { result ≡ is_new (Some image) }
{
    match image {
        Image::New => true,
        Image::Old => false,
        Image::Remote => false,
    }
}
