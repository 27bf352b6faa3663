//! What triggers change.

ghost use Rattle.std.specs.Prelude.{◌≡◌, ◌∷◌, ◌++◌, [], map, is_some, IfOk, OnOk};
ghost use Rattle.std.proofs.Math.ListN.{set as set_at};
ghost use Rattle.std.specs.FinMap as map_of;
ghost use Rattle.sr_base.specs.declared.value.Value.TheVariants.{Null as NullCell};
ghost use Rattle.sr_exec_where.specs.Keys.{key_of};
ghost use Rattle.sr_exec_dml.specs.Applying.{place_of};
ghost use Rattle.sr_resolve_triggers.specs.Actions.{insertion};
ghost use Rattle.sr_resolve_triggers.specs.Firing.{entered, first_bindings, left};

use crate::fired::Fired;
use sr_ast::CreateTrigger;
use sr_base::{Copied, Key, Kind, Name, NoMemory, Row, Seq, Value};
use sr_catalog::Table;
use sr_logform::Change;
use sr_rows::Rows;
use std::alloc::Global;
use std::marker::Model;

/// What triggers change: the row that is to stand, the variables of the trigger that runs, and the rows that were inserted, under their
/// keys and as changes in order.
#[derive(Drop)]
pub(crate) struct Bindings {
    row: Vec<Value>,
    variables: Vec<Value>,
    added: Rows,
    inserts: Vec<Change>,
}

impl Model for Bindings {
    ghost use Rattle.std.specs.Prelude.{◌≡◌, []};
    ghost use Rattle.sr_resolve_triggers.specs.Bindings.{Bindings as Seen};
    ghost use Rattle.sr_resolve_triggers.specs.Inner.Bindings.{coded_bindings};

    ghost Value = { Seen };

    ghost coded = { coded_bindings };

    ghost view = { λ s. record { new = s.row.items; variables = s.variables.items; added = s.added.rows; inserts = s.inserts.items } };

    ghost invariant = { λ s. s.added.trail ≡ [] };
}

impl Bindings {
    /// The bindings before any trigger, with the row that is to stand. It takes no memory.
    pub(crate) fn begin(alloc: Global, row: Vec<Value>) -> Bindings
        ensures first { result ≡ first_bindings row.items }
    {
        Bindings {
            row,
            variables: Vec::new(alloc),
            added: Rows::new(alloc),
            inserts: Vec::new(alloc),
        }
    }

    /// Begins a trigger: each of its variables is NULL.
    pub(crate) fn enter(&mut self, alloc: Global, trigger: &CreateTrigger) -> Result<(), NoMemory>
        ensures entered { OnOk result (self.new ≡ entered trigger.now self.old) }
    {
        self.variables = nulls(alloc, trigger.variables.as_slice())?;
        Ok(())
    }

    /// The row that is to stand.
    pub(crate) fn row(&self) -> &[Value]
        ensures row { result.now ≡ self.now.new }
    {
        self.row.as_slice()
    }

    /// The values of the variables.
    pub(crate) fn variables(&self) -> &[Value]
        ensures variables { result.now ≡ self.now.variables }
    {
        self.variables.as_slice()
    }

    /// Sets the value of the row that is to stand at a place.
    pub(crate) fn set_row(&mut self, place: usize, value: Value)
        ensures set { self.new ≡ record self.old { new = set_at self.old.new place value } }
    {
        set_at(&mut self.row, place, value);
    }

    /// Sets the variable at a place.
    pub(crate) fn set_variable(&mut self, place: usize, value: Value)
        ensures set { self.new ≡ record self.old { variables = set_at self.old.variables place value } }
    {
        set_at(&mut self.variables, place, value);
    }

    /// Whether a row was inserted under the key. It takes logarithmic time.
    pub(crate) fn holds(&self, table: &Name, key: &Key) -> bool
        ensures held { result ≡ is_some (map_of.get self.now.added (table.now, key.now)) }
    {
        self.added.get(table, key).is_some()
    }

    /// Inserts a row under its key. It takes logarithmic time.
    pub(crate) fn insert(
        &mut self,
        alloc: Global,
        table: &Table,
        key: Key,
        row: Row,
    ) -> Result<(), NoMemory>
        requires key { key ≡ key_of table.now.key row }
        ensures inserted { OnOk result (self.new ≡ record self.old {
          added = map_of.insert self.old.added (place_of table.now row) row;
          inserts = self.old.inserts ++ insertion table.now row ∷ [];
        }) }
    {
        let copy = row.copy(alloc)?;
        self.added.put_at_mark(alloc, &table.name, key, copy)?;
        let change = Change {
            table: table.name.copy(alloc)?,
            before: None,
            after: Some(row),
        };
        self.inserts.push(change)?;
        Ok(())
    }

    /// What it leaves.
    pub(crate) fn into_fired(self, alloc: Global) -> Result<Fired, NoMemory>
        ensures left { IfOk result (λ fired. fired ≡ left self) }
    {
        let new = Row::new(alloc, Seq::from_vec(self.row))?;
        Ok(Fired {
            inserts: Seq::from_vec(self.inserts),
            new,
        })
    }
}

/// As many NULLs as variables.
fn nulls(alloc: Global, variables: &[(Name, Kind)]) -> Result<Vec<Value>, NoMemory>
    ensures nulls { IfOk result (λ values. values.items ≡ map (λ _. NullCell) variables.now) }
{
    let mut values = Vec::new(alloc);
    let mut rest = variables;
    'variables: while let Some((_, after)) = rest.split_first() {
        values.push(Value::Null)?;
        rest = after;
    }
    Ok(values)
}

/// Sets the value at a place, if there is one.
#[tactic(auto, using(std::proofs::lemmas::List::set_past))]
fn set_at(values: &mut Vec<Value>, place: usize, value: Value)
    ensures set { values.new.items ≡ set_at values.old.items place value }
{
    if place < values.len() {
        values[place] = value;
    }
}
