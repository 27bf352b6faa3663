ghost use Rattle.std.specs.Prelude.{◌≡◌, ◌++◌, ◌∷◌, [], Option, Some, List, IsSome, IfOk, IfErr, OnErr};
ghost use Rattle.std.specs.FinMap as map;
ghost use Rattle.sr_base.specs.declared.value.Value.{Value as Cell};
ghost use Rattle.sr_rows.specs.Inner.Hands.{Replaces};
ghost use Rattle.sr_rows.specs.Inner.Steps.{GoesOn};

use crate::rows::Rows;
use crate::table::Table;
use crate::tables::Tables;
use crate::undo::{Undo, shared};
use sr_base::{Key, Name, NoMemory, Row};
use std::alloc::{AllocError, AllocFailed, Global};
use std::marker::Model;
use std::mem;
use std::rc::Rc;

/// Rows of which one table is at hand: rows are replaced in it without looking it up. Contracts see the name of the table, and the rows
/// of all tables.
///
/// An empty table stands for it among the others meanwhile.
#[derive(Drop)]
pub struct AtHand {
    tables: Tables,
    changes: Vec<Undo>,
    name: Rc<Name>,
    table: Table,
}

impl Model for AtHand {
    ghost use Rattle.sr_rows.specs.Marks.{OneAtHand};
    ghost use Rattle.sr_rows.specs.Inner.Marks.{coded_at_hand};

    ghost Value = { OneAtHand };

    ghost coded = { coded_at_hand };

    ghost use Rattle.sr_rows.specs.Inner.Hands.{seen_at_hand, IsAtHand};

    ghost view = { λ h. seen_at_hand h.changes.items h.name.value h.table h.tables.entries };

    ghost invariant = { λ h. IsAtHand h.changes.items h.name.value h.table h.tables };
}

impl AtHand {
    /// Takes a table out of rows. Where it is not there, or there is no memory for its name, the rows are given back.
    pub fn take(alloc: Global, rows: Rows, table: &Name) -> Result<AtHand, Rows>
        ensures table { IfOk result (λ hand. hand.table ≡ table.now) }
        ensures rows { IfOk result (λ hand. hand.rows ≡ rows) }
        ensures back { IfErr result (λ back. back ≡ rows) }
    {
        let Rows {
            mut tables,
            changes,
        } = rows;
        let Ok(name) = shared(alloc, changes.as_slice(), table) else {
            return Err(Rows { tables, changes });
        };
        let Some(held) = tables.get_mut(table) else {
            return Err(Rows { tables, changes });
        };
        let table = mem::replace(held, Table::new(alloc));
        Ok(AtHand {
            tables,
            changes,
            name,
            table,
        })
    }

    /// Puts a row under a key, and answers whether its place was there; else nothing changes. The row before is kept for the way back. In a
    /// list, rows that are replaced in the order of their keys are found in constant time, and else in logarithmic time.
    #[inline(always)]
    pub fn replace(&mut self, key: Key, row: Row) -> Result<bool, NoMemory>
        ensures replaced { IfOk result (Replaces self.old key row self.new) }
        ensures table { self.new.table ≡ self.old.table }
        ensures on { GoesOn self.old.rows self.new.rows }
        ensures err { OnErr result (self.new ≡ self.old) }
    {
        let name = self.name.clone()?;
        let Ok(place) = self.table.replace(&key, row) else {
            return Ok(false);
        };
        let change = Undo {
            table: name,
            key,
            place: Some(place),
            emptied: false,
        };
        match self.changes.push(change) {
            Ok(()) => Ok(true),
            Err(refused) => {
                let AllocFailed { value, .. } = refused;
                put_back(&mut self.table, value);
                Err(AllocError)
            }
        }
    }

    /// The rows, with the table among the others again. It takes no memory.
    pub fn give_back(self) -> Rows
        ensures rows { result ≡ self.rows }
    {
        let AtHand {
            mut tables,
            changes,
            name,
            table,
        } = self;
        match tables.get_mut(name.as_ref()) {
            Some(held) => drop(mem::replace(held, table)),
            None => drop(table),
        }
        Rows { tables, changes }
    }
}

/// Puts back what stood at a place that is there.
fn put_back(table: &mut Table, change: Undo)
    requires there { IsSome (map.get table.old change.key) }
    ensures back { (place : Option (List Cell)) → change.place ≡ Some place → table.new ≡ map.insert table.old change.key place }
{
    let Undo { key, place, .. } = change;
    if let Some(place) = place {
        table.set(&key, place);
    }
}
