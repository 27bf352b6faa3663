ghost use Rattle.std.specs.Prelude.{◌≡◌, Option, Some, None, IsSome, IfOk, IfErr, OnOk, OnErr, MatchResult};
ghost use Rattle.std.specs.Option.{option_copied};
ghost use Rattle.std.specs.BTreeMap as tree;
ghost use Rattle.std.specs.FinMap as map;
ghost use Rattle.sr_base.specs.Order.{name_cmp};
ghost use Rattle.sr_rows.specs.Inner.Gathered.{gathered};
ghost use Rattle.sr_rows.specs.Inner.Filling.{Fills};

use crate::table::Table;
use sr_base::{Copied, Key, Name, NoMemory, Row};
use std::alloc::Global;
use std::collections::BTreeMap;

/// The places of all tables. A table without a place may be there or not.
pub(crate) type Tables = BTreeMap<Name, Table>;

/// What stands at a place, if the place is there.
pub(crate) fn place_at<'a>(tables: &'a Tables, table: &Name, key: &Key) -> Option<&'a Option<Row>>
    ensures place { option_copied result ≡ map.get (gathered tables.now.entries) (table.now, key.now) }
{
    let held = tables.get(table)?;
    held.get(key)
}

/// Puts a row or nothing at a place, which is made where it is not there.
pub(crate) fn insert_at(
    alloc: Global,
    tables: &mut Tables,
    table: &Name,
    key: Key,
    place: Option<Row>,
) -> Result<Option<Option<Row>>, NoMemory>
    ensures before { IfOk result (λ before. before ≡ map.get (gathered tables.old.entries) (table.now, key)) }
    ensures ok { OnOk result (gathered tables.new.entries ≡ map.insert (gathered tables.old.entries) (table.now, key) place) }
    ensures err { OnErr result (gathered tables.new.entries ≡ gathered tables.old.entries) }
{
    match tables.get_mut(table) {
        Some(held) => held.insert(alloc, key, place),
        None => insert_first(alloc, tables, table, key, place),
    }
}

/// Makes a table that is not there, with one place.
fn insert_first(
    alloc: Global,
    tables: &mut Tables,
    table: &Name,
    key: Key,
    place: Option<Row>,
) -> Result<Option<Option<Row>>, NoMemory>
    requires gone { None ≡ tree.get_by (name_cmp table.now) tables.old }
    ensures before { IfOk result (λ before. before ≡ map.get (gathered tables.old.entries) (table.now, key)) }
    ensures ok { OnOk result (gathered tables.new.entries ≡ map.insert (gathered tables.old.entries) (table.now, key) place) }
    ensures err { OnErr result (gathered tables.new.entries ≡ gathered tables.old.entries) }
{
    let mut made = Table::new(alloc);
    made.insert(alloc, key, place)?;
    tables.insert(table.copy(alloc)?, made)?;
    Ok(None)
}

/// Puts a row at a place where none stands, and answers whether none did; else nothing changes.
pub(crate) fn fill_at(
    alloc: Global,
    tables: &mut Tables,
    table: &Name,
    key: Key,
    row: Row,
) -> Result<bool, NoMemory>
    ensures told { IfOk result (λ free. Fills (gathered tables.old.entries) (table.now, key) row (gathered tables.new.entries) free) }
    ensures err { OnErr result (gathered tables.new.entries ≡ gathered tables.old.entries) }
{
    match tables.get_mut(table) {
        Some(held) => held.fill(alloc, key, row),
        None => {
            insert_first(alloc, tables, table, key, Some(row))?;
            Ok(true)
        }
    }
}

/// Puts a row or nothing at a place that is there. It takes no memory.
pub(crate) fn set_at(
    tables: &mut Tables,
    table: &Name,
    key: &Key,
    place: Option<Row>,
) -> Option<Row>
    requires there { IsSome (map.get (gathered tables.old.entries) (table.now, key.now)) }
    ensures before { map.get (gathered tables.old.entries) (table.now, key.now) ≡ Some result }
    ensures set { gathered tables.new.entries ≡ map.insert (gathered tables.old.entries) (table.now, key.now) place }
{
    let Some(held) = tables.get_mut(table) else {
        return None;
    };
    held.set(key, place)
}

/// Puts a row at a place, if it is there, and answers what stood there; else it gives the row back. It takes no memory.
pub(crate) fn replace_at(
    tables: &mut Tables,
    table: &Name,
    key: &Key,
    row: Row,
) -> Result<Option<Row>, Row>
    ensures before { MatchResult result (λ before. map.get (gathered tables.old.entries) (table.now, key.now) ≡ Some before)
        (λ _. map.get (gathered tables.old.entries) (table.now, key.now) ≡ None) }
    ensures set { OnOk result (gathered tables.new.entries ≡ map.insert (gathered tables.old.entries) (table.now, key.now) (Some row)) }
    ensures returned { IfErr result (λ back. back ≡ row) }
    ensures err { OnErr result (gathered tables.new.entries ≡ gathered tables.old.entries) }
{
    let Some(held) = tables.get_mut(table) else {
        return Err(row);
    };
    held.replace(key, row)
}

/// Takes what stands at a place that is there away. The empty place stays for a while, and others may come behind it; so a list becomes a tree,
/// where there is memory for it.
pub(crate) fn empty_at(alloc: Global, tables: &mut Tables, table: &Name, key: &Key) -> Option<Row>
    requires there { IsSome (map.get (gathered tables.old.entries) (table.now, key.now)) }
    ensures before { map.get (gathered tables.old.entries) (table.now, key.now) ≡ Some result }
    ensures set { gathered tables.new.entries ≡ map.insert (gathered tables.old.entries) (table.now, key.now) None }
{
    grow_at(alloc, tables, table);
    set_at(tables, table, key, None)
}

/// Makes a tree of a table's list, where there is memory for it.
fn grow_at(alloc: Global, tables: &mut Tables, table: &Name)
    ensures same { gathered tables.new.entries ≡ gathered tables.old.entries }
{
    let Some(held) = tables.get_mut(table) else {
        return;
    };
    held.grow(alloc);
}

/// Removes a place that is there, in logarithmic time where there is memory to make ready for it.
pub(crate) fn take_at(alloc: Global, tables: &mut Tables, table: &Name, key: &Key)
    requires there { IsSome (map.get (gathered tables.old.entries) (table.now, key.now)) }
    ensures removed { gathered tables.new.entries ≡ map.remove (gathered tables.old.entries) (table.now, key.now) }
{
    ease_removal_at(alloc, tables, table, key);
    remove_at(tables, table, key);
}

/// Makes ready for the removal of a place, where there is memory for it.
fn ease_removal_at(alloc: Global, tables: &mut Tables, table: &Name, key: &Key)
    ensures same { gathered tables.new.entries ≡ gathered tables.old.entries }
{
    let Some(held) = tables.get_mut(table) else {
        return;
    };
    held.ease_removal(alloc, key);
}

/// Removes a place that is there. It takes no memory.
pub(crate) fn remove_at(tables: &mut Tables, table: &Name, key: &Key)
    requires there { IsSome (map.get (gathered tables.old.entries) (table.now, key.now)) }
    ensures removed { gathered tables.new.entries ≡ map.remove (gathered tables.old.entries) (table.now, key.now) }
{
    let Some(held) = tables.get_mut(table) else {
        return;
    };
    held.remove(key);
}
