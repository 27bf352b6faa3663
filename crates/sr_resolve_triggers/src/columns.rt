//! Columns, keys, and what a column holds.

ghost use Rattle.std.specs.Prelude.{◌≡◌};
ghost use Rattle.std.specs.Option.{option_copied};
ghost use Rattle.sr_resolve_triggers.specs.Holding.{held_by, held_in};
ghost use Rattle.sr_resolve_triggers.specs.Inner.Holding.{is_named};
ghost use Rattle.sr_catalog_schema.specs.Firsts.{has};
ghost use Rattle.sr_catalog_schema.specs.Members.{key_names};

use sr_base::{Kind, Name, Value};
use sr_base_dates::fitted;
use sr_catalog::{Column, Table};
use sr_eval::is_null;

/// What a column holds for a value, if there is one, it fits, and NULL stands only where it may.
pub(crate) fn held_by(column: &Column, value: Option<Value>) -> Option<Value>
    ensures { result ≡ held_by column.now value }
{
    let held = fitted(value?, column.kind)?;
    if column.not_null && is_null(&held) {
        return None;
    }
    Some(held)
}

/// What a variable holds for a value, if there is one and it fits.
pub(crate) fn held_in(variable: &(Name, Kind), value: Option<Value>) -> Option<Value>
    ensures { result ≡ held_in variable.now value }
{
    fitted(value?, variable.1)
}

/// Whether a name is that of a column of the table's key. It looks at each.
pub fn is_of_key(table: &Table, name: &Name) -> bool
    ensures { result ≡ has (key_names table.now) name.now }
{
    let mut left = table.key.as_slice();
    'places: while let Some((place, rest)) = left.split_first() {
        if is_named(table.columns.as_slice().get(*place), name) {
            return true;
        }
        left = rest;
    }
    false
}

/// Whether a column is there and has the name.
fn is_named(column: Option<&Column>, name: &Name) -> bool
    ensures { result ≡ is_named (option_copied column.entry) name.now }
{
    match column {
        None => false,
        Some(column) => name.bytes() == column.name.bytes(),
    }
}
