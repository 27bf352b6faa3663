//! Whether a conflict fits: the rows that its triggers inserted, and the row of the Set's key before and after.

ghost use Rattle.std.specs.Prelude.{◌≡◌, ◌↔◌, IfOk, IsTrue};
ghost use Rattle.std.specs.List.{AllByRecursion};
ghost use Rattle.sr_exec_dml.specs.Fitting.{RowsFit};
ghost use Rattle.sr_exec_where.specs.Keys.{key_of};
ghost use Rattle.sr_database_history.specs.Fitting.{IsInsertion, AreNamedRows};
ghost use Rattle.sr_rows.specs.Inner.Steps.{at_mark};
ghost use Rattle.sr_database_fold.specs.Inner.Movements.{Differs};
ghost use Rattle.sr_database_fold.specs.Inner.Told.{ConflictTold};

use crate::changes::{go_on_changes, go_on_row};
use crate::keys::key_of;
use crate::naming::named_key;
use sr_base::{Key, Name, NoMemory, Row, Value};
use sr_catalog::{Catalog, Table};
use sr_exec_fits::is_row;
use sr_logform::Change;
use sr_rows::Rows;
use std::alloc::Global;

/// Whether the conflict of a Set fits, and if so the rows with the triggers' inserts and the row that it left.
#[tactic(auto, using(crate::proofs::Named::conflict_ok, crate::proofs::Named::other_changes, crate::proofs::Named::other_rows, crate::proofs::Named::inserts_unfit, crate::proofs::Changing::changes_keep))]
pub(crate) fn go_on_conflict(
    alloc: Global,
    catalog: &Catalog,
    rows: &mut Rows,
    name: &Name,
    key: &[(Name, Value)],
    inserts: &[Change],
    before: &Row,
    after: &Row,
) -> Result<bool, NoMemory>
    requires rows { RowsFit catalog.now rows.old.rows }
    requires fresh { rows.old ≡ at_mark rows.old.rows }
    requires differ { AllByRecursion Differs inserts.now }
    ensures told { IfOk result (λ told. ConflictTold catalog.now rows.old.rows name.now key.now inserts.now before.now after.now rows.new.rows told) }
    ensures fresh { rows.new ≡ at_mark rows.new.rows }
{
    if !are_insertions(inserts) {
        return Ok(false);
    }
    if !are_named_rows(alloc, catalog, name, key, before, after)? {
        return Ok(false);
    }
    if !go_on_changes(alloc, catalog, rows, inserts)? {
        return Ok(false);
    }
    go_on_row(alloc, catalog, rows, name, before, after)
}

/// Whether each of the changes inserts.
fn are_insertions(changes: &[Change]) -> bool
    ensures { IsTrue result ↔ AllByRecursion IsInsertion changes.now }
{
    let mut left = changes;
    'changes: while let Some((change, rest)) = left.split_first() {
        if change.before.is_some() {
            return false;
        }
        left = rest;
    }
    true
}

/// Whether both rows fit the table of this name, and stand under the key that these columns name.
#[tactic(auto, using(crate::proofs::Named::nothing_named, crate::proofs::Named::named_here, crate::proofs::Named::rows_named))]
fn are_named_rows(
    alloc: Global,
    catalog: &Catalog,
    name: &Name,
    columns: &[(Name, Value)],
    before: &Row,
    after: &Row,
) -> Result<bool, NoMemory>
    ensures named { IfOk result (λ named. IsTrue named ↔ AreNamedRows catalog.now name.now columns.now before.now after.now) }
{
    let Some(table) = catalog.table(name) else {
        return Ok(false);
    };
    if !is_row(table.columns.as_slice(), before.values()) {
        return Ok(false);
    }
    if !is_row(table.columns.as_slice(), after.values()) {
        return Ok(false);
    }
    let Some(key) = named_key(alloc, table, columns)? else {
        return Ok(false);
    };
    have_key(alloc, table, &key, before, after)
}

/// Whether both rows have this key.
fn have_key(
    alloc: Global,
    table: &Table,
    key: &Key,
    before: &Row,
    after: &Row,
) -> Result<bool, NoMemory>
    ensures both { IfOk result (λ both. IsTrue both ↔ ((key_of table.now.key before.now ≡ key.now) × (key_of table.now.key after.now ≡ key.now))) }
{
    let old_key = key_of(alloc, table, before)?;
    let new_key = key_of(alloc, table, after)?;
    Ok(old_key == *key && new_key == *key)
}
