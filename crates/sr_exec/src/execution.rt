ghost use Rattle.std.specs.Prelude.{◌≡◌, IfOk};
ghost use Rattle.sr_exec_dml.specs.Inner.Conditions.{Answers};
ghost use Rattle.sr_exec_dml.specs.Fitting.{RowsFit};
ghost use Rattle.sr_exec_dml.specs.Statements.{done};

use sr_ast::Dml;
use sr_base::{Copied, Name, NoMemory};
use sr_catalog::{Catalog, DmlFault};
use sr_exec_dml::{Changes, delete, insert, update};
use sr_logform::Change;
use sr_rows::Rows;
use std::alloc::Global;

/// What an INSERT, UPDATE or DELETE changes in these rows, each of which fits its table. It changes nothing by itself.
///
/// The refusals, of which the first in this order is answered: `NoTable`; `NoColumn` at the leftmost unknown column; `BadValue` at
/// the leftmost column named twice, wrong class or wrong count of values; then the rows in order (as written for an INSERT, by
/// their old keys otherwise), at each row the `Overflow` of its condition and then its columns in table order, each with `Overflow`,
/// then `BadValue`, then `Null`; and `Duplicate` with the least key that two rows would hold. Columns that an INSERT does not name
/// take NULL, and its values are constant. An UPDATE evaluates all rows on the old ones.
pub fn exec(alloc: Global, catalog: &Catalog, rows: &Rows, stmt: &Dml) -> Result<Changes, DmlFault>
    requires rows { RowsFit catalog.now rows.now.rows }
    ensures answer { Answers result (done catalog.now rows.now.rows stmt.now) }
{
    exec_reusing(alloc, catalog, rows, stmt, Vec::new(alloc))
}

/// The same, with the changes in the memory of a list that is not needed any more: its items are dropped. Statements that run one after
/// the other so need memory for their changes once. Several rows of an INSERT, and rows that get other keys, have a list of their own.
pub fn exec_reusing(
    alloc: Global,
    catalog: &Catalog,
    rows: &Rows,
    stmt: &Dml,
    spare: Vec<Change>,
) -> Result<Changes, DmlFault>
    requires rows { RowsFit catalog.now rows.now.rows }
    ensures answer { Answers result (done catalog.now rows.now.rows stmt.now) }
{
    match stmt {
        Dml::Insert(statement) => match catalog.table(&statement.table) {
            None => Err(no_table(alloc, &statement.table)?),
            Some(table) => insert(alloc, table, rows, statement, spare),
        },
        Dml::Update(statement) => match catalog.table(&statement.table) {
            None => Err(no_table(alloc, &statement.table)?),
            Some(table) => update(alloc, table, rows, statement, spare),
        },
        Dml::Delete(statement) => match catalog.table(&statement.table) {
            None => Err(no_table(alloc, &statement.table)?),
            Some(table) => delete(alloc, table, rows, statement, spare),
        },
    }
}

fn no_table(alloc: Global, name: &Name) -> Result<DmlFault, NoMemory>
    ensures fault { IfOk result (λ fault. fault ≡ DmlFault.NoTable name.now) }
{
    Ok(DmlFault::NoTable {
        name: name.copy(alloc)?,
    })
}
