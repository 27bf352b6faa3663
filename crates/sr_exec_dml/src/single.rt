//! UPDATE and DELETE where the condition fixes the key: only the row under it can be selected, and it is looked up once.

ghost use Rattle.std.specs.Prelude.{◌≡◌, [], Some, IfOk};
ghost use Rattle.std.specs.Option.{option_copied};
ghost use Rattle.sr_exec_dml.specs.Inner.Conditions.{Answers};
ghost use Rattle.sr_exec_dml.specs.Fitting.{TableFits};
ghost use Rattle.sr_exec_where.specs.Inner.Fixing.{only_key};
ghost use Rattle.sr_exec_dml.specs.Holding.{with_change};
ghost use Rattle.sr_exec_where.specs.Inner.Preparing.{IsPrepared};
ghost use Rattle.sr_exec_dml.specs.Statements.{moved_selected};
ghost use Rattle.sr_rows.specs.Walks.{table_rows};

use crate::applying::is_same_key;
use crate::changes::Changes;
use crate::effect::RowEffect;
use crate::lists::emptied;
use crate::moving::{effect_of, settle_picks};
use crate::settling::note;
use sr_base::{Copied, Key, Name, NoMemory, Row, Seq};
use sr_catalog_schema::{DmlFault, Table};
use sr_eval::and_holds_where_both_hold;
use sr_exec_where::{Prepared, push};
use sr_logform::Change;
use sr_rows::Rows;
use std::alloc::Global;

/// The changes where only the row under a key can be selected, which takes logarithmic time. Where the row keeps its key, no other
/// place is looked at.
pub(crate) fn moved_at(
    alloc: Global,
    table: &Table,
    rows: &Rows,
    prepared: &Prepared,
    key: &Key,
    spare: Vec<Change>,
) -> Result<Changes, DmlFault>
    requires prepared { IsPrepared table.now prepared.now }
    requires rows { TableFits table.now rows.now.rows }
    requires key { only_key table.now prepared.now.condition.now ≡ Some key.now }
    ensures answer { Answers result (moved_selected table.now (option_copied prepared.now.sets) prepared.now.condition.now (table_rows rows.now.rows table.now.name)) }
{
    and_holds_where_both_hold();
    let Some(row) = rows.get(&table.name, key) else {
        return Ok(no_changes(spare));
    };
    match effect_of(alloc, table, prepared, row.values())? {
        RowEffect::Stays => Ok(no_changes(spare)),
        RowEffect::Goes => Ok(one_change(alloc, &table.name, row, None, spare)?),
        RowEffect::Becomes(new) => {
            if is_same_key(table.key.as_slice(), row.values(), new.values()) {
                return Ok(one_change(alloc, &table.name, row, Some(new), spare)?);
            }
            let mut picks = Vec::with_capacity(alloc, 1)?;
            push(&mut picks, (key.copy(alloc)?, Some(new)))?;
            settle_picks(alloc, table, rows, picks)
        }
    }
}

/// No row is selected.
fn no_changes(spare: Vec<Change>) -> Changes
    ensures none { result ≡ record { list = []; count = 0 } }
{
    Changes {
        list: Seq::from_vec(emptied(spare)),
        count: 0,
    }
}

/// One row is selected: it goes, or becomes another one under its key.
fn one_change(
    alloc: Global,
    table: &Name,
    row: &Row,
    after: Option<Row>,
    spare: Vec<Change>,
) -> Result<Changes, NoMemory>
    ensures one { IfOk result (λ changes. changes ≡ record { list = with_change table.now (Some row.now) after []; count = 1 }) }
{
    let mut list = emptied(spare);
    note(alloc, &mut list, table, Some(row), after)?;
    Ok(Changes {
        list: Seq::from_vec(list),
        count: 1,
    })
}
