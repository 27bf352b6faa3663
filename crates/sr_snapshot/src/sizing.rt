//! How long a snapshot is.

ghost use Rattle.std.specs.Prelude.{◌≡◌, length, map, IfOk};
ghost use Rattle.std.specs.List.{flat_map};
ghost use Rattle.sr_ast.specs.Layout.{printed};
ghost use Rattle.sr_catalog_script_laws.specs.Scripts.{statements};
ghost use Rattle.sr_logform.specs.Entries.{table_spelling};
ghost use Rattle.sr_snapshot.specs.Inner.Beginnings.{beginning_in};
ghost use Rattle.sr_snapshot.specs.Snapshots.{rows_in, snapshot_spelling};

use crate::measuring::{COUNT, books_length, name_length, rows_length, sum, texts_length};
use crate::state::State;
use sr_base::{NoMemory, Text};
use sr_catalog::Table;
use sr_rows::Rows;
use std::alloc::Global;

/// The magic and the offset, and the counts of the statements, of the tables and of the books.
const FIXED: u64 = 28;

/// How many bytes the snapshot of this state has, also where they are more than a snapshot may have.
///
/// It takes a step for each value. Memory is taken for the statements of the catalog alone.
#[tactic(auto, using(crate::proofs::Lengths::lengths))]
pub fn length_of(alloc: Global, state: &State) -> Result<u64, NoMemory>
    ensures length { IfOk result (λ n. n ≡ length (snapshot_spelling (beginning_in state.now))) }
{
    let texts = state.catalog.script(alloc)?;
    measured(state, texts.as_slice())
}

/// How many bytes the snapshot of this state has, of whose catalog these are the texts of the statements.
#[tactic(auto, using(crate::proofs::Lengths::lengths))]
pub(crate) fn measured(state: &State, texts: &[Text]) -> Result<u64, NoMemory>
    requires texts { texts.now ≡ map printed (statements state.now.catalog) }
    ensures length { IfOk result (λ n. n ≡ length (snapshot_spelling (beginning_in state.now))) }
{
    let publisher = name_length(state.catalog.publisher())?;
    let script = texts_length(texts)?;
    let tables = tables_length(&state.rows, state.catalog.tables())?;
    let books = books_length(state.books.as_slice())?;
    sum(sum(sum(sum(FIXED, publisher)?, script)?, tables)?, books)
}

#[tactic(auto, using(crate::proofs::Lengths::lengths))]
fn tables_length(rows: &Rows, tables: &[Table]) -> Result<u64, NoMemory>
    ensures length { IfOk result (λ n. n ≡ length (flat_map table_spelling (map (rows_in rows.now.rows) tables.now))) }
{
    let mut length = 0u64;
    let mut left = tables;
    'tables: while let Some((table, rest)) = left.split_first() {
        let head = sum(name_length(&table.name)?, COUNT)?;
        length = sum(length, sum(head, rows_length(rows, &table.name)?)?)?;
        left = rest;
    }
    Ok(length)
}
