//! A state, written to a file.

ghost use Rattle.std.specs.Prelude.{◌≡◌, ◌≤◌, [], length, map, IsTrue, OnOk, IfErr};
ghost use Rattle.sr_ast.specs.Layout.{printed};
ghost use Rattle.sr_base.specs.Fields.{list_spelling};
ghost use Rattle.sr_catalog_script_laws.specs.Scripts.{statements};
ghost use Rattle.sr_logform.specs.Entries.{table_spelling};
ghost use Rattle.sr_site.specs.Causes.{DiskStays};
ghost use Rattle.sr_site.specs.Files.{bytes_of};
ghost use Rattle.sr_snapshot.specs.Inner.Beginnings.{beginning_in};
ghost use Rattle.sr_snapshot.specs.Parts.{longest};
ghost use Rattle.sr_snapshot.specs.Snapshots.{rows_in, snapshot_spelling};
ghost use Rattle.sr_snapshot.specs.Inner.Writing.{HappenedOn, HasPut, IsFilled, IsReplaced, IsWritten, PutCause, WriteCause};

use crate::fault::SnapFault;
use crate::pieces::{Out, flush};
use crate::putting::{put_books, put_catalog, put_table, write_count};
use crate::sizing::measured;
use crate::state::State;
use sr_base::Text;
use sr_catalog::Table;
use sr_rows::Rows;
use sr_site::{Disk, File};
use std::alloc::Global;

/// The longest snapshot: 1 GiB.
pub const LONGEST_SNAPSHOT: u64 = 1_073_741_824;

/// Writes a state in place of the file, and syncs it.
///
/// `Long` comes before any call of the device, exactly where the snapshot is longer than 1 GiB and there is memory to see it. The file is cut to
/// nothing, and the state is written piece by piece: no row is copied but into a piece. Each call is one on this file.
pub fn write_state<S: Disk>(
    alloc: Global,
    site: &mut S,
    file: File,
    state: &State,
) -> Result<(), SnapFault>
    ensures replaced { IsTrue (S.seen site.old).observable → OnOk result (IsReplaced file (snapshot_spelling (beginning_in state.now)) (S.seen site.old) (S.seen site.new)) }
    ensures short { OnOk result (length (snapshot_spelling (beginning_in state.now)) ≤ longest) }
    ensures happened { IsTrue (S.seen site.old).observable → HappenedOn file (S.seen site.old).happened (S.seen site.new).happened }
    ensures stays { DiskStays (S.seen site.old) (S.seen site.new) }
    ensures steady { OnOk result ((S.seen site.new).disk_faults ≡ (S.seen site.old).disk_faults) }
    ensures cause { IfErr result (WriteCause (length (snapshot_spelling (beginning_in state.now))) (S.seen site.old) (S.seen site.new)) }
{
    let texts = state.catalog.script(alloc)?;
    let length = measured(state, texts.as_slice())?;
    if length > LONGEST_SNAPSHOT {
        return Err(SnapFault::Long {
            length,
            limit: LONGEST_SNAPSHOT,
        });
    }
    replace(alloc, site, file, state, texts.as_slice())?;
    Ok(())
}

/// Cuts the file to nothing, writes the state, of which these are the texts of the catalog's statements, and syncs the file.
fn replace<S: Disk>(
    alloc: Global,
    site: &mut S,
    file: File,
    state: &State,
    texts: &[Text],
) -> Result<(), SnapFault>
    requires texts { texts.now ≡ map printed (statements state.now.catalog) }
    requires short { length (snapshot_spelling (beginning_in state.now)) ≤ longest }
    ensures written { OnOk result (IsWritten file (snapshot_spelling (beginning_in state.now)) (S.seen site.old) (S.seen site.new)) }
    ensures cause { IfErr result (PutCause file (S.seen site.old) (S.seen site.new)) }
{
    site.cut(file, 0)?;
    fill(alloc, site, file, state, texts)?;
    site.sync(file)?;
    Ok(())
}

/// Writes the state into a file without a byte.
fn fill<S: Disk>(
    alloc: Global,
    site: &mut S,
    file: File,
    state: &State,
    texts: &[Text],
) -> Result<(), SnapFault>
    requires texts { texts.now ≡ map printed (statements state.now.catalog) }
    requires short { length (snapshot_spelling (beginning_in state.now)) ≤ longest }
    requires empty { IsTrue (S.seen site.old).observable → bytes_of (S.seen site.old).files file ≡ [] }
    ensures filled { OnOk result (IsFilled file (snapshot_spelling (beginning_in state.now)) (S.seen site.old) (S.seen site.new)) }
    ensures cause { IfErr result (PutCause file (S.seen site.old) (S.seen site.new)) }
{
    let mut out = Out {
        buffer: Vec::new(alloc),
        place: 0,
    };
    put_state(alloc, site, file, state, texts, &mut out)?;
    flush(site, file, &mut out)?;
    Ok(())
}

/// Puts all of a state, of which these are the texts of the catalog's statements.
pub(crate) fn put_state<S: Disk>(
    alloc: Global,
    site: &mut S,
    file: File,
    state: &State,
    texts: &[Text],
    out: &mut Out,
) -> Result<(), SnapFault>
    requires texts { texts.now ≡ map printed (statements state.now.catalog) }
    requires short { length (snapshot_spelling (beginning_in state.now)) ≤ longest }
    requires at { IsTrue (S.seen site.old).observable → out.old.place ≡ length (bytes_of (S.seen site.old).files file) }
    ensures put { OnOk result (HasPut file (snapshot_spelling (beginning_in state.now)) (S.seen site.old) (S.seen site.new) out.old.buffer.items out.new.buffer.items out.new.place) }
    ensures cause { IfErr result (PutCause file (S.seen site.old) (S.seen site.new)) }
{
    put_catalog(
        alloc,
        site,
        file,
        state.offset,
        state.catalog.publisher(),
        texts,
        out,
    )?;
    put_tables(alloc, site, file, &state.rows, state.catalog.tables(), out)?;
    put_books(alloc, site, file, state.books.as_slice(), out)?;
    Ok(())
}

/// Puts the count of the tables, and each table with its rows.
fn put_tables<S: Disk>(
    alloc: Global,
    site: &mut S,
    file: File,
    rows: &Rows,
    tables: &[Table],
    out: &mut Out,
) -> Result<(), SnapFault>
    requires short { length (list_spelling table_spelling (map (rows_in rows.now.rows) tables.now)) ≤ longest }
    requires at { IsTrue (S.seen site.old).observable → out.old.place ≡ length (bytes_of (S.seen site.old).files file) }
    ensures put { OnOk result (HasPut file (list_spelling table_spelling (map (rows_in rows.now.rows) tables.now)) (S.seen site.old) (S.seen site.new) out.old.buffer.items out.new.buffer.items out.new.place) }
    ensures cause { IfErr result (PutCause file (S.seen site.old) (S.seen site.new)) }
{
    write_count(alloc, tables.len(), &mut out.buffer)?;
    let mut left = tables;
    'tables: while let Some((table, rest)) = left.split_first() {
        put_table(alloc, site, file, rows, &table.name, out)?;
        left = rest;
    }
    Ok(())
}
