//! A state, read from a file.

ghost use Rattle.std.specs.Prelude.{◌≡◌, ◌≤◌, ◌<◌, ◌^◌, ◌++◌, [], drop, length, map, IsTrue, IfOk, IfErr, OnOk};
ghost use Rattle.std.specs.Int.{w64, to_be_bytes};
ghost use Rattle.std.specs.List.{AllByRecursion};
ghost use Rattle.sr_base.specs.Fields.{list_spelling, name_spelling, IsName};
ghost use Rattle.sr_catalog_schema.specs.Members.{table_name, user_name};
ghost use Rattle.sr_logform.specs.Entries.{table_spelling};
ghost use Rattle.sr_logform.specs.Rules.{AreDistinct};
ghost use Rattle.sr_rows.specs.Inner.Steps.{at_mark};
ghost use Rattle.sr_site.specs.Files.{bytes_of};
ghost use Rattle.sr_snapshot.specs.Inner.Beginnings.{beginning_in};
ghost use Rattle.sr_snapshot.specs.Beginnings.{IsBeginning, IsBook};
ghost use Rattle.sr_snapshot.specs.Parts.{book_line, magic};
ghost use Rattle.sr_snapshot.specs.Snapshots.{rows_in, snapshot_spelling, IsSnapshot};
ghost use Rattle.sr_snapshot.specs.declared.fault.SnapFault.TheVariants.{Damaged as broken_at};
ghost use Rattle.sr_snapshot_read.specs.Damages.{LastBreaks, ListsBreak, StateBreaks};
ghost use Rattle.sr_snapshot_read.specs.Inner.Reading.{HasTaken, IsOver, ReadAlone, TakeCause};
ghost use Rattle.sr_snapshot_read.specs.Inner.StateRead.{ReadCause};
ghost use Rattle.sr_snapshot_read.specs.Inner.TablesRead.{AreHeldIn};

use crate::books::read_books;
use crate::fields::read_name;
use crate::heads::{read_magic, read_offset, read_this_count};
use crate::rows::read_tables;
use crate::script::read_script;
use crate::window::Window;
use sr_base::{Name, Offset, Seq};
use sr_book::Book;
use sr_catalog::{Table, User};
use sr_rows::Rows;
use sr_site::{Disk, File};
use sr_snapshot::{LONGEST_SNAPSHOT, SnapFault, State};
use std::alloc::Global;

/// Reads the state of which the file is the snapshot.
///
/// The file is read from its front to its end through a window of 64 KiB, and the texts of the statements twice. Memory is taken for the state, for
/// the window and for its longest field; no count and no length that stands in the file is taken as memory before the bytes are there. Nothing
/// happens on the disk.
///
/// The mark of its rows stands at them, and there is no step to go back.
///
/// `Damaged` comes exactly where the bytes are the snapshot of no state, at the first field that breaks: a file past 1 GiB at 1 GiB; a field that
/// is none at its first byte; a text that is no statement on the catalog as it prints, or that the catalog refuses, at its length; texts that are not
/// the catalog's own script at the first that differs, or at their count where they end first; a row that does not fit its table, or whose key does
/// not rise, at its count; a count or a name that is another one, and a byte more, there.
pub fn read_state<S: Disk>(alloc: Global, site: &mut S, file: File) -> Result<State, SnapFault>
    ensures beginning { IfOk result (λ state. IsBeginning (beginning_in state)) }
    ensures marked { IfOk result (λ state. state.rows ≡ at_mark state.rows.rows) }
    ensures snapshot { IsTrue (S.seen site.old).observable → IfOk result (λ state. IsSnapshot (beginning_in state) (bytes_of (S.seen site.old).files file)) }
    ensures read { ReadAlone (S.seen site.old) (S.seen site.new) }
    ensures steady { OnOk result ((S.seen site.new).disk_faults ≡ (S.seen site.old).disk_faults) }
    ensures cause { IfErr result (ReadCause file (S.seen site.old) (S.seen site.new)) }
{
    let length = site.length(file)?;
    if length > LONGEST_SNAPSHOT {
        return Err(SnapFault::Damaged {
            at: LONGEST_SNAPSHOT,
        });
    }
    let mut window = Window::new(alloc, length);
    let state = read_all(alloc, site, file, &mut window)?;
    Ok(state)
}

/// Reads a state, behind which no byte may stand.
fn read_all<S: Disk>(
    alloc: Global,
    site: &mut S,
    file: File,
    window: &mut Window,
) -> Result<State, SnapFault>
    requires over { IsTrue (S.seen site.old).observable → IsOver window.old (bytes_of (S.seen site.old).files file) }
    ensures beginning { IfOk result (λ state. IsBeginning (beginning_in state)) }
    ensures marked { IfOk result (λ state. state.rows ≡ at_mark state.rows.rows) }
    ensures taken { IfOk result (λ state. HasTaken file (snapshot_spelling (beginning_in state)) (S.seen site.old) (S.seen site.new) window.old window.new) }
    ensures ends { IsTrue (S.seen site.old).observable → OnOk result (drop window.new.place (bytes_of (S.seen site.old).files file) ≡ []) }
    ensures cause { IfErr result (TakeCause file StateBreaks (S.seen site.old) (S.seen site.new) window.old) }
{
    let (offset, publisher) = read_head(alloc, site, file, window)?;
    let catalog = read_script(alloc, site, file, window, publisher)?;
    catalog.is_made();
    let (rows, books) = read_lists(alloc, site, file, window, catalog.tables(), catalog.users())?;
    Ok(State {
        offset,
        catalog,
        rows,
        books,
    })
}

/// Reads the magic, the offset and the publisher.
fn read_head<S: Disk>(
    alloc: Global,
    site: &mut S,
    file: File,
    window: &mut Window,
) -> Result<(Offset, Name), SnapFault>
    requires over { IsTrue (S.seen site.old).observable → IsOver window.old (bytes_of (S.seen site.old).files file) }
    ensures taken { IfOk result (λ head. HasTaken file (magic ++ (to_be_bytes w64 head.0.0 ++ name_spelling head.1)) (S.seen site.old) (S.seen site.new) window.old window.new) }
    ensures near { IfOk result (λ head. head.0.0 ≤ 2 ^ 62) }
    ensures name { IfOk result (λ head. IsName head.1) }
    ensures cause { IfErr result (TakeCause file StateBreaks (S.seen site.old) (S.seen site.new) window.old) }
{
    read_magic(site, file, window)?;
    let offset = read_offset(alloc, site, file, window)?;
    let publisher = read_name(alloc, site, file, window)?;
    Ok((offset, publisher))
}

/// Reads the rows of these tables, and the books of these users, behind which no byte may stand.
fn read_lists<S: Disk>(
    alloc: Global,
    site: &mut S,
    file: File,
    window: &mut Window,
    tables: &[Table],
    users: &[User],
) -> Result<(Rows, Seq<(Name, Book)>), SnapFault>
    requires over { IsTrue (S.seen site.old).observable → IsOver window.old (bytes_of (S.seen site.old).files file) }
    requires distinct { AreDistinct (map table_name tables.now) }
    ensures taken { IfOk result (λ both. HasTaken file (list_spelling table_spelling (map (rows_in both.0.rows) tables.now) ++ list_spelling book_line both.1) (S.seen site.old) (S.seen site.new) window.old window.new) }
    ensures held { IfOk result (λ both. AreHeldIn tables.now both.0.rows) }
    ensures marked { IfOk result (λ both. both.0 ≡ at_mark both.0.rows) }
    ensures users { IfOk result (λ both. map (λ p. p.0) both.1 ≡ map user_name users.now) }
    ensures numbers { IfOk result (λ both. AllByRecursion (λ p. IsBook p.1) both.1) }
    ensures ends { IsTrue (S.seen site.old).observable → OnOk result (drop window.new.place (bytes_of (S.seen site.old).files file) ≡ []) }
    ensures cause { IfErr result (TakeCause file (ListsBreak tables.now users.now) (S.seen site.old) (S.seen site.new) window.old) }
{
    read_this_count(alloc, site, file, window, tables.len())?;
    let rows = read_tables(alloc, site, file, window, tables)?;
    let books = read_last(alloc, site, file, window, users)?;
    Ok((rows, books))
}

/// Reads the book of each of these users, behind which no byte may stand.
fn read_last<S: Disk>(
    alloc: Global,
    site: &mut S,
    file: File,
    window: &mut Window,
    users: &[User],
) -> Result<Seq<(Name, Book)>, SnapFault>
    requires over { IsTrue (S.seen site.old).observable → IsOver window.old (bytes_of (S.seen site.old).files file) }
    ensures taken { IfOk result (λ books. HasTaken file (list_spelling book_line books) (S.seen site.old) (S.seen site.new) window.old window.new) }
    ensures users { IfOk result (λ books. map (λ p. p.0) books ≡ map user_name users.now) }
    ensures numbers { IfOk result (AllByRecursion (λ p. IsBook p.1)) }
    ensures ends { IsTrue (S.seen site.old).observable → OnOk result (drop window.new.place (bytes_of (S.seen site.old).files file) ≡ []) }
    ensures cause { IfErr result (TakeCause file (LastBreaks users.now) (S.seen site.old) (S.seen site.new) window.old) }
{
    read_this_count(alloc, site, file, window, users.len())?;
    let books = read_books(alloc, site, file, window, users)?;
    at_end(window)?;
    Ok(books)
}

/// Whether no byte is left.
fn at_end(window: &Window) -> Result<(), SnapFault>
    ensures end { OnOk result (window.now.place ≡ window.now.size) }
    ensures place { IfErr result (λ fault. fault ≡ broken_at window.now.place) }
    ensures more { IfErr result (λ fault. window.now.place < window.now.size) }
{
    if window.left() > 0 {
        return Err(SnapFault::Damaged { at: window.place() });
    }
    Ok(())
}
