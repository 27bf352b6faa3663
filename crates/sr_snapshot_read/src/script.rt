//! The script of a catalog, read through a window: its texts one by one, and once more beside those of the catalog that they made.

ghost use Rattle.std.specs.Prelude.{◌≡◌, ◌↔◌, ℕ, List, ◌∷◌, None, map, IsTrue, IfOk, IfErr, IfSome, OnOk};
ghost use Rattle.sr_ast.specs.Layout.{printed};
ghost use Rattle.sr_ast.specs.Statements.{is_ddl as is_ddl_stmt};
ghost use Rattle.sr_ast.specs.declared.stmt.Stmt.{Stmt as Statement};
ghost use Rattle.sr_catalog_change.specs.Changes.{refusal};
ghost use Rattle.sr_catalog_schema.specs.Catalogs.{nothing_but};
ghost use Rattle.sr_catalog_script_laws.specs.Scripts.{statements};
ghost use Rattle.sr_site.specs.Files.{bytes_of};
ghost use Rattle.sr_snapshot.specs.declared.fault.SnapFault.TheVariants.{Damaged as broken_at};
ghost use Rattle.sr_snapshot_read.specs.Damages.{IsNextStatement, ScriptBreaks, TextsBreak};
ghost use Rattle.sr_snapshot_read.specs.Inner.Reading.{IsOver, TakeCause};
ghost use Rattle.sr_snapshot_read.specs.Inner.ScriptRead.{HasRepeated, HasTakenScript, HasTakenText, HasTakenTexts, Makes, RefusesText, RepeatBreaks, RepeatsFrom, TextBreaks};

use crate::fields::read_count;
use crate::values::read_text;
use crate::window::Window;
use sr_ast::{Stmt, is_ddl};
use sr_base::{Name, NoMemory, Text};
use sr_catalog::Catalog;
use sr_parse::printed_statement;
use sr_site::{Disk, File};
use sr_snapshot::SnapFault;
use std::alloc::Global;

/// Reads the script of a catalog of this publisher.
///
/// Each text has to be the printed form of one statement on the catalog, which the catalog accepts behind those before it. Behind the last one they
/// have to be the script of the catalog that they made: so they are read a second time, and none of them is kept.
pub(crate) fn read_script<S: Disk>(
    alloc: Global,
    site: &mut S,
    file: File,
    window: &mut Window,
    publisher: Name,
) -> Result<Catalog, SnapFault>
    requires over { IsTrue (S.seen site.old).observable → IsOver window.old (bytes_of (S.seen site.old).files file) }
    ensures taken { IfOk result (HasTakenScript file publisher (S.seen site.old) (S.seen site.new) window.old window.new) }
    ensures cause { IfErr result (TakeCause file (ScriptBreaks publisher) (S.seen site.old) (S.seen site.new) window.old) }
{
    let place = window.place();
    let count = read_count(alloc, site, file, window)?;
    let again = window.again(alloc);
    let catalog = read_texts(alloc, site, file, window, count, publisher)?;
    let whole = read_script_again(alloc, site, file, again, count, &catalog)?;
    if !whole {
        return Err(SnapFault::Damaged { at: place });
    }
    Ok(catalog)
}

/// Reads so many texts through this window beside those of the script of a catalog, and answers whether they are all of it.
fn read_script_again<S: Disk>(
    alloc: Global,
    site: &mut S,
    file: File,
    window: Window,
    count: u32,
    catalog: &Catalog,
) -> Result<bool, SnapFault>
    requires over { IsTrue (S.seen site.old).observable → IsOver window (bytes_of (S.seen site.old).files file) }
    ensures taken { IfOk result (RepeatsFrom file (map printed (statements catalog.now)) count (S.seen site.old) (S.seen site.new) window) }
    ensures cause { IfErr result (TakeCause file (RepeatBreaks (map printed (statements catalog.now)) count) (S.seen site.old) (S.seen site.new) window) }
{
    let mut again = window;
    let script = catalog.script(alloc)?;
    let whole = read_again(alloc, site, file, &mut again, count, script.as_slice())?;
    Ok(whole)
}

/// Reads so many texts, and makes a catalog of them.
fn read_texts<S: Disk>(
    alloc: Global,
    site: &mut S,
    file: File,
    window: &mut Window,
    count: u32,
    publisher: Name,
) -> Result<Catalog, SnapFault>
    requires over { IsTrue (S.seen site.old).observable → IsOver window.old (bytes_of (S.seen site.old).files file) }
    ensures taken { IfOk result (HasTakenTexts file count (S.seen site.old) (S.seen site.new) window.old window.new (nothing_but publisher)) }
    ensures cause { IfErr result (TakeCause file (TextsBreak (nothing_but publisher) count) (S.seen site.old) (S.seen site.new) window.old) }
{
    let mut catalog = Catalog::new(alloc, publisher);
    let mut left = count;
    'texts: while left > 0 {
        read_next(alloc, site, file, window, &mut catalog)?;
        left -= 1;
    }
    Ok(catalog)
}

/// Reads a text, and does to the catalog what its statement does.
fn read_next<S: Disk>(
    alloc: Global,
    site: &mut S,
    file: File,
    window: &mut Window,
    catalog: &mut Catalog,
) -> Result<(), SnapFault>
    requires over { IsTrue (S.seen site.old).observable → IsOver window.old (bytes_of (S.seen site.old).files file) }
    ensures taken { OnOk result (HasTakenText file (S.seen site.old) (S.seen site.new) window.old window.new catalog.old catalog.new) }
    ensures cause { IfErr result (TakeCause file (TextBreaks catalog.old) (S.seen site.old) (S.seen site.new) window.old) }
{
    let place = window.place();
    let text = read_text(alloc, site, file, window)?;
    change_by(alloc, catalog, &text, place)?;
    Ok(())
}

/// Does to a catalog what the statement of a text does, which stands at this place.
fn change_by(alloc: Global, catalog: &mut Catalog, text: &Text, place: u64) -> Result<(), SnapFault>
    ensures makes { OnOk result (Makes catalog.old text.now catalog.new) }
    ensures cause { IfErr result (RefusesText catalog.old text.now place) }
{
    let stmt = statement_at(alloc, catalog, text, place)?;
    let done = catalog.apply(alloc, &stmt);
    drop(stmt);
    done?;
    Ok(())
}

/// The statement of a text, which stands at this place.
fn statement_at(
    alloc: Global,
    catalog: &Catalog,
    text: &Text,
    place: u64,
) -> Result<Stmt, SnapFault>
    ensures next { IfOk result (IsNextStatement catalog.now text.now) }
    ensures cause { IfErr result (RefusesText catalog.now text.now place) }
{
    match next_statement(alloc, catalog, text)? {
        Some(stmt) => Ok(stmt),
        None => Err(SnapFault::Damaged { at: place }),
    }
}

/// The statement that prints this text, where it is one on the catalog that the catalog accepts.
fn next_statement(alloc: Global, catalog: &Catalog, text: &Text) -> Result<Option<Stmt>, NoMemory>
    ensures found { IfOk result (λ found. IfSome found (IsNextStatement catalog.now text.now)) }
    ensures none { IfOk result (λ found. found ≡ None → (s : Statement) → ¬ (IsNextStatement catalog.now text.now s)) }
{
    match printed_statement(alloc, text)? {
        Some(stmt) => {
            let accepted = is_accepted(alloc, catalog, &stmt)?;
            if accepted {
                return Ok(Some(stmt));
            }
            drop(stmt);
            Ok(None)
        }
        None => Ok(None),
    }
}

/// Whether a statement is one on the catalog, and the catalog does not refuse it.
fn is_accepted(alloc: Global, catalog: &Catalog, stmt: &Stmt) -> Result<bool, NoMemory>
    ensures accepted { IfOk result (λ accepted. IsTrue accepted ↔ (IsTrue (is_ddl_stmt stmt.now) × (refusal catalog.now stmt.now ≡ None))) }
{
    if !is_ddl(stmt) {
        return Ok(false);
    }
    let fault = catalog.refusal(alloc, stmt)?;
    Ok(fault.is_none())
}

/// Reads so many texts beside those of a script, and answers whether they are all of it.
fn read_again<S: Disk>(
    alloc: Global,
    site: &mut S,
    file: File,
    window: &mut Window,
    count: u32,
    script: &[Text],
) -> Result<bool, SnapFault>
    requires over { IsTrue (S.seen site.old).observable → IsOver window.old (bytes_of (S.seen site.old).files file) }
    ensures taken { IfOk result (HasRepeated file script.now count (S.seen site.old) (S.seen site.new) window.old window.new) }
    ensures cause { IfErr result (TakeCause file (RepeatBreaks script.now count) (S.seen site.old) (S.seen site.new) window.old) }
{
    let mut left = count;
    let mut lines = script;
    'texts: while left > 0 {
        let place = window.place();
        let text = read_text(alloc, site, file, window)?;
        let later = lines_behind(lines, &text, place)?;
        lines = later;
        left -= 1;
    }
    Ok(lines.is_empty())
}

/// The lines behind the first one, which has to be this text; it stands at this place.
fn lines_behind<'a>(lines: &'a [Text], text: &Text, place: u64) -> Result<&'a [Text], SnapFault>
    ensures first { IfOk result (λ later. lines.now ≡ text.now ∷ later.now) }
    ensures place { IfErr result (λ fault. fault ≡ broken_at place) }
    ensures other { IfErr result (λ fault. (later : List (List ℕ)) → ¬ (lines.now ≡ text.now ∷ later)) }
{
    let Some((line, later)) = lines.split_first() else {
        return Err(SnapFault::Damaged { at: place });
    };
    if line.bytes() == text.bytes() {
        return Ok(later);
    }
    Err(SnapFault::Damaged { at: place })
}
