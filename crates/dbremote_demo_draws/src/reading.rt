//! The entries of a log.

ghost use Rattle.std.specs.Prelude.{◌≡◌, ◌≤◌, ◌<◌, ◌++◌, true, List, map, IfOk, IfSome, IfErr, IsTrue};
ghost use Rattle.sr_book.specs.Entries.{Name as AName};
ghost use Rattle.sr_database.specs.Databases.{IsDatabase};
ghost use Rattle.sr_database.specs.Inner.Entries.{IsEntryAfter};
ghost use Rattle.sr_database_history.specs.Folds.{end_of};
ghost use Rattle.sr_database_history.specs.Recorded.{Recorded, entry_of};
ghost use Rattle.sr_memsite.specs.Inner.Meaning.{seen_of};

use sr_base::{NoMemory, Offset};
use sr_database::Database;
use sr_logform::Entry;
use sr_memsite::MemorySite;
use std::alloc::{AllocError, Global};

/// All entries of the log of a database that was opened on a site, which is read once. Where the log begins at 0 they are those of the whole history.
pub(crate) fn entries_of(
    alloc: Global,
    database: &Database,
    site: &mut MemorySite,
) -> Result<Vec<Entry>, NoMemory>
    requires usable { database.now.log.usable ≡ true }
    ensures entries { database.now.log.base ≡ 0 → (publisher : AName) (es : List Recorded) → IsDatabase database.now publisher es (seen_of site.old) → IfOk result (λ entries. entries.items ≡ map entry_of es) }
{
    let usable_here = database.usable();
    prove!(usable_here);
    let mut entries = Vec::new(alloc);
    let mut after = database.base();
    'entries: while let Some((end, entry)) = next_entry(alloc, database, site, after)? {
        entries.push(entry)?;
        after = end;
    }
    Ok(entries)
}

/// The entry behind an offset, with its end.
fn next_entry(
    alloc: Global,
    database: &Database,
    site: &mut MemorySite,
    after: Offset,
) -> Result<Option<(Offset, Entry)>, NoMemory>
    requires usable { database.now.log.usable ≡ true }
    requires after { (database.now.log.base ≤ after.0) × (after.0 ≤ database.now.log.end) }
    ensures entry { (publisher : AName) (done left : List Recorded) → IsDatabase database.now publisher (done ++ left) (seen_of site.old) → after.0 ≡ end_of done
        → IfOk result (IsEntryAfter done left) }
    ensures within { IfOk result (λ found. IfSome found (λ x. (after.0 < x.0.0) × (x.0.0 ≤ database.now.log.end))) }
    ensures database { (publisher : AName) (es : List Recorded) → IsDatabase database.now publisher es (seen_of site.old) → IsDatabase database.now publisher es (seen_of site.new) }
{
    match database.entry_after(alloc, site, after) {
        Ok(found) => Ok(found),
        Err(_) => Err(AllocError),
    }
}
