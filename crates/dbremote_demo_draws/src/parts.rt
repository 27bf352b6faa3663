//! What is counted of the four databases at the end.

ghost use Rattle.std.specs.Prelude.{◌≡◌, true, List, map, IfOk};
ghost use Rattle.std.specs.Option.{option_copied};
ghost use Rattle.sr_book.specs.Entries.{Name as AName};
ghost use Rattle.sr_database.specs.Databases.{IsDatabase};
ghost use Rattle.sr_database.specs.Inner.Views.{present};
ghost use Rattle.dbremote_demo_draws.specs.Agreement.{differing};
ghost use Rattle.dbremote_demo_draws.specs.Names.{text_of};
ghost use Rattle.sr_database_history.specs.Recorded.{Recorded, entry_of};
ghost use Rattle.sr_memsite.specs.Disks.{files_in};
ghost use Rattle.sr_memsite.specs.Inner.Meaning.{seen_of};
ghost use Rattle.sr_publish.specs.SubscribedTables.{subscribed_table_of};
ghost use Rattle.dbremote_demo_draws.specs.Inner.Parted.{IsPartOf, IsPartOfAbove};
ghost use Rattle.dbremote_demo_draws.specs.Inner.Whole.{AreWhole, StandWhole};
ghost use Rattle.dbremote_demo_draws.specs.Summaries.{ArePartsOf, IsCounted, IsPartBelow, IsSummary, cust, keys_named};

use crate::agreeing::{count_rows, differing};
use crate::counting::outcomes_of;
use crate::demo_site::{DemoSite, name_in};
use crate::demo_sites::DemoSites;
use crate::keys::Keys;
use crate::reading::entries_of;
use crate::summary::{Part, Parts, Summary};
use sr_base::{Name, NoMemory};
use sr_catalog_schema::Table;
use sr_database::Database;
use sr_logform::Entry;
use sr_memsite::{MemoryDisk, MemorySite, SharedMail};
use std::alloc::{AllocError, Global};

/// What all came to: of each database, which is opened and whose log, which has all of its history, is read once, and of the mail.
pub fn summed(
    alloc: Global,
    demo_sites: DemoSites,
    statements: u32,
    lost: u64,
) -> Result<Summary, NoMemory>
    ensures summary { AreWhole demo_sites → IfOk result (IsSummary statements demo_sites lost) }
{
    let DemoSites {
        cons,
        r1,
        r2,
        r3,
        mail,
    } = demo_sites;
    let put = mail.puts().len() as u64;
    drop(mail);
    let mut site = MemorySite::with(cons, SharedMail::new(alloc));
    let parts = parts_on(alloc, &mut site, r1, r2, r3);
    drop(site);
    Ok(Summary {
        statements,
        put,
        lost,
        parts: parts?,
    })
}

/// What is counted of each, of which the one above is on a site.
fn parts_on(
    alloc: Global,
    site: &mut MemorySite,
    r1: MemoryDisk,
    r2: MemoryDisk,
    r3: MemoryDisk,
) -> Result<Parts, NoMemory>
    ensures parts { StandWhole (seen_of site.old).files → StandWhole (files_in r1) → StandWhole (files_in r2) → StandWhole (files_in r3)
        → IfOk result (ArePartsOf (seen_of site.old).files (files_in r1) (files_in r2) (files_in r3)) }
{
    match Database::open(alloc, site) {
        Ok(above) => {
            let cons = part_above(alloc, &above, site);
            let r1 = part_below(alloc, &above, r1, DemoSite::R1);
            let r2 = part_below(alloc, &above, r2, DemoSite::R2);
            let r3 = part_below(alloc, &above, r3, DemoSite::R3);
            drop(above);
            Ok(Parts {
                cons: cons?,
                r1: r1?,
                r2: r2?,
                r3: r3?,
            })
        }
        Err(_) => Err(AllocError),
    }
}

/// The table whose rows are counted.
fn cust(alloc: Global) -> Result<Name, NoMemory>
    ensures name { IfOk result (λ name. name ≡ cust) }
{
    name_in(alloc, b"cust")
}

/// What is counted of the database above.
fn part_above(alloc: Global, above: &Database, site: &mut MemorySite) -> Result<Part, NoMemory>
    requires usable { above.now.log.usable ≡ true }
    ensures part { above.now.log.base ≡ 0 → (publisher : AName) (es : List Recorded) → IsDatabase above.now publisher es (seen_of site.old) → IfOk result (IsPartOfAbove (present above.now) (map entry_of es)) }
{
    let entries = entries_of(alloc, above, site)?;
    let table = cust(alloc)?;
    let part = counted(above, entries.as_slice(), &table, 0);
    drop(table);
    drop(entries);
    part
}

/// What is counted of a database's rows and entries, beside how far it differs.
fn counted(
    database: &Database,
    entries: &[Entry],
    table: &Name,
    differ: u64,
) -> Result<Part, NoMemory>
    requires usable { database.now.log.usable ≡ true }
    requires table { table.now ≡ cust }
    ensures counted { IfOk result (IsCounted entries.now database.now.rows.rows) }
    ensures differ { IfOk result (λ part. part.differ ≡ differ) }
{
    let outcomes = outcomes_of(entries)?;
    Ok(Part {
        rows: count_rows(database.rows(), table)?,
        conflicts: outcomes.conflicts,
        clashes: outcomes.clashes,
        differ,
    })
}

/// What is counted of a database below.
fn part_below(
    alloc: Global,
    above: &Database,
    disk: MemoryDisk,
    demo_site: DemoSite,
) -> Result<Part, NoMemory>
    requires usable { above.now.log.usable ≡ true }
    ensures part { StandWhole (files_in disk) → IfOk result (IsPartBelow (files_in disk) (present above.now) demo_site) }
{
    let mut site = MemorySite::with(disk, SharedMail::new(alloc));
    let part = part_on(alloc, above, &mut site, demo_site);
    drop(site);
    part
}

/// What is counted of a database below that is on a site.
fn part_on(
    alloc: Global,
    above: &Database,
    site: &mut MemorySite,
    demo_site: DemoSite,
) -> Result<Part, NoMemory>
    requires usable { above.now.log.usable ≡ true }
    ensures part { StandWhole (seen_of site.old).files → IfOk result (IsPartBelow (seen_of site.old).files (present above.now) demo_site) }
{
    match Database::open(alloc, site) {
        Ok(below) => {
            let part = part_of(alloc, above, &below, site, demo_site);
            drop(below);
            Ok(part?)
        }
        Err(_) => Err(AllocError),
    }
}

/// What is counted of a database below that was opened.
fn part_of(
    alloc: Global,
    above: &Database,
    below: &Database,
    site: &mut MemorySite,
    demo_site: DemoSite,
) -> Result<Part, NoMemory>
    requires usable { above.now.log.usable ≡ true }
    requires usable_below { below.now.log.usable ≡ true }
    ensures part { below.now.log.base ≡ 0 → (publisher : AName) (es : List Recorded) → IsDatabase below.now publisher es (seen_of site.old) → IfOk result (IsPartOf (present above.now) demo_site (present below.now) (map entry_of es)) }
{
    let entries = entries_of(alloc, below, site)?;
    let table = cust(alloc)?;
    let part = part_of_entries(alloc, above, below, entries.as_slice(), demo_site, &table);
    drop(table);
    drop(entries);
    part
}

/// What is counted of it, with the entries of its log.
fn part_of_entries(
    alloc: Global,
    above: &Database,
    below: &Database,
    entries: &[Entry],
    demo_site: DemoSite,
    table: &Name,
) -> Result<Part, NoMemory>
    requires usable { above.now.log.usable ≡ true }
    requires usable_below { below.now.log.usable ≡ true }
    requires table { table.now ≡ cust }
    ensures part { IfOk result (IsPartOf (present above.now) demo_site (present below.now) entries.now) }
{
    let own = keys_named(alloc, below.catalog().table(table), entries)?;
    let differ = differing_from(alloc, above, below, demo_site, table, &own);
    drop(own);
    let part = counted(below, entries, table, differ?)?;
    Ok(part)
}

/// The keys of a table that own transactions name; none where it is not there.
fn keys_named(alloc: Global, table: Option<&Table>, entries: &[Entry]) -> Result<Keys, NoMemory>
    ensures keys { IfOk result (λ keys. keys ≡ keys_named (option_copied table.entry) entries.now) }
{
    match table {
        Some(table) => Keys::of(alloc, table, entries),
        None => Ok(Keys::none(alloc)),
    }
}

/// At how many keys that it did not name itself a database below differs.
fn differing_from(
    alloc: Global,
    above: &Database,
    below: &Database,
    demo_site: DemoSite,
    table: &Name,
    own: &Keys,
) -> Result<u64, NoMemory>
    requires usable { above.now.log.usable ≡ true }
    requires usable_below { below.now.log.usable ≡ true }
    ensures differ { IfOk result (λ count. count ≡ differing (subscribed_table_of above.now.catalog (text_of demo_site) table.now) above.now.rows.rows below.now.rows.rows table.now own.now) }
{
    let user = demo_site.name(alloc)?;
    let differ = differing(
        alloc,
        above.catalog(),
        above.rows(),
        below.rows(),
        &user,
        table,
        own,
    );
    drop(user);
    differ
}
