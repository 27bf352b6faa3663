//! The mail gathered.

ghost use Rattle.std.specs.Prelude.{◌≡◌, ◌++◌, true, IfOk, IfErr, OnOk, OnErr};
ghost use Rattle.sr_receive_gather.specs.Gathers.{GatherCause, GatherListedCause, GathersOne, GatherOneCause, GathersInto, more_report};
ghost use Rattle.sr_receive_gather.specs.Inner.Gathers.{HasGathered, GathersAll};

use crate::bag::Bag;
use crate::fault::ReceiveFault;
use crate::report::Report;
use crate::sorting::sort;
use sr_base::{NoMemory, Text};
use sr_catalog::Catalog;
use sr_database::Database;
use sr_site::{Listing, Site};
use std::alloc::Global;

/// The limit of each fetch, in bytes: one more than a message file may have.
pub(crate) const LONGEST_FETCH: usize = 2_097_153;

/// Gathers the mail of a database: the folder of its publisher's name is listed once, and each listed file is fetched once.
///
/// A file counts that is a message for this database, from a partner of it, which confirms and asks for nothing past its log; every other is
/// reported, in the order of the listing, and left in place. A file that is gone at its fetch is left out. `Mail` comes only where the mail's
/// count of faults rose; after `Memory` it is as it was. After a fault the reports made so far are kept: those of the first files of the listing, of which
/// each was fetched.
pub fn gather<S: Site>(
    alloc: Global,
    db: &Database,
    site: &mut S,
    reports: &mut Vec<Report>,
) -> Result<Bag, ReceiveFault>
    requires usable { db.now.log.usable ≡ true }
    ensures gathered { IfOk result (HasGathered db.now.catalog db.now.log.end (S.seen site.old) (S.seen site.new) reports.old.items reports.new.items) }
    ensures cause { IfErr result (GatherCause db.now.catalog db.now.log.end (S.seen site.old) (S.seen site.new) reports.old.items reports.new.items) }
{
    let catalog = db.catalog();
    let end = db.end().0;
    let mut bag = Bag::of(alloc, catalog.users())?;
    match gather_into(alloc, catalog, end, site, &mut bag, reports) {
        Ok(()) => Ok(bag),
        Err(fault) => {
            drop(bag);
            Err(fault)
        }
    }
}

/// Lists the folder, and gathers what it lists into the bag.
fn gather_into<S: Site>(
    alloc: Global,
    catalog: &Catalog,
    end: u64,
    site: &mut S,
    bag: &mut Bag,
    reports: &mut Vec<Report>,
) -> Result<(), ReceiveFault>
    ensures into { OnOk result (GathersInto catalog.now end (S.seen site.old) (S.seen site.new) bag.old bag.new reports.old.items reports.new.items) }
    ensures cause { IfErr result (GatherCause catalog.now end (S.seen site.old) (S.seen site.new) reports.old.items reports.new.items) }
{
    let listing = site.list(alloc, catalog.publisher())?;
    let outcome = gather_listed(alloc, catalog, end, site, &listing, bag, reports);
    drop(listing);
    outcome
}

/// Gathers the files of a listing.
fn gather_listed<S: Site>(
    alloc: Global,
    catalog: &Catalog,
    end: u64,
    site: &mut S,
    listing: &Listing,
    bag: &mut Bag,
    reports: &mut Vec<Report>,
) -> Result<(), ReceiveFault>
    ensures all { OnOk result (GathersAll catalog.now end (S.seen site.old) (S.seen site.new) listing.now bag.old bag.new reports.old.items reports.new.items) }
    ensures cause { IfErr result (GatherListedCause catalog.now end (S.seen site.old) (S.seen site.new) listing.now reports.old.items reports.new.items) }
{
    tell_more(reports, listing.more)?;
    let mut left = listing.names.as_slice();
    'names: while let Some((name, rest)) = left.split_first() {
        gather_one(alloc, catalog, end, site, name, bag, reports)?;
        left = rest;
    }
    Ok(())
}

/// Reports a listing that was cut.
fn tell_more(reports: &mut Vec<Report>, more: bool) -> Result<(), NoMemory>
    ensures told { OnOk result (reports.new.items ≡ reports.old.items ++ more_report more) }
    ensures err { OnErr result (reports.new.items ≡ reports.old.items) }
{
    if more {
        reports.push(Report::More)?;
    }
    Ok(())
}

/// Fetches a file, and sorts what came.
fn gather_one<S: Site>(
    alloc: Global,
    catalog: &Catalog,
    end: u64,
    site: &mut S,
    name: &Text,
    bag: &mut Bag,
    reports: &mut Vec<Report>,
) -> Result<(), ReceiveFault>
    ensures one { OnOk result (GathersOne catalog.now end (S.seen site.old) (S.seen site.new) name.now bag.old bag.new reports.old.items reports.new.items) }
    ensures cause { IfErr result (GatherOneCause catalog.now.publisher name.now (S.seen site.old) (S.seen site.new) reports.old.items reports.new.items) }
{
    match site.fetch(alloc, catalog.publisher(), name, LONGEST_FETCH)? {
        None => Ok(()),
        Some(bytes) => {
            let outcome = sort(alloc, catalog, end, name, bytes.as_slice(), bag, reports);
            drop(bytes);
            outcome?;
            Ok(())
        }
    }
}
