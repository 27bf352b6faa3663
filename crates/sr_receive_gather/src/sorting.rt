//! What a fetched file is found to be.

ghost use Rattle.std.specs.Prelude.{◌≡◌, ◌↔◌, IsTrue, OnOk, OnErr};
ghost use Rattle.sr_receive_gather.specs.MessageFiles.{IsFor};
ghost use Rattle.sr_receive_gather.specs.Inner.Gathers.{IsSorted, IsPlaced};

use crate::bag::Bag;
use crate::report::Report;
use sr_base::{Copied, NoMemory, Text};
use sr_catalog::Catalog;
use sr_msgform::{Message, read_message};
use std::alloc::Global;

/// Sorts a file that was fetched: a message file goes into the bag, anything else is reported.
pub(crate) fn sort(
    alloc: Global,
    catalog: &Catalog,
    end: u64,
    name: &Text,
    bytes: &[u8],
    bag: &mut Bag,
    reports: &mut Vec<Report>,
) -> Result<(), NoMemory>
    ensures sorted { OnOk result (IsSorted catalog.now end name.now bytes.now bag.old bag.new reports.old.items reports.new.items) }
    ensures err { OnErr result (reports.new.items ≡ reports.old.items) }
{
    match read_message(alloc, bytes)? {
        None => {
            reports.push(Report::Junk {
                name: name.copy(alloc)?,
            })?;
            Ok(())
        }
        Some(message) => {
            let outcome = place(alloc, catalog, end, name, &message, bag, reports);
            drop(message);
            outcome
        }
    }
}

/// A message goes into the bag where it is for this database, or else it is a stranger.
fn place(
    alloc: Global,
    catalog: &Catalog,
    end: u64,
    name: &Text,
    message: &Message,
    bag: &mut Bag,
    reports: &mut Vec<Report>,
) -> Result<(), NoMemory>
    ensures placed { OnOk result (IsPlaced catalog.now end name.now message.now bag.old bag.new reports.old.items reports.new.items) }
    ensures err { OnErr result (reports.new.items ≡ reports.old.items) }
{
    if !is_for(catalog, end, message) {
        reports.push(Report::Stranger {
            name: name.copy(alloc)?,
        })?;
        return Ok(());
    }
    bag.add(alloc, name, message)
}

/// Whether a message is for this database: from a partner of it, and what it confirms and asks for lies within its log.
fn is_for(catalog: &Catalog, end: u64, message: &Message) -> bool
    ensures { IsTrue result ↔ IsFor catalog.now end message.now }
{
    message.to.bytes() == catalog.publisher().bytes()
        && catalog.user(&message.from).is_some()
        && message.confirm.0 <= end
        && message.ask_offset.0 <= end
}
