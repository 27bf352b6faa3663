//! The entry that takes a transaction of a partner, and where it ends.

ghost use Rattle.std.specs.Prelude.{◌≡◌, ◌↔◌, IfOk, IsSome, IsTrue};
ghost use Rattle.sr_catalog_schema.specs.Members.{user_name};
ghost use Rattle.sr_catalog_schema.specs.Names.{named};
ghost use Rattle.sr_database_fold.specs.Inner.Readings.{state_in};
ghost use Rattle.sr_exec_dml.specs.Fitting.{RowsFit};
ghost use Rattle.sr_logform.specs.Inner.Entries.{IsShortEntry};
ghost use Rattle.sr_logform.specs.Inner.Ops.{IsShortTransaction};
ghost use Rattle.sr_rows.specs.Inner.Steps.{at_mark};
ghost use Rattle.sr_world_entries.specs.Inner.Taking.{IsEndWith, TakeEndsIn};

use crate::ends::end_behind;
use crate::judging::{entry_with, judge_ops};
use crate::shortness::are_short_outcomes;
use sr_base::{Name, NoMemory};
use sr_catalog::Catalog;
use sr_logform::{Entry, Transaction};
use sr_rows::Rows;
use std::alloc::Global;

/// The entry by which a database takes a transaction of a user, each op with its judged outcome, and the offset at which it ends behind one; `None` exactly
/// where no entry may take it: the user is not granted, or the entry has no spelling, or a longer one than it may have, or would end past the farthest
/// offset. Catalog and rows are good for nothing then. It takes the time of judging the ops and of writing the entry.
#[tactic(auto, using(crate::proofs::Takings::not_known, crate::proofs::Takings::not_short, crate::proofs::Takings::short_taken, crate::proofs::Takings::take_ends))]
pub fn take_end(
    alloc: Global,
    catalog: &mut Catalog,
    rows: &mut Rows,
    place: u64,
    user: &Name,
    transaction: &Transaction,
) -> Result<Option<(u64, Entry)>, NoMemory>
    requires rows { RowsFit catalog.old rows.old.rows }
    requires fresh { rows.old ≡ at_mark rows.old.rows }
    requires short { IsShortTransaction transaction.now }
    ensures end { IfOk result (TakeEndsIn (state_in catalog.old rows.old) place user.now transaction.now) }
{
    if !is_known(catalog, user) {
        return Ok(None);
    }
    let ops = judge_ops(alloc, catalog, rows, user, transaction.ops.as_slice())?;
    if !are_short_outcomes(ops.as_slice()) {
        drop(ops);
        return Ok(None);
    }
    let entry = entry_with(alloc, user, transaction.at, ops)?;
    end_with(alloc, place, entry)
}

/// Whether a user is granted.
fn is_known(catalog: &Catalog, user: &Name) -> bool
    ensures known { IsTrue result ↔ IsSome (named user_name user.now catalog.now.users) }
{
    catalog.user(user).is_some()
}

/// An entry with the offset at which it ends behind one; `None` where it may not stand there.
fn end_with(alloc: Global, place: u64, entry: Entry) -> Result<Option<(u64, Entry)>, NoMemory>
    requires short { IsShortEntry entry }
    ensures end { IfOk result (IsEndWith place entry) }
{
    match end_behind(alloc, place, &entry) {
        Ok(Some(end)) => Ok(Some((end, entry))),
        Ok(None) => {
            drop(entry);
            Ok(None)
        }
        Err(refused) => {
            drop(entry);
            Err(refused)
        }
    }
}
