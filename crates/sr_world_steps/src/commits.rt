//! What a database may commit by itself.

ghost use Rattle.std.specs.Prelude.{◌≡◌, IfOk};
ghost use Rattle.sr_database_fold.specs.Inner.Readings.{state_in};
ghost use Rattle.sr_exec_dml.specs.Fitting.{RowsFit};
ghost use Rattle.sr_rows.specs.Inner.Steps.{at_mark};
ghost use Rattle.sr_world_steps.specs.Inner.Commits.{CommitEnds, CommitEndsIn};
ghost use Rattle.sr_world_entries.specs.Inner.Ends.{IsLocal};
ghost use Rattle.sr_world_steps.specs.Inner.Logs.{HasLog};

use crate::books::end_of;
use crate::standing::{Standing, standing_of};
use sr_base::{Name, NoMemory, Offset};
use sr_catalog::Catalog;
use sr_database_fold::go_on;
use sr_logform::Entry;
use sr_rows::Rows;
use sr_world_entries::{is_local, local_end, says_so};
use std::alloc::Global;

/// The offset at which an entry would end that a database commits by itself; `None` exactly where its history may not go on with it. It goes
/// through the log, and then costs what the entry does: a Sync a pass over the rows of its tables, a Pass the execution of its statement.
#[tactic(auto, using(crate::proofs::Committing::not_local, crate::proofs::Committing::commit_ends))]
pub(crate) fn commit_end(
    alloc: Global,
    at: &Name,
    log: &[(Offset, Entry)],
    entry: &Entry,
) -> Result<Option<u64>, NoMemory>
    requires some { HasLog at.now log.now }
    ensures end { IfOk result (CommitEnds at.now log.now entry.now) }
{
    if !is_local(entry) {
        return Ok(None);
    }
    let standing = standing_of(alloc, at, log)?;
    let end = end_on(alloc, standing, end_of(log), entry)?;
    Ok(end)
}

/// The same on what the history comes to, and its end.
fn end_on(
    alloc: Global,
    standing: Standing,
    place: u64,
    entry: &Entry,
) -> Result<Option<u64>, NoMemory>
    requires rows { RowsFit standing.catalog standing.rows.rows }
    requires fresh { standing.rows ≡ at_mark standing.rows.rows }
    requires local { IsLocal entry.now }
    ensures end { IfOk result (CommitEndsIn (state_in standing.catalog standing.rows) place entry.now) }
{
    let Standing {
        mut catalog,
        mut rows,
    } = standing;
    let end = end_in(alloc, &mut catalog, &mut rows, place, entry);
    drop(rows);
    drop(catalog);
    let end = end?;
    Ok(end)
}

/// The same on a catalog and rows, which are good for nothing then.
#[tactic(auto, using(crate::proofs::Committing::no_room, crate::proofs::Committing::not_so, crate::proofs::Committing::unfit, crate::proofs::Committing::fit))]
fn end_in(
    alloc: Global,
    catalog: &mut Catalog,
    rows: &mut Rows,
    place: u64,
    entry: &Entry,
) -> Result<Option<u64>, NoMemory>
    requires rows { RowsFit catalog.old rows.old.rows }
    requires fresh { rows.old ≡ at_mark rows.old.rows }
    requires local { IsLocal entry.now }
    ensures end { IfOk result (CommitEndsIn (state_in catalog.old rows.old) place entry.now) }
{
    let Some(end) = local_end(alloc, place, entry)? else {
        return Ok(None);
    };
    if !says_so(alloc, catalog, rows, entry)? {
        return Ok(None);
    }
    if !go_on(alloc, catalog, rows, entry)? {
        return Ok(None);
    }
    Ok(Some(end))
}
