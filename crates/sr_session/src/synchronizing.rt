//! SYNCHRONIZE, where nothing is pending.

ghost use Rattle.std.specs.Prelude.{◌≡◌, [], Option, None, IfOk};
ghost use Rattle.sr_ast.specs.declared.stmt.Stmt.TheVariants.{Synchronize as SynchronizeStmt};
ghost use Rattle.sr_ast.specs.declared.stmt.Passthrough.{Passthrough as Region};
ghost use Rattle.sr_catalog_change.specs.Changes.{refusal};
ghost use Rattle.sr_database_history.specs.Recorded.{sync};
ghost use Rattle.sr_logform.specs.Inner.Entries.{IsShortEntry};
ghost use Rattle.sr_logform.specs.declared.entry.Entry.TheVariants.{Sync as SyncEntry};
ghost use Rattle.sr_database.specs.Views.{committed};
ghost use Rattle.sr_session_script.specs.Meaning.{enters, synchronized};
ghost use Rattle.sr_session_script.specs.Synced.{views_of};
ghost use Rattle.sr_session.specs.Inner.Ready.{IsReady, work_of};
ghost use Rattle.sr_session.specs.Inner.Steps.{Took};

use crate::entering::enter;
use crate::fault::StepFault;
use sr_ast::{Stmt, SubscriptionRule};
use sr_base::{Copied, NoMemory};
use sr_catalog::Catalog;
use sr_database::Database;
use sr_logform::Entry;
use sr_rows::Rows;
use sr_session_script::{accept, are_short_views, views_of};
use sr_site::Site;
use std::alloc::{AllocError, Global};

/// SYNCHRONIZE, outside a region: one entry.
pub(crate) fn synchronize<S: Site>(
    alloc: Global,
    db: &mut Database,
    site: &mut S,
    lines: &mut Vec<u8>,
    stmt: &Stmt,
    rule: &SubscriptionRule,
) -> Result<(), StepFault>
    requires ready { IsReady db.old (S.seen site.old) }
    requires pending { db.old.pending ≡ [] }
    requires stmt { stmt.now ≡ SynchronizeStmt rule.now }
    ensures took { (region : Option Region) → Took (synchronized rule.now (work_of db.old region)) db.old db.new (S.seen site.old) (S.seen site.new) lines.old.items lines.new.items region result }
{
    accept(alloc, db.catalog(), stmt)?;
    record_views(alloc, db, site, lines, rule)
}

/// The entry of a SYNCHRONIZE that is accepted.
fn record_views<S: Site>(
    alloc: Global,
    db: &mut Database,
    site: &mut S,
    lines: &mut Vec<u8>,
    rule: &SubscriptionRule,
) -> Result<(), StepFault>
    requires ready { IsReady db.old (S.seen site.old) }
    requires pending { db.old.pending ≡ [] }
    requires accepted { refusal db.old.catalog (SynchronizeStmt rule.now) ≡ None }
    ensures took { (region : Option Region) → Took (enters (sync rule.now.user (views_of (committed db.old) rule.now)) (work_of db.old region)) db.old db.new (S.seen site.old) (S.seen site.new) lines.old.items lines.new.items region result }
{
    let entry = entry_of_views(alloc, db.catalog(), db.rows(), rule)?;
    enter(alloc, db, site, lines, &entry)
}

/// What the subscription's user sees of the tables of its publication, as an entry. Lists of 2^32 items and texts of 2^32 bytes are taken for want of
/// memory.
fn entry_of_views(
    alloc: Global,
    catalog: &Catalog,
    rows: &Rows,
    rule: &SubscriptionRule,
) -> Result<Entry, NoMemory>
    ensures entry { IfOk result (λ entry. entry ≡ SyncEntry rule.now.user (views_of (record { catalog = catalog.now; rows = rows.now.rows }) rule.now)) }
    ensures short { IfOk result (λ entry. IsShortEntry entry) }
{
    let user = rule.user.copy(alloc)?;
    let tables = views_of(alloc, catalog, rows, rule)?;
    if !are_short_views(tables.as_slice()) {
        return Err(AllocError);
    }
    Ok(Entry::Sync { user, tables })
}
