//! The open transaction: committed, or rolled back.

ghost use Rattle.std.specs.Prelude.{◌≡◌, ◌≢◌, ◌∷◌, [], true, List, ℕ, Option, IfOk};
ghost use Rattle.sr_ast.specs.declared.stmt.Passthrough.{Passthrough as Region};
ghost use Rattle.sr_database_history.specs.Recorded.{own};
ghost use Rattle.sr_session_script.specs.Meaning.{enters, goes, closing, committed, rolled};
ghost use Rattle.sr_session_script.specs.Works.{closed};
ghost use Rattle.sr_database.specs.Inner.Sound.{IsSound};
ghost use Rattle.sr_site.specs.Seen.{Seen as SiteSeen};
ghost use Rattle.sr_session.specs.Inner.Ready.{IsReady, work_of};
ghost use Rattle.sr_session.specs.Inner.Steps.{Took};

use crate::entering::enter;
use crate::fault::StepFault;
use sr_base::{Copied, NoMemory, Seq};
use sr_database::Database;
use sr_logform::{Change, Entry};
use sr_site::Site;
use std::alloc::Global;

/// Commits the open transaction, where it has changes.
pub(crate) fn close<S: Site>(
    alloc: Global,
    db: &mut Database,
    site: &mut S,
    lines: &mut Vec<u8>,
) -> Result<(), StepFault>
    requires ready { IsReady db.old (S.seen site.old) }
    ensures took { (region : Option Region) → Took (goes (closing db.old.pending) (closed (work_of db.old region))) db.old db.new (S.seen site.old) (S.seen site.new) lines.old.items lines.new.items region result }
{
    if db.pending().is_empty() {
        return Ok(());
    }
    commit_pending(alloc, db, site, lines)
}

/// `COMMIT`: one entry for the open transaction, where it has changes.
pub(crate) fn commit<S: Site>(
    alloc: Global,
    db: &mut Database,
    site: &mut S,
    lines: &mut Vec<u8>,
) -> Result<(), StepFault>
    requires ready { IsReady db.old (S.seen site.old) }
    ensures took { (region : Option Region) → Took (committed (work_of db.old region)) db.old db.new (S.seen site.old) (S.seen site.new) lines.old.items lines.new.items region result }
{
    if db.pending().is_empty() {
        lines.extend_from_slice(b"nothing to commit\n")?;
        return Ok(());
    }
    commit_pending(alloc, db, site, lines)
}

/// One entry of the changes of the open transaction, which are copied once.
fn commit_pending<S: Site>(
    alloc: Global,
    db: &mut Database,
    site: &mut S,
    lines: &mut Vec<u8>,
) -> Result<(), StepFault>
    requires ready { IsReady db.old (S.seen site.old) }
    requires open { db.old.pending ≢ [] }
    ensures took { (region : Option Region) → Took (enters (own db.old.pending) (work_of db.old region)) db.old db.new (S.seen site.old) (S.seen site.new) lines.old.items lines.new.items region result }
{
    let changes = copied(alloc, db.pending())?;
    let Ok(_) = u32::try_from(changes.as_slice().len()) else {
        return Err(StepFault::Memory);
    };
    let entry = Entry::Own(changes);
    enter(alloc, db, site, lines, &entry)
}

fn copied(alloc: Global, changes: &[Change]) -> Result<Seq<Change>, NoMemory>
    ensures equal { IfOk result (λ copy. copy ≡ changes.now) }
{
    let mut items = Vec::with_capacity(alloc, changes.len())?;
    let mut left = changes;
    'changes: while let Some((change, rest)) = left.split_first() {
        items.push(change.copy(alloc)?)?;
        left = rest;
    }
    Ok(Seq::from_vec(items))
}

/// `ROLLBACK`.
pub(crate) fn roll_back(db: &mut Database, lines: &mut Vec<u8>) -> Result<(), StepFault>
    requires usable { db.old.log.usable ≡ true }
    requires sound { IsSound db.old }
    ensures took { (seen : SiteSeen) (region : Option Region) → Took (rolled (work_of db.old region)) db.old db.new seen seen lines.old.items lines.new.items region result }
{
    lines.extend_from_slice(b"rolled back\n")?;
    db.rollback();
    Ok(())
}
