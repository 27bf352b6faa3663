//! One entry, committed, with its line.

ghost use Rattle.std.specs.Prelude.{◌≡◌, true, List, ℕ, IsTrue};
ghost use Rattle.sr_ast.specs.declared.stmt.Passthrough.{Passthrough as Region};
ghost use Rattle.std.specs.Prelude.{Option};
ghost use Rattle.sr_database_history.specs.Recorded.{Recorded};
ghost use Rattle.sr_database.specs.Inner.Commits.{CanCommit, CanCommitSome};
ghost use Rattle.sr_session_script.specs.Meaning.{enters};
ghost use Rattle.sr_session.specs.Inner.Ready.{IsReady, work_of};
ghost use Rattle.sr_session.specs.Inner.Steps.{Took};

use crate::fault::StepFault;
use sr_database::Database;
use sr_logform::Entry;
use sr_session_script::{LONGEST_COMMITTED, push_committed};
use sr_site::Site;
use std::alloc::Global;

/// Commits an entry and adds its line. The memory for the line is taken before, so that an entry that stands is told.
pub(crate) fn enter<S: Site>(
    alloc: Global,
    db: &mut Database,
    site: &mut S,
    lines: &mut Vec<u8>,
    entry: &Entry,
) -> Result<(), StepFault>
    requires ready { IsReady db.old (S.seen site.old) }
    requires entry { CanCommitSome db.old entry.now }
    ensures took { (r : Recorded) (region : Option Region) → CanCommit db.old entry.now r
        → Took (enters r (work_of db.old region)) db.old db.new (S.seen site.old) (S.seen site.new) lines.old.items lines.new.items region result }
{
    lines.reserve(LONGEST_COMMITTED)?;
    match db.commit(alloc, site, entry) {
        Ok(end) => {
            push_committed(lines, end.0);
            Ok(())
        }
        Err(fault) => Err(StepFault::from(fault)),
    }
}
