//! INSERT, UPDATE, DELETE and SELECT.

ghost use Rattle.std.specs.Prelude.{◌≡◌, true, Option};
ghost use Rattle.sr_ast.specs.declared.stmt.Passthrough.{Passthrough as Region};
ghost use Rattle.sr_database.specs.Inner.Sound.{IsSound};
ghost use Rattle.sr_session_script.specs.Meaning.{executed, answered};
ghost use Rattle.sr_site.specs.Seen.{Seen as SiteSeen};
ghost use Rattle.sr_session.specs.Inner.Ready.{work_of};
ghost use Rattle.sr_session.specs.Inner.Steps.{Took};

use crate::fault::StepFault;
use sr_ast::{Dml, Select};
use sr_database::Database;
use sr_logform::Change;
use sr_session_script::{answer, are_short, push_count, push_rows};
use std::alloc::Global;

/// An INSERT, UPDATE or DELETE outside a region: its changes join the open transaction. Where they are its first ones and exec needs no
/// list of its own, they stand in the memory of the changes of the transaction before, unless a refused statement took it along.
pub(crate) fn execute(
    alloc: Global,
    db: &mut Database,
    lines: &mut Vec<u8>,
    stmt: &Dml,
) -> Result<(), StepFault>
    requires usable { db.old.log.usable ≡ true }
    requires sound { IsSound db.old }
    ensures took { (seen : SiteSeen) (region : Option Region) → Took (executed (work_of db.old region) stmt.now) db.old db.new seen seen lines.old.items lines.new.items region result }
{
    let spare = db.spare(alloc);
    execute_reusing(alloc, db, lines, stmt, spare)
}

/// The same, with the memory of a list that is not needed any more.
fn execute_reusing(
    alloc: Global,
    db: &mut Database,
    lines: &mut Vec<u8>,
    stmt: &Dml,
    spare: Vec<Change>,
) -> Result<(), StepFault>
    requires usable { db.old.log.usable ≡ true }
    requires sound { IsSound db.old }
    ensures took { (seen : SiteSeen) (region : Option Region) → Took (executed (work_of db.old region) stmt.now) db.old db.new seen seen lines.old.items lines.new.items region result }
{
    let changes = sr_session_script::execute(alloc, db.catalog(), db.rows(), stmt, spare)?;
    if !are_short(changes.list.as_slice()) {
        return Err(StepFault::Memory);
    }
    let count = changes.count;
    db.take_in(alloc, changes)?;
    push_count(alloc, lines, count)?;
    Ok(())
}

/// A SELECT: its rows and their number. No line is added before all rows are known.
pub(crate) fn select(
    alloc: Global,
    db: &Database,
    lines: &mut Vec<u8>,
    stmt: &Select,
) -> Result<(), StepFault>
    requires usable { db.now.log.usable ≡ true }
    requires sound { IsSound db.now }
    ensures took { (seen : SiteSeen) (region : Option Region) → Took (answered (work_of db.now region) stmt.now) db.now db.now seen seen lines.old.items lines.new.items region result }
{
    let rows = answer(alloc, db.catalog(), db.rows(), stmt)?;
    push_rows(alloc, lines, rows.as_slice())?;
    Ok(())
}
