//! Statements on the catalog, where nothing is pending.

ghost use Rattle.std.specs.Prelude.{◌≡◌, ◌<◌, ◌^◌, [], length, Option, Some, IfOk};
ghost use Rattle.sr_ast.specs.Layout.{printed};
ghost use Rattle.sr_ast.specs.declared.stmt.Passthrough.{Passthrough as Region};
ghost use Rattle.sr_database_history.specs.Recorded.{IsDdl};
ghost use Rattle.sr_session_script.specs.Meaning.{changed};
ghost use Rattle.sr_session.specs.Inner.Ready.{IsReady, work_of};
ghost use Rattle.sr_session.specs.Inner.Steps.{Took};

use crate::entering::enter;
use crate::fault::StepFault;
use sr_ast::Stmt;
use sr_ast_print::print;
use sr_base::{NoMemory, Text};
use sr_database::Database;
use sr_logform::Entry;
use sr_session_script::{accept, is_done_already};
use sr_site::Site;
use std::alloc::{AllocError, Global};

/// A statement that changes the catalog, outside a region: one entry, or none where it is a START of a subscription that is started.
pub(crate) fn change<S: Site>(
    alloc: Global,
    db: &mut Database,
    site: &mut S,
    lines: &mut Vec<u8>,
    stmt: &Stmt,
) -> Result<(), StepFault>
    requires ready { IsReady db.old (S.seen site.old) }
    requires pending { db.old.pending ≡ [] }
    requires ddl { IsDdl stmt.now }
    ensures took { (region : Option Region) → Took (changed stmt.now (work_of db.old region)) db.old db.new (S.seen site.old) (S.seen site.new) lines.old.items lines.new.items region result }
{
    accept(alloc, db.catalog(), stmt)?;
    let done = is_done_already(alloc, db.catalog(), stmt)?;
    if done {
        lines.extend_from_slice(b"nothing to commit\n")?;
        return Ok(());
    }
    let entry = Entry::Ddl(text_of(alloc, stmt)?);
    enter(alloc, db, site, lines, &entry)
}

/// A statement as it prints. A text of 2^32 bytes, which no statement of a script has, is taken for want of memory.
pub(crate) fn text_of(alloc: Global, stmt: &Stmt) -> Result<Text, NoMemory>
    ensures text { IfOk result (λ text. text ≡ printed stmt.now) }
    ensures short { IfOk result (λ text. length text < 2 ^ 32) }
{
    let text = print(alloc, stmt)?;
    if text.bytes().len() > 4294967295 {
        return Err(AllocError);
    }
    Ok(text)
}
