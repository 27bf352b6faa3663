//! Passthrough regions.

ghost use Rattle.std.specs.Prelude.{◌≡◌, [], true, ℕ, Option, Some, List, OnOk, OnErr};
ghost use Rattle.sr_ast.specs.declared.stmt.Stmt.TheVariants.{Dml as DmlStmt, Passthrough as PassthroughStmt};
ghost use Rattle.sr_ast.specs.declared.stmt.Passthrough.{Passthrough as Region};
ghost use Rattle.sr_exec_dml.specs.FittingChanges.{ChangesFit};
ghost use Rattle.sr_database_history.specs.Fitting.{IsAcceptedPass, MayHaveChanges};
ghost use Rattle.sr_database_history.specs.Recorded.{IsCarried, IsDdl, pass};
ghost use Rattle.sr_database.specs.Inner.Sound.{IsSound};
ghost use Rattle.sr_database.specs.Views.{committed};
ghost use Rattle.sr_session_script.specs.Meaning.{enters, passed, catalog_changes, row_changes, refused_in, began, ended};
ghost use Rattle.sr_site.specs.Seen.{Seen as SiteSeen};
ghost use Rattle.sr_session.specs.Inner.Ready.{IsReady, AreUsers, work_of};
ghost use Rattle.sr_session.specs.Inner.Steps.{Took};

use crate::catalog::text_of;
use crate::entering::enter;
use crate::fault::StepFault;
use crate::session::Session;
use sr_ast::{Dml, Passthrough, Stmt};
use sr_base::{Copied, Name, Seq};
use sr_database::Database;
use sr_logform::{Change, Entry};
use sr_session_script::{
    Refusal, accept, are_few, are_short, pass_on_catalog, pass_on_rows, region_of, uncarried,
};
use sr_site::Site;
use std::alloc::Global;

/// `PASSTHROUGH FOR`: a region begins, in place of one that is there.
pub(crate) fn begin(
    alloc: Global,
    db: &Database,
    session: &mut Session,
    stmt: &Stmt,
    passthrough: &Passthrough,
) -> Result<(), StepFault>
    requires usable { db.now.log.usable ≡ true }
    requires sound { IsSound db.now }
    requires stmt { stmt.now ≡ PassthroughStmt passthrough.now }
    ensures took { (seen : SiteSeen) → Took (began passthrough.now (work_of db.now session.old.region)) db.now db.now seen seen session.old.lines.items session.new.lines.items session.new.region result }
    ensures users { OnOk result (AreUsers (committed db.now) session.new.region) }
{
    accept(alloc, db.catalog(), stmt)?;
    let region = region_of(alloc, passthrough)?;
    session.lines.extend_from_slice(b"passthrough on\n")?;
    session.region = Some(region);
    Ok(())
}

/// `PASSTHROUGH STOP`: no region is there.
pub(crate) fn end(db: &Database, session: &mut Session) -> Result<(), StepFault>
    requires usable { db.now.log.usable ≡ true }
    requires sound { IsSound db.now }
    ensures took { (seen : SiteSeen) → Took (ended (work_of db.now session.old.region)) db.now db.now seen seen session.old.lines.items session.new.lines.items session.new.region result }
    ensures users { OnOk result (AreUsers (committed db.now) session.new.region) }
{
    session.lines.extend_from_slice(b"passthrough off\n")?;
    session.region = None;
    Ok(())
}

/// A statement on the catalog that is passed on.
pub(crate) fn pass_change<S: Site>(
    alloc: Global,
    db: &mut Database,
    site: &mut S,
    lines: &mut Vec<u8>,
    region: &Passthrough,
    stmt: &Stmt,
) -> Result<(), StepFault>
    requires ready { IsReady db.old (S.seen site.old) }
    requires pending { db.old.pending ≡ [] }
    requires users { AreUsers (committed db.old) (Some region.now) }
    requires carried { IsCarried stmt.now }
    requires ddl { IsDdl stmt.now }
    ensures took { Took (passed region.now stmt.now (catalog_changes region.now.only (committed db.old) stmt.now) (work_of db.old (Some region.now))) db.old db.new (S.seen site.old) (S.seen site.new) lines.old.items lines.new.items (Some region.now) result }
{
    let changes = pass_on_catalog(alloc, region.only, db.catalog(), db.rows(), stmt)?;
    pass(alloc, db, site, lines, region, stmt, changes)
}

/// An INSERT, UPDATE or DELETE that is passed on.
pub(crate) fn pass_rows<S: Site>(
    alloc: Global,
    db: &mut Database,
    site: &mut S,
    lines: &mut Vec<u8>,
    region: &Passthrough,
    stmt: &Stmt,
    dml: &Dml,
) -> Result<(), StepFault>
    requires ready { IsReady db.old (S.seen site.old) }
    requires pending { db.old.pending ≡ [] }
    requires users { AreUsers (committed db.old) (Some region.now) }
    requires carried { IsCarried stmt.now }
    requires stmt { stmt.now ≡ DmlStmt dml.now }
    ensures took { Took (passed region.now stmt.now (row_changes region.now.only (committed db.old) dml.now) (work_of db.old (Some region.now))) db.old db.new (S.seen site.old) (S.seen site.new) lines.old.items lines.new.items (Some region.now) result }
{
    let changes = pass_on_rows(alloc, region.only, db.catalog(), db.rows(), dml)?;
    pass(alloc, db, site, lines, region, stmt, changes)
}

/// One entry of a statement that is passed on with these changes.
fn pass<S: Site>(
    alloc: Global,
    db: &mut Database,
    site: &mut S,
    lines: &mut Vec<u8>,
    region: &Passthrough,
    stmt: &Stmt,
    changes: Seq<Change>,
) -> Result<(), StepFault>
    requires ready { IsReady db.old (S.seen site.old) }
    requires pending { db.old.pending ≡ [] }
    requires users { AreUsers (committed db.old) (Some region.now) }
    requires carried { IsCarried stmt.now }
    requires fit { ChangesFit db.old.catalog db.old.rows.marked changes }
    requires accepted { IsAcceptedPass (committed db.old) region.now.only stmt.now }
    requires may { MayHaveChanges region.now.only stmt.now changes }
    ensures took { Took (enters (pass region.now.users region.now.only stmt.now changes) (work_of db.old (Some region.now))) db.old db.new (S.seen site.old) (S.seen site.new) lines.old.items lines.new.items (Some region.now) result }
{
    if !are_few(region.users.as_slice()) || !are_short(changes.as_slice()) {
        return Err(StepFault::Memory);
    }
    let entry = Entry::Pass {
        users: region.users.copy(alloc)?,
        only: region.only,
        text: text_of(alloc, stmt)?,
        changes,
    };
    enter(alloc, db, site, lines, &entry)
}

/// What refuses a statement in a region that passthrough does not carry.
pub(crate) fn refuse(
    alloc: Global,
    db: &Database,
    region: &Passthrough,
    name: &Name,
    stmt: &Stmt,
) -> Result<(), StepFault>
    requires usable { db.now.log.usable ≡ true }
    ensures took { (seen : SiteSeen) (lines : List ℕ) → Took (refused_in region.now name.now stmt.now (work_of db.now (Some region.now))) db.now db.now seen seen lines lines (Some region.now) result }
{
    let fault = uncarried(alloc, region.only, name, db.catalog(), stmt)?;
    Err(StepFault::Refused(Refusal::Ddl(fault)))
}
