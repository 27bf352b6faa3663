//! One statement, by its kind.

ghost use Rattle.std.specs.Prelude.{◌≡◌, true, ◌&&◌, OnOk};
ghost use Rattle.sr_ast.specs.Statements.{is_carried, is_ddl};
ghost use Rattle.sr_ast.specs.declared.stmt.Stmt.TheVariants.{Dml as DmlStmt, Passthrough as PassthroughStmt, Synchronize as SynchronizeStmt};
ghost use Rattle.sr_ast.specs.NormalForms.{IsNormal};
ghost use Rattle.sr_database_history.specs.Recorded.{IsCarried, IsDdl};
ghost use Rattle.sr_database.specs.Views.{committed};
ghost use Rattle.sr_session_script.specs.Meaning.{done_by, once_closed, on_catalog, on_rows, on_uncarried, on_views, began, ended};
ghost use Rattle.sr_session.specs.Inner.Ready.{IsReady, AreUsers, work_of};
ghost use Rattle.sr_session.specs.Inner.Steps.{Took};

use crate::catalog::change;
use crate::fault::StepFault;
use crate::region::{begin, end, pass_change, pass_rows, refuse};
use crate::rows::{execute, select};
use crate::session::Session;
use crate::synchronizing::synchronize;
use crate::transaction::{close, commit, roll_back};
use sr_ast::{Dml, Passthrough, Stmt, SubscriptionRule};
use sr_base::Name;
use sr_database::Database;
use sr_site::Site;
use std::alloc::Global;

/// Does one statement.
#[tactic(auto, unfolding(sr_session_script::specs::Meaning::done_by))]
pub(crate) fn step<S: Site>(
    alloc: Global,
    db: &mut Database,
    site: &mut S,
    session: &mut Session,
    stmt: &Stmt,
) -> Result<(), StepFault>
    requires ready { IsReady db.old (S.seen site.old) }
    requires users { AreUsers (committed db.old) session.old.region }
    requires normal { IsNormal stmt.now }
    ensures took { Took (done_by (work_of db.old session.old.region) stmt.now) db.old db.new (S.seen site.old) (S.seen site.new) session.old.lines.items session.new.lines.items session.new.region result }
    ensures users { OnOk result (AreUsers (committed db.new) session.new.region) }
{
    match stmt {
        Stmt::Commit => commit(alloc, db, site, &mut session.lines),
        Stmt::Rollback => roll_back(db, &mut session.lines),
        Stmt::Dml(dml) => on_rows(alloc, db, site, session, stmt, dml),
        Stmt::Select(query) => select(alloc, db, &mut session.lines, query),
        Stmt::Passthrough(passthrough) => begin_closed(alloc, db, site, session, stmt, passthrough),
        Stmt::PassthroughStop => end_closed(alloc, db, site, session),
        Stmt::GrantRemote(grant) => on_uncarried(alloc, db, site, session, &grant.user, stmt),
        Stmt::GrantConsolidate(grant) => on_uncarried(alloc, db, site, session, &grant.user, stmt),
        Stmt::SetOption(rule) => on_uncarried(alloc, db, site, session, &rule.name, stmt),
        Stmt::CreateTable(_)
        | Stmt::DropTable(_)
        | Stmt::CreatePublication(_)
        | Stmt::DropPublication(_)
        | Stmt::CreateSubscription(_)
        | Stmt::StartSubscription(_)
        | Stmt::StopSubscription(_)
        | Stmt::DropSubscription(_)
        | Stmt::CreateTrigger(_)
        | Stmt::DropTrigger(_) => on_catalog(alloc, db, site, session, stmt),
        Stmt::Synchronize(rule) => on_views(alloc, db, site, session, stmt, rule),
    }
}

/// An INSERT, UPDATE or DELETE: in a region it is passed on.
fn on_rows<S: Site>(
    alloc: Global,
    db: &mut Database,
    site: &mut S,
    session: &mut Session,
    stmt: &Stmt,
    dml: &Dml,
) -> Result<(), StepFault>
    requires ready { IsReady db.old (S.seen site.old) }
    requires users { AreUsers (committed db.old) session.old.region }
    requires carried { IsCarried stmt.now }
    requires stmt { stmt.now ≡ DmlStmt dml.now }
    ensures took { Took (on_rows session.old.region dml.now (work_of db.old session.old.region)) db.old db.new (S.seen site.old) (S.seen site.new) session.old.lines.items session.new.lines.items session.new.region result }
    ensures users { OnOk result (AreUsers (committed db.new) session.new.region) }
{
    match &session.region {
        None => execute(alloc, db, &mut session.lines, dml),
        Some(region) => {
            close(alloc, db, site, &mut session.lines)?;
            pass_rows(alloc, db, site, &mut session.lines, region, stmt, dml)
        }
    }
}

/// A statement on the catalog that passthrough carries: it commits the open transaction first.
fn on_catalog<S: Site>(
    alloc: Global,
    db: &mut Database,
    site: &mut S,
    session: &mut Session,
    stmt: &Stmt,
) -> Result<(), StepFault>
    requires ready { IsReady db.old (S.seen site.old) }
    requires users { AreUsers (committed db.old) session.old.region }
    requires ddl { IsDdl stmt.now }
    requires carried { IsCarried stmt.now }
    ensures took { let w = work_of db.old session.old.region in Took (once_closed w (on_catalog w.region stmt.now)) db.old db.new (S.seen site.old) (S.seen site.new) session.old.lines.items session.new.lines.items session.new.region result }
    ensures users { OnOk result (AreUsers (committed db.new) session.new.region) }
{
    close(alloc, db, site, &mut session.lines)?;
    match &session.region {
        None => change(alloc, db, site, &mut session.lines, stmt),
        Some(region) => pass_change(alloc, db, site, &mut session.lines, region, stmt),
    }
}

/// A GRANT or SET OPTION: it commits the open transaction first, and in a region it is refused.
fn on_uncarried<S: Site>(
    alloc: Global,
    db: &mut Database,
    site: &mut S,
    session: &mut Session,
    name: &Name,
    stmt: &Stmt,
) -> Result<(), StepFault>
    requires ready { IsReady db.old (S.seen site.old) }
    requires users { AreUsers (committed db.old) session.old.region }
    requires ddl { IsDdl stmt.now }
    ensures took { let w = work_of db.old session.old.region in Took (once_closed w (on_uncarried w.region name.now stmt.now)) db.old db.new (S.seen site.old) (S.seen site.new) session.old.lines.items session.new.lines.items session.new.region result }
    ensures users { OnOk result (AreUsers (committed db.new) session.new.region) }
{
    close(alloc, db, site, &mut session.lines)?;
    match &session.region {
        None => change(alloc, db, site, &mut session.lines, stmt),
        Some(region) => refuse(alloc, db, region, name, stmt),
    }
}

/// SYNCHRONIZE: it commits the open transaction first, and in a region it is refused.
fn on_views<S: Site>(
    alloc: Global,
    db: &mut Database,
    site: &mut S,
    session: &mut Session,
    stmt: &Stmt,
    rule: &SubscriptionRule,
) -> Result<(), StepFault>
    requires ready { IsReady db.old (S.seen site.old) }
    requires users { AreUsers (committed db.old) session.old.region }
    requires stmt { stmt.now ≡ SynchronizeStmt rule.now }
    ensures took { let w = work_of db.old session.old.region in Took (once_closed w (on_views w.region rule.now)) db.old db.new (S.seen site.old) (S.seen site.new) session.old.lines.items session.new.lines.items session.new.region result }
    ensures users { OnOk result (AreUsers (committed db.new) session.new.region) }
{
    close(alloc, db, site, &mut session.lines)?;
    match &session.region {
        None => synchronize(alloc, db, site, &mut session.lines, stmt, rule),
        Some(region) => refuse(alloc, db, region, &rule.publication, stmt),
    }
}

/// PASSTHROUGH FOR: it commits the open transaction first.
fn begin_closed<S: Site>(
    alloc: Global,
    db: &mut Database,
    site: &mut S,
    session: &mut Session,
    stmt: &Stmt,
    passthrough: &Passthrough,
) -> Result<(), StepFault>
    requires ready { IsReady db.old (S.seen site.old) }
    requires stmt { stmt.now ≡ PassthroughStmt passthrough.now }
    ensures took { let w = work_of db.old session.old.region in Took (once_closed w (began passthrough.now)) db.old db.new (S.seen site.old) (S.seen site.new) session.old.lines.items session.new.lines.items session.new.region result }
    ensures users { OnOk result (AreUsers (committed db.new) session.new.region) }
{
    close(alloc, db, site, &mut session.lines)?;
    begin(alloc, db, session, stmt, passthrough)
}

/// PASSTHROUGH STOP: it commits the open transaction first.
fn end_closed<S: Site>(
    alloc: Global,
    db: &mut Database,
    site: &mut S,
    session: &mut Session,
) -> Result<(), StepFault>
    requires ready { IsReady db.old (S.seen site.old) }
    ensures took { let w = work_of db.old session.old.region in Took (once_closed w ended) db.old db.new (S.seen site.old) (S.seen site.new) session.old.lines.items session.new.lines.items session.new.region result }
    ensures users { OnOk result (AreUsers (committed db.new) session.new.region) }
{
    close(alloc, db, site, &mut session.lines)?;
    end(db, session)
}
