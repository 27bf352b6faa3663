//! What the log gives a user and he has not been sent, put as messages: told by the survey where it can, else by the log itself.

ghost use Rattle.std.specs.Prelude.{◌≡◌, true, [], IfErr, OnOk};
ghost use Rattle.sr_send.specs.Inner.Aims.{IsAim, HasMade};
ghost use Rattle.sr_send.specs.Inner.Steps.{AllRead};
ghost use Rattle.sr_send.specs.Inner.Stops.{ReadStop};
ghost use Rattle.sr_send.specs.Inner.Surveys.{IsWhole, Surveys, SurveysAll};

use crate::aim::Aim;
use crate::fault::SendFault;
use crate::post::Post;
use crate::reading::put_given;
use crate::shared::SharedSurvey;
use crate::surveying::way_to;
use crate::telling::put_listed;
use crate::way::Way;
use sr_base::Name;
use sr_database::Database;
use sr_scan::Scanner;
use sr_site::Site;
use sr_survey::Survey;
use std::alloc::Global;

/// Reads the survey on, and puts what the log gives a user past what he was sent.
pub(crate) fn put_unsent<S: Site>(
    alloc: Global,
    db: &Database,
    site: &mut S,
    aim: &Aim,
    user: &Name,
    post: &mut Post,
    shared: &mut SharedSurvey,
) -> Result<(), SendFault>
    requires usable { db.now.log.usable ≡ true }
    requires aim { IsAim aim.now }
    requires made { HasMade aim.now post.old [] [] }
    requires surveyed { Surveys db.now shared.old (S.seen site.old) }
    ensures read { OnOk result (AllRead db.now aim.now user.now post.new (S.seen site.old) (S.seen site.new)) }
    ensures surveyed { OnOk result (Surveys db.now shared.new (S.seen site.new)) }
    ensures cause { IfErr result (ReadStop db.now aim.now user.now (S.seen site.old) (S.seen site.new)) }
{
    shared.read_on(alloc, db, site)?;
    put_told(alloc, db, site, aim, user, post, shared)?;
    Ok(())
}

/// Puts what the log gives a user past what he was sent, as it is told by the survey that is shared, if there is one.
fn put_told<S: Site>(
    alloc: Global,
    db: &Database,
    site: &mut S,
    aim: &Aim,
    user: &Name,
    post: &mut Post,
    shared: &SharedSurvey,
) -> Result<(), SendFault>
    requires usable { db.now.log.usable ≡ true }
    requires aim { IsAim aim.now }
    requires made { HasMade aim.now post.old [] [] }
    requires whole { SurveysAll db.now shared.now (S.seen site.old) }
    ensures read { OnOk result (AllRead db.now aim.now user.now post.new (S.seen site.old) (S.seen site.new)) }
    ensures cause { IfErr result (ReadStop db.now aim.now user.now (S.seen site.old) (S.seen site.new)) }
{
    match &shared.survey {
        None => put_scanned(alloc, db, site, aim, user, post),
        Some(survey) => put_surveyed(alloc, db, site, aim, survey, user, post),
    }
}

/// Puts what the log gives a user past what he was sent, by a survey if it can tell that.
fn put_surveyed<S: Site>(
    alloc: Global,
    db: &Database,
    site: &mut S,
    aim: &Aim,
    survey: &Survey,
    user: &Name,
    post: &mut Post,
) -> Result<(), SendFault>
    requires usable { db.now.log.usable ≡ true }
    requires aim { IsAim aim.now }
    requires made { HasMade aim.now post.old [] [] }
    requires whole { IsWhole db.now survey.now (S.seen site.old) }
    ensures read { OnOk result (AllRead db.now aim.now user.now post.new (S.seen site.old) (S.seen site.new)) }
    ensures cause { IfErr result (ReadStop db.now aim.now user.now (S.seen site.old) (S.seen site.new)) }
{
    match way_to(alloc, survey, user, aim.prev)? {
        Way::Nothing => Ok(()),
        Way::Places => put_listed(alloc, db, site, aim, survey, user, post),
        Way::Log => put_scanned(alloc, db, site, aim, user, post),
    }
}

/// Puts what the log gives a user past what he was sent, by a scanner that reads it.
fn put_scanned<S: Site>(
    alloc: Global,
    db: &Database,
    site: &mut S,
    aim: &Aim,
    user: &Name,
    post: &mut Post,
) -> Result<(), SendFault>
    requires usable { db.now.log.usable ≡ true }
    requires aim { IsAim aim.now }
    requires made { HasMade aim.now post.old [] [] }
    ensures read { OnOk result (AllRead db.now aim.now user.now post.new (S.seen site.old) (S.seen site.new)) }
    ensures cause { IfErr result (ReadStop db.now aim.now user.now (S.seen site.old) (S.seen site.new)) }
{
    let mut scanner = Scanner::new(alloc, db.base_catalog(), user)?;
    let outcome = put_given(alloc, db, site, aim, &mut scanner, user, post);
    drop(scanner);
    outcome
}
