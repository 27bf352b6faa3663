ghost use Rattle.std.specs.Prelude.{None};
ghost use Rattle.sr_database.specs.Views.{View};
ghost use Rattle.sr_site.specs.Seen.{Seen};
ghost use Rattle.sr_send.specs.Inner.Surveys.{Surveys};

use sr_base::Offset;
use sr_survey::Survey;

/// The survey of a log that the passes of one run share, so that the log is read once for all partners.
#[derive(Drop)]
pub struct SharedSurvey {
    /// Where it is to begin at the latest, as long as no pass began it: up to there the log was sent to everybody. `None` where one did, or none is to.
    pub(crate) latest: Option<Offset>,
    pub(crate) survey: Option<Survey>,
}

impl SharedSurvey {
    /// No survey: each pass reads the log by itself.
    pub fn none() -> SharedSurvey
        ensures surveyed { (db : View) (seen : Seen) → Surveys db result seen }
    {
        SharedSurvey {
            latest: None,
            survey: None,
        }
    }

    /// A survey that the first pass begins, at the last end of an entry up to `sent` where no statement ran behind it, else at the base of the log. Whom
    /// less was sent than up to where it begins is sent to without it. Here nothing is read, and no memory is taken.
    pub fn up_to(sent: Offset) -> SharedSurvey
        ensures surveyed { (db : View) (seen : Seen) → Surveys db result seen }
    {
        SharedSurvey {
            latest: Some(sent),
            survey: None,
        }
    }
}
