//! What is carried over is a log. The function does nothing: it carries the law as its clause.

ghost use Rattle.std.specs.Prelude.{List, ℕ};
ghost use Rattle.sr_logfile.specs.Inner.Logs.{IsAt};
ghost use Rattle.sr_logfile.specs.Log.{Log};
ghost use Rattle.sr_logfile.specs.Records.{Spells};
ghost use Rattle.sr_logfile_carry.specs.Inner.Carrying.{log_of_records};
ghost use Rattle.sr_site.specs.Files.{Files};

/// The bytes that `carry` makes spell the records that the log has behind the position.
pub fn what_is_carried_is_a_log()
    ensures spells { (log : Log) (keep : ℕ) (done left : List (List ℕ)) (files : Files) → IsAt log keep done left files → Spells keep left (log_of_records keep left) }
{}
