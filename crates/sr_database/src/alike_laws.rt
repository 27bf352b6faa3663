//! Of which histories a database is. The function does nothing: it carries a law as its clauses.

ghost use Rattle.std.specs.Prelude.{◌≡◌, ℕ, List};
ghost use Rattle.sr_book.specs.Entries.{Name as AName};
ghost use Rattle.sr_database_history.specs.Recorded.{Recorded};
ghost use Rattle.sr_database_meaning.specs.Inner.Alike.{AreAlike};
ghost use Rattle.sr_database_meaning.specs.Standing.{StandsFor};
ghost use Rattle.sr_site.specs.Files.{Files};
ghost use Rattle.sr_site.specs.Images.{IsImage};
ghost use Rattle.sr_site.specs.Seen.{Seen};
ghost use Rattle.sr_database.specs.Databases.{HasBeginning, HasDatabase, IsDatabase};
ghost use Rattle.sr_database.specs.InForce.{HasLogInForce};
ghost use Rattle.sr_database.specs.Views.{View};

/// A database of one history is that of each other for which its files stand, or files that a crash may leave, and of each that is alike to it from the base of
/// its log on; all of which it is the database are. The log of a database is the one in force, and it is that of the entries of its log behind what those before
/// come to, whether or not a history leads there.
pub fn a_database_is_of_alike_histories()
    ensures alike { (db : View) (publisher : AName) (es others : List Recorded) (seen : Seen) → IsDatabase db publisher es seen → AreAlike publisher es others db.log.base
        → IsDatabase db publisher others seen }
    ensures image { (db : View) (publisher other : AName) (es others : List Recorded) (place : ℕ) (image : Files) (seen : Seen) → IsDatabase db publisher es seen → IsImage seen image
        → StandsFor other others place image → IsDatabase db other others seen }
    ensures files { (db : View) (publisher other : AName) (es others : List Recorded) (place : ℕ) (seen : Seen) → IsDatabase db publisher es seen → StandsFor other others place seen.files
        → IsDatabase db other others seen }
    ensures one { (db : View) (publisher other : AName) (es others : List Recorded) (seen : Seen) → IsDatabase db publisher es seen → IsDatabase db other others seen
        → (publisher ≡ other) × AreAlike publisher es others db.log.base }
    ensures in_force { (db : View) (seen : Seen) → HasDatabase db seen → HasLogInForce db seen }
    ensures in_force_behind { (db : View) (seen : Seen) → HasBeginning db seen → HasLogInForce db seen }
    ensures beginning { (db : View) (seen : Seen) → HasDatabase db seen → HasBeginning db seen }
{}
