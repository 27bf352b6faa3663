//! Many runs of many databases.

ghost use Rattle.std.specs.Prelude.{List, [], Contains};
ghost use Rattle.sr_book.specs.Entries.{Name};
ghost use Rattle.sr_site.specs.Images.{IsSettled};
ghost use Rattle.sr_site.specs.Seen.{Seen};
ghost use Rattle.sr_database_meaning.specs.Standing.{StandsAs};
ghost use Rattle.sr_world_runs.specs.Lives.{AreLives, SeenRun};
ghost use Rattle.sr_world_runs.specs.Lives.{HaveLived};

/// Whatever runs come, of whatever databases, in the order of their last fetches, whole or broken off anywhere: where each found what the one before it of its
/// database left, and fetched what these put or what is no message, they are runs of one world from databases without entries. It is good, so that at each key
/// that a database below has not touched this holds the row of the view of the one above, as of the last transaction that it took; and what each
/// database's files stand for rests on its history in it, with a log that keeps what its partners need.
pub fn runs_make_one_world()
    ensures { (names : List Name) (first : Name → Seen) (seen : List SeenRun) → ((d : Name) → Contains names d → IsSettled (StandsAs d []) (first d)) → AreLives names first seen
        → HaveLived names first seen }
{}
