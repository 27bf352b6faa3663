//! Notes in a user's book, and entries committed.

ghost use Rattle.std.specs.Prelude.{◌∷◌, [], IsSome};
ghost use Rattle.sr_database.specs.Inner.Commits.{CanCommit, CanCommitSome};
ghost use Rattle.sr_database_did.specs.Inner.Places.{IsLent, at};
ghost use Rattle.sr_database_history.specs.Recorded.{Recorded, note as noted_of};
ghost use Rattle.sr_catalog_schema.specs.Members.{user_name};
ghost use Rattle.sr_catalog_schema.specs.Names.{named};
ghost use Rattle.sr_receive_gather.specs.Inner.OneNote.{at_most_one};
ghost use Rattle.sr_receive.specs.Inner.Ready.{IsReady};
ghost use Rattle.sr_receive.specs.Inner.Noting.{Enters, EntersAll};
ghost use Rattle.sr_receive.specs.Passes.{note_entries};

use sr_base::Name;
use sr_book::Note;
use sr_database_did::Place;
use sr_logform::Entry;
use sr_receive_gather::{ReceiveFault, store_fault};
use sr_site::Site;

/// Commits an entry.
pub(crate) fn enter<'d, 's, S: Site>(
    place: &mut Place<'d, 's, S>,
    entry: &Entry,
) -> Result<(), ReceiveFault>
    requires ready { IsReady place.old.db.now (S.seen place.old.site.now) }
    requires entry { CanCommitSome place.old.db.now entry.now }
    ensures lent { IsLent place.old place.new }
    ensures entered { (r : Recorded) → CanCommit place.old.db.now entry.now r → Enters (at S.seen place.old) (at S.seen place.new) r result }
{
    match place.commit(entry) {
        Ok(_) => Ok(()),
        Err(fault) => Err(store_fault(fault)),
    }
}

/// Notes something in a user's book.
fn commit_note<'d, 's, S: Site>(
    place: &mut Place<'d, 's, S>,
    user: &Name,
    note: Note,
) -> Result<(), ReceiveFault>
    requires ready { IsReady place.old.db.now (S.seen place.old.site.now) }
    requires user { IsSome (named user_name user.now place.old.db.now.catalog.users) }
    ensures lent { IsLent place.old place.new }
    ensures noted { EntersAll (at S.seen place.old) (at S.seen place.new) (noted_of user.now note ∷ []) result }
{
    match Entry::note(place.alloc, user, note) {
        Err(_) => Err(ReceiveFault::Memory),
        Ok(entry) => {
            let outcome = enter(place, &entry);
            drop(entry);
            outcome
        }
    }
}

/// Notes something in a user's book, where there is something to note.
pub(crate) fn note_where<'d, 's, S: Site>(
    place: &mut Place<'d, 's, S>,
    user: &Name,
    note: Option<Note>,
) -> Result<(), ReceiveFault>
    requires ready { IsReady place.old.db.now (S.seen place.old.site.now) }
    requires user { IsSome (named user_name user.now place.old.db.now.catalog.users) }
    ensures lent { IsLent place.old place.new }
    ensures noted { EntersAll (at S.seen place.old) (at S.seen place.new) (note_entries user.now (at_most_one note)) result }
{
    match note {
        None => Ok(()),
        Some(note) => commit_note(place, user, note),
    }
}
