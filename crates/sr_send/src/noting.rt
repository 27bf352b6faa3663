//! The note that messages were sent.

ghost use Rattle.std.specs.Prelude.{◌≡◌, [], true, IsTrue, IsSome, IfOk, IfErr, OnOk};
ghost use Rattle.sr_base.specs.Values.{offset_from};
ghost use Rattle.sr_book.specs.declared.note.Note.TheVariants.{Sent as sent_up_to};
ghost use Rattle.sr_database.specs.Commits.{IsLong};
ghost use Rattle.sr_database.specs.InForce.{HasLogInForce};
ghost use Rattle.sr_database_history.specs.Recorded.{note};
ghost use Rattle.sr_logform.specs.declared.entry.Entry.TheVariants.{Note as note_entry};
ghost use Rattle.sr_catalog_schema.specs.Members.{user_name};
ghost use Rattle.sr_catalog_schema.specs.Names.{named};
ghost use Rattle.sr_site.specs.Causes.{DiskStays};
ghost use Rattle.sr_send.specs.Inner.Notes.{Noted, NoteCause, IsNoteRefusal, IsNotedAs};

use crate::fault::SendFault;
use crate::sending::Sent;
use sr_base::{Name, NoMemory, Offset};
use sr_book::Note;
use sr_database::{Database, DatabaseFault};
use sr_logform::Entry;
use sr_site::Site;
use std::alloc::Global;

/// The entry of the note. A name has 64 bytes at most, so that its record is never too long.
fn note_entry(alloc: Global, user: &Name, sent: Sent, confirm: u64) -> Result<Entry, NoMemory>
    ensures entry { IfOk result (λ entry. entry ≡ note_entry user.now (sent_up_to sent.end sent.put (offset_from confirm))) }
    ensures short { IfOk result (λ entry. ¬ (IsLong entry)) }
{
    let _user = user.bytes();
    let note = Note::Sent {
        end: sent.end,
        messages: sent.put,
        confirm: Offset(confirm),
    };
    let entry = Entry::note(alloc, user, note)?;
    Ok(entry)
}

/// The answer of the commit of a note, as that of a pass.
fn answered(outcome: Result<Offset, DatabaseFault>) -> Result<(), SendFault>
    requires refusal { IfErr outcome IsNoteRefusal }
    ensures noted { IsNotedAs outcome result }
{
    match outcome {
        Ok(_) => Ok(()),
        Err(DatabaseFault::Disk) => Err(SendFault::Disk),
        Err(DatabaseFault::Full { end, need }) => Err(SendFault::Full { end, need }),
        Err(DatabaseFault::Memory) => Err(SendFault::Memory),
        Err(
            DatabaseFault::Missing
            | DatabaseFault::Exists
            | DatabaseFault::Damaged { .. }
            | DatabaseFault::Long { .. },
        ) => unreachable!(),
    }
}

/// Notes in a user's book that messages were put, which confirm his log up to an offset.
pub(crate) fn note_sent<S: Site>(
    alloc: Global,
    db: &mut Database,
    site: &mut S,
    user: &Name,
    sent: Sent,
    confirm: u64,
) -> Result<(), SendFault>
    requires usable { db.old.log.usable ≡ true }
    requires pending { db.old.pending ≡ [] }
    requires user { IsSome (named user_name user.now db.old.catalog.users) }
    requires stands { IsTrue (S.seen site.old).observable → HasLogInForce db.old (S.seen site.old) }
    ensures noted { OnOk result (Noted db.old db.new (S.seen site.old) (S.seen site.new) (note user.now (sent_up_to sent.end sent.put (offset_from confirm)))) }
    ensures stays { DiskStays (S.seen site.old) (S.seen site.new) }
    ensures cause { IfErr result (NoteCause db.old db.new (S.seen site.old) (S.seen site.new) (note user.now (sent_up_to sent.end sent.put (offset_from confirm)))) }
{
    let entry = note_entry(alloc, user, sent, confirm)?;
    let outcome = db.commit(alloc, site, &entry);
    drop(entry);
    answered(outcome)
}
