//! The pass to one partner.

ghost use Rattle.std.specs.Prelude.{◌≡◌, ◌≢◌, ◌≤◌, [], true, false, IsTrue, IsSome, IfOk, IfErr, OnOk};
ghost use Rattle.sr_base.specs.Values.{offset_from};
ghost use Rattle.sr_database_files.specs.Books.{book_in};
ghost use Rattle.sr_mail_cut.specs.Inner.Cuts.{IsMessageLimit};
ghost use Rattle.sr_database.specs.InForce.{HasLogInForce};
ghost use Rattle.sr_catalog_schema.specs.Members.{user_name};
ghost use Rattle.sr_catalog_schema.specs.Names.{named};
ghost use Rattle.sr_send.specs.Inner.Aims.{IsAim, HasMade, aim_at};
ghost use Rattle.sr_send.specs.Passes.{HasSent, SendCause};
ghost use Rattle.sr_send.specs.Posting.{IsDeviceFault};
ghost use Rattle.sr_send.specs.Inner.Steps.{PutAll};
ghost use Rattle.sr_send.specs.Inner.Stops.{PutStop};
ghost use Rattle.sr_send.specs.Inner.Surveys.{Surveys};

use crate::aim::Aim;
use crate::fault::SendFault;
use crate::finishing::put_rest;
use crate::heading::{aim_at, begin};
use crate::noting::note_sent;
use crate::post::Post;
use crate::shared::SharedSurvey;
use crate::unsent::put_unsent;
use sr_base::{Name, Offset};
use sr_book::Book;
use sr_database::Database;
use sr_site::Site;
use std::alloc::Global;

/// How many messages were put, and the offset in bytes up to which the log is sent.
#[derive(Clone, Copy)]
pub struct Sent {
    pub put: u32,
    pub end: Offset,
}

/// Sends a user what the log gives him and he has not been sent, in messages of at most `length` bytes, and notes it.
///
/// Messages are put where a transaction lies past what he was sent, where an ask is due, and where more was taken from him than was
/// confirmed; where there is no transaction it is one without a body. Each confirms what was taken from him, and where `ask` is true asks for what
/// lies past it. They are put in order into the folder of his address, each as soon as it is filled, and the note follows the last. Each that is put can
/// be read again. Where none is due nothing is done. Of the mail nothing is listed, fetched or removed.
/// The passes of a run share a survey of the log, so that each entry is read once for all of them: here it is read on, and of the log only the entries
/// that it lists for him are read again. Where it can not tell what they give, for there is none, it was given up, it begins behind what he was sent, or a
/// statement changed what he is shown behind the first of them that is more than a statement passed on to him, the log is read from what he was sent on,
/// where no statement ran there, which the kinds of its entries tell; else from its base.
///
/// `Disk` and `Mail` come only where that device's count of faults rose, and else no count rises; `Full` exactly where the note has no room in the
/// log; `Long` where the encoding of a transaction is longer than 64 MiB, with that of the first such. After a fault the messages that were put are the
/// first of those of the pass, and stay. After `Disk` of the note the database is not used again; else it is as it was.
pub fn send<S: Site>(
    alloc: Global,
    db: &mut Database,
    site: &mut S,
    user: &Name,
    length: u32,
    ask: bool,
    shared: &mut SharedSurvey,
) -> Result<Sent, SendFault>
    requires usable { db.old.log.usable ≡ true }
    requires pending { db.old.pending ≡ [] }
    requires user { IsSome (named user_name user.now db.old.catalog.users) }
    requires limit { IsMessageLimit length }
    requires ask { IsTrue ask → 1 ≤ (book_in db.old.books user.now).rereceive_count }
    requires stands { IsTrue (S.seen site.old).observable → HasLogInForce db.old (S.seen site.old) }
    requires surveyed { Surveys db.old shared.old (S.seen site.old) }
    ensures surveyed { OnOk result (Surveys db.new shared.new (S.seen site.new)) }
    ensures sent { IfOk result (HasSent db.old db.new (S.seen site.old) (S.seen site.new) user.now length ask) }
    ensures cause { IfErr result (SendCause db.old db.new (S.seen site.old) (S.seen site.new) user.now length ask) }
    ensures devices { IfErr result (IsDeviceFault (S.seen site.old) (S.seen site.new)) }
{
    let Some(book) = db.book(user) else {
        return Err(SendFault::Memory);
    };
    let sent = put_due(alloc, db, site, user, &book, length, ask, shared)?;
    if is_empty(sent) {
        return Ok(sent);
    }
    note_sent(alloc, db, site, user, sent, book.log_received)?;
    Ok(sent)
}

/// Whether no message was put.
fn is_empty(sent: Sent) -> bool
    ensures none { IsTrue result → sent.put ≡ 0 }
    ensures some { result ≡ false → sent.put ≢ 0 }
{
    sent.put == 0
}

/// Puts the messages that are due to a user whose book this is.
fn put_due<S: Site>(
    alloc: Global,
    db: &Database,
    site: &mut S,
    user: &Name,
    book: &Book,
    length: u32,
    ask: bool,
    shared: &mut SharedSurvey,
) -> Result<Sent, SendFault>
    requires usable { db.now.log.usable ≡ true }
    requires limit { IsMessageLimit length }
    requires ask { IsTrue ask → 1 ≤ book.now.rereceive_count }
    requires surveyed { Surveys db.now shared.old (S.seen site.old) }
    ensures put { IfOk result (PutAll db.now (aim_at db.now user.now book.now length ask) book.now ask user.now (S.seen site.old) (S.seen site.new)) }
    ensures surveyed { OnOk result (Surveys db.now shared.new (S.seen site.new)) }
    ensures cause { IfErr result (PutStop db.now (aim_at db.now user.now book.now length ask) book.now ask user.now (S.seen site.old) (S.seen site.new)) }
{
    let aim = aim_at(alloc, db, user, book, length, ask)?;
    let outcome = put_cut(alloc, db, site, &aim, user, book, ask, shared);
    drop(aim);
    outcome
}

/// Makes the cutter, and puts what it gives.
fn put_cut<S: Site>(
    alloc: Global,
    db: &Database,
    site: &mut S,
    aim: &Aim,
    user: &Name,
    book: &Book,
    ask: bool,
    shared: &mut SharedSurvey,
) -> Result<Sent, SendFault>
    requires usable { db.now.log.usable ≡ true }
    requires aim { IsAim aim.now }
    requires prev { aim.now.prev ≡ offset_from book.now.log_sent }
    requires surveyed { Surveys db.now shared.old (S.seen site.old) }
    ensures put { IfOk result (PutAll db.now aim.now book.now ask user.now (S.seen site.old) (S.seen site.new)) }
    ensures surveyed { OnOk result (Surveys db.now shared.new (S.seen site.new)) }
    ensures cause { IfErr result (PutStop db.now aim.now book.now ask user.now (S.seen site.old) (S.seen site.new)) }
{
    let mut post = begin(alloc, aim)?;
    let outcome = put_pass(alloc, db, site, aim, user, &mut post, book, ask, shared);
    drop(post);
    outcome
}

/// Puts what the log gives, and then the messages that are still due.
fn put_pass<S: Site>(
    alloc: Global,
    db: &Database,
    site: &mut S,
    aim: &Aim,
    user: &Name,
    post: &mut Post,
    book: &Book,
    ask: bool,
    shared: &mut SharedSurvey,
) -> Result<Sent, SendFault>
    requires usable { db.now.log.usable ≡ true }
    requires aim { IsAim aim.now }
    requires made { HasMade aim.now post.old [] [] }
    requires prev { aim.now.prev ≡ offset_from book.now.log_sent }
    requires surveyed { Surveys db.now shared.old (S.seen site.old) }
    ensures put { IfOk result (PutAll db.now aim.now book.now ask user.now (S.seen site.old) (S.seen site.new)) }
    ensures surveyed { OnOk result (Surveys db.now shared.new (S.seen site.new)) }
    ensures cause { IfErr result (PutStop db.now aim.now book.now ask user.now (S.seen site.old) (S.seen site.new)) }
{
    put_unsent(alloc, db, site, aim, user, post, shared)?;
    put_rest(alloc, site, aim, post, book, ask)?;
    Ok(Sent {
        put: post.put,
        end: post.end,
    })
}
