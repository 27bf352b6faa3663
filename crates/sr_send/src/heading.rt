//! What the messages of a pass have in common.

ghost use Rattle.std.specs.Prelude.{◌≡◌, ◌≤◌, [], true, cond, length, IsTrue, IfOk};
ghost use Rattle.sr_mail_cut.specs.Inner.Cuts.{IsMessageLimit};
ghost use Rattle.sr_send.specs.Inner.Aims.{IsAim, HasMade, aim_at};
ghost use Rattle.sr_send.specs.PutFiles.{head_of, address_in};

use crate::aim::Aim;
use crate::post::Post;
use sr_base::{Copied, Name, NoMemory, Offset};
use sr_book::Book;
use sr_catalog::Catalog;
use sr_database::Database;
use sr_mail_cut::{Cutter, Head};
use std::alloc::{AllocError, Global};

/// The head of the messages: they confirm what was taken from the partner, and ask for what lies past it where an ask is due.
fn head_of(
    alloc: Global,
    publisher: &Name,
    user: &Name,
    book: &Book,
    ask: bool,
) -> Result<Head, NoMemory>
    ensures head { IfOk result (λ head. head ≡ head_of publisher.now user.now book.now ask) }
{
    let (ask_count, ask_offset) = asked(book, ask);
    Ok(Head {
        from: publisher.copy(alloc)?,
        to: user.copy(alloc)?,
        resend_count: book.resend_count,
        confirm: Offset(book.log_received),
        ask_count,
        ask_offset: Offset(ask_offset),
    })
}

/// The count of the ask and the offset past which is asked; both 0 where none is due.
fn asked(book: &Book, ask: bool) -> (u64, u64)
    ensures count { result.0 ≡ cond ask book.now.rereceive_count 0 }
    ensures offset { result.1 ≡ cond ask book.now.log_received 0 }
{
    if ask {
        return (book.rereceive_count, book.log_received);
    }
    (0, 0)
}

/// The folder of a user, who is granted.
fn address_of(alloc: Global, catalog: &Catalog, user: &Name) -> Result<Name, NoMemory>
    ensures address { IfOk result (λ address. address ≡ address_in catalog.now user.now) }
{
    let Some(partner) = catalog.user(user) else {
        return Err(AllocError);
    };
    Ok(partner.address.copy(alloc)?)
}

/// Names have at most 64 bytes each, so that a message has room for a body.
fn are_short(publisher: &Name, user: &Name)
    ensures publisher { length publisher.now ≤ 64 }
    ensures user { length user.now ≤ 64 }
{
    let _publisher = publisher.bytes();
    let _user = user.bytes();
}

/// What the messages of a database to a user have in common.
pub(crate) fn aim_at(
    alloc: Global,
    db: &Database,
    user: &Name,
    book: &Book,
    length: u32,
    ask: bool,
) -> Result<Aim, NoMemory>
    requires usable { db.now.log.usable ≡ true }
    requires limit { IsMessageLimit length }
    requires ask { IsTrue ask → 1 ≤ book.now.rereceive_count }
    ensures aim { IfOk result (λ aim. aim ≡ aim_at db.now user.now book.now length ask) }
    ensures good { IsAim (aim_at db.now user.now book.now length ask) }
{
    let publisher = db.base_catalog().publisher();
    are_short(publisher, user);
    let head = head_of(alloc, publisher, user, book, ask)?;
    let address = address_of(alloc, db.catalog(), user)?;
    Ok(Aim {
        head,
        address,
        prev: Offset(book.log_sent),
        count: book.send_count,
        limit: length,
    })
}

/// A cutter that was given nothing, and no message put.
pub(crate) fn begin(alloc: Global, aim: &Aim) -> Result<Post, NoMemory>
    requires aim { IsAim aim.now }
    ensures made { IfOk result (λ post. HasMade aim.now post [] []) }
    ensures end { IfOk result (λ post. post.end ≡ aim.now.prev) }
{
    let cutter = Cutter::new(alloc, &aim.head, aim.prev, aim.limit)?;
    Ok(Post {
        cutter,
        end: aim.prev,
        put: 0,
    })
}
