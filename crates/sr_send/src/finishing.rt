//! The messages that are still due once the log was read.

ghost use Rattle.std.specs.Prelude.{◌≡◌, ◌↔◌, ◌+◌, ◌∷◌, [], IsTrue, IfErr, OnOk};
ghost use Rattle.sr_mail_cut.specs.Cuts.{bodyless};
ghost use Rattle.sr_base.specs.Values.{offset_from};
ghost use Rattle.sr_send.specs.Inner.Aims.{IsAim, HasMadeSome};
ghost use Rattle.sr_send.specs.Inner.Steps.{Emptied, IsDueAlone, Completed, Bodyless};
ghost use Rattle.sr_send.specs.Inner.Stops.{HeldStop, LastStop, IsPartSent};

use crate::aim::Aim;
use crate::fault::SendFault;
use crate::post::Post;
use crate::posting::put_all;
use sr_book::Book;
use sr_mail_cut::cut;
use sr_site::Site;
use std::alloc::Global;

/// Puts the message of what the cutter holds, if it holds something.
fn put_held<S: Site>(
    alloc: Global,
    site: &mut S,
    aim: &Aim,
    post: &mut Post,
) -> Result<(), SendFault>
    requires aim { IsAim aim.now }
    requires made { HasMadeSome aim.now post.old }
    ensures emptied { OnOk result (Emptied aim.now post.old post.new (S.seen site.old) (S.seen site.new)) }
    ensures cause { IfErr result (HeldStop aim.now post.old (S.seen site.old) (S.seen site.new)) }
{
    let closed = post.cutter.finish(alloc)?;
    let outcome = put_all(alloc, site, aim, post.put, closed.as_slice());
    drop(closed);
    match outcome {
        Ok(total) => {
            post.put = total;
            Ok(())
        }
        Err(fault) => Err(fault),
    }
}

/// Puts the one message without a body.
fn put_bodyless<S: Site>(
    alloc: Global,
    site: &mut S,
    aim: &Aim,
    post: &mut Post,
) -> Result<(), SendFault>
    requires aim { IsAim aim.now }
    ensures put { OnOk result (Bodyless aim.now post.old post.new (S.seen site.old) (S.seen site.new)) }
    ensures cause { IfErr result (IsPartSent aim.now (aim.now.count + post.old.put) (S.seen site.old) (S.seen site.new) (bodyless aim.now.head aim.now.prev ∷ [])) }
{
    let messages = cut(alloc, &aim.head, aim.prev, &[], aim.limit)?;
    let outcome = put_all(alloc, site, aim, post.put, messages.as_slice());
    drop(messages);
    match outcome {
        Ok(total) => {
            post.put = total;
            Ok(())
        }
        Err(fault) => Err(fault),
    }
}

/// Whether nothing was to be sent and a message is due.
fn is_due_alone(aim: &Aim, post: &Post, book: &Book, ask: bool) -> bool
    ensures due { IsTrue result ↔ IsDueAlone aim.now.prev post.now.end book.now ask }
{
    post.end.0 == aim.prev.0 && book.need(ask)
}

/// Puts the messages that are still due: that of what the cutter holds, and where nothing was to be sent and one is due, the one without a body.
pub(crate) fn put_rest<S: Site>(
    alloc: Global,
    site: &mut S,
    aim: &Aim,
    post: &mut Post,
    book: &Book,
    ask: bool,
) -> Result<(), SendFault>
    requires aim { IsAim aim.now }
    requires made { HasMadeSome aim.now post.old }
    requires prev { aim.now.prev ≡ offset_from book.now.log_sent }
    ensures completed { OnOk result (Completed aim.now book.now ask post.old post.new (S.seen site.old) (S.seen site.new)) }
    ensures cause { IfErr result (LastStop aim.now book.now ask post.old (S.seen site.old) (S.seen site.new)) }
{
    put_held(alloc, site, aim, post)?;
    if !is_due_alone(aim, post, book, ask) {
        return Ok(());
    }
    put_bodyless(alloc, site, aim, post)
}
