//! What an entry gives, pushed to the messages.

ghost use Rattle.std.specs.Prelude.{◌≡◌, ◌<◌, ◌∷◌, [], nat_lt, Some, IfErr, IfSome, OnOk};
ghost use Rattle.sr_logform.specs.Inner.Ops.{IsShortTransaction};
ghost use Rattle.sr_send.specs.Inner.Aims.{IsAim, HasMadeSome};
ghost use Rattle.sr_send.specs.Inner.Steps.{newer, EndsAt, EndsWith, Pushed, Fed};
ghost use Rattle.sr_send.specs.Inner.Stops.{PushStop, FeedStop};

use crate::aim::Aim;
use crate::fault::SendFault;
use crate::passing::pass_over;
use crate::post::Post;
use crate::posting::put_all;
use crate::writable::can_write;
use sr_base::Offset;
use sr_logform::{Entry, Transaction};
use sr_scan::Scanner;
use sr_site::Site;
use std::alloc::Global;

/// Pushes a transaction, and puts the messages that it closes.
fn push_one<S: Site>(
    alloc: Global,
    site: &mut S,
    aim: &Aim,
    post: &mut Post,
    transaction: &Transaction,
) -> Result<(), SendFault>
    requires short { IsShortTransaction transaction.now }
    requires aim { IsAim aim.now }
    requires made { HasMadeSome aim.now post.old }
    requires later { post.old.end.0 < transaction.now.at.0 }
    ensures pushed { OnOk result (Pushed aim.now post.old post.new (S.seen site.old) (S.seen site.new) (transaction.now ∷ [])) }
    ensures end { OnOk result (post.new.end ≡ transaction.now.at) }
    ensures cause { IfErr result (PushStop aim.now post.old (S.seen site.old) (S.seen site.new) (transaction.now ∷ [])) }
{
    let closed = post.cutter.push(alloc, transaction)?;
    let outcome = put_all(alloc, site, aim, post.put, closed.as_slice());
    drop(closed);
    post.end = transaction.at;
    match outcome {
        Ok(total) => {
            post.put = total;
            Ok(())
        }
        Err(fault) => Err(fault),
    }
}

/// Pushes a transaction that lies past what the partner was sent before.
///
/// One without a spelling comes of no history (`what_a_history_gives_can_be_written`): it is met only where a disk does not give what was written to it,
/// and is taken for want of memory.
fn push_new<S: Site>(
    alloc: Global,
    site: &mut S,
    aim: &Aim,
    post: &mut Post,
    transaction: &Transaction,
) -> Result<(), SendFault>
    requires aim { IsAim aim.now }
    requires made { HasMadeSome aim.now post.old }
    requires later { aim.now.prev.0 < transaction.now.at.0 → post.old.end.0 < transaction.now.at.0 }
    ensures pushed { OnOk result (Pushed aim.now post.old post.new (S.seen site.old) (S.seen site.new) (newer aim.now.prev.0 (Some transaction.now))) }
    ensures end { OnOk result (EndsAt post.old.end transaction.now.at post.new.end) }
    ensures cause { IfErr result (PushStop aim.now post.old (S.seen site.old) (S.seen site.new) (newer aim.now.prev.0 (Some transaction.now))) }
{
    if !lies_past(transaction.at, aim.prev) {
        return Ok(());
    }
    if !can_write(transaction) {
        return Err(SendFault::Memory);
    }
    push_one(alloc, site, aim, post, transaction)
}

/// Whether an offset lies past another.
fn lies_past(at: Offset, prev: Offset) -> bool
    ensures { result ≡ nat_lt prev.0 at.0 }
{
    prev.0 < at.0
}

/// Pushes what was found, if that is a transaction which lies past what the partner was sent before.
pub(crate) fn push_found<S: Site>(
    alloc: Global,
    site: &mut S,
    aim: &Aim,
    post: &mut Post,
    found: Option<Transaction>,
) -> Result<(), SendFault>
    requires aim { IsAim aim.now }
    requires made { HasMadeSome aim.now post.old }
    requires later { IfSome found (λ t. aim.now.prev.0 < t.at.0 → post.old.end.0 < t.at.0) }
    ensures pushed { OnOk result (Pushed aim.now post.old post.new (S.seen site.old) (S.seen site.new) (newer aim.now.prev.0 found)) }
    ensures end { OnOk result (EndsWith post.old.end found post.new.end) }
    ensures cause { IfErr result (PushStop aim.now post.old (S.seen site.old) (S.seen site.new) (newer aim.now.prev.0 found)) }
{
    match found {
        None => Ok(()),
        Some(transaction) => {
            let outcome = push_new(alloc, site, aim, post, &transaction);
            drop(transaction);
            outcome
        }
    }
}

/// Scans an entry that ends at `at`, and pushes what it gives. One that ends no later than what the partner was sent before gives nothing that is to
/// be sent: it is passed over.
pub(crate) fn feed_one<S: Site>(
    alloc: Global,
    site: &mut S,
    aim: &Aim,
    scanner: &mut Scanner,
    post: &mut Post,
    at: Offset,
    entry: &Entry,
) -> Result<(), SendFault>
    requires aim { IsAim aim.now }
    requires made { HasMadeSome aim.now post.old }
    requires later { aim.now.prev.0 < at.0 → post.old.end.0 < at.0 }
    ensures fed { OnOk result (Fed aim.now scanner.old scanner.new post.old post.new at entry.now (S.seen site.old) (S.seen site.new)) }
    ensures cause { IfErr result (FeedStop aim.now scanner.old post.old at entry.now (S.seen site.old) (S.seen site.new)) }
{
    if !lies_past(at, aim.prev) {
        pass_over(alloc, scanner, entry)?;
        return Ok(());
    }
    feed_new(alloc, site, aim, scanner, post, at, entry)
}

/// Scans an entry, and pushes what it gives.
fn feed_new<S: Site>(
    alloc: Global,
    site: &mut S,
    aim: &Aim,
    scanner: &mut Scanner,
    post: &mut Post,
    at: Offset,
    entry: &Entry,
) -> Result<(), SendFault>
    requires aim { IsAim aim.now }
    requires made { HasMadeSome aim.now post.old }
    requires later { aim.now.prev.0 < at.0 → post.old.end.0 < at.0 }
    ensures fed { OnOk result (Fed aim.now scanner.old scanner.new post.old post.new at entry.now (S.seen site.old) (S.seen site.new)) }
    ensures cause { IfErr result (FeedStop aim.now scanner.old post.old at entry.now (S.seen site.old) (S.seen site.new)) }
{
    let found = scanner.feed(alloc, at, entry)?;
    push_found(alloc, site, aim, post, found)
}
