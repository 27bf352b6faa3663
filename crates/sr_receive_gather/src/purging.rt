//! Dead files removed.

ghost use Rattle.std.specs.Prelude.{◌≡◌, ◌∷◌, [], true, IsSome, IfOk, IfErr};
ghost use Rattle.sr_catalog_schema.specs.Members.{user_name};
ghost use Rattle.sr_catalog_schema.specs.Names.{named};
ghost use Rattle.sr_database_files.specs.Books.{book_in};
ghost use Rattle.sr_receive_gather.specs.Bags.{partner_mail_of};
ghost use Rattle.sr_receive_gather.specs.Purges.{is_dead, PurgeCause};
ghost use Rattle.sr_receive_gather.specs.Inner.Purges.{files_in, HasPurged, RemovesNext};

use crate::adding::place_of;
use crate::bag::{Bag, Filed};
use crate::fault::ReceiveFault;
use sr_base::Name;
use sr_book::Book;
use sr_database::Database;
use sr_site::Site;
use std::alloc::Global;

/// Removes the dead files of a user: those of which the window was received, the confirm noted and the ask noted. Answers how many.
///
/// `Mail` comes only where the mail's count of faults rose; after `Memory` it is as it was. After a fault the files that were removed before it are gone.
pub fn purge<S: Site>(
    alloc: Global,
    db: &Database,
    site: &mut S,
    user: &Name,
    bag: &Bag,
) -> Result<u32, ReceiveFault>
    requires usable { db.now.log.usable ≡ true }
    requires user { IsSome (named user_name user.now db.now.catalog.users) }
    ensures purged { IfOk result (HasPurged db.now.catalog.publisher (book_in db.now.books user.now) (files_in (partner_mail_of bag.now user.now)) (S.seen site.old) (S.seen site.new)) }
    ensures cause { IfErr result (PurgeCause db.now.catalog.publisher (book_in db.now.books user.now) (files_in (partner_mail_of bag.now user.now)) (S.seen site.old) (S.seen site.new)) }
{
    let Some(book) = db.book(user) else {
        return Err(ReceiveFault::Memory);
    };
    let files = files_of(bag, user);
    remove_dead(alloc, site, db.catalog().publisher(), &book, files)
}

/// The files of a user in the bag, none where it has none of his.
fn files_of<'a>(bag: &'a Bag, user: &Name) -> &'a [Filed]
    ensures files { result.now ≡ files_in (partner_mail_of bag.now user.now) }
{
    match place_of(bag.partner_mails.as_slice(), user) {
        None => &[],
        Some(at) => bag.partner_mails[at].files.as_slice(),
    }
}

/// Removes the dead ones of files.
fn remove_dead<S: Site>(
    alloc: Global,
    site: &mut S,
    publisher: &Name,
    book: &Book,
    files: &[Filed],
) -> Result<u32, ReceiveFault>
    ensures purged { IfOk result (HasPurged publisher.now book.now files.now (S.seen site.old) (S.seen site.new)) }
    ensures cause { IfErr result (PurgeCause publisher.now book.now files.now (S.seen site.old) (S.seen site.new)) }
{
    let mut count = 0;
    let mut left = files;
    'files: while let Some((file, rest)) = left.split_first() {
        count = remove_next(alloc, site, publisher, book, file, count)?;
        left = rest;
    }
    Ok(count)
}

/// Removes a file where it is dead, and counts it.
fn remove_next<S: Site>(
    alloc: Global,
    site: &mut S,
    publisher: &Name,
    book: &Book,
    file: &Filed,
    count: u32,
) -> Result<u32, ReceiveFault>
    ensures purged { IfOk result (RemovesNext publisher.now book.now file.now (S.seen site.old) (S.seen site.new) count) }
    ensures cause { IfErr result (PurgeCause publisher.now book.now (file.now ∷ []) (S.seen site.old) (S.seen site.new)) }
{
    if !is_dead(book, file) {
        return Ok(count);
    }
    let Some(next) = count.checked_add(1) else {
        return Err(ReceiveFault::Memory);
    };
    site.remove(alloc, publisher, &file.name)?;
    Ok(next)
}

/// Whether all that a file brought was received, noted as confirmed and noted as asked.
fn is_dead(book: &Book, file: &Filed) -> bool
    ensures { result ≡ is_dead book.now file.now }
{
    file.upto.0 <= book.log_received
        && file.confirm.0 <= book.confirm_sent
        && file.ask_count <= book.resend_count
}
