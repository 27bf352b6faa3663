//! The books of a snapshot, read through a window.

ghost use Rattle.std.specs.Prelude.{◌≡◌, ◌<◌, ◌^◌, ◌∷◌, [], map, IsTrue, IfOk, IfErr};
ghost use Rattle.std.specs.List.{flat_map, AllByRecursion};
ghost use Rattle.sr_catalog_schema.specs.Members.{user_name};
ghost use Rattle.sr_site.specs.Files.{bytes_of};
ghost use Rattle.sr_snapshot.specs.Beginnings.{IsBook};
ghost use Rattle.sr_snapshot.specs.Parts.{book_line, book_spelling, four_spelling};
ghost use Rattle.sr_snapshot_read.specs.Inner.Damages.{NeverBreaks};
ghost use Rattle.sr_snapshot_read.specs.Damages.{BooksBreak, NumbersBreak};
ghost use Rattle.sr_snapshot_read.specs.Inner.Reading.{HasTaken, IsOver, TakeCause};

use crate::fields::read_number;
use crate::heads::read_this_name;
use crate::window::Window;
use sr_base::{Name, Seq};
use sr_book::Book;
use sr_catalog::User;
use sr_site::{Disk, File};
use sr_snapshot::SnapFault;
use std::alloc::Global;

/// Reads the book of each of these users.
pub(crate) fn read_books<S: Disk>(
    alloc: Global,
    site: &mut S,
    file: File,
    window: &mut Window,
    users: &[User],
) -> Result<Seq<(Name, Book)>, SnapFault>
    requires over { IsTrue (S.seen site.old).observable → IsOver window.old (bytes_of (S.seen site.old).files file) }
    ensures taken { IfOk result (λ books. HasTaken file (flat_map book_line books) (S.seen site.old) (S.seen site.new) window.old window.new) }
    ensures users { IfOk result (λ books. map (λ p. p.0) books ≡ map user_name users.now) }
    ensures numbers { IfOk result (AllByRecursion (λ p. IsBook p.1)) }
    ensures cause { IfErr result (TakeCause file (BooksBreak users.now NeverBreaks) (S.seen site.old) (S.seen site.new) window.old) }
{
    let mut books = Vec::new(alloc);
    let mut left = users;
    'users: while let Some((user, rest)) = left.split_first() {
        let name = read_this_name(alloc, site, file, window, &user.name)?;
        let book = read_book(alloc, site, file, window)?;
        books.push((name, book))?;
        left = rest;
    }
    Ok(Seq::from_vec(books))
}

/// Reads the eight numbers of a book.
fn read_book<S: Disk>(
    alloc: Global,
    site: &mut S,
    file: File,
    window: &mut Window,
) -> Result<Book, SnapFault>
    requires over { IsTrue (S.seen site.old).observable → IsOver window.old (bytes_of (S.seen site.old).files file) }
    ensures taken { IfOk result (λ book. HasTaken file (book_spelling book) (S.seen site.old) (S.seen site.new) window.old window.new) }
    ensures numbers { IfOk result IsBook }
    ensures cause { IfErr result (TakeCause file (NumbersBreak 8 NeverBreaks) (S.seen site.old) (S.seen site.new) window.old) }
{
    let sent = read_four(alloc, site, file, window)?;
    let received = read_four(alloc, site, file, window)?;
    Ok(Book {
        log_sent: sent.one,
        confirm_sent: sent.two,
        send_count: sent.three,
        resend_count: sent.four,
        log_received: received.one,
        confirm_received: received.two,
        receive_count: received.three,
        rereceive_count: received.four,
    })
}

/// Four numbers, in their order.
#[derive(Clone, Copy)]
struct Four {
    one: u64,
    two: u64,
    three: u64,
    four: u64,
}

/// Reads four numbers.
fn read_four<S: Disk>(
    alloc: Global,
    site: &mut S,
    file: File,
    window: &mut Window,
) -> Result<Four, SnapFault>
    requires over { IsTrue (S.seen site.old).observable → IsOver window.old (bytes_of (S.seen site.old).files file) }
    ensures taken { IfOk result (λ n. HasTaken file (four_spelling n.one n.two n.three n.four) (S.seen site.old) (S.seen site.new) window.old window.new) }
    ensures short { IfOk result (λ n. AllByRecursion (λ m. m < 2 ^ 64) (n.one ∷ n.two ∷ n.three ∷ n.four ∷ [])) }
    ensures cause { IfErr result (TakeCause file (NumbersBreak 4 NeverBreaks) (S.seen site.old) (S.seen site.new) window.old) }
{
    let one = read_number(alloc, site, file, window)?;
    let two = read_number(alloc, site, file, window)?;
    let three = read_number(alloc, site, file, window)?;
    let four = read_number(alloc, site, file, window)?;
    Ok(Four {
        one,
        two,
        three,
        four,
    })
}
