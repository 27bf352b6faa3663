//! Notes that are due before and after the windows.

ghost use Rattle.std.specs.Prelude.{◌≡◌, ◌++◌, IfErr, IfOk, OnErr};
ghost use Rattle.sr_receive_gather.specs.Greatest.{ask_at, asks, confirms};
ghost use Rattle.sr_receive_gather.specs.Inner.OneNote.{at_most_one, gap_where, raised_where};
ghost use Rattle.sr_receive_gather.specs.declared.fault.ReceiveFault.TheVariants.{Memory as memory};

use crate::asking::{greatest_confirm, greatest_count, least_ask};
use crate::bag::Filed;
use crate::fault::ReceiveFault;
use crate::report::Report;
use sr_base::{Copied, Name, Offset};
use sr_book::{Book, Note};
use std::alloc::Global;

/// The note of the greatest confirm, where it raises what was confirmed or what was sent.
pub fn due_confirm(book: &Book, files: &[Filed]) -> Option<Note>
    ensures { at_most_one result ≡ confirms book.now files.now }
{
    let confirm = greatest_confirm(files);
    if book.confirm_sent < confirm || book.log_sent < confirm {
        return Some(Note::Confirmed(Offset(confirm)));
    }
    None
}

/// The note of the ask of the greatest count, where that was not noted before.
pub fn due_ask(book: &Book, files: &[Filed]) -> Option<Note>
    ensures { at_most_one result ≡ asks book.now files.now }
{
    let count = greatest_count(files);
    if book.resend_count < count {
        return ask_of(count, least_ask(files, count));
    }
    None
}

/// The note of an ask of this count, where there is one.
fn ask_of(count: u64, place: Option<u64>) -> Option<Note>
    ensures { at_most_one result ≡ ask_at count place }
{
    match place {
        None => None,
        Some(place) => Some(Note::Asked(count, Offset(place))),
    }
}

/// The note that something is raised, where it is.
pub fn due_raise(ask: bool) -> Option<Note>
    ensures { at_most_one result ≡ raised_where ask }
{
    if ask { Some(Note::Raised) } else { None }
}

/// Reports that a window ends past what was received, where it is so, and answers whether.
pub fn report_gap(
    alloc: Global,
    reports: &mut Vec<Report>,
    user: &Name,
    received: Offset,
    upto: Offset,
    ask: bool,
) -> Result<bool, ReceiveFault>
    ensures reported { IfOk result (λ told. (told ≡ ask) × (reports.new.items ≡ reports.old.items ++ gap_where ask user.now received upto)) }
    ensures reports { OnErr result (reports.new.items ≡ reports.old.items) }
    ensures memory { IfErr result (λ fault. fault ≡ memory) }
{
    if !ask {
        return Ok(false);
    }
    reports.push(Report::Gap {
        user: user.copy(alloc)?,
        received,
        upto,
    })?;
    Ok(true)
}
