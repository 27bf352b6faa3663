//! The pass over a user's message files.

ghost use Rattle.std.specs.Prelude.{true, option_map, ◌≡◌, ◌++◌, [], List, None, IsSome, IfErr, IfOk, OnErr};
ghost use Rattle.sr_catalog_schema.specs.Members.{user_name};
ghost use Rattle.sr_catalog_schema.specs.Names.{named};
ghost use Rattle.sr_database_did.specs.Inner.Places.{IsLent, at};
ghost use Rattle.sr_database_files.specs.Books.{book_in};
ghost use Rattle.sr_receive.specs.Inner.Ready.{IsReady};
ghost use Rattle.sr_receive_gather.specs.Greatest.{asks, confirms, has_gap, raises};
ghost use Rattle.sr_receive_gather.specs.Bags.{partner_mail_of};
ghost use Rattle.sr_receive_gather.specs.declared.bag.PartnerMail.{PartnerMail as APartnerMail};
ghost use Rattle.sr_receive.specs.Passes.{first_notes, gap_report, note_entries};
ghost use Rattle.sr_receive.specs.Inner.Noting.{EntersAll};
ghost use Rattle.sr_receive.specs.Inner.Passes.{HasReceived, ReceiveCause, ReceivedBag, ReceivedMail};
ghost use Rattle.sr_receive.specs.Inner.Running.{HasRaised, IsReadyPass, KeepsLoans, WentBehind, begins, stand};
ghost use Rattle.sr_mail.specs.Inboxes.{Gathered};

use crate::noting::note_where;
use crate::pass::{Pass, Progress};
use sr_base::{Name, Offset};
use sr_book::Book;
use sr_database::Database;
use sr_database_did::Place;
use sr_receive_gather::{
    Bag, Filed, PartnerMail, ReceiveFault, Report, due_ask, due_confirm, due_raise, greatest_upto,
    report_gap,
};
use sr_site::Site;
use std::alloc::Global;

/// How many transactions were taken from a user, the offset of his log up to which all is taken, and whether an ask is due for what lies past
/// it.
#[derive(Clone, Copy)]
pub struct Received {
    pub took: u64,
    pub end: Offset,
    pub ask: bool,
}

/// Takes what the bag has of a user.
///
/// The greatest confirm is noted where it raises what was confirmed or sent, and the ask of the greatest count, with the least offset of several such,
/// where that count was not noted before. Then windows are tried: of the whole ones that begin at what was received, or before it, and end past
/// it, the least by prev, then upto, then total, as long as there is one. The files of pieces that cover it are fetched again. A
/// window is dropped where one of them gives no message, or another one, and torn where the bytes are no transactions of it; neither is tried again.
/// Any other is taken, from the first transaction past what was received to its end, each transaction as one entry with its outcomes. Where a
/// window, whole or not, then ends past what was received, that is raised and reported.
///
/// `Disk` and `Mail` come only where that device's count of faults rose, and else no count rises; `Full` and `Long` exactly where an entry has no room or is
/// too long. After a fault, whichever it is, what was committed stands and all that was done is reported, since the memory for that is taken before; and lost
/// windows stay lost. After `Disk` the database is not used again.
pub fn receive<S: Site>(
    alloc: Global,
    db: &mut Database,
    site: &mut S,
    user: &Name,
    bag: &mut Bag,
    reports: &mut Vec<Report>,
) -> Result<Received, ReceiveFault>
    requires ready { IsReady db.old (S.seen site.old) }
    requires user { IsSome (named user_name user.now db.old.catalog.users) }
    ensures received { IfOk result (HasReceived db.old db.new (S.seen site.old) (S.seen site.new) user.now bag.old bag.new reports.old.items reports.new.items) }
    ensures cause { IfErr result (ReceiveCause db.old db.new (S.seen site.old) (S.seen site.new) user.now bag.old bag.new reports.old.items reports.new.items) }
{
    let mut pass = Pass {
        place: Place { alloc, db, site },
        user,
        reports,
        progress: Progress {
            received: Offset(0),
            took: 0,
            told: 0,
        },
    };
    pass.receive_from(bag)
}

impl<'d, 's, 'p, 'r, S: Site> Pass<'d, 's, 'p, 'r, S> {
    /// Takes what the bag has of the user.
    fn receive_from(&mut self, bag: &mut Bag) -> Result<Received, ReceiveFault>
        requires ready { IsReadyPass S.seen self.old }
        ensures loans { KeepsLoans self.old self.new }
        ensures received { IfOk result (HasReceived self.old.place.db.now self.new.place.db.now (S.seen self.old.place.site.now) (S.seen self.new.place.site.now) self.old.user.now bag.old bag.new self.old.reports.now.items self.new.reports.now.items) }
        ensures cause { IfErr result (ReceiveCause self.old.place.db.now self.new.place.db.now (S.seen self.old.place.site.now) (S.seen self.new.place.site.now) self.old.user.now bag.old bag.new self.old.reports.now.items self.new.reports.now.items) }
    {
        match bag.place(self.user) {
            Some(at) => self.receive_partner_mail(bag.partner_mail_mut(at)),
            None => self.receive_none(),
        }
    }

    /// Takes nothing, where nothing came of a user.
    fn receive_none(&mut self) -> Result<Received, ReceiveFault>
        requires ready { IsReadyPass S.seen self.old }
        ensures loans { KeepsLoans self.old self.new }
        ensures received { (bag : List APartnerMail) → partner_mail_of bag self.old.user.now ≡ None
            → ReceivedBag (at S.seen self.old.place) (at S.seen self.new.place) self.old.user.now bag bag self.old.reports.now.items self.new.reports.now.items result }
    {
        match PartnerMail::of(self.place.alloc, self.user) {
            Ok(mut none) => {
                let outcome = self.receive_partner_mail(&mut none);
                drop(none);
                outcome
            }
            Err(_) => Err(ReceiveFault::Memory),
        }
    }

    /// Takes what a partner mail has.
    fn receive_partner_mail(
        &mut self,
        partner_mail: &mut PartnerMail,
    ) -> Result<Received, ReceiveFault>
        requires ready { IsReadyPass S.seen self.old }
        ensures loans { KeepsLoans self.old self.new }
        ensures user { partner_mail.new.user ≡ partner_mail.old.user }
        ensures received { ReceivedMail (at S.seen self.old.place) (at S.seen self.new.place) self.old.user.now partner_mail.old partner_mail.new self.old.reports.now.items self.new.reports.now.items result }
    {
        let Some(book) = book_of(&self.place, self.user) else {
            return Err(ReceiveFault::Memory);
        };
        match note_first(
            &mut self.place,
            self.user,
            &book,
            partner_mail.files.as_slice(),
        ) {
            Ok(()) => self.receive_behind(Offset(book.log_received), partner_mail),
            Err(fault) => Err(fault),
        }
    }

    /// Takes windows, after the notes that come first, and raises that one ends past what was received then, where one does.
    fn receive_behind(
        &mut self,
        received: Offset,
        partner_mail: &mut PartnerMail,
    ) -> Result<Received, ReceiveFault>
        requires ready { IsReadyPass S.seen self.old }
        ensures loans { KeepsLoans self.old self.new }
        ensures user { partner_mail.new.user ≡ partner_mail.old.user }
        ensures files { partner_mail.new.files.items ≡ partner_mail.old.files.items }
        ensures passed { WentBehind (begins self.old received.0 partner_mail.old.inbox) (at S.seen self.old.place) (at S.seen self.new.place) partner_mail.old.files.items partner_mail.new.inbox self.new.reports.now.items result }
    {
        self.progress = Progress {
            received,
            took: 0,
            told: self.reports.as_slice().len(),
        };
        match self.try_all(&mut partner_mail.inbox) {
            Ok(()) => self.raise_behind(partner_mail.files.as_slice()),
            Err(fault) => Err(fault),
        }
    }

    /// Raises that a window ends past what was received, where one does, and answers what was done.
    fn raise_behind(&mut self, files: &[Filed]) -> Result<Received, ReceiveFault>
        requires ready { IsReadyPass S.seen self.old }
        ensures loans { KeepsLoans self.old self.new }
        ensures raised { (inbox : List Gathered) → IfOk result (HasRaised (stand self.old inbox []) files.now self.new.reports.now.items) }
        ensures noted { EntersAll (at S.seen self.old.place) (at S.seen self.new.place) (note_entries self.old.user.now (raises self.old.progress.received.0 files.now)) result }
        ensures reports { OnErr result (self.new.reports.now.items ≡ self.old.reports.now.items) }
    {
        let received = self.progress.received;
        let took = self.progress.took;
        match self.raise(received, files) {
            Ok(ask) => Ok(Received {
                took,
                end: received,
                ask,
            }),
            Err(fault) => Err(fault),
        }
    }

    /// Raises, and reports, that a window ends past what was received, where one does. Answers whether one does.
    fn raise(&mut self, received: Offset, files: &[Filed]) -> Result<bool, ReceiveFault>
        requires ready { IsReadyPass S.seen self.old }
        ensures loans { KeepsLoans self.old self.new }
        ensures raised { IfOk result (λ ask. (ask ≡ has_gap received.0 files.now) × (self.new.reports.now.items ≡ self.old.reports.now.items ++ gap_report self.old.user.now received.0 files.now)) }
        ensures noted { EntersAll (at S.seen self.old.place) (at S.seen self.new.place) (note_entries self.old.user.now (raises received.0 files.now)) result }
        ensures reports { OnErr result (self.new.reports.now.items ≡ self.old.reports.now.items) }
    {
        let upto = greatest_upto(files);
        let ask = received.0 < upto;
        let note = due_raise(ask);
        match note_where(&mut self.place, self.user, note) {
            Ok(()) => report_gap(
                self.place.alloc,
                self.reports,
                self.user,
                received,
                Offset(upto),
                ask,
            ),
            Err(fault) => Err(fault),
        }
    }
}

/// The book of a user, where he is granted.
fn book_of<'d, 's, S: Site>(place: &Place<'d, 's, S>, user: &Name) -> Option<Book>
    requires usable { place.now.db.now.log.usable ≡ true }
    ensures book { result ≡ option_map (λ _. book_in place.now.db.now.books user.now) (named user_name user.now place.now.db.now.catalog.users) }
{
    place.db.book(user)
}

/// Notes what message files confirm, and then what they ask for.
fn note_first<'d, 's, S: Site>(
    place: &mut Place<'d, 's, S>,
    user: &Name,
    book: &Book,
    files: &[Filed],
) -> Result<(), ReceiveFault>
    requires ready { IsReady place.old.db.now (S.seen place.old.site.now) }
    requires user { IsSome (named user_name user.now place.old.db.now.catalog.users) }
    ensures lent { IsLent place.old place.new }
    ensures noted { EntersAll (at S.seen place.old) (at S.seen place.new) (first_notes user.now book.now files.now) result }
{
    match note_confirm(place, user, book, files) {
        Ok(()) => note_ask(place, user, book, files),
        Err(fault) => Err(fault),
    }
}

/// Notes the greatest confirm, where it raises what was confirmed or what was sent.
fn note_confirm<'d, 's, S: Site>(
    place: &mut Place<'d, 's, S>,
    user: &Name,
    book: &Book,
    files: &[Filed],
) -> Result<(), ReceiveFault>
    requires ready { IsReady place.old.db.now (S.seen place.old.site.now) }
    requires user { IsSome (named user_name user.now place.old.db.now.catalog.users) }
    ensures lent { IsLent place.old place.new }
    ensures noted { EntersAll (at S.seen place.old) (at S.seen place.new) (note_entries user.now (confirms book.now files.now)) result }
{
    let note = due_confirm(book, files);
    note_where(place, user, note)
}

/// Notes the ask of the greatest count, where that was not noted before.
fn note_ask<'d, 's, S: Site>(
    place: &mut Place<'d, 's, S>,
    user: &Name,
    book: &Book,
    files: &[Filed],
) -> Result<(), ReceiveFault>
    requires ready { IsReady place.old.db.now (S.seen place.old.site.now) }
    requires user { IsSome (named user_name user.now place.old.db.now.catalog.users) }
    ensures lent { IsLent place.old place.new }
    ensures noted { EntersAll (at S.seen place.old) (at S.seen place.new) (note_entries user.now (asks book.now files.now)) result }
{
    let note = due_ask(book, files);
    note_where(place, user, note)
}
