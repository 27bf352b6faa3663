//! The windows of a user's message files, tried one after the other.

ghost use Rattle.std.specs.Prelude.{true, ◌≡◌, ◌↔◌, ◌∷◌, ◌++◌, [], List, IsTrue, IfErr, IfNone, IfOk, IfSome, OnErr, OnOk, Some, option_map};
ghost use Rattle.std.specs.List.{AllByRecursion};
ghost use Rattle.sr_base.specs.Values.{offset_from};
ghost use Rattle.sr_mail_cut.specs.Bodies.{IsBody};
ghost use Rattle.sr_database_did.specs.Inner.Places.{IsLent};
ghost use Rattle.sr_receive_gather.specs.Fetches.{FetchStop};
ghost use Rattle.sr_receive_gather.specs.Inner.Fetches.{FoundAll};
ghost use Rattle.sr_logform.specs.Inner.Ops.{IsShortTransaction};
ghost use Rattle.sr_logform.specs.declared.op.Transaction.{Transaction as ATransaction};
ghost use Rattle.sr_mail.specs.Inner.Assembled.{AreOfOneWindow};
ghost use Rattle.sr_mail.specs.Inner.Inboxes.{IsNext};
ghost use Rattle.sr_mail.specs.Seen.{window_of};
ghost use Rattle.sr_mail.specs.declared.piece.Piece.{Piece as APiece};
ghost use Rattle.sr_receive.specs.Acts.{IsReadAs};
ghost use Rattle.sr_receive.specs.Inner.Running.{IsReadyPass, KeepsLoans, Runs, TriesFound, TriesRead, stand};
ghost use Rattle.sr_receive.specs.Inner.Stands.{IsResting, Loses};
ghost use Rattle.sr_receive_gather.specs.Windows.{AreOf, Spell};
ghost use Rattle.sr_receive_gather.specs.declared.fault.ReceiveFault.TheVariants.{Memory as memory};
ghost use Rattle.sr_receive_gather.specs.declared.report.Report.TheVariants.{Torn as torn_report};

use crate::pass::Pass;
use sr_base::{Copied, Name, NoMemory, Offset};
use sr_database_did::Place;
use sr_logform::Transaction;
use sr_mail::{Inbox, Piece, Window, assemble};
use sr_mail_cut::read_body;
use sr_msgform::Message;
use sr_receive_gather::{ReceiveFault, Report, fetch_all};
use sr_site::Site;
use std::alloc::Global;

impl<'d, 's, 'p, 'r, S: Site> Pass<'d, 's, 'p, 'r, S> {
    /// Tries windows as long as a whole one leads on from what was received.
    pub(crate) fn try_all(&mut self, inbox: &mut Inbox) -> Result<(), ReceiveFault>
        requires ready { IsReadyPass S.seen self.old }
        ensures loans { KeepsLoans self.old self.new }
        ensures ran { Runs S.seen self.old inbox.old [] self.new inbox.new [] result }
        ensures rest { OnOk result (IsResting (stand self.new inbox.new [])) }
    {
        'windows: for _ in 0..u64::MAX {
            let Some(pieces) = inbox.next(self.place.alloc, self.progress.received)? else {
                return Ok(());
            };
            match self.try_one(inbox, pieces) {
                Ok(()) => {}
                Err(fault) => return Err(fault),
            }
        }
        Err(ReceiveFault::Memory)
    }

    /// Tries the window of these pieces.
    fn try_one(&mut self, inbox: &mut Inbox, pieces: Vec<Piece>) -> Result<(), ReceiveFault>
        requires ready { IsReadyPass S.seen self.old }
        requires next { IsNext inbox.old self.old.progress.received.0 pieces.items }
        ensures loans { KeepsLoans self.old self.new }
        ensures ran { Runs S.seen self.old inbox.old [] self.new inbox.new [] result }
    {
        let Some(window) = window_of(pieces.as_slice()) else {
            drop(pieces);
            return Ok(());
        };
        match fetch_again(&mut self.place, self.user, pieces) {
            Ok(found) => self.try_found(inbox, window, found),
            Err(fault) => Err(fault),
        }
    }

    /// Tries a window of which the pieces were fetched again. It is dropped where one of them did not come.
    fn try_found(
        &mut self,
        inbox: &mut Inbox,
        window: Window,
        found: Option<Vec<(Piece, Message)>>,
    ) -> Result<(), ReceiveFault>
        requires ready { IsReadyPass S.seen self.old }
        requires filled { IfSome found (λ pairs. ¬ (pairs.items ≡ [])) }
        requires one_window { IfSome found (λ pairs. AreOfOneWindow pairs.items) }
        ensures loans { KeepsLoans self.old self.new }
        ensures ran { TriesFound S.seen self.old inbox.old self.new inbox.new window (option_map (λ pairs. pairs.items) found) result }
    {
        match found {
            None => {
                lose(inbox, window);
                Ok(())
            }
            Some(pairs) => {
                let read = read_window(self.place.alloc, window, pairs.as_slice());
                drop(pairs);
                match read {
                    Ok(read) => self.take_read(inbox, window, read),
                    Err(_) => Err(ReceiveFault::Memory),
                }
            }
        }
    }

    /// Takes the transactions that were read of a window. It is torn where none were, and reported as such before it is lost: where there is no memory for
    /// the report, nothing is done.
    fn take_read(
        &mut self,
        inbox: &mut Inbox,
        window: Window,
        read: Option<Vec<Transaction>>,
    ) -> Result<(), ReceiveFault>
        requires ready { IsReadyPass S.seen self.old }
        requires short { IfSome read (λ txs. AllByRecursion IsShortTransaction txs.items) }
        ensures loans { KeepsLoans self.old self.new }
        ensures ran { TriesRead S.seen self.old inbox.old self.new inbox.new window (option_map (λ txs. txs.items) read) result }
    {
        match read {
            None => match push_torn(self.place.alloc, self.reports, self.user, window) {
                Ok(()) => {
                    lose(inbox, window);
                    Ok(())
                }
                Err(fault) => Err(fault),
            },
            Some(transactions) => {
                let outcome = self.take_all(transactions.as_slice());
                drop(transactions);
                outcome
            }
        }
    }
}

/// Fetches the files of a window's pieces again.
fn fetch_again<'d, 's, S: Site>(
    place: &mut Place<'d, 's, S>,
    user: &Name,
    pieces: Vec<Piece>,
) -> Result<Option<Vec<(Piece, Message)>>, ReceiveFault>
    requires usable { place.old.db.now.log.usable ≡ true }
    ensures lent { IsLent place.old place.new }
    ensures db { place.new.db.now ≡ place.old.db.now }
    ensures found { IfOk result (λ found. FoundAll place.old.db.now.catalog.publisher user.now pieces.items (S.seen place.old.site.now) (S.seen place.new.site.now) (option_map (λ pairs. pairs.items) found)) }
    ensures cause { IfErr result (FetchStop place.old.db.now.catalog.publisher user.now pieces.items (S.seen place.old.site.now) (S.seen place.new.site.now)) }
{
    fetch_all(
        place.alloc,
        place.site,
        place.db.catalog().publisher(),
        user,
        pieces,
    )
}

/// The window is not tried again.
fn lose(inbox: &mut Inbox, window: Window)
    ensures lost { Loses inbox.old inbox.new window }
{
    inbox.drop_window(Offset(window.prev), Offset(window.upto), window.total);
}

/// Reports a torn window.
fn push_torn(
    alloc: Global,
    reports: &mut Vec<Report>,
    user: &Name,
    window: Window,
) -> Result<(), ReceiveFault>
    ensures torn { OnOk result (reports.new.items ≡ reports.old.items ++ torn_report user.now (offset_from window.prev) (offset_from window.upto) ∷ []) }
    ensures err { OnErr result (reports.new.items ≡ reports.old.items) }
    ensures memory { IfErr result (λ fault. fault ≡ memory) }
{
    reports.push(Report::Torn {
        user: user.copy(alloc)?,
        prev: Offset(window.prev),
        upto: Offset(window.upto),
    })?;
    Ok(())
}

/// The window of pieces, all of which are of one.
fn window_of(pieces: &[Piece]) -> Option<Window>
    ensures found { IfSome result (λ w. (p : APiece) × (rest : List APiece) × (pieces.now ≡ p ∷ rest) × (w ≡ window_of p)) }
    ensures none { IfNone result (pieces.now ≡ []) }
{
    match pieces.split_first() {
        Some((piece, _)) => Some(piece.window()),
        None => None,
    }
}

/// The transactions that the bytes of a window spell. `None` where they spell none of it.
fn read_window(
    alloc: Global,
    window: Window,
    pairs: &[(Piece, Message)],
) -> Result<Option<Vec<Transaction>>, NoMemory>
    requires some { ¬ (pairs.now ≡ []) }
    requires one_window { AreOfOneWindow pairs.now }
    ensures read { IfOk result (λ found. IfSome found (λ txs. IsReadAs pairs.now window txs.items)) }
    ensures none { IfOk result (λ found. IfNone found ((txs : List ATransaction) → ¬ (IsReadAs pairs.now window txs))) }
    ensures short { IfOk result (λ found. IfSome found (λ txs. AllByRecursion IsShortTransaction txs.items)) }
{
    match assemble(alloc, pairs)? {
        None => Ok(None),
        Some(bytes) => {
            let read = read_spelled(alloc, window, bytes.as_slice());
            drop(bytes);
            read
        }
    }
}

/// The transactions of a window that bytes spell. `None` where they spell none of it.
fn read_spelled(
    alloc: Global,
    window: Window,
    bytes: &[u8],
) -> Result<Option<Vec<Transaction>>, NoMemory>
    ensures read { IfOk result (λ found. IfSome found (λ txs. Spell window bytes.now txs.items)) }
    ensures none { IfOk result (λ found. IfNone found ((txs : List ATransaction) → ¬ (Spell window bytes.now txs))) }
    ensures short { IfOk result (λ found. IfSome found (λ txs. AllByRecursion IsShortTransaction txs.items)) }
{
    let read = read_body(alloc, bytes)?;
    Ok(fit(window, read))
}

/// Transactions, where they are of the window.
fn fit(window: Window, read: Option<Vec<Transaction>>) -> Option<Vec<Transaction>>
    requires body { IfSome read (λ txs. IsBody txs.items) }
    ensures fit { IfSome result (λ txs. (read ≡ Some txs) × AreOf window txs.items) }
    ensures none { IfNone result ((txs : List ATransaction) → option_map (λ ts. ts.items) read ≡ Some txs → ¬ (AreOf window txs)) }
{
    match read {
        None => None,
        Some(transactions) => {
            if are_of(window, transactions.as_slice()) {
                return Some(transactions);
            }
            drop(transactions);
            None
        }
    }
}

/// Whether rising transactions are of a window: the first lies past its beginning, and the last is its end.
fn are_of(window: Window, transactions: &[Transaction]) -> bool
    requires body { IsBody transactions.now }
    ensures { IsTrue result ↔ AreOf window transactions.now }
{
    let Some((first, _)) = transactions.split_first() else {
        return false;
    };
    let Some((last, _)) = transactions.split_last() else {
        return false;
    };
    window.prev < first.at.0 && last.at.0 == window.upto
}
