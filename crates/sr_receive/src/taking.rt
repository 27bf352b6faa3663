//! The transactions of a window taken, each as one entry.

ghost use Rattle.std.specs.Prelude.{◌≡◌, ◌+◌, ◌-◌, ◌^◌, ◌≤◌, ◌∷◌, [], List, length, min, vec_capacity, vec_len, IfErr, IfOk};
ghost use Rattle.std.specs.List.{AllByRecursion};
ghost use Rattle.sr_logform.specs.Inner.Ops.{IsShortTransaction};
ghost use Rattle.sr_logform.specs.declared.op.Transaction.{Transaction as ATransaction};
ghost use Rattle.sr_mail.specs.Inboxes.{Gathered};
ghost use Rattle.sr_receive.specs.Inner.Reports.{entry_reports};
ghost use Rattle.sr_receive.specs.Inner.Running.{IsItsEntry, IsReadyPass, KeepsLoans, Runs};
ghost use Rattle.sr_receive.specs.Inner.Stands.{with_reports};
ghost use Rattle.sr_receive_gather.specs.Windows.{past};
ghost use Rattle.sr_receive_gather.specs.declared.fault.ReceiveFault.TheVariants.{Memory as memory};

use crate::noting::enter;
use crate::pass::{Pass, Progress};
use crate::reporting::{insert_all, reports_of};
use sr_base::{Name, Offset};
use sr_logform::{Entry, Transaction};
use sr_receive_gather::{ReceiveFault, Report};
use sr_receive_judged::entry_of;
use sr_site::Site;
use std::alloc::Global;

impl<'d, 's, 'p, 'r, S: Site> Pass<'d, 's, 'p, 'r, S> {
    /// Takes those of a window's transactions that lie past what was received.
    pub(crate) fn take_all(&mut self, transactions: &[Transaction]) -> Result<(), ReceiveFault>
        requires ready { IsReadyPass S.seen self.old }
        requires short { AllByRecursion IsShortTransaction transactions.now }
        ensures loans { KeepsLoans self.old self.new }
        ensures ran { (inbox : List Gathered) → Runs S.seen self.old inbox (past self.old.progress.received.0 transactions.now) self.new inbox [] result }
    {
        let received = self.progress.received.0;
        let mut left = transactions;
        'transactions: while let Some((transaction, rest)) = left.split_first() {
            match self.take_past(received, transaction) {
                Ok(()) => {}
                Err(fault) => return Err(fault),
            }
            left = rest;
        }
        Ok(())
    }

    /// Takes a transaction, where it lies past an offset.
    fn take_past(&mut self, received: u64, transaction: &Transaction) -> Result<(), ReceiveFault>
        requires ready { IsReadyPass S.seen self.old }
        requires short { IsShortTransaction transaction.now }
        ensures loans { KeepsLoans self.old self.new }
        ensures ran { (inbox : List Gathered) (rest : List ATransaction) → Runs S.seen self.old inbox (past received (transaction.now ∷ rest)) self.new inbox (past received rest) result }
    {
        if received < transaction.at.0 {
            return self.take_one(transaction);
        }
        Ok(())
    }

    /// Takes a transaction: it is judged, and its entry committed.
    fn take_one(&mut self, transaction: &Transaction) -> Result<(), ReceiveFault>
        requires ready { IsReadyPass S.seen self.old }
        requires short { IsShortTransaction transaction.now }
        ensures loans { KeepsLoans self.old self.new }
        ensures ran { (inbox : List Gathered) (rest : List ATransaction) → Runs S.seen self.old inbox (transaction.now ∷ rest) self.new inbox rest result }
    {
        match entry_of(self.place.alloc, self.place.db, self.user, transaction) {
            Err(_) => Err(ReceiveFault::Memory),
            Ok(entry) => {
                let outcome = self.take_entry(transaction, &entry);
                drop(entry);
                outcome
            }
        }
    }

    /// Takes a transaction that was judged. The memory for what is to be reported of it, and for its places among the reports, is taken before the commit: so
    /// what is committed is reported.
    fn take_entry(&mut self, transaction: &Transaction, entry: &Entry) -> Result<(), ReceiveFault>
        requires ready { IsReadyPass S.seen self.old }
        requires entry { IsItsEntry self.old.place.db.now self.old.user.now transaction.now entry.now }
        ensures loans { KeepsLoans self.old self.new }
        ensures ran { (inbox : List Gathered) (rest : List ATransaction) → Runs S.seen self.old inbox (transaction.now ∷ rest) self.new inbox rest result }
    {
        match reports_with_room(self.place.alloc, self.user, self.reports, entry) {
            Err(_) => Err(ReceiveFault::Memory),
            Ok(made) => self.take_with_room(transaction, entry, made),
        }
    }

    /// Takes a transaction of which this is to be reported, for which there is room. That follows its commit, and takes no memory then.
    fn take_with_room(
        &mut self,
        transaction: &Transaction,
        entry: &Entry,
        made: Vec<Report>,
    ) -> Result<(), ReceiveFault>
        requires ready { IsReadyPass S.seen self.old }
        requires entry { IsItsEntry self.old.place.db.now self.old.user.now transaction.now entry.now }
        requires made { made.items ≡ entry_reports self.old.user.now entry.now }
        requires room { vec_len self.old.reports.now + length made.items ≤ vec_capacity self.old.reports.now }
        ensures loans { KeepsLoans self.old self.new }
        ensures ran { (inbox : List Gathered) (rest : List ATransaction) → Runs S.seen self.old inbox (transaction.now ∷ rest) self.new inbox rest result }
    {
        match enter(&mut self.place, entry) {
            Ok(()) => {
                tell(&mut self.progress, self.reports, transaction.at, made);
                Ok(())
            }
            Err(fault) => {
                drop(made);
                Err(fault)
            }
        }
    }
}

/// A transaction was taken that ends at an offset: what is to be reported of it, for which there is room, follows the reports of ops.
fn tell(progress: &mut Progress, reports: &mut Vec<Report>, at: Offset, made: Vec<Report>)
    requires told { progress.old.told ≤ length reports.old.items }
    requires room { vec_len reports.old + length made.items ≤ vec_capacity reports.old }
    ensures received { progress.new.received ≡ at }
    ensures took { progress.new.took ≡ min (progress.old.took + 1) (2 ^ 64 - 1) }
    ensures told { progress.new.told ≡ progress.old.told + length made.items }
    ensures reports { reports.new.items ≡ with_reports progress.old.told made.items reports.old.items }
{
    let told = insert_all(reports, progress.told, made);
    *progress = Progress {
        received: at,
        took: one_more(progress.took),
        told,
    };
}

/// One more than a count, as far as a count goes.
fn one_more(count: u64) -> u64
    ensures more { result ≡ min (count + 1) (2 ^ 64 - 1) }
{
    if count == u64::MAX { count } else { count + 1 }
}

/// What is to be reported of an entry, with room for it among the reports.
fn reports_with_room(
    alloc: Global,
    user: &Name,
    reports: &mut Vec<Report>,
    entry: &Entry,
) -> Result<Vec<Report>, ReceiveFault>
    ensures reports { IfOk result (λ made. made.items ≡ entry_reports user.now entry.now) }
    ensures kept { reports.new.items ≡ reports.old.items }
    ensures room { IfOk result (λ made. vec_len reports.new + length made.items ≤ vec_capacity reports.new) }
    ensures memory { IfErr result (λ fault. fault ≡ memory) }
{
    match reports_in(alloc, user, entry) {
        Ok(made) => with_room(reports, made),
        Err(_) => Err(ReceiveFault::Memory),
    }
}

/// Reports, where there is room for them among the others.
fn with_room(reports: &mut Vec<Report>, made: Vec<Report>) -> Result<Vec<Report>, ReceiveFault>
    ensures made { IfOk result (λ kept. kept.items ≡ made.items) }
    ensures kept { reports.new.items ≡ reports.old.items }
    ensures room { IfOk result (λ kept. vec_len reports.new + length kept.items ≤ vec_capacity reports.new) }
    ensures memory { IfErr result (λ fault. fault ≡ memory) }
{
    match reports.reserve(made.as_slice().len()) {
        Ok(()) => Ok(made),
        Err(_) => {
            drop(made);
            Err(ReceiveFault::Memory)
        }
    }
}

/// What is to be reported of an entry.
fn reports_in(alloc: Global, user: &Name, entry: &Entry) -> Result<Vec<Report>, ReceiveFault>
    ensures reports { IfOk result (λ made. made.items ≡ entry_reports user.now entry.now) }
    ensures memory { IfErr result (λ fault. fault ≡ memory) }
{
    match entry {
        Entry::From { at, ops, .. } => match reports_of(alloc, user, *at, ops.as_slice()) {
            Ok(made) => Ok(made),
            Err(_) => Err(ReceiveFault::Memory),
        },
        Entry::Own(_)
        | Entry::Ddl(_)
        | Entry::Sync { .. }
        | Entry::Pass { .. }
        | Entry::Note { .. } => Ok(Vec::new(alloc)),
    }
}
