//! What a database may take of a user, by the logs of both.

ghost use Rattle.std.specs.Prelude.{◌≡◌, IfOk};
ghost use Rattle.std.specs.List.{AllByRecursion};
ghost use Rattle.sr_database_fold.specs.Inner.Readings.{state_in};
ghost use Rattle.sr_exec_dml.specs.Fitting.{RowsFit};
ghost use Rattle.sr_logform.specs.Inner.Ops.{IsShortTransaction};
ghost use Rattle.sr_rows.specs.Inner.Steps.{at_mark};
ghost use Rattle.sr_world_entries.specs.Inner.Taking.{TakeEndsIn};
ghost use Rattle.sr_world_steps.specs.Inner.Logs.{HasLog};
ghost use Rattle.sr_world_steps.specs.Inner.Booked.{end_in};
ghost use Rattle.sr_world_steps.specs.Inner.Putting.{HasLawfulLog};
ghost use Rattle.sr_world_steps.specs.Inner.Scanned.{AreGiven};
ghost use Rattle.sr_world_steps.specs.Inner.Taking.{FirstEnds, TakeEnds, TransactionEnds};

use crate::books::{book_of, end_of};
use crate::given::given_in;
use crate::past::goes_past;
use crate::standing::{Standing, standing_of};
use sr_base::{Name, NoMemory, Offset};
use sr_logform::{Entry, Transaction};
use sr_msgform::Message;
use sr_world_entries::take_end as entry_end;
use std::alloc::Global;

/// The entry by which a database takes the first transaction of a user past what it took of him, and the offset at which it ends; `None` exactly where it may
/// take none: no whole window goes on past what it took, or no entry that keeps every rule takes the transaction. It goes through both logs.
#[tactic(auto, using(crate::proofs::Takes::not_past, crate::proofs::Truths::given_short, crate::proofs::Takes::take_ends))]
pub(crate) fn take_end(
    alloc: Global,
    messages: &[Message],
    at: &Name,
    log: &[(Offset, Entry)],
    user: &Name,
    theirs: &[(Offset, Entry)],
) -> Result<Option<(u64, Entry)>, NoMemory>
    requires some { HasLog at.now log.now }
    requires lawful { HasLawfulLog user.now theirs.now }
    ensures end { IfOk result (TakeEnds messages.now at.now log.now user.now theirs.now) }
{
    let book = book_of(log, user);
    if !goes_past(messages, user, at, book.log_received) {
        return Ok(None);
    }
    let given = given_past(alloc, at, user, theirs, book.log_received)?;
    let end = first_end(alloc, at, log, user, given.as_slice());
    drop(given);
    let end = end?;
    Ok(end)
}

/// The transactions that a user gives a database past an offset.
fn given_past(
    alloc: Global,
    at: &Name,
    user: &Name,
    theirs: &[(Offset, Entry)],
    taken: u64,
) -> Result<Vec<Transaction>, NoMemory>
    ensures given { IfOk result (λ found. AreGiven user.now at.now taken (end_in 0 theirs.now) theirs.now found.items) }
{
    given_in(
        alloc,
        user,
        theirs,
        at,
        Offset(taken),
        Offset(end_of(theirs)),
    )
}

/// The same of the first of some transactions; `None` where there is none.
#[tactic(auto, using(crate::proofs::Takes::no_first, crate::proofs::Takes::first_short, crate::proofs::Takes::some_first))]
fn first_end(
    alloc: Global,
    at: &Name,
    log: &[(Offset, Entry)],
    user: &Name,
    transactions: &[Transaction],
) -> Result<Option<(u64, Entry)>, NoMemory>
    requires some { HasLog at.now log.now }
    requires short { AllByRecursion IsShortTransaction transactions.now }
    ensures end { IfOk result (FirstEnds at.now log.now user.now transactions.now) }
{
    let Some((transaction, _)) = transactions.split_first() else {
        return Ok(None);
    };
    let end = transaction_end(alloc, at, log, user, transaction)?;
    Ok(end)
}

/// The entry that takes a transaction, and the offset at which it ends; `None` exactly where none may. It goes through the log.
#[tactic(auto, using(crate::proofs::Takes::transaction_ends))]
fn transaction_end(
    alloc: Global,
    at: &Name,
    log: &[(Offset, Entry)],
    user: &Name,
    transaction: &Transaction,
) -> Result<Option<(u64, Entry)>, NoMemory>
    requires some { HasLog at.now log.now }
    requires short { IsShortTransaction transaction.now }
    ensures end { IfOk result (TransactionEnds at.now log.now user.now transaction.now) }
{
    let standing = standing_of(alloc, at, log)?;
    let end = end_on(alloc, standing, end_of(log), user, transaction)?;
    Ok(end)
}

/// The same on what the log comes to, behind an offset.
fn end_on(
    alloc: Global,
    standing: Standing,
    place: u64,
    user: &Name,
    transaction: &Transaction,
) -> Result<Option<(u64, Entry)>, NoMemory>
    requires rows { RowsFit standing.catalog standing.rows.rows }
    requires fresh { standing.rows ≡ at_mark standing.rows.rows }
    requires short { IsShortTransaction transaction.now }
    ensures end { IfOk result (TakeEndsIn (state_in standing.catalog standing.rows) place user.now transaction.now) }
{
    let Standing {
        mut catalog,
        mut rows,
    } = standing;
    let end = entry_end(alloc, &mut catalog, &mut rows, place, user, transaction);
    drop(rows);
    drop(catalog);
    let end = end?;
    Ok(end)
}
