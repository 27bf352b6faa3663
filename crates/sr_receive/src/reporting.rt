//! What is reported of ops that were taken.

ghost use Rattle.std.specs.Prelude.{◌≡◌, ◌+◌, ◌++◌, ◌<◌, ◌≤◌, take, drop, length, vec_capacity, vec_len, IfOk, OnOk};
ghost use Rattle.std.specs.List.{insert};
ghost use Rattle.sr_receive.specs.Reports.{outcome_report, outcome_reports};

use sr_base::{Copied, Name, NoMemory, Offset};
use sr_logform::{Op, Outcome};
use sr_receive_gather::Report;
use std::alloc::{AllocError, Global};

/// The reports of a transaction's ops, numbered from 1.
pub(crate) fn reports_of(
    alloc: Global,
    user: &Name,
    at: Offset,
    ops: &[(Op, Outcome)],
) -> Result<Vec<Report>, NoMemory>
    ensures reports { IfOk result (λ reports. reports.items ≡ outcome_reports user.now at 1 ops.now) }
{
    let mut reports = Vec::new(alloc);
    let mut number = 1;
    let mut left = ops;
    'ops: while let Some((pair, rest)) = left.split_first() {
        push_report(alloc, &mut reports, user, at, number, &pair.1)?;
        let Some(next) = number.checked_add(1) else {
            return Err(AllocError);
        };
        number = next;
        left = rest;
    }
    Ok(reports)
}

/// The report of an op, by its outcome.
fn push_report(
    alloc: Global,
    reports: &mut Vec<Report>,
    user: &Name,
    at: Offset,
    op: u32,
    outcome: &Outcome,
) -> Result<(), NoMemory>
    ensures reports { OnOk result (reports.new.items ≡ reports.old.items ++ outcome_report user.now at op outcome.now) }
{
    match outcome {
        Outcome::Plain(_) => {}
        Outcome::Conflict { .. } => reports.push(Report::Conflict {
            user: user.copy(alloc)?,
            at,
            op,
        })?,
        Outcome::Clash(clash) => reports.push(Report::Clash {
            user: user.copy(alloc)?,
            at,
            op,
            clash: *clash,
        })?,
    }
    Ok(())
}

/// Puts a report at a place, where there is room for it.
fn insert_within(reports: &mut Vec<Report>, at: usize, report: Report)
    requires within { at ≤ length reports.old.items }
    requires room { vec_len reports.old < vec_capacity reports.old }
    ensures items { reports.new.items ≡ insert reports.old.items at report }
    ensures length { vec_len reports.new ≡ vec_len reports.old + 1 }
    ensures capacity { vec_capacity reports.old ≤ vec_capacity reports.new }
{
    match reports.insert(at, report) {
        Ok(()) => (),
        Err(_) => (),
    }
}

/// Puts reports, for which there is room, after those of ops, which end at `at`, and before those of torn windows; answers the place after
/// them.
pub(crate) fn insert_all(reports: &mut Vec<Report>, at: usize, made: Vec<Report>) -> usize
    requires within { at ≤ length reports.old.items }
    requires room { vec_len reports.old + length made.items ≤ vec_capacity reports.old }
    ensures next { result ≡ at + length made.items }
    ensures inserted { reports.new.items ≡ take at reports.old.items ++ (made.items ++ drop at reports.old.items) }
{
    let mut next = at;
    'reports: for report in made {
        insert_within(reports, next, report);
        next += 1;
    }
    next
}
