//! Messages that are lost on their way.

ghost use Rattle.std.specs.Prelude.{◌≡◌, ◌≤◌, drop, length, IfOk};
ghost use Rattle.dbremote_demo_draws.specs.Losses.{some_lost};

use crate::draws::Draws;
use crate::sums::sum;
use sr_base::{Copied, Name, NoMemory, Text};
use sr_memsite::SharedMail;
use std::alloc::Global;

/// Draws for each message that was put behind the first `before`, in order, and loses those for which a multiple of 8 is drawn. Answers how
/// many were lost.
pub fn lose_some(
    alloc: Global,
    mail: &mut SharedMail,
    before: usize,
    draws: &mut Draws,
) -> Result<u64, NoMemory>
    ensures lost { IfOk result (λ count. some_lost draws.old (drop before mail.old.puts) mail.old ≡ record { state = draws.new; mail = mail.new; count = count }) }
{
    let puts = puts_behind(alloc, mail, before)?;
    let lost = lose_of(mail, puts.as_slice(), draws);
    drop(puts);
    lost
}

/// The puts behind the first `before`.
fn puts_behind(
    alloc: Global,
    mail: &SharedMail,
    before: usize,
) -> Result<Vec<(Name, Text)>, NoMemory>
    ensures puts { IfOk result (λ puts. puts.items ≡ drop before mail.now.puts) }
{
    let all = mail.puts();
    let (_, new) = all.split_at(all.len().min(before));
    let mut puts = Vec::new(alloc);
    let mut left = new;
    'puts: while let Some((put, rest)) = left.split_first() {
        puts.push((put.0.copy(alloc)?, put.1.copy(alloc)?))?;
        left = rest;
    }
    Ok(puts)
}

/// Draws for each of these messages, and loses some.
fn lose_of(mail: &mut SharedMail, puts: &[(Name, Text)], draws: &mut Draws) -> Result<u64, NoMemory>
    ensures lost { IfOk result (λ count. some_lost draws.old puts.now mail.old ≡ record { state = draws.new; mail = mail.new; count = count }) }
{
    let mut count = 0u64;
    let mut left = puts;
    'puts: while let Some((put, rest)) = left.split_first() {
        if draws.next() % 8 == 0 {
            mail.lose(&put.0, &put.1);
            count = sum(count, 1)?;
        }
        left = rest;
    }
    Ok(count)
}
