ghost use Rattle.std.specs.Prelude.{◌≡◌, ◌+◌, ◌++◌, ◌∷◌, [], IfOk, OnOk};

use crate::partner::Partner;
use sr_base::{Copied, Name, NoMemory};
use std::alloc::{AllocError, Global};

/// How far the receive pass came: the partners who had their turn, in order, and how many lines told of something amiss.
#[derive(Drop)]
pub(crate) struct Progress {
    pub partners: Vec<Partner>,
    pub alarms: u32,
}

impl Progress {
    /// A partner had his pass, whose lines told so often of something amiss.
    pub(crate) fn add(
        &mut self,
        alloc: Global,
        user: &Name,
        ask: bool,
        alarms: u32,
    ) -> Result<(), NoMemory>
        ensures partners { OnOk result (self.new.partners.items ≡ self.old.partners.items ++ record { user = user.now; ask = ask } ∷ []) }
        ensures alarms { OnOk result (self.new.alarms ≡ self.old.alarms + alarms) }
    {
        self.alarms = sum_of(self.alarms, alarms)?;
        self.partners.push(Partner {
            user: user.copy(alloc)?,
            ask,
        })?;
        Ok(())
    }
}

/// The sum of two numbers of lines. One of 2^32 is taken for want of memory.
fn sum_of(count: u32, more: u32) -> Result<u32, NoMemory>
    ensures sum { IfOk result (λ sum. sum ≡ count + more) }
{
    match count.checked_add(more) {
        Some(sum) => Ok(sum),
        None => Err(AllocError),
    }
}
