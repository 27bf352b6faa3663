//! The scripts of a block.

ghost use Rattle.std.specs.Prelude.{◌≡◌, ◌≤◌, ◌<◌, ◌-◌, [], IfOk, OnOk};
ghost use Rattle.dbremote_demo_draws.specs.DrawnStatements.{all_drawn, script_at, state_behind};
ghost use Rattle.dbremote_demo_draws.specs.Inner.Scripts.{IsScripts, IsWithOne};

use crate::demo_site::DemoSite;
use crate::draws::Draws;
use crate::statements::{Drawn, next_drawn, push_transaction};
use sr_base::NoMemory;
use std::alloc::Global;

/// What each database has of a block: its transactions, or nothing.
#[derive(Drop)]
pub struct Scripts {
    pub cons: Vec<u8>,
    pub r1: Vec<u8>,
    pub r2: Vec<u8>,
    pub r3: Vec<u8>,
}

impl Scripts {
    /// Nothing so far. It takes no memory.
    fn new(alloc: Global) -> Scripts
        ensures nothing { IsScripts [] result }
    {
        Scripts {
            cons: Vec::new(alloc),
            r1: Vec::new(alloc),
            r2: Vec::new(alloc),
            r3: Vec::new(alloc),
        }
    }

    /// Appends a statement to the script of its database.
    fn push(&mut self, drawn: Drawn) -> Result<(), NoMemory>
        ensures ok { OnOk result (IsWithOne drawn self.old self.new) }
    {
        match drawn.at {
            DemoSite::Cons => push_transaction(&mut self.cons, drawn.statement),
            DemoSite::R1 => push_transaction(&mut self.r1, drawn.statement),
            DemoSite::R2 => push_transaction(&mut self.r2, drawn.statement),
            DemoSite::R3 => push_transaction(&mut self.r3, drawn.statement),
        }
    }
}

/// The scripts of the statements with the numbers from `first` to below `end`.
pub fn scripts_of(
    alloc: Global,
    draws: &mut Draws,
    first: u32,
    end: u32,
) -> Result<Scripts, NoMemory>
    requires order { first ≤ end }
    requires few { end ≤ 100000 }
    ensures scripts { IfOk result (IsScripts (all_drawn draws.old first (end - first))) }
    ensures state { OnOk result (draws.new ≡ state_behind draws.old (end - first)) }
{
    let mut scripts = Scripts::new(alloc);
    let mut i = first;
    'statements: while i < end {
        scripts.push(next_drawn(draws, i))?;
        i += 1;
    }
    Ok(scripts)
}
