//! What the history of a database comes to, by its log.

ghost use Rattle.std.specs.Prelude.{IfOk};
ghost use Rattle.sr_world_steps.specs.Inner.Logs.{HasLog};
ghost use Rattle.sr_world_steps.specs.Inner.Standings.{StandsBehind};

use sr_base::{Copied, Name, NoMemory, Offset};
use sr_catalog::Catalog;
use sr_database_fold::takes_effect;
use sr_logform::Entry;
use sr_rows::Rows;
use std::alloc::Global;

/// The catalog and the rows behind a history.
#[derive(Drop)]
pub(crate) struct Standing {
    pub(crate) catalog: Catalog,
    pub(crate) rows: Rows,
}

/// What a history comes to, from its beginning. It goes through the log, each entry in the time of taking effect.
#[tactic(auto, using(crate::proofs::Following::begun_new, crate::proofs::Following::next_fits, crate::proofs::Following::goes_on, crate::proofs::Following::ended))]
pub(crate) fn standing_of(
    alloc: Global,
    publisher: &Name,
    log: &[(Offset, Entry)],
) -> Result<Standing, NoMemory>
    requires some { HasLog publisher.now log.now }
    ensures standing { IfOk result (λ s. StandsBehind publisher.now log.now s.catalog s.rows) }
{
    let name = publisher.copy(alloc)?;
    let mut catalog = Catalog::new(alloc, name);
    let mut rows = Rows::new(alloc);
    let mut left = log;
    'entries: while let Some(((_, entry), rest)) = left.split_first() {
        takes_effect(alloc, &mut catalog, &mut rows, entry)?;
        left = rest;
    }
    Ok(Standing { catalog, rows })
}
