//! Outcomes of one change.

ghost use Rattle.std.specs.Prelude.{◌≡◌, ◌∷◌, [], IfOk};
ghost use Rattle.sr_resolve_triggers.specs.Actions.{insertion};
ghost use Rattle.sr_logform.specs.declared.outcome.Outcome.TheVariants.{Plain};
ghost use Rattle.sr_resolve.specs.Judging.{changed, removal};

use sr_base::{Copied, Name, NoMemory, Row, Seq};
use sr_catalog::Table;
use sr_logform::{Change, Outcome};
use std::alloc::Global;

/// Plain, with one change.
fn one(alloc: Global, change: Change) -> Result<Outcome, NoMemory>
    ensures one { IfOk result (λ o. o ≡ Plain (change ∷ [])) }
{
    let mut changes = Vec::new(alloc);
    changes.push(change)?;
    Ok(Outcome::Plain(Seq::from_vec(changes)))
}

/// Plain, with a row that comes.
pub(crate) fn inserted(alloc: Global, table: &Table, row: Row) -> Result<Outcome, NoMemory>
    ensures inserted { IfOk result (λ o. o ≡ Plain (insertion table.now row ∷ [])) }
{
    let change = Change {
        table: table.name.copy(alloc)?,
        before: None,
        after: Some(row),
    };
    one(alloc, change)
}

/// Plain, with a row that goes.
pub(crate) fn removed(alloc: Global, table: &Name, row: &Row) -> Result<Outcome, NoMemory>
    ensures removed { IfOk result (λ o. o ≡ Plain (removal table.now row.now ∷ [])) }
{
    let change = removal(alloc, table, row)?;
    one(alloc, change)
}

/// The change that a row makes which goes.
pub(crate) fn removal(alloc: Global, table: &Name, row: &Row) -> Result<Change, NoMemory>
    ensures removal { IfOk result (λ c. c ≡ removal table.now row.now) }
{
    Ok(Change {
        table: table.copy(alloc)?,
        before: Some(row.copy(alloc)?),
        after: None,
    })
}

/// Plain, with the change from one row to another one. No change where nothing differs.
pub(crate) fn changed(
    alloc: Global,
    table: &Name,
    stored: &Row,
    new: Row,
) -> Result<Outcome, NoMemory>
    ensures changed { IfOk result (λ o. o ≡ changed table.now stored.now new) }
{
    if *stored == new {
        drop(new);
        return Ok(Outcome::Plain(Seq::empty(alloc)));
    }
    let change = Change {
        table: table.copy(alloc)?,
        before: Some(stored.copy(alloc)?),
        after: Some(new),
    };
    one(alloc, change)
}
