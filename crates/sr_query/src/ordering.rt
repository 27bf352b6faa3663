ghost use Rattle.std.specs.Prelude.{◌≡◌, List, map, IfOk};
ghost use Rattle.sr_query.specs.declared.rank.Listed.{Listed as ListedRow};
ghost use Rattle.sr_query.specs.Orders.{IsOrdered};

use crate::lists::push;
use crate::rank::Listed;
use sr_base::{NoMemory, Row};
use std::alloc::Global;

/// The rows in the order of their ranks; of equal ranks the earlier one stays the earlier one. It takes n log n comparisons.
pub(crate) fn ordered(alloc: Global, listed: Vec<Listed>) -> Result<Vec<Row>, NoMemory>
    ensures ordered { IfOk result
        (λ rows. (ordered : List ListedRow) × (IsOrdered listed.items ordered × (rows.items ≡ map (λ (l : ListedRow). l.row) ordered))) }
{
    let mut left = listed;
    left.sort()?;
    rows_of(alloc, left)
}

/// The rows without their ranks.
#[tactic(auto, using(crate::proofs::Combined::turned))]
fn rows_of(alloc: Global, listed: Vec<Listed>) -> Result<Vec<Row>, NoMemory>
    ensures rows { IfOk result (λ rows. rows.items ≡ map (λ (l : ListedRow). l.row) listed.items) }
{
    let mut rows = Vec::with_capacity(alloc, listed.len())?;
    let mut left = listed;
    left.reverse();
    'listed: while let Some(listed) = left.pop() {
        push(&mut rows, listed.row)?;
    }
    Ok(rows)
}
