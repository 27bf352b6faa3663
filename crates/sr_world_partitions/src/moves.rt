//! A row that comes to one database, moves to another, and comes back.

ghost use Rattle.std.specs.Prelude.{◌≡◌, ℕ, length, Some, None};
ghost use Rattle.sr_database_history.specs.Inner.Sample.{r1};
ghost use Rattle.sr_world_partitions.specs.Inner.Moves.{HoldsUntouched, moving_runs, moving_steps, moving_world, world_at};
ghost use Rattle.sr_world_untouched.specs.Untouched.{KeysAgree};
ghost use Rattle.sr_world.specs.Inner.Sample.{r2, first_row};
ghost use Rattle.sr_world.specs.Real.{AreRunsIn, IsGoodWorld};

use sr_world::{every_step_keeps_a_world_good, runs_keep_a_world_good};
use sr_world_untouched::untouched_keys_agree;

/// Three databases, three runs, 22 steps. cons publishes a table by a column: r1 has the rows with 5 there, and r2 those with 7. cons commits a row with 5,
/// updates it to 7, and then to 5 again; and sends what that gives: r1 an insert, a delete and an insert, r2 an insert and a delete. r1 takes its three
/// transactions one by one, and then r2 its two. They are runs, and the world is good behind each step. After each of the five takes the key of the row
/// is untouched at the database that took it, since its START: r1 holds the row, does not, and holds it again; r2 holds it, and does not. So untouched
/// keys agree there, and behind each other step.
pub fn a_row_moves_and_comes_back()
    ensures runs { AreRunsIn moving_world moving_runs }
    ensures steps { length moving_steps ≡ 22 }
    ensures good { (n : ℕ) → IsGoodWorld (world_at n) }
    ensures agree { (n : ℕ) → KeysAgree (world_at n) }
    ensures enters { HoldsUntouched (world_at 16) r1 5 (Some (first_row 5)) }
    ensures leaves { HoldsUntouched (world_at 17) r1 5 None }
    ensures comes_back { HoldsUntouched (world_at 18) r1 5 (Some (first_row 5)) }
    ensures moves_there { HoldsUntouched (world_at 21) r2 7 (Some (first_row 7)) }
    ensures leaves_again { HoldsUntouched (world_at 22) r2 7 None }
{
    every_step_keeps_a_world_good();
    runs_keep_a_world_good();
    untouched_keys_agree();
}
